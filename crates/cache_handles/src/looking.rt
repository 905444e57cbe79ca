//! Looks at a part of byte strings under its lock, and removals.
ghost use Rattle.std.specs.Prelude.{◌≡◌, ◌+◌, length, slice_index};
ghost use Rattle.cache_handles.specs.Rows.{eight_words};
ghost use Rattle.cache_handles.specs.Looking.{TellsLook, TellsRemove, told_of_fault};

use crate::keys::KeyFault;
use crate::parts::BytePart;
use crate::values::{TOLD_WORDS, ValueTold};
use bump_heads::Name;

/// What is told of a value under a lock, beside its bytes.
#[derive(Clone, Copy)]
pub struct Looked {
    /// Its flags and its length.
    pub value: ValueTold,

    /// When it expires, in the caller's ticks; 0 is never.
    pub expires: u64,
}

/// What became of a look for a key.
#[derive(Clone, Copy)]
pub enum LookTold {
    /// The key has this.
    Found(Looked),

    /// The key has nothing, or what has expired; or it is of another part.
    Nothing,

    /// The key is longer than keys may be.
    KeyBytes,
}

// A fault of a key as an answer of a look.
fn fault_told(fault: KeyFault) -> LookTold
    ensures { result ≡ told_of_fault fault }
{
    match fault {
        KeyFault::TooLong => LookTold::KeyBytes,
        KeyFault::OtherPart => LookTold::Nothing,
    }
}

impl<N: Name> BytePart<N> {
    /// What a key has that hasn't expired at `now`, in the caller's ticks: the flags and the length of its value, and when
    /// it expires. Its bytes are told by `found`. Nobody changes it meanwhile, since the caller has the part's lock. The
    /// item isn't touched. Nothing changes but what the class's seat notes of its loads, and what was found last.
    pub fn look(&mut self, key: &[u8], now: u64) -> LookTold
        ensures { TellsLook key.now now self.old self.new result }
    {
        if let Some(fault) = self.desk.take_key(key) {
            return fault_told(fault);
        }
        if !self.desk.find(now) {
            return LookTold::Nothing;
        }
        LookTold::Found(Looked {
            value: self.desk.value(),
            expires: self.desk.expires(),
        })
    }

    /// Eight words of the bytes of what the last look found, from the word with this number on: eight bytes a word, the
    /// lowest first, and 0 behind the last word that a value has. It is told as it was then, until a call puts, removes
    /// or looks. Nothing changes.
    pub fn found(&self, from: u32) -> [u64; TOLD_WORDS]
        ensures { result ≡ eight_words (slice_index self.now.found) (from + 3) (length self.now.found) }
    {
        self.desk.found_words(from)
    }

    /// Ends the item of a key, as memcached's `delete`, and tells whether the key had something that hasn't expired at
    /// `now`, in the caller's ticks. What has expired ends as well. It answers false, and nothing is changed, where the
    /// key is too long or of another part.
    pub fn remove(&mut self, key: &[u8], now: u64) -> bool
        ensures { TellsRemove key.now now self.old self.new result }
    {
        if self.desk.take_key(key).is_some() {
            return false;
        }
        self.desk.remove(now)
    }
}
