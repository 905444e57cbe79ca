//! Puts of byte strings.
ghost use Rattle.std.specs.Prelude.{◌≡◌, IfNone, ◌≤◌, length};
ghost use Rattle.packed_words.specs.Spelling.{long_string};
ghost use Rattle.cache_handles.specs.Putting.{Adds, Puts, Replaces, TellsPut, Touches, Updates, fault_of, told_of_fault};
ghost use Rattle.cache_handles.specs.Rows.{value_row};
ghost use Rattle.cache_handles.specs.Views.{key_fault, key_row};

use crate::desks::Desk;
use crate::keys::KeyFault;
use crate::parts::BytePart;
use bump_heads::Name;

/// What became of a put.
#[derive(Clone, Copy)]
pub enum PutTold {
    /// The value was put, and it is told whether another item was evicted.
    Done { evicted: bool },

    /// An add: the key has something, and nothing was put.
    Has,

    /// A replacement, an update or a touch: the key has nothing, or what has expired, and nothing was put.
    Nothing,

    /// No chunk was free, and it is told whether an item was evicted all the same: behind all bumps that waited each chunk
    /// without an item was found held, or has had its last generation. The key keeps what it had.
    NoRoom { evicted: bool },

    /// The key is longer than keys may be.
    KeyBytes,

    /// The value is longer than values may be.
    ValueBytes,

    /// The key is of another part.
    OtherPart,
}

// A fault of a key as an answer of a put.
fn fault_told(fault: KeyFault) -> PutTold
    ensures { result ≡ told_of_fault fault }
{
    match fault {
        KeyFault::TooLong => PutTold::KeyBytes,
        KeyFault::OtherPart => PutTold::OtherPart,
    }
}

// Why a value of so many bytes isn't put under a key; where nothing is against it the words of the key are taken.
fn refusal<N: Name>(desk: &mut Desk<N>, key: &[u8], value_length: usize) -> Option<PutTold>
    ensures told { result ≡ fault_of (key_fault desk.old.key_bytes desk.old.shelf.part.seed desk.old.place
        desk.old.shelf.part.key_words key.now) desk.old.value_bytes value_length }
    ensures spelled { IfNone result (desk.new.key ≡ long_string desk.old.shelf.part.key_words key.now) }
    ensures short { IfNone result (value_length ≤ desk.old.value_bytes) }
    ensures rest { desk.new ≡ record desk.old { key = desk.new.key } }
{
    if let Some(fault) = desk.take_key(key) {
        return Some(fault_told(fault));
    }
    if desk.is_too_long(value_length) {
        return Some(PutTold::ValueBytes);
    }
    None
}

impl<N: Name> BytePart<N> {
    /// Puts a value under a key, with flags of the caller's, until a time, as memcached's `set`. From `expires` on no
    /// get finds it any more, and 0 is never; `now` is the item's time. Times are in the caller's ticks, which all calls
    /// count alike. It asks for no memory.
    ///
    /// It is refused, and nothing is changed, exactly where the key is too long or of another part, or the value is too
    /// long. Else the shelf puts, as `Shelf::put` does.
    pub fn put(&mut self, key: &[u8], value: &[u8], flags: u32, expires: u64, now: u64) -> PutTold
        ensures { TellsPut (Puts (key_row self.old key.now) (value_row self.old.shelf.part.value_words flags value.now)
            expires now) key.now (length value.now) self.old self.new result }
    {
        if let Some(why) = refusal(&mut self.desk, key, value.len()) {
            return why;
        }
        self.desk.put(value, flags, expires, now)
    }

    /// The same where the key has nothing, or what has expired at `now`, as memcached's `add`; else it answers Has, and
    /// nothing is changed but what the class's seat notes of its loads.
    pub fn add(&mut self, key: &[u8], value: &[u8], flags: u32, expires: u64, now: u64) -> PutTold
        ensures { TellsPut (Adds (key_row self.old key.now) (value_row self.old.shelf.part.value_words flags value.now)
            expires now) key.now (length value.now) self.old self.new result }
    {
        if let Some(why) = refusal(&mut self.desk, key, value.len()) {
            return why;
        }
        if self.desk.find(now) {
            return PutTold::Has;
        }
        self.desk.put(value, flags, expires, now)
    }

    /// The same where the key has something that hasn't expired at `now`, as memcached's `replace`; else it answers
    /// Nothing, and nothing is changed but what the class's seat notes of its loads.
    pub fn replace(
        &mut self,
        key: &[u8],
        value: &[u8],
        flags: u32,
        expires: u64,
        now: u64,
    ) -> PutTold
        ensures { TellsPut (Replaces (key_row self.old key.now)
            (value_row self.old.shelf.part.value_words flags value.now) expires now) key.now (length value.now) self.old
            self.new result }
    {
        if let Some(why) = refusal(&mut self.desk, key, value.len()) {
            return why;
        }
        if !self.desk.find(now) {
            return PutTold::Nothing;
        }
        self.desk.put(value, flags, expires, now)
    }

    /// The same as `replace`, but the flags and the time at which it expires stay what they are: for memcached's `incr`,
    /// `append` and their like, which look first, under the same lock.
    pub fn update(&mut self, key: &[u8], value: &[u8], now: u64) -> PutTold
        ensures { TellsPut (Updates self.old.shelf.part.value_words (key_row self.old key.now) value.now now) key.now
            (length value.now) self.old self.new result }
    {
        if let Some(why) = refusal(&mut self.desk, key, value.len()) {
            return why;
        }
        if !self.desk.find(now) {
            return PutTold::Nothing;
        }
        let (expires, flags) = (self.desk.expires(), self.desk.value().flags);
        self.desk.put(value, flags, expires, now)
    }

    /// Puts what a key has that hasn't expired at `now` anew, so that it expires at `expires`, as memcached's `touch`;
    /// or answers Nothing, in the same way.
    pub fn touch(&mut self, key: &[u8], expires: u64, now: u64) -> PutTold
        ensures { TellsPut (Touches (key_row self.old key.now) expires now) key.now 0 self.old self.new result }
    {
        if let Some(why) = refusal(&mut self.desk, key, 0) {
            return why;
        }
        if !self.desk.find(now) {
            return PutTold::Nothing;
        }
        self.desk.put_again(expires, now)
    }
}
