//! Head words, as a caller packs, unpacks and judges them.
ghost use Rattle.bump_rules.specs.declared.items.Head.{Head as TheHead};
ghost use Rattle.bump_word.specs.Words.{IsPacked, FindsHead, Spells, segment_change, zeros_of};
ghost use Rattle.std.specs.Prelude.{◌≡◌, ◌≤◌, ◌≢◌, ◌↔◌, ◌&&◌, IsNone, IfSome, nat_lt};

use bump_rules::{Head, Segment};
use bump_word::{Limit, REFS_MAX};

/// The word of a head.
pub fn pack(head: Head) -> u64
    requires { head.refs ≤ REFS_MAX }
    ensures { IsPacked head result }
{
    bump_word::pack(head)
}

/// The head of a word.
pub fn unpack(word: u64) -> Option<Head>
    ensures head { IfSome result (λ h. Spells word h) }
    ensures every { FindsHead word result }
    ensures none { IsNone result ↔ (zeros_of word ≢ 0) }
{
    bump_word::unpack(word)
}

/// What takes a head word from one segment to another, and back.
pub fn segment_xor(from: Segment, to: Segment) -> u64
    ensures { result ≡ segment_change from to }
{
    bump_word::segment_xor(from, to)
}

/// Whether a word's item is linked, and its count below a limit.
pub fn has_room(limit: &Limit, word: u64) -> bool
    ensures { (h : TheHead) → Spells word h → result ≡ h.linked && nat_lt h.refs limit.now }
{
    limit.has_room(word)
}
