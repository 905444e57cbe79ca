//! The Head of a head word, as steps answer it.
ghost use Rattle.std.specs.Prelude.{◌≡◌};
ghost use Rattle.bump_rules.specs.declared.items.Head.{Head as TheHead};
ghost use Rattle.bump_word.specs.Words.{Spells};

use bump_rules::{Head, Segment};
use bump_word::laws::{ONE_GENERATION, REFS_MASK, SEGMENT_MASK};
use bump_word::{ACTIVE, FETCHED, LINKED, segment_xor};

/// The Head that the word spells. The rule of the table says that each head word spells one, so nothing is looked at
/// but its fields.
pub fn head_of(word: u64) -> Head
    requires { (h : TheHead) × Spells word h }
    ensures { Spells word result }
{
    Head {
        refs: (word & REFS_MASK) as u32,
        linked: word & LINKED != 0,
        fetched: word & FETCHED != 0,
        active: word & ACTIVE != 0,
        segment: segment_in(word),
        generation: (word / ONE_GENERATION) as u32,
    }
}

// The segment whose number stands in the word's bits.
fn segment_in(word: u64) -> Segment
    ensures { (h : TheHead) → Spells word h → result ≡ h.segment }
{
    let bits = word & SEGMENT_MASK;
    if bits == segment_xor(Segment::Hot, Segment::Warm) {
        return Segment::Warm;
    }
    if bits == segment_xor(Segment::Hot, Segment::Cold) {
        return Segment::Cold;
    }
    if bits == segment_xor(Segment::Hot, Segment::Temp) {
        return Segment::Temp;
    }
    Segment::Hot
}
