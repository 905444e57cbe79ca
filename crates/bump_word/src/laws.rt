//! What each atomic step on a head word does to the Head. A function here does nothing when it runs: its clauses are
//! the law, and hold for every number.
//!
//! A step is written as a function from the number that it finds to the number that it leaves. It answers the number
//! that it found, so what it answers is the word of the Head before.
ghost use Rattle.std.specs.Prelude.{◌≡◌, ◌≢◌, ◌==◌, ℕ, ◌+◌, ◌-◌, ◌*◌, ◌%◌, ◌/◌, ◌^◌, ◌<◌, true, false, ◌≤◌, bit_and};
ghost use Rattle.std.specs.Prelude.{bit_or, bit_xor, ⊤, Option, Some};
ghost use prog.Atomic.{either};
ghost use Rattle.bump_rules.specs.declared.items.Head.{Head as TheHead};
ghost use Rattle.bump_rules.specs.declared.places.Segment.{Segment as TheSegment};
ghost use Rattle.bump_rules.specs.declared.places.Segment.TheVariants.{Hot, Warm, Cold, Temp};
ghost use Rattle.bump_rules.specs.Configs.{most_refs};
ghost use Rattle.bump_word.specs.Layout.{refs_width, segment_first, generation_first, generation_width};
ghost use Rattle.bump_word.specs.Words.{Spells, IsPacked, FindsHead, segment_number, word_of, segment_bits, segment_change};
ghost use Rattle.bump_word.specs.Steps.{Changes, Tests, Reads};
ghost use Rattle.bump_rules.specs.Heads.{linked_head_in, unlinked_head, one_more as with_one_more, one_fewer};
ghost use Rattle.bump_rules.specs.Heads.{fetched_head, marked_head, cleared_head, moved_head};

use crate::layout::{ACTIVE, FETCHED, GENERATION_AT, LINKED, REFS_AT, REFS_MAX, SEGMENT_AT};
use bump_rules::MAX_REFS;

/// One reference: what the word grows by where one is taken, and what is subtracted where one is given back.
pub const ONE_REFERENCE: u64 = 1 << REFS_AT.first;

/// What is subtracted where a life ends: the bit LINKED, and the reference that an item has for being linked.
pub const LINK: u64 = LINKED + ONE_REFERENCE;

/// All bits but ACTIVE: an and with them clears that bit.
pub const ALL_BUT_ACTIVE: u64 = !ACTIVE;

/// The bits of the reference count.
pub const REFS_MASK: u64 = ((1 << REFS_AT.width) - 1) << REFS_AT.first;

/// The bits of the segment.
pub const SEGMENT_MASK: u64 = ((1 << SEGMENT_AT.width) - 1) << SEGMENT_AT.first;

/// One generation: what the word grows by from a generation to the next.
pub const ONE_GENERATION: u64 = 1 << GENERATION_AT.first;

/// A reference is taken; the count must be under [`REFS_MAX`](crate::REFS_MAX). This is the step of a reader that
/// takes a hold of a linked item, and of a holder that takes the reference that its bump rides on. Both exchange the
/// word `old` that they saw for the next number: where another word is found, nothing changes.
pub fn one_more()
    ensures exchanged { (n old : ℕ) (h : TheHead) → Spells n h → n ≡ old → h.refs < REFS_MAX →
        Spells (either (n == old) (old + ONE_REFERENCE) n) (with_one_more h) }
    ensures refused { (n old : ℕ) (h : TheHead) → Spells n h → n ≢ old →
        Spells (either (n == old) (old + ONE_REFERENCE) n) h }

    // What the code computes before it exchanges; by `one_head` it is below 2 ^ 64.
    ensures next { Changes (λ n. n + ONE_REFERENCE)
        (λ h. h.refs < REFS_MAX) with_one_more }
    ensures added { Changes (λ n. (n + ONE_REFERENCE) % 2 ^ 64)
        (λ h. h.refs < REFS_MAX) with_one_more }
{}

/// A reference is given back by a subtraction; the count must be at least 1. This is the step of a holder that is done
/// or whose bump found no room, and of a lane that drops the reference of a bump that it has applied.
pub fn one_less()
    ensures { Changes (λ n. (n + (2 ^ 64 - ONE_REFERENCE)) % 2 ^ 64)
        (λ h. 0 < h.refs) one_fewer }
{}

/// A first hit sets FETCHED (memcached's `ITEM_FETCHED`) by an or.
pub fn set_fetched()
    ensures { Changes (λ n. bit_or n FETCHED) (λ _. ⊤) fetched_head }
{}

/// A further hit sets ACTIVE (memcached's `ITEM_ACTIVE`) by an or.
pub fn set_active()
    ensures { Changes (λ n. bit_or n ACTIVE) (λ _. ⊤) marked_head }
{}

/// ACTIVE is cleared by an and. This is the step of a holder whose bump was dropped, and the one that is made under the
/// class's lock before an item is moved.
pub fn clear_active()
    ensures { Changes (λ n. bit_and n ALL_BUT_ACTIVE) (λ _. ⊤) cleared_head }
{}

/// A life ends: one subtraction clears LINKED and gives back the reference for being linked. The item must be linked,
/// and the count at least 1.
pub fn unlink()
    ensures { Changes (λ n. (n + (2 ^ 64 - LINK)) % 2 ^ 64)
        (λ h. (h.linked ≡ true) × (0 < h.refs)) unlinked_head }
{}

/// An item goes to another segment, or stays in its own, by an exclusive or with what
/// [`segment_xor`](crate::segment_xor) gives for the segment that it is in and the one that it goes to. Each move
/// that the lists make is one of these: HOT to WARM or COLD, WARM to WARM or COLD, COLD to WARM.
pub fn change_segment()
    ensures { (a b : TheSegment) →
        Changes (λ n. bit_xor n (segment_change a b))
        (λ h. h.segment ≡ a) (moved_head b) }
{}

/// The same exclusive or, made twice, leaves every number as it was.
pub fn change_back()
    ensures { (n : ℕ) (a b : TheSegment) →
        bit_xor (bit_xor n (segment_change a b)) (segment_change a b) ≡ n }
{}

/// What [`segment_xor`](crate::segment_xor) gives for each two segments: 0 for a segment and itself, and the same for
/// both directions.
pub fn segment_changes()
    ensures same { (a : TheSegment) → segment_change a a ≡ 0 }
    ensures both_ways { (a b : TheSegment) → segment_change a b ≡ segment_change b a }
    ensures hot_warm { segment_change Hot Warm ≡ 8388608 }
    ensures hot_cold { segment_change Hot Cold ≡ 16777216 }
    ensures warm_cold { segment_change Warm Cold ≡ 25165824 }
    ensures hot_temp { segment_change Hot Temp ≡ 25165824 }
    ensures warm_temp { segment_change Warm Temp ≡ 16777216 }
    ensures cold_temp { segment_change Cold Temp ≡ 8388608 }
{}

/// A new life begins with one store, whatever word was there: one reference, linked, without marks, in HOT or in TEMP.
pub fn new_life()
    ensures stored { (s : TheSegment) (g : ℕ) → g < 2 ^ generation_width →
        Changes (λ _. word_of (linked_head_in s g)) (λ _. ⊤) (λ _. linked_head_in s g) }
    ensures number { (s : TheSegment) (g : ℕ) →
        word_of (linked_head_in s g) ≡ LINK + segment_change Hot s + g * ONE_GENERATION }
{}

/// LINKED is set where the item is linked (memcached's `ITEM_LINKED`).
pub fn test_linked()
    ensures { Tests LINKED (λ h. h.linked) }
{}

/// FETCHED is set where the item was hit (memcached's `ITEM_FETCHED`).
pub fn test_fetched()
    ensures { Tests FETCHED (λ h. h.fetched) }
{}

/// ACTIVE is set where the item was hit again (memcached's `ITEM_ACTIVE`).
pub fn test_active()
    ensures { Tests ACTIVE (λ h. h.active) }
{}

/// The segment's number stands in its bits, and no two segments have one number.
pub fn read_segment()
    ensures masked { Reads (λ n. bit_and n SEGMENT_MASK) (λ h. segment_number h.segment * 2 ^ segment_first) }
    ensures shifted { Reads (λ n. segment_bits n) (λ h. segment_number h.segment) }
    ensures one { (a b : TheSegment) → segment_number a ≡ segment_number b → a ≡ b }
{}

/// The reference count is what its mask leaves, since it stands in the lowest bits.
pub fn read_refs()
    ensures { Reads (λ n. bit_and n REFS_MASK) (λ h. h.refs) }
{}

/// The greatest limit that a store may have is the greatest count of a word.
pub fn greatest_count()
    ensures { (REFS_MAX ≡ most_refs) × (REFS_MAX ≡ 2 ^ refs_width - 1) × (MAX_REFS ≡ most_refs) }
{}

/// The generation is what a shift leaves, since it stands in the highest bits.
pub fn read_generation()
    ensures { Reads (λ n. n / 2 ^ generation_first) (λ h. h.generation) }
{}

/// There and back: what [`unpack`](crate::unpack) answers for the number that [`pack`](crate::pack) gives for a Head
/// is that Head; and where `unpack` answers a Head, that Head may be packed, and `pack` gives the number that was
/// read. The clauses speak of any numbers and answers, in the words of the contracts of the two calls, so a caller
/// has the law of its own calls.
pub fn there_and_back()
    ensures there { (h : TheHead) (n : ℕ) (answer : Option TheHead) → h.refs ≤ REFS_MAX → h.generation < 2 ^ 32 →
        IsPacked h n → FindsHead n answer → answer ≡ Some h }
    ensures back { (n packed : ℕ) (h : TheHead) → Spells n h → IsPacked h packed → packed ≡ n }
    ensures may_be_packed { (n : ℕ) (h : TheHead) → Spells n h → h.refs ≤ REFS_MAX }
{}

/// A number is the word of one Head at most, and such a number has 64 bits.
pub fn one_head()
    ensures one { (n : ℕ) (g h : TheHead) → Spells n g → Spells n h → g ≡ h }
    ensures wide { (n : ℕ) (h : TheHead) → Spells n h → n < 2 ^ 64 }
{}
