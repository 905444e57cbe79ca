//! The tags of a nest: six in a word, 8 bits each, one for each lane.
ghost use Rattle.std.specs.Prelude.{◌≡◌, ◌≢◌, ◌<◌, ◌≤◌, ◌+◌, ◌*◌, ◌/◌, ◌%◌, ◌^◌, ℕ, if◌then◌else◌, ◌==◌};
ghost use Rattle.std.specs.Int.{bit_at, trailing_zeros};
ghost use mir.Syntax.{w64};
ghost use Rattle.cache_index.specs.Tags.{tag_of, tag_in, lanes};
ghost use Rattle.cache_index.specs.Walks.{TakesLowest};

/// How many lanes a nest has.
pub(crate) const LANES: u32 = 6;

/// How many tags there could be: 8 bits each.
const TAG_NUMBERS: u64 = 256;

/// The number 1 in each lane.
const ONES: u64 = 0x0000_0101_0101_0101;

/// All bits of each lane but its highest.
const LOW_BITS: u64 = 0x0000_7F7F_7F7F_7F7F;

/// The highest bit of each lane.
const HIGH_BITS: u64 = 0x0000_8080_8080_8080;

/// The tag of a hash, by its lowest 8 bits: 1 to 255, since 0 says that a lane is off.
#[inline(always)]
pub(crate) fn tag_of(hash: u32) -> u64
    ensures tag { result ≡ tag_of hash }
    ensures some { 0 < result }
    ensures narrow { result < 256 }
{
    let low = u64::from(hash) % TAG_NUMBERS;
    if low == 0 { 1 } else { low }
}

/// The first lane, from one on, whose tag is this, or 6 where there is none. `from` is 0 to 6; the tag 0 finds a lane
/// that is off, and a tag is at most 255.
#[inline(always)]
#[tactic(auto, using(crate::proofs::FoundLemmas::not_wrapped, crate::proofs::FoundLemmas::fewer_bits))]
pub(crate) fn lane_with(tags: u64, tag: u64, from: u32) -> u32
    requires tag { tag < 256 }
    requires from { from ≤ lanes }
    ensures within { result ≤ lanes }
    ensures behind { from ≤ result }
    ensures found { result < lanes → tag_in tags result ≡ tag }
    ensures others { (lane : ℕ) → from ≤ lane → lane < result → tag_in tags lane ≢ tag }
{
    // the shifts take the lanes before `from` away
    let found = lanes_with(tags, tag) >> (8 * from) << (8 * from);
    if found == 0 { LANES } else { lowest(found) }
}

/// The tags, where a lane has this one. `lane` is 0 to 5 and `tag` at most 255.
pub(crate) fn with_tag(tags: u64, lane: u32, tag: u64) -> u64
    requires lane { lane < lanes }
    requires tag { tag < 256 }
    ensures here { tag_in result lane ≡ tag }
    ensures elsewhere { (other : ℕ) → other ≢ lane → tag_in result other ≡ tag_in tags other }
{
    let one = 1u64 << (8 * lane);
    let old = (tags / one) % TAG_NUMBERS;
    tags - old * one + tag * one
}

/// The lanes whose tag is this, each by the highest of its 8 bits. `tag` is at most 255.
#[inline(always)]
pub(crate) fn lanes_with(tags: u64, tag: u64) -> u64
    requires { tag < 256 }
    ensures narrow { result < 2 ^ 48 }
    ensures lanes { (lane : ℕ) → lane < lanes →
        bit_at result (8 * lane + 7) ≡ (if tag_in tags lane == tag then 1 else 0) }
    ensures others { (lane : ℕ) → lane < lanes → tag_in result lane % 128 ≡ 0 }
{
    let apart = tags ^ (tag * ONES);
    // a lane's highest bit is set where one of its lower bits is
    let low = (apart & LOW_BITS) + LOW_BITS;
    !(low | apart) & HIGH_BITS
}

/// The lane that is the lowest of those that were found, where each is the highest of its 8 bits: 0 to 5. One is found.
#[inline(always)]
pub(crate) fn lowest(found: u64) -> u32
    requires some { 0 < found }
    requires narrow { found < 2 ^ 48 }
    ensures within { result < lanes }
    ensures here { 0 < tag_in found result }
    ensures lowest { (lane : ℕ) → lane < result → tag_in found lane ≡ 0 }
    ensures bits { result ≡ trailing_zeros w64 found / 8 }
{
    found.trailing_zeros() / 8
}

/// The lanes that were found, without the lowest of them. One is found.
#[inline(always)]
pub(crate) fn without_lowest(found: u64) -> u64
    requires { 0 < found }
    ensures { TakesLowest found result }
{
    found & (found - 1)
}
