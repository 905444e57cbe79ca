//! Which part of a cache a key is of, by its full hash.
ghost use Rattle.std.specs.Prelude.{◌≡◌, ◌<◌, length, slice_get, Some};
ghost use Rattle.std.specs.Borrow.{sem};
ghost use Rattle.std.specs.Slice.{slice_follows_item};
ghost use Rattle.cache_config.specs.Choosing.{IsPartCount, part_of};

// The lower half of a full hash is below this.
const HALF: u64 = 1 << 32;

/// The part, of so many, that a key with this full hash is of: by its lower half, which makes neither the tag nor the home
/// by which the part's index is searched. So the keys of one part have tags and homes of all kinds. It divides by nothing
/// but powers of two.
#[inline(always)]
#[tactic(auto, using(crate::proofs::Choices::below_parts))]
pub fn part_of_hash(parts: usize, full: u64) -> usize
    requires { IsPartCount parts }
    ensures part { result ≡ part_of parts full }
    ensures within { result < parts }
{
    (full % HALF) as usize * parts / HALF as usize
}

/// Of one thing for each part, 1 to 256, that of the part of a key with this full hash. Where there is but one nothing is
/// reckoned.
#[inline(always)]
pub fn part_in<T>(parts: &mut [T], full: u64) -> &mut T
    requires { IsPartCount (length parts.old) }
    ensures* writes_back { sem 𝓛 (slice_follows_item T.row parts.entry (part_of (length parts.old) full) result) }
    ensures part { slice_get parts.old (part_of (length parts.old) full) ≡ Some result.now }
{
    if parts.len() == 1 {
        return &mut parts[0];
    }
    let part = part_of_hash(parts.len(), full);
    &mut parts[part]
}
