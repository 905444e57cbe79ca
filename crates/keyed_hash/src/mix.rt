//! Two words made one, so that each bit of both tells on each bit of it.
ghost use Rattle.std.specs.Prelude.{◌≡◌};
ghost use Rattle.keyed_hash.specs.Hashes.{mix as mix_of};

const WORD: u128 = 1 << 64;

/// The two halves of the words' product, folded into one by an exclusive or.
#[inline(always)]
pub fn mix(a: u64, b: u64) -> u64
    ensures { result ≡ mix_of a b }
{
    let product = u128::from(a) * u128::from(b);
    (product % WORD) as u64 ^ (product / WORD) as u64
}
