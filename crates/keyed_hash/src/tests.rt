ghost use Rattle.std.specs.Prelude.{◌<◌};

use crate::{Seed, upper_half};
use std::alloc::{AllocError, Global};
use std::io;
use std::process::Abort;
use std::random::RandomSource;
use std::test::Fail;

const SEED: Seed = Seed {
    first: 0x0123_4567_89ab_cdef,
    second: 0xfedc_ba98_7654_3211,
};

const BUCKETS: usize = 4096;

// A source that gives the bytes 0, 1, 2, ..
struct Counting;

impl RandomSource for Counting {
    fn fill_bytes(&self, buf: &mut [u8]) -> io::Result<()> {
        for (i, byte) in buf.iter_mut().enumerate() {
            *byte = (i % 256) as u8;
        }
        Ok(())
    }
}

// The hashes of words under a seed are these: the full one, and its upper half.
fn expect_hash(rt: &impl Abort, seed: Seed, words: &[u64], full: u64) {
    let told = (seed.full_hash(words), seed.hash(words));
    assert_eq!(rt; told, (full, (full >> 32) as u32));
}

#[test]
fn known_hashes(rt: HostRuntime) {
    let zeros = Seed {
        first: 0,
        second: 0,
    };
    let small = Seed {
        first: 1,
        second: 2,
    };
    let ones = Seed {
        first: u64::MAX,
        second: u64::MAX,
    };
    expect_hash(&rt, zeros, &[], 0xe28f_2b20_61a2_b984);
    expect_hash(&rt, zeros, &[0], 0x855a_2263_66af_32cf);
    expect_hash(&rt, zeros, &[1], 0x8a5a_61c0_6e14_2adb);
    expect_hash(&rt, small, &[3], 0x0a7f_7f6c_e597_7097);
    expect_hash(&rt, small, &[3, 4], 0xb948_cbdd_bf92_3755);
    expect_hash(&rt, small, &[4, 3], 0xe6c0_fc24_cc64_3b07);
    expect_hash(&rt, small, &[3, 0], 0x78a3_e872_60b3_4274);
    expect_hash(&rt, ones, &[u64::MAX; 3], 0xce64_3d6c_7651_f54a);
}

#[test]
fn one_word_has_the_hash_of_a_row_of_it(rt: HostRuntime) {
    for word in [0, 1, 3, u64::MAX] {
        assert_eq!(rt; SEED.hash_one(word), SEED.hash(&[word]));
    }
}

#[test]
fn random_seeds(rt: HostRuntime) -> Result<(), Fail> {
    let counted = Seed::random(&Counting)?;
    assert_eq!(rt; counted.first, 0x0706_0504_0302_0100);
    assert_eq!(rt; counted.second, 0x0f0e_0d0c_0b0a_0908);
    let one = Seed::random(&rt)?;
    let other = Seed::random(&rt)?;
    assert!(rt; one.first != other.first && one.second != other.second);
    Ok(())
}

// The bucket that the highest bits of a hash name, and the one that the lowest bits name.
fn buckets(hash: u32) -> (usize, usize)
    ensures high { result.0 < BUCKETS }
    ensures low { result.1 < BUCKETS }
{
    ((hash >> 20) as usize, (hash % 4096) as usize)
}

// The lower half of a full hash.
fn lower_half(full: u64) -> u32 {
    (full % (1 << 32)) as u32
}

// The fullest bucket, and the emptiest one.
fn extremes(counts: &[u64]) -> (u64, u64) {
    let mut most = 0;
    let mut fewest = u64::MAX;
    for count in counts {
        most = most.max(*count);
        fewest = fewest.min(*count);
    }
    (most, fewest)
}

// How the halves of the full hashes of a million words in a row fall into buckets.
#[test]
fn words_in_a_row_spread(rt: HostRuntime) {
    for upper in [true, false] {
        let mut high = [0u64; BUCKETS];
        let mut low = [0u64; BUCKETS];
        for word in 0..1_000_000u64 {
            let full = SEED.full_hash(&[word]);
            let half = if upper {
                upper_half(full)
            } else {
                lower_half(full)
            };
            let (above, below) = buckets(half);
            high[above] = high[above].wrapping_add(1);
            low[below] = low[below].wrapping_add(1);
        }

        // 244 a bucket in the mean; the bounds are ten standard deviations away.
        let (most, fewest) = extremes(&high);
        assert!(rt; most < 400, "{most} in the fullest of the high buckets");
        assert!(rt; fewest > 90, "{fewest} in the emptiest of the high buckets");
        let (most, fewest) = extremes(&low);
        assert!(rt; most < 400, "{most} in the fullest of the low buckets");
        assert!(rt; fewest > 90, "{fewest} in the emptiest of the low buckets");
    }
}

// Words whose full hashes have one lower half have upper halves of all kinds: a part's keys have homes everywhere.
#[test]
fn no_half_tells_of_the_other(rt: HostRuntime) {
    let mut counts = [0u64; 256];
    for word in 0..4_000_000u64 {
        let full = SEED.full_hash(&[word]);
        if lower_half(full) >> 24 == 7 {
            let at = (upper_half(full) >> 24) as usize;
            counts[at] = counts[at].wrapping_add(1);
        }
    }

    // 61 in the mean; the bounds are seven standard deviations away.
    let (most, fewest) = extremes(&counts);
    assert!(rt; most < 117, "{most} in the fullest home");
    assert!(rt; fewest > 6, "{fewest} in the emptiest home");
}

#[test]
fn each_bit_tells_on_each(rt: HostRuntime) {
    for bit in 0..64u32 {
        let mut flips = [0u64; 64];
        for word in 0..1000u64 {
            let word = word.wrapping_mul(0x9e37_79b9_7f4a_7c15);
            let changed = SEED.full_hash(&[word]) ^ SEED.full_hash(&[word ^ (1 << bit)]);
            for (at, count) in flips.iter_mut().enumerate() {
                *count = count.wrapping_add(changed >> (at % 64) & 1);
            }
        }
        let (most, fewest) = extremes(&flips);
        assert!(rt;
            fewest > 400,
            "bit {bit} flips one bit {fewest} times of 1000"
        );
        assert!(rt; most < 600, "bit {bit} flips one bit {most} times of 1000");
    }
}

// The first words that fall into one high bucket under the seed.
fn colliding(alloc: Global, seed: &Seed, bucket: usize) -> Result<Vec<u64>, AllocError> {
    let mut words = Vec::new(alloc);
    for word in 0..100_000_000u64 {
        if words.len() >= 10_000 {
            break;
        }
        if buckets(seed.hash_one(word)).0 == bucket {
            words.push(word)?;
        }
    }
    Ok(words)
}

#[test]
fn another_seed_parts_what_collides(rt: HostRuntime) -> Result<(), Fail> {
    let words = colliding(rt.alloc(), &SEED, 0x123)?;
    assert_eq!(rt; words.len(), 10_000);
    let other = Seed {
        first: SEED.first,
        second: SEED.second ^ 1,
    };
    let mut counts = [0u64; BUCKETS];
    for word in &words {
        let (above, _) = buckets(other.hash_one(*word));
        counts[above] = counts[above].wrapping_add(1);
    }

    // 2.4 a bucket in the mean.
    let (most, _) = extremes(&counts);
    assert!(rt; most < 20, "{most} fall into one bucket still");
    Ok(())
}
