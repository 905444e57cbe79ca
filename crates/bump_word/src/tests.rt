//! Words with known numbers, words that are no Head's, and a table there and back.
ghost use Rattle.std.specs.Prelude.{◌≡◌, ◌≤◌, IfSome};

use crate::laws::{ALL_BUT_ACTIVE, LINK, ONE_REFERENCE};
use crate::{ACTIVE, FETCHED, LINKED, REFS_MAX, laws, pack, segment_xor, unpack};
use bump_rules::{Head, Segment};
use std::fmt::Debug;
use std::process::Abort;

// What was told is what was wanted. The comparison is proved here, once.
fn expect<T: PartialEq + Debug>(rt: &impl Abort, what: &str, told: &T, wanted: &T) {
    assert_eq!(rt; told, wanted, "{what}");
}

const NEWBORN: Head = Head {
    refs: 1,
    linked: true,
    fetched: false,
    active: false,
    segment: Segment::Hot,
    generation: 1,
};

// What a caller that knows no bit knows of the two calls together, by the law.
fn there_and_back(head: Head) -> Option<Head>
    requires { head.refs ≤ REFS_MAX }
    ensures { result ≡ Some head }
{
    laws::there_and_back();
    unpack(pack(head))
}

fn back_and_there(word: u64) -> Option<u64>
    ensures { IfSome result (λ packed. packed ≡ word) }
{
    laws::there_and_back();
    let head = unpack(word)?;
    Some(pack(head))
}

#[test]
fn known_words(rt: HostRuntime) {
    expect(&rt, "a new item's word", &pack(NEWBORN), &4_296_015_873);
    let marked = Head {
        refs: 2,
        linked: true,
        fetched: true,
        active: true,
        segment: Segment::Cold,
        generation: 1,
    };
    expect(&rt, "a word with every mark", &pack(marked), &4_319_084_546);
    expect(
        &rt,
        "the last generation",
        &pack(Head {
            generation: u32::MAX,
            ..NEWBORN
        }),
        &18_446_744_069_415_632_897,
    );
    let blank = Head {
        refs: 0,
        linked: false,
        fetched: false,
        active: false,
        segment: Segment::Hot,
        generation: 0,
    };
    expect(&rt, "the word without a life", &unpack(0), &Some(blank));
    let temp = Head {
        segment: Segment::Temp,
        ..blank
    };
    expect(&rt, "TEMP alone", &unpack(25_165_824), &Some(temp));
    let fetched = Head {
        fetched: true,
        ..blank
    };
    expect(&rt, "FETCHED alone", &unpack(2_097_152), &Some(fetched));
}

#[test]
fn words_of_no_head(rt: HostRuntime) {
    expect(&rt, "bit 25", &unpack(33_554_432), &None);
    expect(&rt, "bit 31", &unpack(2_147_483_648), &None);
    expect(&rt, "all bits", &unpack(u64::MAX), &None);
}

#[test]
fn named_numbers(rt: HostRuntime) {
    expect(
        &rt,
        "the bits",
        &[LINKED, FETCHED, ACTIVE],
        &[1_048_576, 2_097_152, 4_194_304],
    );
    expect(&rt, "the limit", &REFS_MAX, &1_048_575);
    expect_segments(&rt);
}

// The numbers that lead from one segment to another.
fn expect_segments(rt: &impl Abort) {
    expect(
        rt,
        "from WARM to WARM",
        &segment_xor(Segment::Warm, Segment::Warm),
        &0,
    );
    expect(
        rt,
        "from HOT to WARM",
        &segment_xor(Segment::Hot, Segment::Warm),
        &8_388_608,
    );
    expect(
        rt,
        "from COLD to HOT",
        &segment_xor(Segment::Cold, Segment::Hot),
        &16_777_216,
    );
    expect(
        rt,
        "from WARM to COLD",
        &segment_xor(Segment::Warm, Segment::Cold),
        &25_165_824,
    );
    expect(
        rt,
        "from HOT, WARM and COLD to TEMP",
        &[
            segment_xor(Segment::Hot, Segment::Temp),
            segment_xor(Segment::Warm, Segment::Temp),
            segment_xor(Segment::Cold, Segment::Temp),
        ],
        &[25_165_824, 16_777_216, 8_388_608],
    );
}

#[test]
fn table_there_and_back(rt: HostRuntime) {
    for flags in 0..8u32 {
        for segment in [Segment::Hot, Segment::Warm, Segment::Cold, Segment::Temp] {
            for refs in [0, 1, 2, REFS_MAX] {
                for generation in [0, 1, u32::MAX] {
                    let head = Head {
                        refs,
                        linked: flags % 2 == 1,
                        fetched: flags / 2 % 2 == 1,
                        active: flags / 4 == 1,
                        segment,
                        generation,
                    };
                    expect(
                        &rt,
                        "a head, there and back",
                        &there_and_back(head),
                        &Some(head),
                    );
                    expect(
                        &rt,
                        "a word, there and back",
                        &back_and_there(pack(head)),
                        &Some(pack(head)),
                    );
                }
            }
        }
    }
}

// The steps as a thread makes them, on plain numbers.
#[test]
fn steps(rt: HostRuntime) {
    let head = Head {
        refs: 2,
        fetched: true,
        active: true,
        ..NEWBORN
    };
    let word = pack(head);
    expect(
        &rt,
        "one reference more",
        &unpack(word + ONE_REFERENCE),
        &Some(Head { refs: 3, ..head }),
    );
    expect(
        &rt,
        "without ACTIVE",
        &unpack(word & ALL_BUT_ACTIVE),
        &Some(Head {
            active: false,
            ..head
        }),
    );
    expect(
        &rt,
        "in COLD",
        &unpack(word ^ segment_xor(Segment::Hot, Segment::Cold)),
        &Some(Head {
            segment: Segment::Cold,
            ..head
        }),
    );
    expect_newborn_steps(&rt);
}

// Those of a newborn chunk.
fn expect_newborn_steps(rt: &impl Abort) {
    expect(
        rt,
        "with FETCHED",
        &unpack(pack(NEWBORN) | FETCHED),
        &Some(Head {
            fetched: true,
            ..NEWBORN
        }),
    );
    expect(
        rt,
        "unlinked",
        &unpack(pack(NEWBORN) - LINK),
        &Some(Head {
            refs: 0,
            linked: false,
            ..NEWBORN
        }),
    );
}
