ghost use Rattle.std.specs.Prelude.{◌<◌, ◌≤◌, length};

use crate::{spell, words_for};
use std::process::Abort;

// Whether these are a string's words, told a byte at a time.
fn is_spelled(bytes: &[u8], words: &[u64]) -> bool
    requires { 0 < length words.now }
{
    let mut same = words[0] == bytes.len() as u64;
    for (at, word) in words[1..].iter().enumerate() {
        for k in 0..8usize {
            let byte = bytes.get(8 * at + k).copied().unwrap_or(0);
            same &= (*word >> (8 * k)) % 256 == u64::from(byte);
        }
    }
    same
}

// A string of so many bytes has its words, in as many as it needs and in so many more.
fn holds(rt: &impl Abort, count: u32, more: u32)
    requires short { count ≤ 100 }
    requires few { more ≤ 5 }
{
    let mut room = [0u8; 100];
    for (i, byte) in room.iter_mut().enumerate() {
        *byte = (i % 251 + 5) as u8;
    }
    let bytes = &room[..count as usize];
    let width = (words_for(count) + more) as usize;
    let mut words = [u64::MAX; 20];
    let words = &mut words[..width];
    spell(bytes, words);
    assert!(rt; is_spelled(bytes, words), "{count} bytes in {width} words");
}

// So does each string of so many bytes, in each width.
fn holds_wide(rt: &impl Abort, count: u32)
    requires { count ≤ 100 }
{
    holds(rt, count, 0);
    holds(rt, count, 1);
    holds(rt, count, 2);
    holds(rt, count, 5);
}

#[test]
fn strings_are_spelled(rt: HostRuntime) {
    holds_wide(&rt, 0);
    holds_wide(&rt, 1);
    holds_wide(&rt, 7);
    holds_wide(&rt, 8);
    holds_wide(&rt, 9);
    holds_wide(&rt, 15);
    holds_wide(&rt, 16);
    holds_wide(&rt, 17);
    holds_wide(&rt, 100);
}

#[test]
fn words_are_counted(rt: HostRuntime) {
    assert_eq!(rt; words_for(0), 1);
    assert_eq!(rt; words_for(1), 2);
    assert_eq!(rt; words_for(8), 2);
    assert_eq!(rt; words_for(9), 3);
    assert_eq!(rt; words_for(u32::MAX), 536_870_913);
}

#[test]
fn strings_stand_in_words(rt: HostRuntime) {
    let mut words = [7; 4];
    spell(b"abc", &mut words);
    assert_eq!(rt; words, [3, 0x0063_6261, 0, 0]);
    spell(b"abcdefghi\xff", &mut words);
    assert_eq!(rt; words, [10, 0x6867_6665_6463_6261, 0xff69, 0]);
    spell(b"", &mut words[..1]);
    assert_eq!(rt; words, [0, 0x6867_6665_6463_6261, 0xff69, 0]);
}
