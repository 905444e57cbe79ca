ghost use Rattle.std.specs.Prelude.{◌≡◌, ◌↔◌, ◌<◌, ◌≤◌, ◌^◌, [], ◌∷◌, length, refl, IsTrue};
ghost use Rattle.std.proofs.Common.{rules};
ghost use Rattle.std.proofs.lemmas.Grind.{common_steps};

use crate::{Bytes, Packed, TooLong};
use std::process::Abort;
use std::test::Fail;

// A type of a user's own: a number that stands for a book.
#[derive(Clone, Copy, PartialEq, Eq, Debug)]
struct Book {
    number: u32,
}

impl Packed for Book {
    ghost width = { 1 };

    ghost fits = { λ book. book.number < 2 ^ 32 };

    ghost as_words = { λ book. book.number ∷ [] };

    fn words() -> usize {
        1
    }

    fn pack(&self, to: &mut [u64]) {
        to[0] = u64::from(self.number);
    }

    fn unpack(words: &[u64]) -> Book {
        Book {
            number: words[0] as u32,
        }
    }

    fn equals(&self, words: &[u64]) -> bool {
        words[0] == u64::from(self.number)
    }

    ghost length_is = { λ v h. refl };

    ghost are_words = { λ v h. Prim.search (rules, common_steps) };

    ghost one_value = { λ v w p q e. Prim.search (rules, common_steps) };
}

// What was packed is unpacked as it was.
fn there_and_back<T: Packed>(value: &T, room: &mut [u64]) -> T
    requires { length room.old ≡ T.width }
    ensures { result ≡ value.now }
{
    value.pack(room);
    T::unpack(room)
}

// Whether two values are equal, as their words tell.
fn same<T: Packed>(one: &T, other: &T, room: &mut [u64]) -> bool
    requires { length room.old ≡ T.width }
    ensures { IsTrue result ↔ (one.now ≡ other.now) }
{
    one.pack(room);
    other.equals(room)
}

#[test]
fn numbers_come_back(rt: HostRuntime) {
    let mut one = [7; 1];
    assert_eq!(rt; there_and_back(&u64::MAX, &mut one), u64::MAX);
    assert_eq!(rt; one[0], u64::MAX);
    assert_eq!(rt; there_and_back(&u32::MAX, &mut one), u32::MAX);
    assert_eq!(rt; one[0], 0xffff_ffff);
    assert_eq!(rt; there_and_back(&i64::MIN, &mut one), i64::MIN);
    assert_eq!(rt; one[0], 1 << 63);
    assert_eq!(rt; there_and_back(&-1i64, &mut one), -1);
    assert_eq!(rt; one[0], u64::MAX);
    assert!(rt; same(&5u64, &5, &mut one));
    assert!(rt; !same(&5u64, &6, &mut one));
}

#[test]
fn pairs_stand_side_by_side(rt: HostRuntime) {
    let mut three = [7; 3];
    assert_eq!(rt;
        there_and_back(&(1u64, (2u32, -1i64)), &mut three),
        (1, (2, -1))
    );
    assert_eq!(rt; three, [1, 2, u64::MAX]);
    assert_eq!(rt; <(u64, (u32, i64))>::words(), 3);
    assert!(rt; (1u64, (2u32, -1i64)).equals(&[1, 2, u64::MAX]));
    assert!(rt; !(1u64, (2u32, -1i64)).equals(&[2, 2, u64::MAX]));
    assert!(rt; !(1u64, (2u32, -1i64)).equals(&[1, 2, 0]));
}

#[test]
fn own_types_are_packed(rt: HostRuntime) {
    let mut two = [7; 2];
    let pair = (Book { number: 3 }, 4u64);
    assert_eq!(rt; there_and_back(&pair, &mut two), pair);
    assert_eq!(rt; two, [3, 4]);
    assert!(rt; !same(&pair, &(Book { number: 4 }, 3), &mut two));
}

#[test]
fn strings_stand_in_words(rt: HostRuntime) -> Result<(), Fail> {
    let mut two = [7; 2];
    let string: Bytes<2> = Bytes::from_text("abc")?;
    assert_eq!(rt; string.len(), 3);
    string.pack(&mut two);
    assert_eq!(rt; two, [0x0000_0063_6261_0003, 0]);
    assert!(rt; string.equals(&[0x0000_0063_6261_0003, 0]));
    assert!(rt; !string.equals(&[0x0000_0063_6261_0003, 1]));
    assert!(rt; !string.equals(&[0x0000_0063_6261_0002, 0]));
    let longer: Bytes<2> = Bytes::from_text("abc\0")?;
    assert!(rt; !longer.equals(&two));
    let other: Bytes<2> = Bytes::new(b"abc")?;
    assert!(rt; other.equals(&two));
    Ok(())
}

// A string of this many bytes has room in `W` words: it comes back from them as it was.
fn holds<const W: usize>(rt: &impl Abort, count: usize) -> Result<(), TooLong>
    requires { W ≤ 65 }
{
    let mut bytes = [0u8; 600];
    for (i, byte) in bytes.iter_mut().enumerate() {
        *byte = (i % 251 + 1) as u8;
    }
    let Some(bytes) = bytes.get(..count) else {
        return Err(TooLong);
    };
    let string: Bytes<W> = Bytes::new(bytes)?;
    let mut words = [7; W];
    let back = there_and_back(&string, &mut words);
    assert_eq!(rt; back.len(), count);
    let mut copy = [9u8; 600];
    back.copy_to(&mut copy[..count]);
    for (one, other) in copy.iter().zip(bytes) {
        assert_eq!(rt; *one, *other);
    }
    Ok(())
}

#[test]
fn strings_have_a_greatest_length(rt: HostRuntime) -> Result<(), Fail> {
    for count in 0..=6 {
        holds::<1>(&rt, count)?;
    }
    assert_eq!(rt; holds::<1>(&rt, 7), Err(TooLong));
    for count in 0..=30 {
        holds::<4>(&rt, count)?;
    }
    assert_eq!(rt; holds::<4>(&rt, 31), Err(TooLong));
    holds::<64>(&rt, 255)?;
    holds::<64>(&rt, 256)?;
    holds::<64>(&rt, 510)?;
    assert_eq!(rt; holds::<64>(&rt, 511), Err(TooLong));
    assert_eq!(rt; holds::<0>(&rt, 0), Err(TooLong));
    assert_eq!(rt; holds::<65>(&rt, 0), Err(TooLong));
    Ok(())
}

#[test]
fn strings_are_compared_copied_and_printed(rt: HostRuntime) -> Result<(), Fail> {
    let string: Bytes<4> = Bytes::from_text("abc, and more")?;
    let other: Bytes<4> = Bytes::from_text("abc, and mare")?;
    assert!(rt; string == string.clone()?);
    assert!(rt; string != other);
    assert!(rt; string != Bytes::new(b"abc")?);
    let mut room = [7; 15];
    assert!(rt; string.as_bytes(&mut room) == b"abc, and more".as_slice());
    let short: Bytes<1> = Bytes::new(b"\x00\xff")?;
    let empty: Bytes<1> = Bytes::new(b"")?;
    let printed = format!(in rt.alloc(); "{short:?} {empty:?}")?;
    assert!(rt; printed.as_str() == "[0, 255] []");
    Ok(())
}

#[test]
fn strings_stand_beside_numbers(rt: HostRuntime) -> Result<(), Fail> {
    let string: Bytes<2> = Bytes::new(b"key")?;
    let mut three = [7; 3];
    let (key, value) = there_and_back(&(string, 5u64), &mut three);
    assert_eq!(rt; value, 5);
    assert_eq!(rt; key.len(), 3);
    Ok(())
}
