//! Keys of one hash: the entry of the later one takes the place of the earlier one's, and none is found under another key.
ghost use Rattle.std.specs.Prelude.{[]};
ghost use Rattle.std.proofs.Common.{rules};
ghost use Rattle.std.specs.Cmp.Rules.{hashing};
ghost use Rattle.entry_cache.specs.Opening.{IsNamed};

use crate::calls::small_config;
use entry_cache::{AnyEntry, Changer, EntryBlank, EntryMiss, LogName, Name, OpenedEntries, open};
use std::alloc::{AllocError, Global};
use std::hash::{Hash, Hasher};
use std::marker::Brand;
use std::sync::Wait;
use std::test::Fail;

// A key that writes nothing when it's hashed: all have one hash.
#[derive(Clone, Copy, PartialEq, Eq, Drop)]
struct Alike {
    number: u32,
}

impl Hash for Alike {
    ghost hash_input = { λ key. [] };

    ghost respects_eq = { Prim.search (hashing, rules) };

    fn hash<H: Hasher>(&self, _state: &mut H) {}
}

fn count(wrong: &mut u64, right: bool) {
    *wrong = wrong.saturating_add(u64::from(!right));
}

// Opens a cache under the names that the blank's table and log have, and puts two keys of one hash. It tells how much was wrong.
fn run<N: Name + LogName, W: Wait>(
    rt: &W,
    alloc: Global,
    blank: EntryBlank,
) -> Result<u64, AllocError>
    requires { IsNamed N.table N.book N.name N.parts blank }
{
    let OpenedEntries {
        cache,
        caller,
        mut readers,
    } = open::<N, Alike, u64, AnyEntry, W>(alloc, rt, blank)?;
    let mut changer = Changer::new(caller);
    let Some(reader) = readers.first_mut() else {
        return Ok(u64::MAX);
    };
    let (one, other) = (Alike { number: 1 }, Alike { number: 2 });
    let mut wrong = 0u64;
    let put = cache.put(rt, &mut changer.me, one, 10, 0);
    count(&mut wrong, put.is_ok_and(|did| did.rows().old.is_none()));
    count(
        &mut wrong,
        reader
            .get(&cache, &one, 0)
            .is_some_and(|found| *found == 10),
    );
    count(&mut wrong, reader.get(&cache, &other, 0).is_none());
    count(&mut wrong, reader.last_miss() == EntryMiss::Other);
    let put = cache.put(rt, &mut changer.me, other, 20, 0);
    count(&mut wrong, put.is_ok_and(|did| did.rows().old.is_some()));
    count(
        &mut wrong,
        reader
            .get(&cache, &other, 0)
            .is_some_and(|found| *found == 20),
    );
    count(&mut wrong, !reader.contains(&cache, &one, 0));
    let removed = cache.remove(rt, &mut changer.me, &one, 0);
    count(
        &mut wrong,
        removed.place().is_some() && removed.missed() == EntryMiss::Other,
    );
    count(&mut wrong, removed.into_found().is_none());
    count(&mut wrong, reader.get(&cache, &other, 0).is_none());
    count(&mut wrong, reader.last_miss() == EntryMiss::NoRow);
    count(&mut wrong, reader.hits() == 3 && reader.misses() == 1);
    Ok(wrong)
}

#[test]
fn no_key_finds_the_value_of_another_one_of_its_hash(rt: HostRuntime) -> Result<(), Fail> {
    let blank = EntryBlank::new(rt.alloc(), &small_config(5, 1))?;
    assert_eq!(rt; run::<Brand, _>(&rt, rt.alloc(), blank)?, 0);
    Ok(())
}
