//! What a writer and the tender do.
ghost use Rattle.std.specs.Prelude.{◌<◌, ◌+◌};

use crate::values::{STAYING, Value, count, next_other, value_of};
use bump_cache::{Cache, CacheState, Caller, Changer, LogName, Name, NoRoom, Put};
use std::alloc::{AllocError, Global};
use std::sync::Wait;
use std::sync::atomic::{AtomicBool, Ordering};

/// Who puts and removes.
#[derive(Drop)]
pub struct Writer<N: Name + LogName> {
    /// Its number, from 0.
    pub number: u32,

    /// So many keys come and go.
    pub others: u64,

    /// Its caller.
    pub changer: Changer<N>,
}

/// So many more writers, each with a part that this caller gives away.
pub fn some_of<N: Name + LogName>(
    alloc: Global,
    me: &mut Caller<N, CacheState>,
    count: u32,
    others: u64,
) -> Result<Vec<Writer<N>>, AllocError>
    requires { count < me.old.parts }
    ensures { me.old.parts < me.new.parts + count + 1 }
{
    let mut all = Vec::with_capacity(alloc, count as usize)?;
    for number in 0..count {
        let changer = Changer::new(me.another());
        all.push(Writer {
            number,
            others,
            changer,
        })?;
    }
    Ok(all)
}

/// What writers came to.
#[derive(Clone, Copy)]
pub struct Wrote {
    /// So many puts they made.
    pub puts: u64,

    /// So many of them found no room.
    pub refused: u64,

    /// So many items were evicted.
    pub evicted: u64,

    /// So many of these have keys that are always there.
    pub wrong: u64,

    /// So many items were removed.
    pub removed: u64,
}

impl Wrote {
    /// Nothing was put yet.
    pub fn new() -> Wrote {
        Wrote {
            puts: 0,
            refused: 0,
            evicted: 0,
            wrong: 0,
            removed: 0,
        }
    }

    /// This and what another writer came to.
    pub fn add(&mut self, other: &Wrote) {
        self.puts = self.puts.saturating_add(other.puts);
        self.refused = self.refused.saturating_add(other.refused);
        self.evicted = self.evicted.saturating_add(other.evicted);
        self.wrong = self.wrong.saturating_add(other.wrong);
        self.removed = self.removed.saturating_add(other.removed);
    }

    // Notes what a put told.
    fn note(&mut self, put: Result<Put<u64, Value>, NoRoom<u64, Value>>) {
        count(&mut self.puts, true);
        let evicted = match put {
            Ok(did) => did.evicted,
            Err(why) => {
                count(&mut self.refused, true);
                why.evicted
            }
        };
        if let Some(entry) = evicted {
            count(&mut self.evicted, true);
            count(&mut self.wrong, entry.key < STAYING);
        }
    }

    // Puts a key once more.
    fn put<N: Name + LogName, W: Wait>(
        &mut self,
        rt: &W,
        cache: &Cache<N, u64, Value>,
        writer: &mut Writer<N>,
        key: u64,
    ) {
        let now = self.puts.saturating_add(1);
        let value = value_of(key, writer.number, now);
        self.note(cache.put(rt, &mut writer.changer.me, &key, &value, now));
    }

    // Ends a key's item.
    fn remove<N: Name + LogName, W: Wait>(
        &mut self,
        rt: &W,
        cache: &Cache<N, u64, Value>,
        writer: &mut Writer<N>,
        key: u64,
    ) {
        let removed = cache.remove(rt, &mut writer.changer.me, &key, self.puts);
        count(&mut self.removed, removed.is_some());
    }
}

/// Puts the keys that are always there.
pub fn put_staying<N: Name + LogName, W: Wait>(
    rt: &W,
    cache: &Cache<N, u64, Value>,
    writer: &mut Writer<N>,
    wrote: &mut Wrote,
) {
    for key in 0..STAYING {
        wrote.put(rt, cache, writer, key);
    }
}

/// A writer's thread: it puts in turn a key that is always there and another one, and removes other ones, until the
/// readers are done.
pub fn write<N: Name + LogName, W: Wait>(
    rt: &W,
    cache: &Cache<N, u64, Value>,
    mut writer: Writer<N>,
    done: &AtomicBool,
) -> Wrote {
    let mut wrote = Wrote::new();
    let mut seed = u64::from(writer.number);
    for _ in rt.forever() {
        if done.load(Ordering::SeqCst) {
            return wrote;
        }
        for staying in 0..STAYING {
            wrote.put(rt, cache, &mut writer, staying);
            let other = next_other(&mut seed, writer.others);
            wrote.put(rt, cache, &mut writer, other);
            if staying % 4 == 0 {
                let key = next_other(&mut seed, writer.others);
                wrote.remove(rt, cache, &mut writer, key);
            }
        }
    }
    unreachable!()
}

/// The tender's thread, until the readers are done.
pub fn tend<N: Name + LogName, W: Wait>(
    rt: &W,
    cache: &Cache<N, u64, Value>,
    mut tender: Changer<N>,
    done: &AtomicBool,
) {
    cache.tend_until(rt, &mut tender.me, || {
        if done.load(Ordering::SeqCst) {
            None
        } else {
            Some(7)
        }
    });
}
