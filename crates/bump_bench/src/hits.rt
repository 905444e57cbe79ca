//! Hits and gets of items: the loops that are timed of a worker's calls.
ghost use Rattle.std.specs.Prelude.{◌≤◌};

use crate::stores::FURTHER;
use crate::tallies::{PassTally, one_more};
use bump_store::{Dropped, ItemId, Name, ReaderHeads, Touch, Worker};

/// What each hit of a pass comes to: an answer of its touch; that it asks first, and finds both marks; that it takes
/// whatever item is there, and finds them by that; or that it glances at it, and finds them so.
#[derive(Clone, Copy)]
pub enum HitAnswer {
    First,
    Already,
    Marked,
    Queued,
    Full,
    Asked,
    Any,
    Glance,
}

/// One of the answers: the loop that wants it is compiled for it alone, as each caller of a touch has code of its own.
trait Wanted {
    fn is(touch: Touch) -> bool;
}

struct First;

impl Wanted for First {
    fn is(touch: Touch) -> bool {
        matches!(touch, Touch::First)
    }
}

struct Already;

impl Wanted for Already {
    fn is(touch: Touch) -> bool {
        matches!(touch, Touch::Already)
    }
}

struct Marked;

impl Wanted for Marked {
    fn is(touch: Touch) -> bool {
        matches!(touch, Touch::Marked)
    }
}

struct Queued;

impl Wanted for Queued {
    fn is(touch: Touch) -> bool {
        matches!(touch, Touch::Queued(_))
    }
}

struct Full;

impl Wanted for Full {
    fn is(touch: Touch) -> bool {
        matches!(touch, Touch::Dropped(Dropped::Full))
    }
}

/// Gets and releases each item, as often as there are rounds.
pub fn gets<N: Name>(
    heads: &ReaderHeads<N>,
    worker: &mut Worker<N>,
    items: &[ItemId],
    rounds: u32,
) -> PassTally {
    let mut refused: u64 = 0;
    for _round in 0..rounds {
        for item in items {
            match worker.get(heads, *item) {
                Ok(hold) => hold.release(heads),
                Err(_) => refused = one_more(refused),
            }
        }
    }
    PassTally {
        refused,
        ..PassTally::NONE
    }
}

// Gets, touches, reads the label of and releases each item, as often as there are rounds. This answer of each touch is
// wanted.
fn hits<W: Wanted, N: Name>(
    heads: &ReaderHeads<N>,
    worker: &mut Worker<N>,
    items: &[ItemId],
    rounds: u32,
) -> PassTally {
    let mut refused: u64 = 0;
    let mut right: u64 = 0;
    let mut labels: u64 = 0;
    for _round in 0..rounds {
        for item in items {
            match worker.get(heads, *item) {
                Ok(mut hold) => {
                    let touch = worker.touch(heads, &mut hold, 5);
                    let label = hold.label(heads);
                    hold.release(heads);
                    if W::is(touch) {
                        right = right.wrapping_add(1);
                    }
                    labels = labels.wrapping_add(label);
                }
                Err(_) => refused = one_more(refused),
            }
        }
    }
    PassTally {
        refused,
        right,
        labels,
    }
}

// The same, but each hit asks first whether the item has both marks, and touches it only where it hasn't. An item that
// has them is wanted.
#[inline(never)]
fn asked_hits<N: Name>(
    heads: &ReaderHeads<N>,
    worker: &mut Worker<N>,
    items: &[ItemId],
    rounds: u32,
) -> PassTally {
    let mut refused: u64 = 0;
    let mut right: u64 = 0;
    let mut labels: u64 = 0;
    for _round in 0..rounds {
        for item in items {
            match worker.get(heads, *item) {
                Ok(mut hold) => {
                    if hold.is_marked(heads) {
                        right = right.wrapping_add(1);
                    } else {
                        worker.touch(heads, &mut hold, 5);
                    }
                    let label = hold.label(heads);
                    hold.release(heads);
                    labels = labels.wrapping_add(label);
                }
                Err(_) => refused = one_more(refused),
            }
        }
    }
    PassTally {
        refused,
        right,
        labels,
    }
}

// Takes whatever item is linked in each chunk, reads its label and two further words, and releases it. By the head by
// which it was taken it is touched only where it hasn't both marks: an item that is ACTIVE is FETCHED too, so ACTIVE
// alone is asked. An item that has them is wanted. There is none where chunks haven't so many words.
#[inline(never)]
fn any_hits<N: Name>(
    heads: &ReaderHeads<N>,
    worker: &mut Worker<N>,
    items: &[ItemId],
    rounds: u32,
) -> PassTally {
    if heads.further() < FURTHER {
        return PassTally::NONE;
    }
    let mut refused: u64 = 0;
    let mut right: u64 = 0;
    let mut labels: u64 = 0;
    for _round in 0..rounds {
        for item in items {
            match worker.get_any(heads, item.chunk) {
                Ok((mut hold, found)) => {
                    if found.active {
                        right = right.wrapping_add(1);
                    } else {
                        worker.touch(heads, &mut hold, 5);
                    }
                    let label = hold.label(heads);
                    let first = hold.word(heads, 0);
                    let second = hold.word(heads, 1);
                    hold.release(heads);
                    labels = labels
                        .wrapping_add(label)
                        .wrapping_add(first)
                        .wrapping_add(second);
                }
                Err(_) => refused = one_more(refused),
            }
        }
    }
    PassTally {
        refused,
        right,
        labels,
    }
}

// The sum of the label and two further words of the item that is linked in the chunk, by a glance. None where it hasn't
// both marks: then it would have to be touched, which wants a hold. And None where it ended meanwhile: then another
// item's words may be among those that were read.
#[inline(always)]
fn glance_sum<N: Name>(heads: &ReaderHeads<N>, worker: &mut Worker<N>, chunk: u32) -> Option<u64>
    requires words { FURTHER ≤ N.table.slots }
{
    let (glance, found) = worker.glance(heads, chunk)?;
    if !found.fetched || !found.active {
        return None;
    }
    let label = worker.glance_label(heads, &glance);
    let first = worker.glance_word(heads, &glance, 0);
    let second = worker.glance_word(heads, &glance, 1);
    let last = worker.end_glance(heads, glance);
    if !last.linked || last.generation != found.generation {
        return None;
    }
    Some(label.wrapping_add(first).wrapping_add(second))
}

// Reads as much of the item in each chunk by glances, which write nothing. One that has both marks, and is the same
// behind its words, is wanted. There is none where chunks haven't so many words.
#[inline(never)]
fn glance_hits<N: Name>(
    heads: &ReaderHeads<N>,
    worker: &mut Worker<N>,
    items: &[ItemId],
    rounds: u32,
) -> PassTally {
    if heads.further() < FURTHER {
        return PassTally::NONE;
    }
    let mut refused: u64 = 0;
    let mut right: u64 = 0;
    let mut labels: u64 = 0;
    for _round in 0..rounds {
        for item in items {
            match glance_sum(heads, worker, item.chunk) {
                Some(sum) => {
                    right = right.wrapping_add(1);
                    labels = labels.wrapping_add(sum);
                }
                None => refused = one_more(refused),
            }
        }
    }
    PassTally {
        refused,
        right,
        labels,
    }
}

/// Hits each item so often: the first hit sets FETCHED, and the second one in HOT sets ACTIVE.
pub fn touch_all<N: Name>(
    heads: &ReaderHeads<N>,
    worker: &mut Worker<N>,
    items: &[ItemId],
    times: u32,
) {
    hits::<First, N>(heads, worker, items, times);
}

/// The pass that is timed: hits where an answer is wanted, else gets. Its name is what callgrind is told to count.
#[inline(never)]
pub fn timed_pass<N: Name>(
    heads: &ReaderHeads<N>,
    worker: &mut Worker<N>,
    items: &[ItemId],
    rounds: u32,
    wanted: Option<HitAnswer>,
) -> PassTally {
    match wanted {
        Some(HitAnswer::First) => hits::<First, N>(heads, worker, items, rounds),
        Some(HitAnswer::Already) => hits::<Already, N>(heads, worker, items, rounds),
        Some(HitAnswer::Marked) => hits::<Marked, N>(heads, worker, items, rounds),
        Some(HitAnswer::Queued) => hits::<Queued, N>(heads, worker, items, rounds),
        Some(HitAnswer::Full) => hits::<Full, N>(heads, worker, items, rounds),
        Some(HitAnswer::Asked) => asked_hits(heads, worker, items, rounds),
        Some(HitAnswer::Any) => any_hits(heads, worker, items, rounds),
        Some(HitAnswer::Glance) => glance_hits(heads, worker, items, rounds),
        None => gets(heads, worker, items, rounds),
    }
}
