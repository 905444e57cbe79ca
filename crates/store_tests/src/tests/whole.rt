//! Whole stores that tests open, and what is played in them.
ghost use Rattle.std.specs.Prelude.{◌≡◌};

use super::beside_world::run_beside;
use super::besides::{end_full, keep_times, leave_the_rest, pass_in_order, tell_opened};
use super::books::link_two;
use super::classes::{find_exchanged, tell_classes};
use super::drains::{drain_again, drain_in_turn};
use super::marks::mark_by_hits;
use super::moves::move_in_one_class;
use super::refused_memory::{Call, end_again};
use super::settling::{end_new, pass_twice, settle_at_once, settle_one_by_one};
use super::shared_item::share_item;
use super::threads::work_apart;
use bump_store::{Blank, ClassConfig, Config, ItemId, Lane, Name, Store, Worker};
use std::alloc::Global;
use std::marker::Brand;
use std::process::Abort;
use std::sync::Wait;
use std::thread::Threads;

/// What is played.
#[derive(Clone, Copy)]
pub enum Story {
    ClassesTold,
    Exchanged,
    DrainedAgain,
    DrainedInTurn,
    SettledAtOnce,
    SettledOneByOne,
    PassedTwice,
    ItemShared,
    MovedApart,
    EndedAgain,
    WorkedApart,
    RunBeside,
    RestLeft,
    Opened,
    PassedInOrder,
    TimesKept,
    EndedFull,
    Marked,
    TwoLinked,
}

// Two workers. None where memory is refused.
fn config_of(alloc: Global, capacity: u32, classes: &[ClassConfig]) -> Option<Config> {
    let mut all = Vec::with_capacity(alloc, classes.len()).ok()?;
    for class in classes {
        all.push(*class).ok()?;
    }
    Config::new(2, capacity, 8, 1, all).ok()
}

fn tell_in<N: Name + Send + Sync, R: Threads + Abort + Wait + Sync>(
    rt: &R,
    alloc: Global,
    blank: Blank,
    config: &Config,
    story: Story,
) -> Result<(), Call>
    requires name { blank.table ≡ N.table }
    requires config { blank.config ≡ config.now }
{
    let Ok((store, mut workers, mut maintainer)) = Store::<N>::new(alloc, blank, config) else {
        return Err("Store::new");
    };
    match story {
        Story::SettledAtOnce => settle_at_once(rt, &store, workers, maintainer),
        Story::SettledOneByOne => settle_one_by_one(rt, &store, workers, maintainer),
        Story::PassedTwice => pass_twice(rt, &store, workers, maintainer),
        Story::PassedInOrder => pass_in_order(rt, alloc, &store, workers, maintainer),
        Story::TimesKept => keep_times(rt, &store, workers, maintainer),
        Story::ItemShared => share_item(rt, &store, workers, maintainer),
        Story::MovedApart => move_in_one_class(rt, &store, workers, maintainer),
        Story::WorkedApart => work_apart(rt, alloc, &store, workers, maintainer),
        Story::RunBeside => run_beside(rt, alloc, store, workers, maintainer, config),
        _ => {
            assert!(rt; 0 < config.workers);
            let worker = workers.get_mut(0).expect(rt, "it is a worker");
            return tell_short(rt, alloc, store, worker, maintainer.lane(0), story);
        }
    }
    Ok(())
}

// A story of one worker and its lane, which stay as they are.
fn tell_short<N: Name, R: Abort + Wait>(
    rt: &R,
    alloc: Global,
    store: Store<N>,
    worker: &mut Worker<N>,
    lane: &mut Lane<N>,
    story: Story,
) -> Result<(), Call> {
    match story {
        Story::ClassesTold => {
            tell_classes(rt, alloc, &store, worker);
            end_new(rt, alloc, store);
        }
        Story::EndedAgain => return end_again(rt, alloc, store, worker),
        Story::Opened => tell_opened(rt, &store),
        Story::TwoLinked => link_two(rt, alloc, &store),
        Story::EndedFull => end_full(rt, alloc, store, worker, lane),
        Story::RestLeft => leave_the_rest(rt, &store, worker, lane),
        Story::Marked => mark_by_hits(rt, &store, worker, lane),
        Story::Exchanged => find_exchanged(rt, &store, worker, lane),
        Story::DrainedAgain => drain_again(rt, &store, worker, lane),
        _ => drain_in_turn(rt, &store, worker, lane),
    }
    Ok(())
}

/// Tells a story in a new store of this configuration. Else it tells the call that was refused.
pub fn tell_of<R: Threads + Abort + Wait + Sync>(
    rt: &R,
    alloc: Global,
    config: &Config,
    story: Story,
) -> Result<(), Call> {
    let Ok(blank) = Blank::new(alloc, config) else {
        return Err("Blank::new");
    };
    tell_in::<Brand, R>(rt, alloc, blank, config, story)
}

/// The same of two workers, whose rings have this capacity, and of these classes.
pub fn tell<R: Threads + Abort + Wait + Sync>(
    rt: &R,
    alloc: Global,
    capacity: u32,
    classes: &[ClassConfig],
    story: Story,
) -> Result<(), Call> {
    let config = config_of(alloc, capacity, classes).ok_or("the configuration")?;
    tell_of(rt, alloc, &config, story)
}

/// A class with so many chunks, and these limits of HOT and of WARM.
pub fn class(chunks: u32, hot: u32, warm: u32) -> ClassConfig {
    ClassConfig { chunks, hot, warm }
}

/// An item.
pub fn id(chunk: u32, generation: u32) -> ItemId {
    ItemId { chunk, generation }
}
