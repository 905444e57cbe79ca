//! Small stores of two classes and one worker, whose ring has a raw lane or a bare end, and what is played in them.
ghost use Rattle.std.specs.Prelude.{◌≡◌, IfSome, [], ◌∷◌};
ghost use Rattle.bump_readers.specs.Workers.{worker_seen};
ghost use Rattle.bump_store.specs.Making.{lane_seen};
ghost use Rattle.bump_store.specs.Rule.{worker_sheet, lane_sheet};

use super::refused_memory::{Call, make_again, walk_again};
use super::rings::{close_ring, cross};
use super::runs::{end_at_the_limit, end_at_the_other_class, move_in_cold};
use bump_class::RawLane;
use bump_heads::{HeadParts, Heads, LaneSeat, WorkerSeat};
use bump_ring::{Receiver, ring};
use bump_store::{Blank, Book, ClassConfig, Config, Name, Worker};
use std::alloc::{AllocError, Global};
use std::marker::Brand;
use std::process::Abort;
use std::sync::Arc;
use std::thread::Threads;

/// Chunks of each class: as many items are bumped in turn, so that no count of references comes to its limit.
pub const ITEMS: u32 = 64;

/// Each of the two classes: an item that is pulled from HOT or from WARM goes on.
const CLASS: ClassConfig = ClassConfig {
    chunks: ITEMS,
    hot: 0,
    warm: 0,
};

/// What such a store is made of, but for the end of its ring.
#[derive(Drop)]
pub struct Small<N: Name> {
    pub heads: Arc<Heads<N>, Global>,
    pub first: Book<N>,
    pub second: Book<N>,
    pub worker: Worker<N>,
}

/// The end of the worker's ring: bare, or in the worker's lane.
#[derive(Drop)]
enum End<N: Name> {
    Bare(Receiver<N>),
    Lane(RawLane<N>),
}

/// What is played.
#[derive(Clone, Copy)]
pub enum Scene {
    MovedInCold,
    OtherClass,
    Limit,
    WalkedAgain,
    RingClosed,
    RingMadeAgain,
    Crossed { bumps: u64 },
}

// None where memory is refused.
fn config_of(alloc: Global, capacity: u32) -> Option<Config>
    ensures small { IfSome result (λ c. (c.workers ≡ 1) × (c.classes ≡ CLASS ∷ CLASS ∷ [])) }
{
    Config::new(1, capacity, 65_535, 1, vec![in alloc; CLASS, CLASS].ok()?).ok()
}

// The only worker, and the end of its new ring, which is the only lane's unless it is to be bare.
fn ends_of<N: Name>(
    rt: &impl Abort,
    alloc: Global,
    workers: Vec<WorkerSeat<N>>,
    lanes: Vec<LaneSeat<N>>,
    capacity: u32,
    is_bare: bool,
) -> Result<(Worker<N>, End<N>), AllocError>
    requires workers { workers.items ≡ worker_seen (worker_sheet 0) ∷ [] }
    requires lanes { lanes.items ≡ lane_seen (lane_sheet 0) ∷ [] }
{
    let mut workers = workers;
    let mut lanes = lanes;
    let seat = workers.pop().expect(rt, "there is a worker");
    let lane = lanes.pop().expect(rt, "there is a lane");
    let (sender, receiver) = ring(alloc, capacity)?;
    let end = if is_bare {
        End::Bare(receiver)
    } else {
        End::Lane(RawLane::new(receiver, lane))
    };
    Ok((Worker::new(seat, sender), end))
}

fn open<N: Name>(
    rt: &impl Abort,
    alloc: Global,
    blank: Blank,
    config: &Config,
    is_bare: bool,
) -> Result<(Small<N>, End<N>), Call>
    requires name { blank.table ≡ N.table }
    requires config { blank.config ≡ config.now }
    requires small { (config.now.workers ≡ 1) × (config.now.classes ≡ CLASS ∷ CLASS ∷ []) }
{
    let Ok(sheets) = Heads::<N>::new(alloc, blank, config) else {
        return Err("Heads::new");
    };
    let HeadParts {
        heads,
        mut classes,
        workers,
        lanes,
    } = sheets;
    let Ok((worker, end)) = ends_of(rt, alloc, workers, lanes, config.capacity, is_bare) else {
        return Err("ring");
    };
    let seat = classes.pop().expect(rt, "there is a class");
    let Ok(second) = Book::new(alloc, seat, ITEMS, CLASS, 1) else {
        return Err("Book::new");
    };
    let seat = classes.pop().expect(rt, "there is a class");
    let Ok(first) = Book::new(alloc, seat, 0, CLASS, 1) else {
        return Err("Book::new");
    };
    let small = Small {
        heads,
        first,
        second,
        worker,
    };
    Ok((small, end))
}

fn play_in<N: Name + Send + Sync, R: Threads + Abort + Sync>(
    rt: &R,
    alloc: Global,
    blank: Blank,
    config: &Config,
    scene: Scene,
) -> Result<(), Call>
    requires name { blank.table ≡ N.table }
    requires config { blank.config ≡ config.now }
    requires small { (config.now.workers ≡ 1) × (config.now.classes ≡ CLASS ∷ CLASS ∷ []) }
{
    let is_bare = matches!(&scene, Scene::Crossed { .. });
    let (small, end) = match open::<N>(rt, alloc, blank, config, is_bare) {
        Ok(opened) => opened,
        Err(call) => return Err(call),
    };
    let mut small = small;
    match end {
        End::Bare(receiver) => {
            cross(rt, small, receiver, bumps_of(scene));
            Ok(())
        }
        End::Lane(lane) => {
            let mut lane = lane;
            play_on(rt, alloc, &mut small, &mut lane, scene)
        }
    }
}

// How many bumps cross to the other thread.
fn bumps_of(scene: Scene) -> u64 {
    match scene {
        Scene::Crossed { bumps } => bumps,
        _ => 0,
    }
}

fn play_on<N: Name, R: Abort>(
    rt: &R,
    alloc: Global,
    small: &mut Small<N>,
    lane: &mut RawLane<N>,
    scene: Scene,
) -> Result<(), Call> {
    match scene {
        Scene::MovedInCold => move_in_cold(rt, small, lane),
        Scene::OtherClass => end_at_the_other_class(rt, small, lane),
        Scene::Limit => end_at_the_limit(rt, small, lane),
        Scene::WalkedAgain => return walk_again(rt, alloc, &small.first),
        Scene::RingMadeAgain => return make_again::<N, R>(rt, alloc),
        _ => return close_ring::<N, R>(rt, alloc),
    }
    Ok(())
}

/// Plays a scene in a new store, whose first generation is 1 and whose ring has room for so many bumps. Else it tells
/// the call that was refused.
pub fn play<R: Threads + Abort + Sync>(
    rt: &R,
    alloc: Global,
    capacity: u32,
    scene: Scene,
) -> Result<(), Call> {
    let config = config_of(alloc, capacity).ok_or("the configuration")?;
    let Ok(blank) = Blank::new(alloc, &config) else {
        return Err("Blank::new");
    };
    play_in::<Brand, R>(rt, alloc, blank, &config, scene)
}
