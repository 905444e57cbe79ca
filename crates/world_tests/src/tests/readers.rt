//! What a World of two chunks, one class and one worker tells of itself.
ghost use Rattle.std.specs.Prelude.{◌≡◌, ◌<◌, IfOk, length};
ghost use Rattle.bump_core.specs.Readers.{class_list};

use super::*;
use crate::expecting::expect;

/// A chunk's head, time, label and holds.
pub type OfChunk = (Head, u64, u64, u32);

/// Of a list its length, its first and its last chunk.
pub type Ends = (usize, Option<u32>, Option<u32>);

/// How many bumps a ring accepted or a lane took, and the last of them.
pub type Bumps = (usize, Option<ItemId>);

/// How much there is, and the limits: classes, chunks and workers; the room of a ring, and of a count of references;
/// HOT and WARM.
pub type Bounds = ((u32, u32, u32), (u32, u32), (u32, u32));

/// What the readers tell. Taking it asks for no memory.
#[derive(Clone, Copy, Debug, PartialEq)]
pub struct Readers {
    pub bounds: Bounds,
    pub chunks: (OfChunk, OfChunk),

    /// HOT, WARM, COLD, TEMP, DYING, UNUSED and RETIRED.
    pub lists: [Ends; 7],

    /// How much happened to them, and what was last.
    pub history: (usize, Option<Change>),

    /// How many moves for bumps of the worker there were among it.
    pub moves: u64,
    pub accounts: Accounts,
    pub is_open: bool,

    /// What was sent and received.
    pub bumps: (Bumps, Bumps),
    pub applied: (usize, Option<AppliedBump>),
}

fn of_chunk(rt: &impl Abort, world: &World, chunk: u32) -> OfChunk {
    assert!(rt; chunk < world.chunks());
    (
        world.head(chunk),
        world.time(chunk),
        world.label(chunk),
        world.holds(chunk),
    )
}

// The ends of a list of the first class.
fn ends(rt: &impl Abort, world: &World, place: Place) -> Ends {
    assert!(rt; 0 < world.classes());
    let mut list = world.list(0, place);
    (list.len(), list.next(), world.list_back(0, place))
}

fn bounds(rt: &impl Abort, world: &World) -> Bounds {
    assert!(rt; 0 < world.classes());
    (
        (world.classes(), world.chunks(), world.workers()),
        (world.capacity(), world.refs_limit()),
        world.limits(0),
    )
}

fn history(rt: &impl Abort, world: &World) -> (usize, Option<Change>) {
    assert!(rt; 0 < world.classes());
    let history = world.history(0);
    (history.len(), history.last().copied())
}

fn moves(rt: &impl Abort, world: &World) -> u64 {
    assert!(rt; 0 < world.classes());
    assert!(rt; 0 < world.workers());
    world.moves(0, 0)
}

fn is_open(rt: &impl Abort, world: &World) -> bool {
    assert!(rt; 0 < world.workers());
    world.is_open(0)
}

fn last_of(bumps: &[ItemId]) -> Bumps {
    (bumps.len(), bumps.last().copied())
}

fn bumps(rt: &impl Abort, world: &World) -> (Bumps, Bumps) {
    assert!(rt; 0 < world.workers());
    (last_of(world.sent(0)), last_of(world.received(0)))
}

fn applied(rt: &impl Abort, world: &World) -> (usize, Option<AppliedBump>) {
    assert!(rt; 0 < world.workers());
    let applied = world.applied(0);
    (applied.len(), applied.last().copied())
}

// A worker's counts.
fn accounts_of(rt: &impl Abort, world: &World, worker: u32) -> Accounts {
    assert!(rt; worker < world.workers());
    world.accounts(worker)
}

/// A worker has these counts.
pub fn expect_accounts(rt: &impl Abort, world: &World, worker: u32, wanted: Accounts) {
    expect(
        rt,
        "a worker's counts",
        &accounts_of(rt, world, worker),
        &wanted,
    );
}

/// What the World tells now.
pub fn told_by(rt: &impl Abort, world: &World) -> Readers {
    Readers {
        bounds: bounds(rt, world),
        chunks: (of_chunk(rt, world, 0), of_chunk(rt, world, 1)),
        lists: [
            ends(rt, world, Place::Hot),
            ends(rt, world, Place::Warm),
            ends(rt, world, Place::Cold),
            ends(rt, world, Place::Temp),
            ends(rt, world, Place::Dying),
            ends(rt, world, Place::Unused),
            ends(rt, world, Place::Retired),
        ],
        history: history(rt, world),
        moves: moves(rt, world),
        accounts: accounts_of(rt, world, 0),
        is_open: is_open(rt, world),
        bumps: bumps(rt, world),
        applied: applied(rt, world),
    }
}

/// The World tells this now.
pub fn expect_told(rt: &impl Abort, world: &World, wanted: &Readers) {
    assert_eq!(rt; told_by(rt, world), *wanted);
}

/// The ends of a list of the first class are these.
pub fn expect_ends(rt: &impl Abort, world: &World, place: Place, wanted: Ends) {
    expect(rt, "the ends of a list", &ends(rt, world, place), &wanted);
}

// The chunks of a list, in the order in which a loop meets them.
fn chunks_met(
    alloc: Global,
    world: &World,
    class: u32,
    place: Place,
) -> Result<Vec<u32>, AllocError>
    requires { class < length world.now.classes }
    ensures { IfOk result (λ met. met.items ≡ class_list world.now class place) }
{
    let mut met = Vec::new(alloc);
    for chunk in world.list(class, place) {
        met.push(chunk)?;
    }
    Ok(met)
}

/// A list of the first class has these chunks, front first.
pub fn expect_list(
    rt: &impl Abort,
    alloc: Global,
    world: &World,
    place: Place,
    chunks: &[u32],
) -> Result<(), AllocError> {
    assert!(rt; 0 < world.classes());
    let met = chunks_met(alloc, world, 0, place)?;
    expect(rt, "a list", &met.as_slice(), &chunks);
    Ok(())
}
