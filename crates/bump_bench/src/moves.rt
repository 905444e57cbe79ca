//! Moves to the front among lists of `bump_links`, by one thread.
ghost use Rattle.std.specs.Prelude.{◌≡◌, ◌<◌, ◌≤◌, length, All, IfOk};

use crate::tallies::{PassTally, Spent};
use bump_links::{Links, NODES_MAX};
use std::alloc::{AllocError, Global};
use std::rt::Clock;
use std::time::Instant;

/// A workload of moves.
#[derive(Clone, Copy)]
pub struct Moves {
    pub name: &'static str,

    /// How many nodes there are, 1 to 128,000,000: all of them are in the first list at the start.
    pub nodes: u32,
}

/// The workloads, in the order of the table.
pub const MOVES: [Moves; 3] = [
    Moves {
        name: "move_1000",
        nodes: 1_000,
    },
    Moves {
        name: "move_100000",
        nodes: 100_000,
    },
    Moves {
        name: "move_1000000",
        nodes: 1_000_000,
    },
];

/// How many moves a pass makes.
pub const TIMES: u32 = 1_000_000;

// How many lists the nodes move between.
const LISTS: u32 = 8;

// A node, and the list to whose front it moves.
#[derive(Clone, Copy)]
struct Move {
    node: u32,
    list: u32,
}

// A move that such a number stands for.
fn move_of(draw: u64, nodes: u32) -> Move
    requires { 1 ≤ nodes }
    ensures node { result.node < nodes }
    ensures list { result.list < 8 }
{
    Move {
        node: ((draw >> 33) as u32) % nodes,
        list: ((draw >> 20) % u64::from(LISTS)) as u32,
    }
}

// Moves drawn at random among so many nodes, the same in each run.
fn draw_moves(alloc: Global, nodes: u32) -> Result<Vec<Move>, AllocError>
    requires { 1 ≤ nodes }
    ensures { IfOk result (λ v. All (λ m. (m.node < nodes) × (m.list < 8)) v.items) }
{
    let mut moves = Vec::with_capacity(alloc, TIMES as usize)?;
    let mut draw: u64 = 12345;
    for _move in 0..TIMES {
        draw = draw
            .wrapping_mul(6_364_136_223_846_793_005)
            .wrapping_add(1_442_695_040_888_963_407);
        moves.push(move_of(draw, nodes))?;
    }
    Ok(moves)
}

// Makes each move.
fn make_moves(links: &mut Links, moves: &[Move])
    requires moves { All (λ m. (m.node < links.old.nodes) × (m.list < 8)) moves.now }
    requires eight { length links.old.lists ≡ 8 }
    ensures nodes { links.new.nodes ≡ links.old.nodes }
    ensures eight { length links.new.lists ≡ 8 }
{
    for step in moves {
        links.move_front(step.node, step.list);
    }
}

// The moves that are timed. Its name is what callgrind is told to count.
#[inline(never)]
fn timed_moves(links: &mut Links, moves: &[Move])
    requires moves { All (λ m. (m.node < links.old.nodes) × (m.list < 8)) moves.now }
    requires eight { length links.old.lists ≡ 8 }
    ensures nodes { links.new.nodes ≡ links.old.nodes }
    ensures eight { length links.new.lists ≡ 8 }
{
    make_moves(links, moves);
}

impl Moves {
    /// Makes all moves twice, and times them the second time: the nodes are mixed then, and all memory was touched.
    /// None where memory or the clock is refused.
    pub fn pass<R: Clock>(self, rt: &R, alloc: Global) -> Option<Spent> {
        if self.nodes == 0 || self.nodes > NODES_MAX {
            return None;
        }
        let moves = draw_moves(alloc, self.nodes).ok()?;
        let mut links = Links::new(alloc, self.nodes, LISTS, 0).ok()?;
        make_moves(&mut links, &moves);
        let start = Instant::now(rt).ok()?;
        timed_moves(&mut links, &moves);
        let tally = PassTally {
            refused: 0,
            right: u64::from(TIMES),
            labels: u64::from(links.len(1)),
        };
        Spent::since(rt, start, tally)
    }
}
