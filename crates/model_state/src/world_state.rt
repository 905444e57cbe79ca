//! All that a World keeps, as plain data. Which states are lawful is not said by their type: each
//! change asks for what it needs.
mod changes;
mod opening;
mod readers;

use crate::chunks::Chunk;
use crate::classes::Class;
use crate::workers::Workers;

/// The state of a World. Chunks, classes and workers are numbered from 0, each by its place in its list.
#[derive(Drop)]
pub struct WorldState {
    /// The limit of a reference count: 1 or more, where the state is lawful.
    pub refs_limit: u32,

    /// How many bumps a ring has room for.
    pub capacity: u32,

    /// All chunks, class by class.
    pub chunks: Vec<Chunk>,

    /// All classes.
    pub classes: Vec<Class>,

    /// All workers, each with its ring and its lane.
    pub workers: Workers,
}
