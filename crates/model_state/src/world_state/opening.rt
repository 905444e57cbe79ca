//! The state of a new World.
ghost use Rattle.std.specs.Prelude.{◌≡◌, ℕ, ◌+◌, ◌-◌, ◌≤◌, ◌<◌, ◌^◌, IfOk, map};
ghost use Rattle.bump_rules.specs.Configs.{chunks_of, HaveChunks};
ghost use Rattle.model_state.specs.Opening.{fresh_chunk, new_class, classes_from, new_state};
ghost use Rattle.model_state.specs.Views.{class_view, state_of};

use crate::chunks::Chunk;
use crate::classes::Class;
use crate::workers::Workers;
use crate::world_state::WorldState;
use bump_rules::{ClassConfig, ClassLists, Config, Head, Segment, WIDE_CHUNKS};
use std::alloc::{AllocError, Global};

// A class whose chunks, from `first` on, are all UNUSED, and fresh with this generation.
fn new_class(
    alloc: Global,
    fresh: u32,
    first: u32,
    config: ClassConfig,
) -> Result<Class, AllocError>
    requires some { 1 ≤ config.chunks }
    requires few { first + config.chunks ≤ WIDE_CHUNKS }
    ensures { IfOk result (λ k. class_view k ≡ new_class fresh first config) }
{
    Ok(Class {
        first,
        end: first + config.chunks,
        fresh,
        hot_limit: config.hot,
        warm_limit: config.warm,
        lists: ClassLists::new(alloc, first, config.chunks)?,
        history: Vec::new(alloc),
    })
}

// All classes: the first has the first chunks, the next the next.
fn new_classes(alloc: Global, fresh: u32, configs: &[ClassConfig]) -> Result<Vec<Class>, AllocError>
    requires some { HaveChunks configs.now }
    requires few { chunks_of configs.now ≤ WIDE_CHUNKS }
    ensures { IfOk result (λ ks. map class_view ks.items ≡ classes_from fresh 0 configs.now) }
{
    let mut classes = Vec::new(alloc);
    let mut first = 0;
    for config in configs {
        let class = new_class(alloc, fresh, first, *config)?;
        first = class.end;
        classes.push(class)?;
    }
    Ok(classes)
}

impl Chunk {
    // A chunk before its first life, whose generation is one more.
    fn fresh(generation: u32) -> Chunk
        ensures { result ≡ fresh_chunk generation }
    {
        Chunk {
            head: Head {
                refs: 0,
                linked: false,
                fetched: false,
                active: false,
                segment: Segment::Hot,
                generation,
            },
            time: 0,
            label: 0,
            holds: 0,
        }
    }
}

impl WorldState {
    /// The state of a new World: every chunk is UNUSED, in ascending order, and every worker is
    /// idle. Want of memory is refused.
    pub fn new(alloc: Global, config: &Config) -> Result<WorldState, AllocError>
        ensures state { IfOk result (λ p. state_of p ≡ new_state config.now) }
        ensures generation { config.now.first_generation < 2 ^ 32 }
    {
        let classes = config.classes.as_slice();
        let fresh = config.first_generation - 1;
        let chunk = Chunk::fresh(fresh);
        Ok(WorldState {
            refs_limit: config.refs_limit,
            capacity: config.capacity,
            chunks: vec![in alloc; chunk; config.chunks() as usize]?,
            classes: new_classes(alloc, fresh, classes)?,
            workers: Workers::new(alloc, config.workers)?,
        })
    }
}
