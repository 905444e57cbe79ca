//! What tests play on a small store, each on one of its own.
ghost use Rattle.std.specs.Prelude.{◌≡◌};
ghost use Rattle.head_tests.specs.Stores.{IsSmall};

use super::applications::move_item;
use super::bumps::drop_bump;
use super::lives::live;
use super::refusals::refuse;
use super::stores::{Small, config_of, open};
use super::whichever::take_whichever;
use super::*;
use bump_rules::Config;
use std::alloc::{AllocError, Global};
use std::marker::Brand;
use std::process::Abort;
use std::test::Fail;

/// What is played.
#[derive(Clone, Copy)]
pub enum Scene {
    /// A life is held, marked and freed.
    Life,

    /// Whichever life is linked is held.
    Whichever,

    /// Takes are refused.
    Refusals,

    /// A bump without room is dropped.
    Drop,

    /// A bump moves its item.
    Move,
}

// Opens the store under the name of the blank's table, and plays.
fn play_in<N: Name>(
    rt: &impl Abort,
    alloc: Global,
    blank: Blank,
    config: &Config,
    scene: Scene,
) -> Result<(), AllocError>
    requires name { blank.table ≡ N.table }
    requires config { blank.config ≡ config.now }
    requires small { IsSmall config.now }
{
    let Small {
        heads,
        mut class,
        mut worker,
        mut lane,
    } = open::<N>(alloc, blank, config)?;
    match scene {
        Scene::Life => live(rt, &heads, &mut class, &mut worker),
        Scene::Whichever => take_whichever(rt, &heads, &mut class, &mut worker),
        Scene::Refusals => refuse(rt, &heads, &mut class, &mut worker),
        Scene::Drop => drop_bump(rt, &heads, &mut class, &mut worker),
        Scene::Move => move_item(rt, &heads, &mut class, &mut worker, &mut lane),
    }
    Ok(())
}

/// Plays it on a new store with this limit of references, 2 to 1,048,575.
pub fn play(rt: &impl Abort, alloc: Global, limit: u32, scene: Scene) -> Result<(), Fail> {
    let config = config_of(alloc, limit).ok_or("no memory")?;
    let blank = Blank::new(alloc, &config)?;
    Ok(play_in::<Brand>(rt, alloc, blank, &config, scene)?)
}
