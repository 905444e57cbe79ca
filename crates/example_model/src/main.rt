//! A World, which is the model of a store, and its commands: an example to be copied. An item ages and is hit, and its
//! bump moves it to WARM; another ends while it is held. Each command is printed with its answer. In this folder
//! `rt try` runs it, and `rt run` proves it first.
#![tactic(auto)]

mod report;

use anyhow::{Result, bail};
use bump_core::{Answer, ClassConfig, Command, Config, ItemId, Tail, World};
use report::print_world;

// Makes a command, and says what it answers. A refusal changes nothing.
fn make(rt: &impl Print, world: &mut World, command: Command) -> Result<Answer> {
    let answer = world.command(command)?;
    println!(rt; "{command:?}: {answer:?}")?;
    Ok(answer)
}

// Stores an item. Its label is for the caller, as the place of its value.
fn link(rt: &impl Print, world: &mut World, label: u64, now: u64) -> Result<ItemId> {
    let link = Command::Link {
        class: 0,
        label,
        now,
    };
    match make(rt, world, link)? {
        Answer::Linked(id) => Ok(id),
        _ => bail!("no chunk is free"),
    }
}

// Looks at the last item of a list, and moves it by the tail table; or ends the last one of COLD.
fn pull(rt: &impl Print, world: &mut World, tail: Tail) -> Result<Answer> {
    make(rt, world, Command::Pull { class: 0, tail })
}

// A hit of an item by the first worker: its hold is taken, it is touched, and the hold is given back.
fn hit(rt: &impl Print, world: &mut World, id: ItemId, now: u64) -> Result<()> {
    let worker = 0;
    make(rt, world, Command::Take { worker, id })?;
    make(rt, world, Command::Touch { worker, id, now })?;
    make(rt, world, Command::Release { id })?;
    Ok(())
}

// An item that is ended while somebody holds it: it can be read on, and its chunk is free only after that.
fn end_held(rt: &impl Print, world: &mut World, id: ItemId) -> Result<()> {
    make(rt, world, Command::Take { worker: 1, id })?;
    make(rt, world, Command::Unlink { id })?;
    make(rt, world, Command::Label { id })?;
    make(rt, world, Command::Sweep { class: 0 })?;
    make(rt, world, Command::Release { id })?;
    make(rt, world, Command::Sweep { class: 0 })?;
    Ok(())
}

// A World of one class of two chunks, for two workers. HOT and WARM have an item at most, before a pull moves one on.
fn open(rt: &impl AllocGlobal) -> Result<World> {
    let class = ClassConfig {
        chunks: 2,
        hot: 1,
        warm: 1,
    };
    let config = Config::new(2, 4, 8, 1, vec![in rt.alloc(); class]?)?;
    Ok(World::new(rt.alloc(), &config)?)
}

fn run(rt: &(impl Print + AllocGlobal)) -> Result<()> {
    let mut world = open(rt)?;
    let apple = link(rt, &mut world, 100, 1)?;
    let pear = link(rt, &mut world, 200, 2)?;

    // HOT has two items and its limit is one: the older one goes to COLD.
    pull(rt, &mut world, Tail::Hot)?;

    // The first hit leaves a mark, the second one in COLD queues a bump.
    hit(rt, &mut world, apple, 3)?;
    hit(rt, &mut world, apple, 4)?;
    print_world(rt, &world)?;

    // The bump moves it to WARM.
    make(rt, &mut world, Command::Next { worker: 0, now: 5 })?;
    end_held(rt, &mut world, pear)?;
    print_world(rt, &world)?;
    Ok(())
}

fn main(rt: HostRuntime) -> Result<()> {
    run(&rt)
}
