//! Calls of a World, whose answers are looked at as a test runs. None has a contract: what a call promises would stand
//! in the proof of each step behind it, and no test needs it.
use super::readers::{expect_told, told_by};
use super::*;
use crate::opening::config_of;

/// Makes an event.
pub fn step(world: &mut World, event: Event) -> Result<Reply, Refused> {
    world.step(event)
}

/// Makes an event, which is answered or refused so.
pub fn expect_step(rt: &impl Abort, world: &mut World, event: Event, told: Result<Reply, Refused>) {
    assert_eq!(rt; step(world, event), told, "at {event:?}");
}

/// Makes an event, whatever it is answered.
pub fn expect_made(rt: &impl Abort, world: &mut World, event: Event) {
    assert!(rt; step(world, event).is_ok(), "at {event:?}");
}

/// Makes events in turn, up to the first that is refused.
pub fn run(world: &mut World, events: &[Event]) -> Result<(), (usize, Refused)> {
    world.run(events)
}

/// Makes events in turn, which are all made, or refused so.
pub fn expect_run(
    rt: &impl Abort,
    world: &mut World,
    events: &[Event],
    told: Result<(), (usize, Refused)>,
) {
    assert_eq!(rt; run(world, events), told);
}

/// A command, and how it is answered or refused.
pub type Row = (Command, Result<Answer, Refused>);

fn command(world: &mut World, command: Command) -> Result<Answer, Refused> {
    world.command(command)
}

/// Says which call was refused. `checks/refused_allocations` looks for these words, and counts them by call.
pub fn tell_refused(rt: &impl Eprint, call: &str) -> Result<(), Fail> {
    eprintln!(rt; "an allocation was refused: {call}")?;
    Ok(())
}

// The configuration of a World of one worker and one class of two chunks, asked for again where it is refused.
fn config_again(rt: &impl Eprint, alloc: Global) -> Result<Config, Fail> {
    let (numbers, sizes) = ((1, 4, 4, 1), [(2, 0, 5)]);
    match config_of(alloc, numbers, &sizes) {
        Ok(config) => Ok(config?),
        Err(_) => {
            tell_refused(rt, "the configuration")?;
            Ok(config_of(alloc, numbers, &sizes)??)
        }
    }
}

/// A World of one worker and one class of two chunks. Where it is refused, it is asked for again.
pub fn world_again(rt: &impl Eprint, alloc: Global) -> Result<World, Fail> {
    let config = config_again(rt, alloc)?;
    match World::new(alloc, &config) {
        Ok(world) => Ok(world),
        Err(_) => {
            tell_refused(rt, "World::new")?;
            Ok(World::new(alloc, &config)?)
        }
    }
}

// Makes a command, and makes it again where memory is refused: nothing has changed then.
fn command_again<R: Abort + Eprint>(
    rt: &R,
    world: &mut World,
    made: Command,
) -> Result<Result<Answer, Refused>, Fail> {
    let before = told_by(rt, world);
    let told = command(world, made);
    if told != Err(Refused::OutOfMemory) {
        return Ok(told);
    }
    tell_refused(rt, "World::command")?;
    expect_told(rt, world, &before);
    Ok(command(world, made))
}

// Makes a command, which is answered or refused so.
fn expect_row<R: Abort + Eprint>(rt: &R, world: &mut World, row: &Row) -> Result<(), Fail> {
    let (made, told) = row;
    assert_eq!(rt; command_again(rt, world, *made)?, *told, "at {made:?}");
    Ok(())
}

/// Makes commands in turn, each of which is answered or refused so. One that is refused for want of memory has changed
/// nothing, and is made again.
pub fn expect_rows<R: Abort + Eprint>(rt: &R, world: &mut World, rows: &[Row]) -> Result<(), Fail> {
    for row in rows.iter() {
        expect_row(rt, world, row)?;
    }
    Ok(())
}

// Makes an event, and makes it again where memory is refused: nothing has changed then.
fn step_again<R: Abort + Eprint>(
    rt: &R,
    world: &mut World,
    event: Event,
) -> Result<Result<Reply, Refused>, Fail> {
    let before = told_by(rt, world);
    let told = step(world, event);
    if told != Err(Refused::OutOfMemory) {
        return Ok(told);
    }
    tell_refused(rt, "World::step")?;
    expect_told(rt, world, &before);
    Ok(step(world, event))
}

// Makes an event, which answers this.
fn expect_reply<R: Abort + Eprint>(
    rt: &R,
    world: &mut World,
    event: Event,
    reply: Reply,
) -> Result<(), Fail> {
    assert_eq!(rt; step_again(rt, world, event)?, Ok(reply), "at {event:?}");
    Ok(())
}

/// Makes events in turn, each with its answer. One that is refused for want of memory has changed nothing, and is made
/// again.
pub fn steps_again<R: Abort + Eprint>(
    rt: &R,
    world: &mut World,
    events: &[Event],
    replies: &[Reply],
) -> Result<(), Fail> {
    expect(rt, "the answers", &replies.len(), &events.len());
    for (event, reply) in events.iter().zip(replies.iter()) {
        expect_reply(rt, world, *event, *reply)?;
    }
    Ok(())
}
