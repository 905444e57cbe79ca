//! Tables of commands with their answers: a sweep, commands that are refused, and refused allocations.
use super::calls::{Row, expect_rows, world_again};
use super::*;

fn refused(command: Command) -> Row {
    (command, Err(Refused::NotEnabled))
}

fn link(class: u32, told: Answer) -> Row {
    let command = Command::Link {
        class,
        label: 7,
        now: 3,
    };
    (command, Ok(told))
}

fn linked_in(class: u32, id: ItemId) -> Row {
    link(class, Answer::Linked(id))
}

fn link_temp(class: u32, told: Answer) -> Row {
    let command = Command::LinkTemp {
        class,
        label: 7,
        now: 3,
    };
    (command, Ok(told))
}

fn linked_in_temp(class: u32, id: ItemId) -> Row {
    link_temp(class, Answer::Linked(id))
}

fn unlinked(id: ItemId, told: Answer) -> Row {
    (Command::Unlink { id }, Ok(told))
}

fn ended(id: ItemId, ended: Ended) -> Row {
    unlinked(id, Answer::Ended(ended))
}

fn swept(class: u32, count: u32) -> Row {
    (Command::Sweep { class }, Ok(Answer::Swept(count)))
}

fn pulled_in(class: u32, tail: Tail, pulled: Pulled) -> Row {
    (Command::Pull { class, tail }, Ok(Answer::Pulled(pulled)))
}

fn took(worker: u32, id: ItemId, told: Answer) -> Row {
    (Command::Take { worker, id }, Ok(told))
}

fn touched_by(worker: u32, id: ItemId, touch: Touch) -> Row {
    let command = Command::Touch { worker, id, now: 5 };
    (command, Ok(Answer::Touched(touch)))
}

fn released_once(id: ItemId) -> Row {
    (Command::Release { id }, Ok(Answer::Done))
}

fn applied_by(worker: u32, number: u64, life: ItemId, applied: Applied) -> Row {
    let entry = Entry {
        number,
        life,
        applied,
    };
    (Command::Next { worker, now: 9 }, Ok(Answer::Bumped(entry)))
}

fn nothing(worker: u32) -> Row {
    (Command::Next { worker, now: 9 }, Ok(Answer::Nothing))
}

fn closed(worker: u32) -> Row {
    (Command::Close { worker }, Ok(Answer::Done))
}

// A sweep frees front to back as the list stands, and passes by what is held.
fn sweep<R: Abort + Eprint>(rt: &R, alloc: Global, world: &mut World) -> Result<(), Fail> {
    let rows = [
        linked_in(0, FIRST),
        linked_in(0, item(1, 1)),
        linked_in(0, item(2, 1)),
        took(0, FIRST, Answer::Held),
        took(0, item(1, 1), Answer::Held),
        took(0, item(2, 1), Answer::Held),
        ended(FIRST, Ended::Deferred),
        ended(item(1, 1), Ended::Deferred),
        ended(item(2, 1), Ended::Deferred),
        released_once(FIRST),
        released_once(item(2, 1)),
        swept(0, 2),
    ];
    expect_rows(rt, world, &rows)?;
    expect_list(rt, alloc, world, Place::Dying, &[1])?;
    Ok(expect_list(rt, alloc, world, Place::Unused, &[0, 2, 3])?)
}

#[test]
fn a_sweep_passes_by_what_is_held(rt: HostRuntime) -> Result<(), Fail> {
    let mut world = store(rt.alloc(), (1, 4, 4, 1), &[(4, 5, 5)]).ok_or("no memory")?;
    sweep(&rt, rt.alloc(), &mut world)
}

// An item of TEMP is marked by hits, and no pull takes it.
fn stay_in_temp<R: Abort + Eprint>(rt: &R, alloc: Global, world: &mut World) -> Result<(), Fail> {
    let rows = [
        linked_in_temp(0, FIRST),
        linked_in_temp(0, item(1, 1)),
        link_temp(0, Answer::NoFreeChunk),
        took(0, FIRST, Answer::Held),
        touched_by(0, FIRST, Touch::First),
        touched_by(0, FIRST, Touch::Marked),
        touched_by(0, FIRST, Touch::Already),
        released_once(FIRST),
        pulled_in(0, Tail::Hot, Pulled::Empty),
        pulled_in(0, Tail::Warm, Pulled::Empty),
        pulled_in(0, Tail::Cold, Pulled::Empty),
        pulled_in(0, Tail::Evict, Pulled::Empty),
        nothing(0),
    ];
    expect_rows(rt, world, &rows)?;
    expect_list(rt, alloc, world, Place::Temp, &[1, 0])?;
    expect_rows(rt, world, &[ended(FIRST, Ended::Freed)])?;
    expect_list(rt, alloc, world, Place::Temp, &[1])?;
    Ok(expect_list(rt, alloc, world, Place::Unused, &[0])?)
}

#[test]
fn an_item_of_temp_stays_until_it_ends(rt: HostRuntime) -> Result<(), Fail> {
    let mut world = store(rt.alloc(), (1, 4, 4, 1), &[(2, 0, 0)]).ok_or("no memory")?;
    stay_in_temp(&rt, rt.alloc(), &mut world)
}

// Each command with a number out of range, or a life that isn't held.
fn go_out_of_range<R: Abort + Eprint>(rt: &R, world: &mut World) -> Result<(), Fail> {
    let rows = [
        linked_in(0, FIRST),
        refused(link(2, Answer::NoFreeChunk).0),
        refused(link_temp(2, Answer::NoFreeChunk).0),
        refused(swept(2, 0).0),
        refused(pulled_in(2, Tail::Evict, Pulled::Empty).0),
        refused(took(2, FIRST, Answer::Held).0),
        refused(touched_by(0, FIRST, Touch::First).0),
        refused(Command::Label { id: FIRST }),
        refused(Command::Release { id: FIRST }),
        refused(nothing(2).0),
        refused(closed(2).0),
        unlinked(item(3, 1), Answer::NoSuchChunk),
    ];
    expect_rows(rt, world, &rows)
}

#[test]
fn commands_out_of_range_are_refused(rt: HostRuntime) -> Result<(), Fail> {
    let sizes = [(2, 0, 1), (1, 0, 0)];
    let mut world = store(rt.alloc(), (2, 1, 4, 1), &sizes).ok_or("no memory")?;
    go_out_of_range(&rt, &mut world)
}

// An item ends while its bump waits, and its chunk is used again.
fn end_queued<R: Abort + Eprint>(rt: &R, world: &mut World) -> Result<(), Fail> {
    let rows = [
        linked_in(0, FIRST),
        pulled_in(0, Tail::Hot, Pulled::Cold(FIRST)),
        took(0, FIRST, Answer::Held),
        touched_by(0, FIRST, Touch::First),
        touched_by(0, FIRST, Touch::Queued(0)),
        ended(FIRST, Ended::Deferred),
        released_once(FIRST),
        applied_by(0, 0, FIRST, Applied::Gone(Ended::Freed)),
        linked_in(0, item(0, 2)),
        ended(item(0, 2), Ended::Freed),
    ];
    expect_rows(rt, world, &rows)
}

// Then one is swept, and one is evicted.
fn sweep_and_evict<R: Abort + Eprint>(rt: &R, world: &mut World) -> Result<(), Fail> {
    let rows = [
        linked_in_temp(0, item(0, 3)),
        took(0, item(0, 3), Answer::Held),
        ended(item(0, 3), Ended::Deferred),
        released_once(item(0, 3)),
        swept(0, 1),
        linked_in(0, item(0, 4)),
        pulled_in(0, Tail::Hot, Pulled::Cold(item(0, 4))),
        pulled_in(0, Tail::Evict, Pulled::Freed(item(0, 4))),
        closed(0),
    ];
    expect_rows(rt, world, &rows)
}

fn end_all<R: Abort + Eprint>(rt: &R, world: &mut World) -> Result<(), Fail> {
    end_queued(rt, world)?;
    sweep_and_evict(rt, world)
}

// Where an allocation of an end, a sweep or an evict is refused, whichever it is, nothing has
// changed, and the call is made again.
#[test]
fn ends_and_refusals_change_nothing(rt: HostRuntime) -> Result<(), Fail> {
    let mut world = world_again(&rt, rt.alloc())?;
    end_all(&rt, &mut world)
}
