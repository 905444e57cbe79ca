//! Ends by single events: what comes between an end and the sweep of its chunk, and between a
//! drop and the clearing of ACTIVE.
use super::calls::{expect_made, steps_again, world_again};
use super::readers::expect_accounts;
use super::*;

// The head of a chunk.
fn head_of(rt: &impl Abort, world: &World, chunk: u32) -> Head {
    assert!(rt; chunk < world.chunks());
    world.head(chunk)
}

fn take(worker: u32) -> Event {
    Event::Take {
        worker,
        life: FIRST,
    }
}

fn fetch(worker: u32) -> Event {
    Event::Fetch {
        worker,
        life: FIRST,
    }
}

fn mark(worker: u32) -> Event {
    Event::Mark {
        worker,
        life: FIRST,
    }
}

fn pull(to: Segment) -> Event {
    Event::Move { chunk: 0, to }
}

const LABEL: Event = Event::PutLabel { class: 0, label: 7 };

const TIME: Event = Event::PutTime { class: 0, time: 1 };

const LINK: Event = Event::Link { class: 0 };

const RELEASE: Event = Event::Release { life: FIRST };

const UNLINK: Event = Event::Unlink { life: FIRST };

const SWEEP: Event = Event::Sweep { chunk: 0 };

// The head of the first item with so many references, hit in WARM.
fn warm(refs: u32, active: bool) -> Head {
    Head {
        refs,
        linked: true,
        fetched: true,
        active,
        segment: Segment::Warm,
        generation: 1,
    }
}

// The head of the first item with so many references, never hit, in HOT.
fn hot(refs: u32, linked: bool) -> Head {
    Head {
        refs,
        linked,
        fetched: false,
        active: false,
        segment: Segment::Hot,
        generation: 1,
    }
}

// Worker 0 is in the middle of an attempt: its ring can't be closed, nor can its hold be given back.
fn begin_attempt(rt: &impl Abort, world: &mut World) {
    let attempt = [
        LABEL,
        TIME,
        LINK,
        pull(Segment::Cold),
        take(0),
        fetch(0),
        mark(0),
    ];
    expect_run(rt, world, &attempt, Ok(()));
    let close = Event::Close { worker: 0 };
    expect_step(rt, world, close, Err(Refused::NotEnabled));
    expect_step(rt, world, RELEASE, Err(Refused::NotEnabled));
}

// It drops its bump, and another worker sets ACTIVE again before it clears it.
fn drop_late(rt: &impl Abort, world: &mut World) {
    let rescue = [
        Event::DropBusy { worker: 0 },
        Event::ClearActive { chunk: 0 },
        pull(Segment::Warm),
        take(1),
        mark(1),
    ];
    expect_run(rt, world, &rescue, Ok(()));
    let unmark = Event::Unmark { worker: 0 };
    expect_step(rt, world, unmark, Ok(Reply::Word(warm(3, true))));
    expect(rt, "the head", &head_of(rt, world, 0), &warm(3, false));
    let dropped = Accounts {
        attempted: 1,
        busy: 1,
        ..NO_BUMPS
    };
    expect_accounts(rt, world, 0, dropped);
    expect_accounts(rt, world, 1, NO_BUMPS);
}

// A worker in the middle of an attempt can't close its ring, nor can its hold be given back. After a drop it clears
// ACTIVE, also where another worker has set it again.
#[test]
fn a_late_unmark_clears_the_mark_of_another(rt: HostRuntime) -> Result<(), Fail> {
    let mut world = store(rt.alloc(), (2, 1, 8, 1), &[(2, 0, 5)]).ok_or("no memory")?;
    begin_attempt(&rt, &mut world);
    drop_late(&rt, &mut world);
    Ok(())
}

// The item ends while a lane carries its bump: its chunk can't be swept.
fn end_aboard(rt: &impl Abort, world: &mut World) {
    let events = [
        LABEL,
        TIME,
        LINK,
        pull(Segment::Cold),
        take(0),
        fetch(0),
        mark(0),
        Event::Reserve { worker: 0 },
        Event::Push { worker: 0 },
        RELEASE,
        UNLINK,
        Event::TakeBump { worker: 0 },
        SWEEP,
    ];
    expect_run(rt, world, &events, Err((12, Refused::NotEnabled)));
}

// The bump is let go, and the chunk is free.
fn let_go(rt: &impl Abort, alloc: Global, world: &mut World) -> Result<(), AllocError> {
    expect_list(rt, alloc, world, Place::Dying, &[0])?;
    expect_made(rt, world, Event::Try { worker: 0 });
    let alight = Event::Alight { worker: 0 };
    expect_step(rt, world, alight, Ok(Reply::Outcome(Outcome::Gone)));
    expect_made(rt, world, SWEEP);
    expect_list(rt, alloc, world, Place::Unused, &[0, 1])?;
    expect_step(rt, world, SWEEP, Err(Refused::NotEnabled));
    Ok(())
}

// The chunk of an item that ended is not free while a lane carries a bump of it, and is when the bump is let go.
#[test]
fn a_bump_aboard_keeps_the_chunk_of_an_end(rt: HostRuntime) -> Result<(), Fail> {
    let mut world = world(rt.alloc(), 4, 0, 5).ok_or("no memory")?;
    end_aboard(&rt, &mut world);
    Ok(let_go(&rt, rt.alloc(), &mut world)?)
}

// An item is linked, ends and is swept, and then the ring is closed.
fn end_and_close<R: Abort + Eprint>(rt: &R, world: &mut World) -> Result<(), Fail> {
    let events = [LABEL, TIME, LINK, UNLINK, SWEEP, Event::Close { worker: 0 }];
    let replies = [
        Reply::Done,
        Reply::Done,
        Reply::Life(FIRST),
        Reply::Word(hot(1, true)),
        Reply::Word(hot(0, false)),
        Reply::Done,
    ];
    steps_again(rt, world, &events, &replies)?;
    assert!(rt; !head_of(rt, world, 0).linked);
    Ok(())
}

// Where an allocation of these events is refused, whichever it is, nothing has changed, and the event is made again.
#[test]
fn events_of_ends_and_refusals_change_nothing(rt: HostRuntime) -> Result<(), Fail> {
    let mut world = world_again(&rt, rt.alloc())?;
    end_and_close(&rt, &mut world)
}
