//! A promotion: an item is stored, pulled to COLD, hit twice, and its bump applied. By commands, by events and by runs.
use super::calls::*;
use super::readers::{Readers, expect_told, told_by};
use super::*;

/// Each command with its answer.
const PROMOTION: [Row; 12] = [
    (
        Command::Link {
            class: 0,
            label: 7,
            now: 3,
        },
        Ok(Answer::Linked(FIRST)),
    ),
    (
        Command::Pull {
            class: 0,
            tail: Tail::Hot,
        },
        Ok(Answer::Pulled(Pulled::Cold(FIRST))),
    ),
    (
        Command::Take {
            worker: 0,
            id: FIRST,
        },
        Ok(Answer::Held),
    ),
    (Command::Label { id: FIRST }, Ok(Answer::Label(7))),
    (
        Command::Touch {
            worker: 0,
            id: FIRST,
            now: 5,
        },
        Ok(Answer::Touched(Touch::First)),
    ),
    (Command::Release { id: FIRST }, Ok(Answer::Done)),
    (
        Command::Take {
            worker: 0,
            id: FIRST,
        },
        Ok(Answer::Held),
    ),
    (Command::Label { id: FIRST }, Ok(Answer::Label(7))),
    (
        Command::Touch {
            worker: 0,
            id: FIRST,
            now: 6,
        },
        Ok(Answer::Touched(Touch::Queued(0))),
    ),
    (Command::Release { id: FIRST }, Ok(Answer::Done)),
    (
        Command::Next { worker: 0, now: 7 },
        Ok(Answer::Bumped(Entry {
            number: 0,
            life: FIRST,
            applied: Applied::Moved,
        })),
    ),
    (Command::Next { worker: 0, now: 7 }, Ok(Answer::Nothing)),
];

/// The events of the same commands.
const PROMOTION_EVENTS: [Event; 21] = [
    Event::PutLabel { class: 0, label: 7 },
    Event::PutTime { class: 0, time: 3 },
    Event::Link { class: 0 },
    Event::ClearActive { chunk: 0 },
    Event::Move {
        chunk: 0,
        to: Segment::Cold,
    },
    Event::Take {
        worker: 0,
        life: FIRST,
    },
    Event::Fetch {
        worker: 0,
        life: FIRST,
    },
    Event::Release { life: FIRST },
    Event::Take {
        worker: 0,
        life: FIRST,
    },
    Event::Fetch {
        worker: 0,
        life: FIRST,
    },
    Event::Mark {
        worker: 0,
        life: FIRST,
    },
    Event::Reserve { worker: 0 },
    Event::Push { worker: 0 },
    Event::Release { life: FIRST },
    Event::TakeBump { worker: 0 },
    Event::Try { worker: 0 },
    Event::BumpTime { worker: 0, time: 7 },
    Event::ClearFor { worker: 0 },
    Event::MoveFor { worker: 0 },
    Event::Load { chunk: 0 },
    Event::Alight { worker: 0 },
];

/// The head of the first item when its life begins.
const BEGUN: Head = Head {
    refs: 1,
    linked: true,
    fetched: false,
    active: false,
    segment: Segment::Hot,
    generation: 1,
};

/// In COLD, with a hold.
const HELD: Head = Head {
    refs: 2,
    segment: Segment::Cold,
    ..BEGUN
};

/// The same, hit once.
const HIT: Head = Head {
    fetched: true,
    ..HELD
};

/// Hit twice, with a hold and a bump.
const BUMPED: Head = Head {
    refs: 3,
    active: true,
    ..HIT
};

/// The same, with the bump alone.
const RIDDEN: Head = Head { refs: 2, ..BUMPED };

/// Once it was moved, with the bump that moved it.
const CARRIED: Head = Head { refs: 2, ..MOVED };

/// The head of the first item once it was moved.
const MOVED: Head = Head {
    refs: 1,
    linked: true,
    fetched: true,
    active: false,
    segment: Segment::Warm,
    generation: 1,
};

/// What these events answer.
const PROMOTION_REPLIES: [Reply; 21] = [
    Reply::Done,
    Reply::Done,
    Reply::Life(FIRST),
    Reply::Word(BEGUN),
    Reply::Done,
    Reply::Done,
    Reply::Word(HELD),
    Reply::Word(HIT),
    Reply::Done,
    Reply::Word(HIT),
    Reply::Word(HIT),
    Reply::Done,
    Reply::Number(0),
    Reply::Word(BUMPED),
    Reply::Number(0),
    Reply::Word(RIDDEN),
    Reply::Done,
    Reply::Word(RIDDEN),
    Reply::Done,
    Reply::Word(CARRIED),
    Reply::Outcome(Outcome::Moved),
];

/// The head of a chunk that was never used.
const NEW: Head = Head {
    refs: 0,
    linked: false,
    fetched: false,
    active: false,
    segment: Segment::Hot,
    generation: 0,
};

/// What a promotion leaves.
const PROMOTED: Readers = Readers {
    bounds: ((1, 2, 1), (4, 4), (0, 5)),
    chunks: ((MOVED, 7, 7, 0), (NEW, 0, 0, 0)),
    lists: [
        (0, None, None),
        (1, Some(0), Some(0)),
        (0, None, None),
        (0, None, None),
        (0, None, None),
        (1, Some(1), Some(1)),
        (0, None, None),
    ],
    history: (
        3,
        Some(Change::Moved(FIRST, Segment::Cold, Segment::Warm, Cause::Bump(0, 0))),
    ),
    moves: 1,
    accounts: Accounts {
        attempted: 1,
        accepted: 1,
        ..NO_BUMPS
    },
    is_open: true,
    bumps: ((1, Some(FIRST)), (1, Some(FIRST))),
    applied: (
        1,
        Some(AppliedBump {
            number: 0,
            life: FIRST,
            outcome: Outcome::Moved,
        }),
    ),
};

// The promotion by commands.
fn promote<R: Abort + Eprint>(rt: &R, world: &mut World) -> Result<(), Fail> {
    expect_rows(rt, world, &PROMOTION)?;
    expect_told(rt, world, &PROMOTED);
    Ok(())
}

// Where an allocation is made to fail, whichever it is, the refused call has changed nothing, and is made again.
#[test]
fn commands_promote_and_refusals_change_nothing(rt: HostRuntime) -> Result<(), Fail> {
    let mut world = world_again(&rt, rt.alloc())?;
    promote(&rt, &mut world)
}

// The promotion by single events.
fn promote_by_steps<R: Abort + Eprint>(rt: &R, world: &mut World) -> Result<(), Fail> {
    steps_again(rt, world, &PROMOTION_EVENTS, &PROMOTION_REPLIES)?;
    expect_told(rt, world, &PROMOTED);
    Ok(())
}

// The same by single events.
#[test]
fn steps_promote_and_refusals_change_nothing(rt: HostRuntime) -> Result<(), Fail> {
    let mut world = world_again(&rt, rt.alloc())?;
    promote_by_steps(&rt, &mut world)
}

// What the readers tell of another World in which so many of the events were made, one by one.
fn told_after<R: Abort + Eprint>(rt: &R, alloc: Global, events: &[Event]) -> Result<Readers, Fail> {
    let mut other = world_again(rt, alloc)?;
    for event in events.iter() {
        expect_made(rt, &mut other, *event);
    }
    Ok(told_by(rt, &other))
}

// The rest of the events, from the refused one on, are made. Those before it stay.
fn run_rest<R: Abort + Eprint>(
    rt: &R,
    alloc: Global,
    world: &mut World,
    place: usize,
) -> Result<(), Fail> {
    assert!(rt; place < PROMOTION_EVENTS.len());
    let wanted = told_after(rt, alloc, &PROMOTION_EVENTS[..place])?;
    expect_told(rt, world, &wanted);
    expect_run(rt, world, &PROMOTION_EVENTS[place..], Ok(()));
    Ok(())
}

// The promotion by runs: what came before the refused event stays, and the rest is run from there.
fn promote_by_runs<R: Abort + Eprint>(
    rt: &R,
    alloc: Global,
    world: &mut World,
) -> Result<(), Fail> {
    if let Err((place, refused)) = run(world, &PROMOTION_EVENTS) {
        tell_refused(rt, "World::run")?;
        expect(rt, "why it was refused", &refused, &Refused::OutOfMemory);
        run_rest(rt, alloc, world, place)?;
    }
    expect_told(rt, world, &PROMOTED);
    Ok(())
}

// The same by runs.
#[test]
fn runs_promote_and_go_on_after_a_refusal(rt: HostRuntime) -> Result<(), Fail> {
    let mut world = world_again(&rt, rt.alloc())?;
    promote_by_runs(&rt, rt.alloc(), &mut world)
}
