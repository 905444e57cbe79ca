//! A gate that looks at each of its calls.
use std::sync::atomic::{AtomicU64, Ordering};
use store_trace::Gate;

/// How many of a worker's lines came to the gate, and how many went on behind it.
#[derive(Drop)]
struct Lines {
    entered: AtomicU64,
    left: AtomicU64,
}

impl Lines {
    fn none() -> Lines {
        Lines {
            entered: AtomicU64::new(0),
            left: AtomicU64::new(0),
        }
    }

    fn counts(&self) -> (u64, u64) {
        let entered = self.entered.load(Ordering::SeqCst);
        (entered, self.left.load(Ordering::SeqCst))
    }

    // Whether the line that comes is the next one, and the one before was left.
    fn enter(&self, call: u64) -> bool {
        let (entered, left) = self.counts();
        self.entered.fetch_add(1, Ordering::SeqCst);
        entered == call && left == call
    }

    // Whether the line that leaves is the one that came last.
    fn leave(&self, call: u64) -> bool {
        let (entered, left) = self.counts();
        self.left.fetch_add(1, Ordering::SeqCst);
        left == call && entered.checked_sub(1) == Some(call)
    }
}

/// Lets so many lines of worker 0 pass, and all of worker 1, and counts them.
#[derive(Drop)]
pub(super) struct Counting {
    first: Lines,
    second: Lines,
    room: u64,
    wrong: AtomicU64,
}

impl Counting {
    pub(super) fn new(room: u64) -> Counting {
        Counting {
            first: Lines::none(),
            second: Lines::none(),
            room,
            wrong: AtomicU64::new(0),
        }
    }

    /// How many lines of each worker came, and how many left.
    pub(super) fn counts(&self) -> ((u64, u64), (u64, u64)) {
        (self.first.counts(), self.second.counts())
    }

    /// Whether each worker's lines came as 0, 1, 2 and so on, and each left before the next one came.
    pub(super) fn is_in_turn(&self) -> bool {
        self.wrong.load(Ordering::SeqCst) == 0
    }

    fn note(&self, is_right: bool) {
        if !is_right {
            self.wrong.store(1, Ordering::SeqCst);
        }
    }
}

impl Gate for Counting {
    fn begin(&self, _drainers: u32) {}

    fn enter(&self, worker: u32, call: u64) -> bool {
        match worker {
            0 => self.note(self.first.enter(call)),
            1 => self.note(self.second.enter(call)),
            _ => self.note(false),
        }
        worker != 0 || call < self.room
    }

    fn leave(&self, worker: u32, call: u64) {
        match worker {
            0 => self.note(self.first.leave(call)),
            1 => self.note(self.second.leave(call)),
            _ => self.note(false),
        }
    }
}
