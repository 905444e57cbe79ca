//! What is measured of a Book.
use crate::callers::{Before, Call};
use crate::stores::FURTHER;
use bump_store::{ClassConfig, Place, Tail};

/// A workload of one class, which one thread has.
#[derive(Clone, Copy)]
pub struct Calls {
    pub name: &'static str,

    /// The class: 1 to 1,000,000 chunks, and the limits of HOT and of WARM.
    pub class: ClassConfig,

    /// How many further words each chunk has.
    pub further: u32,

    /// How many items are linked before, and what is done with all of them, one thing after another.
    pub items: u32,
    pub before: &'static [Before],

    /// What is called, and how often; of a sweep, how many chunks of DYING it looks at.
    pub call: Call,
    pub times: u32,

    /// The list in which all items stand behind it.
    pub behind: Place,
}

// Half of a class is linked.
const LINKS: Calls = Calls {
    name: "link_unlink",
    class: ClassConfig {
        chunks: 65_536,
        hot: 0,
        warm: 0,
    },
    further: 0,
    items: 32_768,
    before: &[],
    call: Call::LinkUnlink,
    times: 32_768,
    behind: Place::Hot,
};

// HOT and WARM may have nothing, so that each pull moves its item to COLD.
const PULL: Calls = Calls {
    name: "pull_hot_cold",
    class: NO_ROOM,
    further: 0,
    items: 8_192,
    before: &[],
    call: Call::Pull(Tail::Hot),
    times: 8_192,
    behind: Place::Cold,
};

const NO_ROOM: ClassConfig = ClassConfig {
    chunks: 8_192,
    hot: 0,
    warm: 0,
};

// HOT and WARM may have all items.
const ROOM: ClassConfig = ClassConfig {
    chunks: 8_192,
    hot: 8_192,
    warm: 8_192,
};

// All items have ended, and nobody holds them.
const SWEEP: Calls = Calls {
    name: "sweep_freed",
    before: &[Before::End],
    call: Call::Sweep,
    behind: Place::Unused,
    ..PULL
};

/// The workloads, in the order of the table.
pub const CALLS: [Calls; 18] = [
    LINKS,
    Calls {
        name: "link_unlink_words",
        further: FURTHER,
        call: Call::LinkUnlinkWords,
        ..LINKS
    },
    Calls {
        name: "link_unlink_1000",
        class: ClassConfig {
            chunks: 1_000,
            ..NO_ROOM
        },
        items: 500,
        ..LINKS
    },
    Calls {
        name: "link_unlink_1000000",
        class: ClassConfig {
            chunks: 1_000_000,
            ..NO_ROOM
        },
        items: 500_000,
        ..LINKS
    },
    Calls {
        name: "pull_hot_active",
        before: &[Before::Hit, Before::Hit],
        behind: Place::Warm,
        ..PULL
    },
    PULL,
    Calls {
        name: "pull_hot_stay",
        class: ROOM,
        behind: Place::Hot,
        ..PULL
    },
    Calls {
        name: "pull_warm_active",
        before: &[
            Before::Hit,
            Before::Hit,
            Before::Pull(Tail::Hot),
            Before::Hit,
        ],
        call: Call::Pull(Tail::Warm),
        behind: Place::Warm,
        ..PULL
    },
    Calls {
        name: "pull_warm_cold",
        before: &[Before::Hit, Before::Hit, Before::Pull(Tail::Hot)],
        call: Call::Pull(Tail::Warm),
        ..PULL
    },
    Calls {
        name: "pull_warm_stay",
        class: ROOM,
        before: &[Before::Hit, Before::Hit, Before::Pull(Tail::Hot)],
        call: Call::Pull(Tail::Warm),
        behind: Place::Warm,
        ..PULL
    },
    Calls {
        name: "pull_cold_active",
        before: &[Before::Hit, Before::Pull(Tail::Hot), Before::Hit],
        call: Call::Pull(Tail::Cold),
        behind: Place::Warm,
        ..PULL
    },
    Calls {
        name: "pull_cold_stay",
        before: &[Before::Pull(Tail::Hot)],
        call: Call::Pull(Tail::Cold),
        ..PULL
    },
    Calls {
        name: "pull_evict",
        before: &[Before::Pull(Tail::Hot)],
        call: Call::Pull(Tail::Evict),
        behind: Place::Unused,
        ..PULL
    },
    Calls {
        name: "pull_evict_held",
        before: &[Before::Hit, Before::Pull(Tail::Hot), Before::Hit],
        call: Call::Pull(Tail::Evict),
        behind: Place::Dying,
        ..PULL
    },
    Calls {
        name: "pull_hot_cold_1000000",
        class: ClassConfig {
            chunks: 1_000_000,
            ..NO_ROOM
        },
        items: 1_000_000,
        times: 1_000_000,
        ..PULL
    },
    SWEEP,
    Calls {
        name: "sweep_held",
        before: &[
            Before::Hit,
            Before::Pull(Tail::Hot),
            Before::Hit,
            Before::Pull(Tail::Evict),
        ],
        behind: Place::Dying,
        ..SWEEP
    },
    Calls {
        name: "sweep_freed_1000000",
        class: ClassConfig {
            chunks: 1_000_000,
            ..NO_ROOM
        },
        items: 1_000_000,
        times: 1_000_000,
        ..SWEEP
    },
];
