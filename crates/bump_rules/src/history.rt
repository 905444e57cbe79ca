//! What happened to the lists of a class.
ghost use Rattle.std.specs.Prelude.{◌≡◌};
ghost use Rattle.bump_rules.specs.Entries.{is_move_of};
ghost use Rattle.bump_rules.specs.History.{subject, target, freed_change};
ghost use Rattle.bump_rules.specs.Starts.{begun_change};

use crate::items::ItemId;
use crate::places::{Place, Segment, Start};

/// Why a chunk moved.
#[derive(Clone, Copy, Debug, PartialEq, Eq)]
pub enum Cause {
    /// By a pull.
    Pull,

    /// For a bump: its worker, and its number among that worker's accepted bumps.
    Bump(u32, u64),
}

/// An entry of a class's history. Each puts a chunk at the front of a list.
#[derive(Clone, Copy, Debug, PartialEq, Eq)]
pub enum Change {
    /// The life began, in HOT.
    Linked(ItemId),

    /// The life began, in TEMP.
    LinkedTemp(ItemId),

    /// The item went from one segment (the first) to the front of another (the second), or of the same.
    Moved(ItemId, Segment, Segment, Cause),

    /// The item was unlinked, and its chunk is DYING.
    Unlinked(ItemId),

    /// The chunk was found without holders, and is UNUSED again.
    Swept(ItemId),

    /// As Swept, but the chunk's generations are used up: it is RETIRED.
    Retired(ItemId),
}

impl Change {
    /// The entry of a life that begins.
    pub fn begun(start: Start, life: ItemId) -> Change
        ensures { result ≡ begun_change start life }
    {
        match start {
            Start::Hot => Change::Linked(life),
            Start::Temp => Change::LinkedTemp(life),
        }
    }

    /// The entry of a chunk that is found without holders: it is UNUSED again, or RETIRED after its last generation.
    pub fn freed(life: ItemId) -> Change
        ensures { result ≡ freed_change life }
    {
        if life.generation == u32::MAX {
            return Change::Retired(life);
        }
        Change::Swept(life)
    }

    /// The chunk that it puts at a front.
    pub fn chunk(self) -> u32
        ensures { result ≡ (subject self).chunk }
    {
        match self {
            Change::Linked(life)
            | Change::LinkedTemp(life)
            | Change::Moved(life, _, _, _)
            | Change::Unlinked(life)
            | Change::Swept(life)
            | Change::Retired(life) => life.chunk,
        }
    }

    /// Whether it is a move for a bump of this worker.
    pub fn is_move_of(self, worker: u32) -> bool
        ensures { result ≡ is_move_of worker self }
    {
        match self {
            Change::Moved(_, _, _, Cause::Bump(of, _)) => of == worker,
            Change::Moved(_, _, _, Cause::Pull)
            | Change::Linked(_)
            | Change::LinkedTemp(_)
            | Change::Unlinked(_)
            | Change::Swept(_)
            | Change::Retired(_) => false,
        }
    }

    /// The list to whose front it puts the chunk.
    pub fn place(self) -> Place
        ensures { result ≡ target self }
    {
        match self {
            Change::Linked(_) => Place::Hot,
            Change::LinkedTemp(_) => Place::Temp,
            Change::Moved(_, _, to, _) => to.place(),
            Change::Unlinked(_) => Place::Dying,
            Change::Swept(_) => Place::Unused,
            Change::Retired(_) => Place::Retired,
        }
    }
}
