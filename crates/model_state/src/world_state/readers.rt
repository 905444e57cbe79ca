//! How the state of a World is read.
ghost use Rattle.std.specs.Prelude.{◌≡◌, ◌<◌, nat_lt, IfSome, length};
ghost use Rattle.model_state.specs.State.{chunk_at, head_at, worker_at, is_chunk, is_class, is_worker, is_current};
ghost use Rattle.model_state.specs.State.{is_linked, is_held, workers_on, has_free_hold, class_of, is_under_application};
ghost use Rattle.model_state.specs.State.{is_open, class_at};
ghost use Rattle.model_state.specs.Events.{next_bump, waiting, next_chunk};
ghost use Rattle.bump_rules.specs.Lists.{list_at, IsListed};
ghost use Rattle.model_state.specs.Worlds.{IsLawful};
ghost use Rattle.bump_links.specs.Lists.{times, last_of};
ghost use Rattle.model_state.specs.Sweeps.{sweep_of};
ghost use Rattle.model_state.specs.Views.{state_of};

use crate::chunks::Chunk;
use crate::world_state::WorldState;
use bump_rules::{Accounts, AppliedBump, Hand, Head, ItemId, LaneStage, ListedChunks, Place};

impl WorldState {
    /// Whether there is a chunk of this number.
    pub fn has_chunk(&self, chunk: u32) -> bool
        ensures { result ≡ is_chunk (state_of self.now) chunk }
    {
        (chunk as usize) < self.chunks.len()
    }

    /// Whether there is a class of this number.
    pub fn has_class(&self, class: u32) -> bool
        ensures { result ≡ is_class (state_of self.now) class }
    {
        (class as usize) < self.classes.len()
    }

    /// Whether there is a worker of this number.
    pub fn has_worker(&self, worker: u32) -> bool
        ensures { result ≡ is_worker (state_of self.now) worker }
    {
        worker < self.workers.len()
    }

    /// A chunk. Its number is in range.
    pub fn chunk(&self, chunk: u32) -> Chunk
        requires { chunk < length (state_of self.now).chunks }
        ensures { result ≡ chunk_at (state_of self.now) chunk }
    {
        self.chunks[chunk as usize]
    }

    /// A chunk's head. The chunk's number is in range.
    pub fn head(&self, chunk: u32) -> Head
        requires { chunk < length (state_of self.now).chunks }
        ensures { result ≡ head_at (state_of self.now) chunk }
    {
        self.chunk(chunk).head
    }

    /// How far a worker is with an attempt. The worker's number is in range.
    pub fn hand(&self, worker: u32) -> Hand
        requires { worker < length (state_of self.now).workers }
        ensures { result ≡ (worker_at (state_of self.now) worker).hand }
    {
        self.workers.at(worker).hand
    }

    /// Whether a life is its chunk's.
    pub(crate) fn is_current(&self, life: ItemId) -> bool
        ensures { result ≡ is_current (state_of self.now) life }
    {
        self.has_chunk(life.chunk) && self.head(life.chunk).generation == life.generation
    }

    /// Whether a life is its chunk's and is linked.
    pub fn is_linked(&self, life: ItemId) -> bool
        ensures { result ≡ is_linked (state_of self.now) life }
    {
        self.is_current(life) && self.head(life.chunk).linked
    }

    /// Whether a life is its chunk's and has a hold.
    pub fn is_held(&self, life: ItemId) -> bool
        ensures { result ≡ is_held (state_of self.now) life }
    {
        self.is_current(life) && self.chunk(life.chunk).holds > 0
    }

    /// Whether a worker's ring still takes bumps.
    pub fn is_open(&self, worker: u32) -> bool
        ensures { result ≡ is_open (state_of self.now) worker }
    {
        self.has_worker(worker) && self.workers.at(worker).is_open
    }

    /// How many workers that aren't idle are on a life.
    pub(crate) fn workers_on(&self, life: ItemId) -> usize
        ensures { result ≡ workers_on (state_of self.now) life }
    {
        // mostly none, and then there is no need to look at each
        if self.workers.not_idle() == 0 {
            return 0;
        }
        let mut count = 0;
        for worker in self.workers.as_slice() {
            if worker.hand.is_on(life) {
                count += 1;
            }
        }
        count
    }

    /// Whether a life has a hold that no worker uses.
    pub fn has_free_hold(&self, life: ItemId) -> bool
        ensures { result ≡ has_free_hold (state_of self.now) life }
    {
        self.is_current(life) && self.workers_on(life) < self.chunk(life.chunk).holds as usize
    }

    /// The number of a chunk's class: of the first class that ends behind it, or else the number of classes.
    pub fn class_of(&self, chunk: u32) -> usize
        ensures { result ≡ class_of (state_of self.now) chunk }
    {
        for (k, class) in self.classes.iter().enumerate() {
            if chunk < class.end {
                return k;
            }
        }
        self.classes.len()
    }

    /// Whether a lane applies a bump of a class.
    pub fn is_under_application(&self, class: usize) -> bool
        ensures { result ≡ is_under_application (state_of self.now) class }
    {
        // mostly none does, and then there is no need to look at each
        if self.workers.applying() == 0 {
            return false;
        }
        for worker in self.workers.as_slice() {
            if let Some(life) = worker.lane.applied_life() {
                if self.class_of(life.chunk) == class {
                    return true;
                }
            }
        }
        false
    }

    /// A worker's counts. The worker's number is in range.
    pub fn accounts(&self, worker: u32) -> Accounts
        requires { worker < length (state_of self.now).workers }
        ensures { result ≡ (worker_at (state_of self.now) worker).accounts }
    {
        self.workers.at(worker).accounts
    }

    /// How far a lane is. The worker's number is in range.
    pub fn lane(&self, worker: u32) -> LaneStage
        requires { worker < length (state_of self.now).workers }
        ensures { result ≡ (worker_at (state_of self.now) worker).lane }
    {
        self.workers.at(worker).lane
    }

    // The front of a class's UNUSED.
    fn unused_front(&self, class: u32) -> Option<u32>
        requires { class < length (state_of self.now).classes }
        ensures { result ≡ next_chunk (state_of self.now) class }
    {
        self.classes[class as usize].lists.front(Place::Unused)
    }

    /// The chunk that the next link of a class takes, or `None` where its UNUSED is empty.
    /// The class's number is in range.
    pub fn next_chunk(&self, class: u32) -> Option<u32>
        requires class { class < length (state_of self.now).classes }
        requires lawful { IsLawful (state_of self.now) }
        ensures front { result ≡ next_chunk (state_of self.now) class }
        ensures free { IfSome result (λ c. (c < length (state_of self.now).chunks)
            × (class_of (state_of self.now) c ≡ class)
            × ((head_at (state_of self.now) c).generation < 4294967295)) }
    {
        self.unused_front(class)
    }

    /// How many bumps wait in a worker's ring. The worker's number is in range.
    pub fn waiting(&self, worker: u32) -> usize
        requires { worker < length (state_of self.now).workers }
        ensures { result ≡ waiting (worker_at (state_of self.now) worker) }
    {
        let worker = self.workers.at(worker);
        worker.sent.len() - worker.received
    }

    /// The next bump that a worker's lane takes, if one waits. The worker's number is in range.
    pub fn next_bump(&self, worker: u32) -> Option<ItemId>
        requires { worker < length (state_of self.now).workers }
        ensures { result ≡ next_bump (worker_at (state_of self.now) worker) }
    {
        let worker = self.workers.at(worker);
        worker.sent.get(worker.received).copied()
    }

    /// The chunks of a list of a class, front first. The class's number is in range.
    pub fn list(&self, class: u32, place: Place) -> ListedChunks<'_>
        requires { class < length (state_of self.now).classes }
        ensures { result ≡ list_at (class_at (state_of self.now) class).lists place }
    {
        self.classes[class as usize].lists.chunks(place)
    }

    /// The last chunk of a list of a class, or `None` where it is empty. The class's number is in range.
    pub fn list_back(&self, class: u32, place: Place) -> Option<u32>
        requires { class < length (state_of self.now).classes }
        ensures { result ≡ last_of (list_at (class_at (state_of self.now) class).lists place) }
    {
        self.classes[class as usize].lists.back(place)
    }

    /// Whether a chunk stands in a list of a class. The chunk is one of the class.
    pub(crate) fn list_has(&self, class: usize, chunk: u32, place: Place) -> bool
        requires class { class < length (state_of self.now).classes }
        requires listed { IsListed chunk (class_at (state_of self.now) class).lists }
        ensures { result ≡ nat_lt 0 (times chunk (list_at (class_at (state_of self.now) class).lists place)) }
    {
        self.classes[class].lists.has(chunk, place)
    }

    /// The bumps that a worker's ring accepted, in order. The worker's number is in range.
    pub fn sent_bumps(&self, worker: u32) -> &[ItemId]
        requires { worker < length (state_of self.now).workers }
        ensures { result.now ≡ (worker_at (state_of self.now) worker).sent }
    {
        self.workers.at(worker).sent.as_slice()
    }

    /// The bumps that a worker's lane took, in order. The worker's number is in range.
    pub fn received_bumps(&self, worker: u32) -> &[ItemId]
        requires { worker < length (state_of self.now).workers }
        ensures { result.now ≡ (worker_at (state_of self.now) worker).received }
    {
        let worker = self.workers.at(worker);
        let sent = worker.sent.as_slice();
        &sent[..worker.received]
    }

    /// The bumps that a worker's lane applied, in order. The worker's number is in range.
    pub fn applied_bumps(&self, worker: u32) -> &[AppliedBump]
        requires { worker < length (state_of self.now).workers }
        ensures { result.now ≡ (worker_at (state_of self.now) worker).applied }
    {
        self.workers.at(worker).applied.as_slice()
    }

    /// How many chunks of a class's DYING nobody holds. The class's number is in range. It
    /// takes the time of DYING's length.
    pub fn count_unheld(&self, class: u32) -> u32
        requires class { class < length (state_of self.now).classes }
        requires lawful { IsLawful (state_of self.now) }
        ensures { result ≡ length (sweep_of (state_of self.now) class) }
    {
        self.classes[class as usize].count_unheld(self.chunks.as_slice())
    }
}
