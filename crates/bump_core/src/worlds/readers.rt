//! What the World tells of itself.
ghost use Rattle.std.specs.Prelude.{◌≡◌, ◌<◌, All, length};
ghost use Rattle.bump_links.specs.Lists.{last_of};
ghost use Rattle.model_state.specs.State.{head_at, is_open};
ghost use Rattle.bump_core.specs.Headline.{Headline};
ghost use Rattle.bump_rules.specs.Entries.{moves_of};
ghost use Rattle.model_state.specs.Worlds.{IsLawful};
ghost use Rattle.bump_core.specs.Readers.{class_list, history_of, time_of, label_of, holds_at, accounts_of, sent_of};
ghost use Rattle.bump_core.specs.Readers.{received_of, applied_of, limits_of};

use crate::worlds::World;
use bump_rules::{Accounts, AppliedBump, Change, Head, ItemId, ListedChunks, Place};

impl World {
    /// How many classes there are: 1 to 16 by `Config::new`. They are numbered from 0.
    pub fn classes(&self) -> u32
        ensures { result ≡ length self.now.classes }
    {
        self.inside.classes.len() as u32
    }

    /// How many chunks all classes have together: 1 to 1,000,000 by `Config::new`. They are numbered from 0.
    pub fn chunks(&self) -> u32
        ensures { result ≡ length self.now.chunks }
    {
        self.inside.chunks.len() as u32
    }

    /// How many workers there are: 1 to 64 by `Config::new`. They are numbered from 0.
    pub fn workers(&self) -> u32
        ensures { result ≡ length self.now.workers }
    {
        self.inside.workers.len()
    }

    /// How many bumps a ring has room for: 1 to 65,536.
    pub fn capacity(&self) -> u32
        ensures { result ≡ self.now.capacity }
    {
        self.inside.capacity
    }

    /// The limit of a reference count: 2 to 1,048,575.
    pub fn refs_limit(&self) -> u32
        ensures { result ≡ self.now.refs_limit }
    {
        self.inside.refs_limit
    }

    /// The limits of a class: a pull takes from HOT where it has more items than the first, and from WARM where it
    /// has more than the second. The class is one of the configuration's.
    pub fn limits(&self, class: u32) -> (u32, u32)
        requires { class < length self.now.classes }
        ensures { result ≡ limits_of self.now class }
    {
        let class = &self.inside.classes[class as usize];
        (class.hot_limit, class.warm_limit)
    }

    /// Whether a worker's ring is open: it takes bumps, until it is closed. The worker is one of the configuration's.
    pub fn is_open(&self, worker: u32) -> bool
        requires { worker < length self.now.workers }
        ensures { result ≡ is_open self.now worker }
    {
        self.inside.is_open(worker)
    }

    /// The promise, for whoever holds a World: it is lawful at every moment. Does nothing.
    pub fn promise(&self)
        ensures lawful { IsLawful self.now }
        ensures headline { Headline self.now }
    {
        let _ = &self.inside;
    }

    /// The chunks of a class's list, front first. The class is one of the configuration's. It takes no memory, and the
    /// time of the chunks that are read.
    pub fn list(&self, class: u32, place: Place) -> ListedChunks<'_>
        requires { class < length self.now.classes }
        ensures chunks { result ≡ class_list self.now class place }
        ensures in_range { All (λ c. c < length self.now.chunks) result }
    {
        self.inside.list(class, place)
    }

    /// The last chunk of a class's list, or `None` where it is empty: the one that a pull looks at in HOT, WARM or
    /// COLD. The class is one of the configuration's. It takes constant time.
    pub fn list_back(&self, class: u32, place: Place) -> Option<u32>
        requires { class < length self.now.classes }
        ensures { result ≡ last_of (class_list self.now class place) }
    {
        self.inside.list_back(class, place)
    }

    /// How many chunks a class's list has. The class is one of the configuration's. It takes constant time.
    pub fn list_len(&self, class: u32, place: Place) -> u32
        requires { class < length self.now.classes }
        ensures { result ≡ length (class_list self.now class place) }
    {
        self.inside.classes[class as usize].lists.len(place)
    }

    /// What happened to the lists of a class, in order: they are its replay. The class is one of the
    /// configuration's. The World keeps all of it.
    pub fn history(&self, class: u32) -> &[Change]
        requires { class < length self.now.classes }
        ensures { result.now ≡ history_of self.now class }
    {
        self.inside.classes[class as usize].history.as_slice()
    }

    /// How many moves for bumps of a worker the history of a class has. Both are of the configuration's. It takes no
    /// memory, and the time of the class's history.
    pub fn moves(&self, class: u32, worker: u32) -> u64
        requires class { class < length self.now.classes }
        requires worker { worker < length self.now.workers }
        ensures { result ≡ moves_of worker (history_of self.now class) }
    {
        let mut count = 0;
        for entry in self.history(class) {
            if entry.is_move_of(worker) {
                count += 1;
            }
        }
        count
    }

    /// A chunk's head. The chunk is one of the configuration's.
    pub fn head(&self, chunk: u32) -> Head
        requires { chunk < length self.now.chunks }
        ensures { result ≡ head_at self.now chunk }
    {
        self.inside.head(chunk)
    }

    /// A chunk's time, in the caller's ticks. The chunk is one of the configuration's.
    pub fn time(&self, chunk: u32) -> u64
        requires { chunk < length self.now.chunks }
        ensures { result ≡ time_of self.now chunk }
    {
        self.inside.chunk(chunk).time
    }

    /// A chunk's label. The chunk is one of the configuration's.
    pub fn label(&self, chunk: u32) -> u64
        requires { chunk < length self.now.chunks }
        ensures { result ≡ label_of self.now chunk }
    {
        self.inside.chunk(chunk).label
    }

    /// How many holds a chunk's life has. The chunk is one of the configuration's.
    pub fn holds(&self, chunk: u32) -> u32
        requires { chunk < length self.now.chunks }
        ensures { result ≡ holds_at self.now chunk }
    {
        self.inside.chunk(chunk).holds
    }

    /// A worker's counts of bumps. The worker is one of the configuration's.
    pub fn accounts(&self, worker: u32) -> Accounts
        requires { worker < length self.now.workers }
        ensures { result ≡ accounts_of self.now worker }
    {
        self.inside.accounts(worker)
    }

    /// The bumps that a worker's ring accepted, in order. The worker is one of the configuration's.
    pub fn sent(&self, worker: u32) -> &[ItemId]
        requires { worker < length self.now.workers }
        ensures { result.now ≡ sent_of self.now worker }
    {
        self.inside.sent_bumps(worker)
    }

    /// The bumps that a worker's lane took, in order. The worker is one of the configuration's.
    pub fn received(&self, worker: u32) -> &[ItemId]
        requires { worker < length self.now.workers }
        ensures { result.now ≡ received_of self.now worker }
    {
        self.inside.received_bumps(worker)
    }

    /// The bumps that a worker's lane applied, in order. The worker is one of the configuration's.
    pub fn applied(&self, worker: u32) -> &[AppliedBump]
        requires { worker < length self.now.workers }
        ensures { result.now ≡ applied_of self.now worker }
    {
        self.inside.applied_bumps(worker)
    }
}
