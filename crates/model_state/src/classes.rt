//! What a World keeps of a class.
ghost use Rattle.std.specs.Prelude.{◌≡◌, ◌<◌, ◌≤◌, ◌+◌, ◌++◌, All, OnOk, OnErr, drop, length};
ghost use Rattle.std.specs.Vec.{vec_capacity, vec_len};
ghost use Rattle.bump_rules.specs.Sweeps.{unheld, swept_of};
ghost use Rattle.bump_rules.specs.History.{subject, replay, AreListed};
ghost use Rattle.bump_rules.specs.Lists.{IsListed};
ghost use Rattle.model_state.specs.State.{class_with_change, class_with_changes, heads_of};
ghost use Rattle.model_state.specs.Views.{class_view};

use crate::chunks::Chunk;
use bump_rules::{Change, ClassLists, ItemId, Place};
use std::alloc::AllocError;

/// A class: its chunks are those from `first` on and below `end`.
#[derive(Drop)]
pub struct Class {
    /// The number of its first chunk.
    pub first: u32,

    /// The number behind that of its last chunk.
    pub end: u32,

    /// The generation of its chunks before their first lives.
    pub fresh: u32,

    /// A pull takes from HOT where it has more items than this.
    pub hot_limit: u32,

    /// A pull takes from WARM where it has more items than this.
    pub warm_limit: u32,

    /// Its seven lists.
    pub lists: ClassLists,

    /// What happened to its lists, in order.
    pub history: Vec<Change>,
}

// The lists follow entries: each puts its chunk at the front of its list, in order.
fn follow(lists: &mut ClassLists, entries: &[Change])
    requires { AreListed lists.old entries.now }
    ensures { lists.new ≡ replay lists.old entries.now }
{
    for entry in entries {
        lists.to_front(entry.chunk(), entry.place());
    }
}

// The entries of a sweep join the history of these lists: of the chunks of DYING that nobody holds, front to back.
fn enter_unheld(history: &mut Vec<Change>, lists: &ClassLists, chunks: &[Chunk])
    requires chunks { All (λ c. c < length chunks.now) lists.now.dying }
    requires room { vec_len history.old + length (unheld (heads_of chunks.now) lists.now.dying)
        ≤ vec_capacity history.old }
    ensures { history.new.items ≡ history.old.items ++ swept_of (heads_of chunks.now) lists.now.dying }
{
    for chunk in lists.chunks(Place::Dying) {
        let head = chunks[chunk as usize].head;
        if head.refs == 0 {
            history.push_reserved(Change::freed(ItemId {
                chunk,
                generation: head.generation,
            }));
        }
    }
}

impl Class {
    /// An entry joins the history, and its chunk comes to the front of its list. Only the history may want memory.
    pub(crate) fn change(&mut self, entry: Change) -> Result<(), AllocError>
        requires { IsListed (subject entry).chunk self.old.lists }
        ensures ok { OnOk result (class_view self.new ≡ class_with_change (class_view self.old) entry) }
        ensures err { OnErr result (class_view self.new ≡ class_view self.old) }
    {
        self.history.push(entry)?;
        self.lists.to_front(entry.chunk(), entry.place());
        Ok(())
    }

    /// Entries join the history, and their chunks come to the fronts of their lists, in order.
    pub(crate) fn change_by(&mut self, entries: &[Change]) -> Result<(), AllocError>
        requires { AreListed self.old.lists entries.now }
        ensures ok { OnOk result (class_view self.new ≡ class_with_changes (class_view self.old) entries.now) }
        ensures err { OnErr result (class_view self.new ≡ class_view self.old) }
    {
        self.history.extend_from_slice(entries)?;
        follow(&mut self.lists, entries);
        Ok(())
    }

    /// How many chunks of DYING nobody holds, by the heads of all chunks.
    pub(crate) fn count_unheld(&self, chunks: &[Chunk]) -> u32
        requires { All (λ c. c < length chunks.now) self.now.lists.dying }
        ensures { result ≡ length (unheld (heads_of chunks.now) self.now.lists.dying) }
    {
        let mut count = self.lists.len(Place::Dying);
        for chunk in self.lists.chunks(Place::Dying) {
            if chunks[chunk as usize].head.refs > 0 {
                count -= 1;
            }
        }
        count
    }

    /// The chunks of DYING that nobody holds are freed: so many, as were counted.
    pub(crate) fn sweep(&mut self, chunks: &[Chunk], count: u32) -> Result<(), AllocError>
        requires chunks { All (λ c. c < length chunks.now) self.old.lists.dying }
        requires count { count ≡ length (unheld (heads_of chunks.now) self.old.lists.dying) }
        ensures ok { OnOk result (class_view self.new ≡
            class_with_changes (class_view self.old) (swept_of (heads_of chunks.now) self.old.lists.dying)) }
        ensures err { OnErr result (class_view self.new ≡ class_view self.old) }
    {
        let n = self.history.len();
        self.history.reserve(count as usize)?;
        enter_unheld(&mut self.history, &self.lists, chunks);
        follow(&mut self.lists, &self.history[n..]);
        Ok(())
    }
}
