//! What is printed of an open store: its lists, its accounts, and a worker that closes.

ghost use Rattle.std.specs.Prelude.{◌≡◌, ◌<◌, [], ◌++◌, OnOk, length};
ghost use Rattle.std.specs.List.{flat_map};
ghost use Rattle.bump_core.specs.Readers.{class_list};
ghost use Rattle.bump_rules.specs.Lists.{ascending};
ghost use Rattle.bump_trace.specs.OpenStore.{show_said, moves_said};
ghost use Rattle.bump_trace.specs.Shows.{list_entry, list_line, class_lines, worker_line, moves_line_of, class_moves};
ghost use Rattle.bump_trace.specs.Shows.{close_line};
ghost use Rattle.bump_trace.specs.Stages.{Open};

use super::OpenStore;
use bump_core::Place;
use std::alloc::AllocError;
use trace_lines::{
    LineError, is_shown, put_chunk, put_close, put_list_start, put_moves, put_worker,
};

/// The lists of a class, in the order in which they are printed.
pub const PLACES: [Place; 7] = [
    Place::Hot,
    Place::Warm,
    Place::Cold,
    Place::Temp,
    Place::Dying,
    Place::Unused,
    Place::Retired,
];

impl<'a> OpenStore<'a> {
    ghost use Rattle.bump_trace.specs.Ready.{IsReady};
    ghost use Rattle.bump_trace.specs.Views.{store_of, Does};

    /// The last line of a worker that is closed.
    #[tactic(auto, unfolding(crate::specs::Shows::close_line))]
    pub(super) fn put_settled(&self, out: &mut Vec<u8>, worker: u32) -> Result<(), AllocError>
        requires { worker < length self.now.world.workers }
        ensures { OnOk result (out.new.items ≡ out.old.items ++ close_line self.now.world worker) }
    {
        let applied = self.world.applied(worker).len() as u64;
        put_close(out, worker, self.world.accounts(worker), applied)
    }

    // What is told of all chunks of a list.
    fn put_entries(&self, out: &mut Vec<u8>, class: u32, place: Place) -> Result<(), AllocError>
        requires { class < length self.now.world.classes }
        ensures { OnOk result (out.new.items ≡ out.old.items ++ flat_map (list_entry self.now.world place)
            (class_list self.now.world class place)) }
    {
        for chunk in self.world.list(class, place) {
            out.extend_from_slice(b" ")?;
            put_chunk(
                out,
                place,
                chunk,
                self.world.head(chunk),
                self.world.time(chunk),
            )?;
        }
        Ok(())
    }

    // The line of a list, where it is told of.
    #[tactic(auto, unfolding(crate::specs::Shows::list_line))]
    fn put_list(&self, out: &mut Vec<u8>, class: u32, place: Place) -> Result<(), AllocError>
        requires { class < length self.now.world.classes }
        ensures { OnOk result (out.new.items ≡ out.old.items ++ list_line self.now.world class place) }
    {
        let len = self.world.list_len(class, place);
        if !is_shown(place, len) {
            return Ok(());
        }
        put_list_start(out, class, place, len)?;
        self.put_entries(out, class, place)?;
        out.extend_from_slice(b"\n")
    }

    // The lines of a class's lists.
    fn put_class(&self, out: &mut Vec<u8>, class: u32) -> Result<(), AllocError>
        requires { class < length self.now.world.classes }
        ensures { OnOk result (out.new.items ≡ out.old.items ++ class_lines self.now.world class) }
    {
        for place in PLACES {
            self.put_list(out, class, place)?;
        }
        Ok(())
    }

    fn put_classes(&self, out: &mut Vec<u8>) -> Result<(), AllocError>
        requires { IsReady self.now }
        ensures { OnOk result (out.new.items ≡ out.old.items ++ flat_map (class_lines self.now.world)
            (ascending 0 self.now.classes)) }
    {
        for class in 0..self.classes {
            self.put_class(out, class)?;
        }
        Ok(())
    }

    // The line of a worker.
    #[tactic(auto, unfolding(crate::specs::Shows::worker_line))]
    fn put_accounts(&self, out: &mut Vec<u8>, worker: u32) -> Result<(), AllocError>
        requires { worker < length self.now.world.workers }
        ensures { OnOk result (out.new.items ≡ out.old.items ++ worker_line self.now.world worker) }
    {
        let applied = self.world.applied(worker).len() as u64;
        put_worker(out, worker, self.world.accounts(worker), applied)
    }

    fn put_workers(&self, out: &mut Vec<u8>) -> Result<(), AllocError>
        requires { IsReady self.now }
        ensures { OnOk result (out.new.items ≡ out.old.items ++ flat_map (worker_line self.now.world)
            (ascending 0 self.now.workers)) }
    {
        for worker in 0..self.workers {
            self.put_accounts(out, worker)?;
        }
        Ok(())
    }

    /// Prints all lists and accounts.
    #[tactic(auto, unfolding(crate::specs::OpenStore::show_said))]
    pub(super) fn show(&self, out: &mut Vec<u8>) -> Result<(), LineError>
        requires ready { IsReady self.now }
        requires empty { out.old.items ≡ [] }
        ensures { Does (Open (store_of self.now)) out.new.items result (show_said (store_of self.now)) }
    {
        self.put_classes(out)?;
        self.put_workers(out)?;
        Ok(())
    }

    // The lines of a class of `moves`.
    fn put_class_moves(&self, out: &mut Vec<u8>, class: u32) -> Result<(), AllocError>
        requires ready { IsReady self.now }
        requires class { class < length self.now.world.classes }
        ensures { OnOk result (out.new.items ≡ out.old.items ++ flat_map (moves_line_of self.now.world class)
            (ascending 0 self.now.workers)) }
    {
        for worker in 0..self.workers {
            put_moves(out, class, worker, self.world.moves(class, worker))?;
        }
        Ok(())
    }

    fn put_all_moves(&self, out: &mut Vec<u8>) -> Result<(), AllocError>
        requires { IsReady self.now }
        ensures { OnOk result (out.new.items ≡ out.old.items ++ flat_map (class_moves self.now.world)
            (ascending 0 self.now.classes)) }
    {
        for class in 0..self.classes {
            self.put_class_moves(out, class)?;
        }
        Ok(())
    }

    /// Prints how many moves for bumps of each worker each class's history has.
    #[tactic(auto, unfolding(crate::specs::OpenStore::moves_said))]
    pub(super) fn moves(&self, out: &mut Vec<u8>) -> Result<(), LineError>
        requires ready { IsReady self.now }
        requires empty { out.old.items ≡ [] }
        ensures { Does (Open (store_of self.now)) out.new.items result (moves_said (store_of self.now)) }
    {
        self.put_all_moves(out)?;
        Ok(())
    }
}
