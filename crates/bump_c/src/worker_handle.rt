//! The handle by which C has a worker, and the slot that it lies in.
ghost use Rattle.std.specs.Prelude.{◌≡◌, List, [], ◌∷◌};
ghost use Rattle.atomic_table.specs.Seated.{TableId, table_id_coded};
ghost use Rattle.bump_handles.specs.Views.{ReaderView};
ghost use Rattle.bump_c.specs.One.{IsOne};
ghost use Rattle.bump_c.specs.Seals.{worker_row, owns, part_coded, slot_owns, slot_coded};

use bump_handles::Reader;
use bump_heads::Name;
use open_box::OpenBox;
use std::alloc::Global;
use std::marker::{Brand, Model};

/// A call of a worker from C, and what it comes to, whatever stands for the name of the table.
pub(crate) trait WorkerCall: Drop {
    type Told;

    ghost tells: { Self → TableId → ReaderView → ReaderView → Self.Told → Type 0 };

    fn make<N: Name>(self, it: &mut Reader<N>) -> Self::Told
        requires one { IsOne N }
        ensures tells { tells self N.table it.old it.new result };
}

/// A worker and its table.
#[repr(C)]
pub struct WorkerHandle {
    ptr: *mut (),
    alloc: Global,
    pub ghost table: { TableId } by { table_id_coded },
    pub ghost held: { ReaderView } by { part_coded worker_row },
}

impl Model for WorkerHandle {
    ghost also_owns = { λ h. owns worker_row h.alloc h.ptr h.table h.held };
}

impl WorkerHandle {
    pub(crate) fn of_open<N: Name>(apart: OpenBox<Reader<N>, Global>) -> WorkerHandle
        requires one { IsOne N }
        ensures table { result.table ≡ N.table }
        ensures held { result.held ≡ apart.value }
    {
        let OpenBox { ptr, alloc } = apart;
        WorkerHandle {
            ptr: ptr as *mut (),
            alloc,
        }
    }

    pub(crate) fn into_open<N: Name>(self) -> OpenBox<Reader<N>, Global>
        requires table { self.table ≡ N.table }
        requires one { IsOne N }
        ensures { result.value ≡ self.held }
    {
        let WorkerHandle { ptr, alloc } = self;
        OpenBox {
            ptr: ptr as *mut Reader<N>,
            alloc,
        }
    }

    fn call_named<N: Name, C: WorkerCall>(self, call: C) -> (WorkerHandle, C::Told)
        requires table { self.table ≡ N.table }
        requires one { IsOne N }
        ensures table { result.0.table ≡ self.table }
        ensures tells { C.tells call self.table self.held result.0.held result.1 }
    {
        let mut it = self.into_open::<N>().into_box();
        let told = call.make(&mut it);
        (WorkerHandle::of_open(OpenBox::of(it)), told)
    }

    // A function of its own, since a closure can't pick the name that `Brand` stands for.
    pub(crate) fn call_at<C: WorkerCall>(self, call: C) -> (WorkerHandle, C::Told)
        ensures table { result.0.table ≡ self.table }
        ensures tells { C.tells call self.table self.held result.0.held result.1 }
    {
        self.call_named::<Brand, C>(call)
    }

    pub(crate) fn call<C: WorkerCall>(&mut self, call: C) -> C::Told
        ensures table { self.new.table ≡ self.old.table }
        ensures tells { C.tells call self.old.table self.old.held self.new.held result }
    {
        core::mem::replace_with(
            self,
            call,
            |it: WorkerHandle, call: C| -> (WorkerHandle, C::Told) { it.call_at(call) },
        )
    }
}

/// What C passes to be filled: with nothing, or a worker and its table.
#[repr(C)]
#[derive(Drop)]
pub struct WorkerSlot {
    ptr: *mut (),
    alloc: Global,
    pub ghost slot: { List (TableId × ReaderView) } by { slot_coded (part_coded worker_row) },
}

impl Model for WorkerSlot {
    ghost also_owns = { λ s. slot_owns (owns worker_row) s.alloc s.ptr s.slot };
}

impl WorkerSlot {
    pub(crate) fn of_open<N: Name>(apart: OpenBox<Reader<N>, Global>) -> WorkerSlot
        requires one { IsOne N }
        ensures { result.slot ≡ (N.table, apart.value) ∷ [] }
    {
        let OpenBox { ptr, alloc } = apart;
        WorkerSlot {
            ptr: ptr as *mut (),
            alloc,
        }
    }
}

unsafe impl Send for WorkerHandle {}
