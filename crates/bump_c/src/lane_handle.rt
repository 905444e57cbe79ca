//! The handle by which C has a lane, and the slot that it lies in.
ghost use Rattle.std.specs.Prelude.{◌≡◌, List, [], ◌∷◌};
ghost use Rattle.atomic_table.specs.Seated.{TableId, table_id_coded};
ghost use Rattle.bump_handles.specs.Views.{DrainerView};
ghost use Rattle.bump_c.specs.One.{IsOne};
ghost use Rattle.bump_c.specs.Seals.{lane_row, owns, part_coded, slot_owns, slot_coded};

use bump_handles::Drainer;
use bump_heads::Name;
use open_box::OpenBox;
use std::alloc::Global;
use std::marker::{Brand, Model};

/// A call of a lane from C, and what it comes to, whatever stands for the name of the table.
pub(crate) trait LaneCall: Drop {
    type Told;

    ghost tells: { Self → TableId → DrainerView → DrainerView → Self.Told → Type 0 };

    fn make<N: Name>(self, it: &mut Drainer<N>) -> Self::Told
        requires one { IsOne N }
        ensures tells { tells self N.table it.old it.new result };
}

/// A lane and its table.
#[repr(C)]
pub struct LaneHandle {
    ptr: *mut (),
    alloc: Global,
    pub ghost table: { TableId } by { table_id_coded },
    pub ghost held: { DrainerView } by { part_coded lane_row },
}

impl Model for LaneHandle {
    ghost also_owns = { λ h. owns lane_row h.alloc h.ptr h.table h.held };
}

impl LaneHandle {
    pub(crate) fn of_open<N: Name>(apart: OpenBox<Drainer<N>, Global>) -> LaneHandle
        requires one { IsOne N }
        ensures table { result.table ≡ N.table }
        ensures held { result.held ≡ apart.value }
    {
        let OpenBox { ptr, alloc } = apart;
        LaneHandle {
            ptr: ptr as *mut (),
            alloc,
        }
    }

    pub(crate) fn into_open<N: Name>(self) -> OpenBox<Drainer<N>, Global>
        requires table { self.table ≡ N.table }
        requires one { IsOne N }
        ensures { result.value ≡ self.held }
    {
        let LaneHandle { ptr, alloc } = self;
        OpenBox {
            ptr: ptr as *mut Drainer<N>,
            alloc,
        }
    }

    fn call_named<N: Name, C: LaneCall>(self, call: C) -> (LaneHandle, C::Told)
        requires table { self.table ≡ N.table }
        requires one { IsOne N }
        ensures table { result.0.table ≡ self.table }
        ensures tells { C.tells call self.table self.held result.0.held result.1 }
    {
        let mut it = self.into_open::<N>().into_box();
        let told = call.make(&mut it);
        (LaneHandle::of_open(OpenBox::of(it)), told)
    }

    // A function of its own, since a closure can't pick the name that `Brand` stands for.
    pub(crate) fn call_at<C: LaneCall>(self, call: C) -> (LaneHandle, C::Told)
        ensures table { result.0.table ≡ self.table }
        ensures tells { C.tells call self.table self.held result.0.held result.1 }
    {
        self.call_named::<Brand, C>(call)
    }

    pub(crate) fn call<C: LaneCall>(&mut self, call: C) -> C::Told
        ensures table { self.new.table ≡ self.old.table }
        ensures tells { C.tells call self.old.table self.old.held self.new.held result }
    {
        core::mem::replace_with(
            self,
            call,
            |it: LaneHandle, call: C| -> (LaneHandle, C::Told) { it.call_at(call) },
        )
    }
}

/// What C passes to be filled: with nothing, or a lane and its table.
#[repr(C)]
#[derive(Drop)]
pub struct LaneSlot {
    ptr: *mut (),
    alloc: Global,
    pub ghost slot: { List (TableId × DrainerView) } by { slot_coded (part_coded lane_row) },
}

impl Model for LaneSlot {
    ghost also_owns = { λ s. slot_owns (owns lane_row) s.alloc s.ptr s.slot };
}

impl LaneSlot {
    pub(crate) fn of_open<N: Name>(apart: OpenBox<Drainer<N>, Global>) -> LaneSlot
        requires one { IsOne N }
        ensures { result.slot ≡ (N.table, apart.value) ∷ [] }
    {
        let OpenBox { ptr, alloc } = apart;
        LaneSlot {
            ptr: ptr as *mut (),
            alloc,
        }
    }
}

unsafe impl Send for LaneHandle {}
