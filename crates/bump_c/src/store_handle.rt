//! The handle by which C has a store, and the slot that it lies in.
ghost use Rattle.std.specs.Prelude.{◌≡◌, List, [], ◌∷◌};
ghost use Rattle.atomic_table.specs.Seated.{TableId, table_id_coded};
ghost use Rattle.bump_handles.specs.Views.{OpenedView};
ghost use Rattle.bump_c.specs.One.{IsOne};
ghost use Rattle.bump_c.specs.Seals.{store_row, owns, part_coded, slot_owns, slot_coded};

use bump_handles::Opened;
use bump_heads::Name;
use open_box::OpenBox;
use std::alloc::Global;
use std::marker::{Brand, Model};

/// A call of a store from C, and what it comes to, whatever stands for the name of the table.
pub(crate) trait StoreCall: Drop {
    type Told;

    ghost tells: { Self → TableId → OpenedView → OpenedView → Self.Told → Type 0 };

    fn make<N: Name>(self, it: &mut Opened<N>) -> Self::Told
        requires one { IsOne N }
        ensures tells { tells self N.table it.old it.new result };
}

/// A store and its table.
#[repr(C)]
pub struct StoreHandle {
    ptr: *mut (),
    alloc: Global,
    pub ghost table: { TableId } by { table_id_coded },
    pub ghost held: { OpenedView } by { part_coded store_row },
}

impl Model for StoreHandle {
    ghost also_owns = { λ h. owns store_row h.alloc h.ptr h.table h.held };
}

impl StoreHandle {
    pub(crate) fn of_open<N: Name>(apart: OpenBox<Opened<N>, Global>) -> StoreHandle
        requires one { IsOne N }
        ensures table { result.table ≡ N.table }
        ensures held { result.held ≡ apart.value }
    {
        let OpenBox { ptr, alloc } = apart;
        StoreHandle {
            ptr: ptr as *mut (),
            alloc,
        }
    }

    pub(crate) fn into_open<N: Name>(self) -> OpenBox<Opened<N>, Global>
        requires table { self.table ≡ N.table }
        requires one { IsOne N }
        ensures { result.value ≡ self.held }
    {
        let StoreHandle { ptr, alloc } = self;
        OpenBox {
            ptr: ptr as *mut Opened<N>,
            alloc,
        }
    }

    fn call_named<N: Name, C: StoreCall>(self, call: C) -> (StoreHandle, C::Told)
        requires table { self.table ≡ N.table }
        requires one { IsOne N }
        ensures table { result.0.table ≡ self.table }
        ensures tells { C.tells call self.table self.held result.0.held result.1 }
    {
        let mut it = self.into_open::<N>().into_box();
        let told = call.make(&mut it);
        (StoreHandle::of_open(OpenBox::of(it)), told)
    }

    // A function of its own, since a closure can't pick the name that `Brand` stands for.
    pub(crate) fn call_at<C: StoreCall>(self, call: C) -> (StoreHandle, C::Told)
        ensures table { result.0.table ≡ self.table }
        ensures tells { C.tells call self.table self.held result.0.held result.1 }
    {
        self.call_named::<Brand, C>(call)
    }

    pub(crate) fn call<C: StoreCall>(&mut self, call: C) -> C::Told
        ensures table { self.new.table ≡ self.old.table }
        ensures tells { C.tells call self.old.table self.old.held self.new.held result }
    {
        core::mem::replace_with(
            self,
            call,
            |it: StoreHandle, call: C| -> (StoreHandle, C::Told) { it.call_at(call) },
        )
    }
}

/// What C passes to be filled: with nothing, or a store and its table.
#[repr(C)]
#[derive(Drop)]
pub struct StoreSlot {
    ptr: *mut (),
    alloc: Global,
    pub ghost slot: { List (TableId × OpenedView) } by { slot_coded (part_coded store_row) },
}

impl Model for StoreSlot {
    ghost also_owns = { λ s. slot_owns (owns store_row) s.alloc s.ptr s.slot };
}

impl StoreSlot {
    pub(crate) fn of_open<N: Name>(apart: OpenBox<Opened<N>, Global>) -> StoreSlot
        requires one { IsOne N }
        ensures { result.slot ≡ (N.table, apart.value) ∷ [] }
    {
        let OpenBox { ptr, alloc } = apart;
        StoreSlot {
            ptr: ptr as *mut (),
            alloc,
        }
    }
}

unsafe impl Send for StoreHandle {}
