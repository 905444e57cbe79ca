//! The handle by which C has a part of a cache, and the slot that it lies in.
ghost use Rattle.std.specs.Prelude.{◌≡◌, List, [], ◌∷◌};
ghost use Rattle.atomic_table.specs.Seated.{TableId, table_id_coded};
ghost use Rattle.cache_handles.specs.Views.{BytePartView};
ghost use Rattle.bump_c.specs.One.{IsOne};
ghost use Rattle.bump_c.specs.Seals.{cache_part_row, owns, part_coded, slot_owns, slot_coded};

use bump_heads::Name;
use cache_handles::BytePart;
use open_box::OpenBox;
use std::alloc::Global;
use std::marker::{Brand, Model};

/// A call of a part of a cache from C, and what it comes to, whatever stands for the name of the table.
pub(crate) trait CachePartCall: Drop {
    type Told;

    ghost tells: { Self → TableId → BytePartView → BytePartView → Self.Told → Type 0 };

    fn make<N: Name>(self, it: &mut BytePart<N>) -> Self::Told
        requires one { IsOne N }
        ensures tells { tells self N.table it.old it.new result };
}

/// A part of a cache and its table.
#[repr(C)]
pub struct CachePartHandle {
    ptr: *mut (),
    alloc: Global,
    pub ghost table: { TableId } by { table_id_coded },
    pub ghost held: { BytePartView } by { part_coded cache_part_row },
}

impl Model for CachePartHandle {
    ghost also_owns = { λ h. owns cache_part_row h.alloc h.ptr h.table h.held };
}

impl CachePartHandle {
    pub(crate) fn of_open<N: Name>(apart: OpenBox<BytePart<N>, Global>) -> CachePartHandle
        requires one { IsOne N }
        ensures table { result.table ≡ N.table }
        ensures held { result.held ≡ apart.value }
    {
        let OpenBox { ptr, alloc } = apart;
        CachePartHandle {
            ptr: ptr as *mut (),
            alloc,
        }
    }

    pub(crate) fn into_open<N: Name>(self) -> OpenBox<BytePart<N>, Global>
        requires table { self.table ≡ N.table }
        requires one { IsOne N }
        ensures { result.value ≡ self.held }
    {
        let CachePartHandle { ptr, alloc } = self;
        OpenBox {
            ptr: ptr as *mut BytePart<N>,
            alloc,
        }
    }

    fn call_named<N: Name, C: CachePartCall>(self, call: C) -> (CachePartHandle, C::Told)
        requires table { self.table ≡ N.table }
        requires one { IsOne N }
        ensures table { result.0.table ≡ self.table }
        ensures tells { C.tells call self.table self.held result.0.held result.1 }
    {
        let mut it = self.into_open::<N>().into_box();
        let told = call.make(&mut it);
        (CachePartHandle::of_open(OpenBox::of(it)), told)
    }

    // A function of its own, since a closure can't pick the name that `Brand` stands for.
    pub(crate) fn call_at<C: CachePartCall>(self, call: C) -> (CachePartHandle, C::Told)
        ensures table { result.0.table ≡ self.table }
        ensures tells { C.tells call self.table self.held result.0.held result.1 }
    {
        self.call_named::<Brand, C>(call)
    }

    pub(crate) fn call<C: CachePartCall>(&mut self, call: C) -> C::Told
        ensures table { self.new.table ≡ self.old.table }
        ensures tells { C.tells call self.old.table self.old.held self.new.held result }
    {
        core::mem::replace_with(
            self,
            call,
            |it: CachePartHandle, call: C| -> (CachePartHandle, C::Told) { it.call_at(call) },
        )
    }
}

/// What C passes to be filled: with nothing, or a part of a cache and its table.
#[repr(C)]
#[derive(Drop)]
pub struct CachePartSlot {
    ptr: *mut (),
    alloc: Global,
    pub ghost slot: { List (TableId × BytePartView) } by { slot_coded (part_coded cache_part_row) },
}

impl Model for CachePartSlot {
    ghost also_owns = { λ s. slot_owns (owns cache_part_row) s.alloc s.ptr s.slot };
}

impl CachePartSlot {
    pub(crate) fn of_open<N: Name>(apart: OpenBox<BytePart<N>, Global>) -> CachePartSlot
        requires one { IsOne N }
        ensures { result.slot ≡ (N.table, apart.value) ∷ [] }
    {
        let OpenBox { ptr, alloc } = apart;
        CachePartSlot {
            ptr: ptr as *mut (),
            alloc,
        }
    }
}

unsafe impl Send for CachePartHandle {}
