//! The seats of classes and lanes of a named store. Contracts see plain data.
ghost use Rattle.std.specs.Prelude.{◌≡◌, ◌<◌, Option as TheOption, IsSome, true, false};
ghost use Rattle.bump_heads.specs.declared.views.ClassView.{ClassView as TheClassView};
ghost use Rattle.bump_steps.specs.Places.{rows, head_place};
ghost use Rattle.bump_steps.specs.Views.{owns};
ghost use Rattle.bump_steps.specs.declared.views.LaneSheet.{LaneSheet as TheLaneSheet};
ghost use Rattle.bump_rules.specs.Lanes.{is_half_made};
ghost use Rattle.bump_rules.specs.Totals.{how_many};
ghost use Rattle.bump_heads.specs.Applying.{stage_of, KeepsJoined};
ghost use Rattle.bump_heads.specs.Seats.{lane_views, lane_in_views, IsAtRest, IsOfWorker, class_in, class_me};
ghost use Rattle.bump_heads.specs.Seats.{aboard_lane, IsInRange, IsClassSheet, is_barred};
ghost use Rattle.bump_rules.specs.Configs.{most_workers};

use crate::heads::Heads;
use atomic_table::Badge;
use bump_readers::Name;
use bump_steps::{AnyRow, RowLaw, Seat, View};
use std::alloc::Global;
use std::marker::{Model, PhantomData};
use std::sync::Arc;

/// A class's seat: its sheet, and that of the lane that is joined to it for an application.
#[derive(Drop)]
pub struct ClassSeat<N: Name, L: RowLaw = AnyRow> {
    pub(crate) seat: Seat,
    pub(crate) class: u32,
    pub(crate) heads: Arc<Heads<N, L>, Global>,
    pub(crate) of: PhantomData<N>,
}

impl<N: Name, L: RowLaw> Model for ClassSeat<N, L> {
    ghost Value = { TheClassView };

    ghost view = { λ s. class_in s.seat.me.0 };

    ghost invariant = { λ s. (s.seat.me ≡ class_me (class_in s.seat.me.0)) × (s.seat.table_id ≡ N.table)
        × IsInRange N.table (aboard_lane (class_in s.seat.me.0).lane) × (s.class ≡ (class_in s.seat.me.0).sheet.class)
        × IsClassSheet (rows N.table) (class_in s.seat.me.0).sheet
        × KeepsJoined (class_in s.seat.me.0).sheet (class_in s.seat.me.0).lane };
}

impl<N: Name, L: RowLaw> ClassSeat<N, L> {
    /// What every class's seat keeps: each move in its class's history is one that the tail table or the update table
    /// has.
    pub fn promise(&self)
        ensures { how_many is_barred self.now.sheet.history ≡ 0 }
    {
        let _seat = &self.seat;
    }

    /// The class's number, from 0.
    pub fn class(&self) -> u32
        ensures { result ≡ self.now.sheet.class }
    {
        self.class
    }

    /// Where a chunk of the class has its head: its place, which the calls for the chunk are given, so that several of
    /// them find it by one multiplication.
    #[inline(always)]
    pub fn head_at(&self, chunk: u32) -> usize
        requires own { owns chunk self.now.sheet ≡ true }
        ensures { result ≡ head_place N.table.slots chunk }
    {
        self.heads.words().head_at(chunk)
    }
}

/// A lane's seat: its sheet, or none while it is hollow, joined to a class's seat. While it is whole no application is
/// in progress: a bump aboard is one at which nobody looked yet.
#[derive(Drop)]
pub struct LaneSeat<N: Name, L: RowLaw = AnyRow> {
    pub(crate) badge: Badge<View>,
    pub(crate) worker: u32,
    pub(crate) heads: Arc<Heads<N, L>, Global>,
    pub(crate) of: PhantomData<N>,
}

impl<N: Name, L: RowLaw> Model for LaneSeat<N, L> {
    ghost Value = { TheOption TheLaneSheet };

    ghost view = { λ l. lane_in_views l.badge.views };

    ghost invariant = { λ l. (l.badge.views ≡ lane_views (lane_in_views l.badge.views))
        × (IsSome (lane_in_views l.badge.views) → l.badge.table_id ≡ N.table) × IsAtRest (lane_in_views l.badge.views)
        × IsInRange N.table (aboard_lane (lane_in_views l.badge.views))
        × IsOfWorker l.worker (lane_in_views l.badge.views) × (l.worker < most_workers) };
}

impl<N: Name, L: RowLaw> LaneSeat<N, L> {
    /// What every lane's seat keeps: no bump is half applied.
    pub fn promise(&self)
        ensures at_rest { is_half_made (stage_of self.now) ≡ false }
    {
        let _worker = &self.worker;
    }

    /// The number of its worker, from 0 to 63, while it is whole and applied nothing yet: whoever takes the seat asks
    /// for it once, before the first bump.
    pub fn worker(&self) -> u32
        ensures worker { IsOfWorker result self.now }
        ensures few { result < most_workers }
    {
        self.worker
    }
}
