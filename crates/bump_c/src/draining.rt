//! A lane's calls.
ghost use Rattle.std.specs.Prelude.{◌≡◌, ◌≢◌, ◌<◌, IfSome, IfNone, [], ◌∷◌, None};
ghost use Rattle.bump_handles.specs.Draining.{why_not_closed};
ghost use Rattle.bump_c.specs.Numbers.{number_of_close, other_store, other_store_told};
ghost use Rattle.bump_c.specs.One.{IsOne};
ghost use Rattle.bump_c.specs.Tells.{IsClosedBy, TellsLaneClass, TellsRest, TellsFreeingRun, TellsRun};

use crate::answers::{
    Ran, RanTold, RestTold, freeing_run_told, not_closed_number, rest_told, run_told,
};
use crate::book_handle::{BookCall, BookHandle};
use crate::lane_handle::{LaneCall, LaneHandle};
use crate::worker_handle::{WorkerCall, WorkerHandle, WorkerSlot};
use bump_handles::{Drainer, Reader, TaggedBook};
use bump_readers::Name;
use open_box::{OpenBox, replace_both};
use std::marker::Brand;

const OTHER_STORE: Ran = Ran {
    answer: 1,
    applied: 0,
};

const OTHER_STORE_TOLD: RanTold = RanTold {
    answer: 1,
    applied: 0,
    freed: 0,
    chunks: [0; 32],
};

#[derive(Drop)]
struct LaneClass;

impl LaneCall for LaneClass {
    type Told = u32;

    ghost tells = { λ call table before after told. TellsLaneClass before after told };

    fn make<N: Name>(self, it: &mut Drainer<N>) -> u32 {
        it.next_class().unwrap_or(u32::MAX)
    }
}

/// The class of the lane's next bump, or the greatest number where none is known.
#[unsafe(no_mangle)]
pub extern "C" fn bump_lane_class(lane: &mut LaneHandle) -> u32
    ensures table { lane.new.table ≡ lane.old.table }
    ensures class { TellsLaneClass lane.old.held lane.new.held result }
{
    lane.call(LaneClass)
}

#[derive(Drop)]
struct Rest;

impl LaneCall for Rest {
    type Told = RestTold;

    ghost tells = { λ call table before after told. TellsRest before after told };

    fn make<N: Name>(self, it: &mut Drainer<N>) -> RestTold {
        rest_told(it.rest())
    }
}

/// What is left of the bumps of a worker.
#[unsafe(no_mangle)]
pub extern "C" fn bump_rest(lane: &mut LaneHandle) -> RestTold
    ensures table { lane.new.table ≡ lane.old.table }
    ensures rests { TellsRest lane.old.held lane.new.held result }
{
    lane.call(Rest)
}

// The number of the store of a book, of a lane and of a worker.
#[derive(Drop)]
struct StoreNumber;

impl BookCall for StoreNumber {
    type Told = u64;

    ghost tells = { λ call table before after told. (after ≡ before) × (told ≡ before.store) };

    fn make<N: Name>(self, it: &mut TaggedBook<N>) -> u64 {
        it.store()
    }
}

impl LaneCall for StoreNumber {
    type Told = u64;

    ghost tells = { λ call table before after told. (after ≡ before) × (told ≡ before.store) };

    fn make<N: Name>(self, it: &mut Drainer<N>) -> u64 {
        it.store()
    }
}

impl WorkerCall for StoreNumber {
    type Told = u64;

    ghost tells = { λ call table before after told. (after ≡ before) × (told ≡ before.store) };

    fn make<N: Name>(self, it: &mut Reader<N>) -> u64 {
        it.store()
    }
}

fn run_named<N: Name>(
    book: BookHandle,
    lane: LaneHandle,
    now: u64,
    limit: u32,
) -> (BookHandle, LaneHandle, Ran)
    requires table { book.table ≡ N.table }
    requires same { lane.table ≡ N.table }
    requires one { IsOne N }
    ensures book { result.0.table ≡ book.table }
    ensures lane { result.1.table ≡ lane.table }
    ensures applies { TellsRun now limit book.held lane.held result.0.held result.1.held result.2 }
{
    let mut tagged = book.into_open::<N>().into_box();
    let mut drainer = lane.into_open::<N>().into_box();
    let said = run_told(drainer.apply(&mut tagged, now, limit));
    (
        BookHandle::of_open(OpenBox::of(tagged)),
        LaneHandle::of_open(OpenBox::of(drainer)),
        said,
    )
}

fn run_at(book: BookHandle, lane: LaneHandle, now: u64, limit: u32) -> (BookHandle, LaneHandle, Ran)
    requires same { book.held.store ≡ lane.held.store → lane.table ≡ book.table }
    ensures book { result.0.table ≡ book.table }
    ensures lane { result.1.table ≡ lane.table }
    ensures other { book.held.store ≢ lane.held.store → (result.2 ≡ other_store) × (result.0.held ≡ book.held)
        × (result.1.held ≡ lane.held) }
    ensures applies { book.held.store ≡ lane.held.store
        → TellsRun now limit book.held lane.held result.0.held result.1.held result.2 }
{
    let (book, of_book) = book.call_at(StoreNumber);
    let (lane, of_lane) = lane.call_at(StoreNumber);
    if of_book != of_lane {
        return (book, lane, OTHER_STORE);
    }
    run_named::<Brand>(book, lane, now, limit)
}

/// Applies the lane's next bumps as long as they are of the book's class, at most `limit`, and tells how many. Where the
/// next one is of another class it answers so. Where book and lane are of two stores, it answers so, and nothing is done:
/// stores that are open have numbers of their own.
#[unsafe(no_mangle)]
pub extern "C" fn bump_apply_run(
    book: &mut BookHandle,
    lane: &mut LaneHandle,
    now: u64,
    limit: u32,
) -> Ran
    requires same { book.old.held.store ≡ lane.old.held.store → lane.old.table ≡ book.old.table }
    ensures book { book.new.table ≡ book.old.table }
    ensures lane { lane.new.table ≡ lane.old.table }
    ensures other { book.old.held.store ≢ lane.old.held.store → (result ≡ other_store)
        × (book.new.held ≡ book.old.held) × (lane.new.held ≡ lane.old.held) }
    ensures applies { book.old.held.store ≡ lane.old.held.store
        → TellsRun now limit book.old.held lane.old.held book.new.held lane.new.held result }
{
    replace_both(
        book,
        lane,
        (now, limit),
        |book: BookHandle, lane: LaneHandle, x: (u64, u32)| -> (BookHandle, LaneHandle, Ran) {
            run_at(book, lane, x.0, x.1)
        },
    )
}

fn run_told_named<N: Name>(
    book: BookHandle,
    lane: LaneHandle,
    now: u64,
    limit: u32,
) -> (BookHandle, LaneHandle, RanTold)
    requires table { book.table ≡ N.table }
    requires same { lane.table ≡ N.table }
    requires one { IsOne N }
    ensures book { result.0.table ≡ book.table }
    ensures lane { result.1.table ≡ lane.table }
    ensures applies { TellsFreeingRun now limit book.held lane.held result.0.held result.1.held result.2 }
{
    let mut tagged = book.into_open::<N>().into_box();
    let mut drainer = lane.into_open::<N>().into_box();
    let mut chunks = [0; 32];
    let end = drainer.apply_into(&mut tagged, now, limit, &mut chunks);
    (
        BookHandle::of_open(OpenBox::of(tagged)),
        LaneHandle::of_open(OpenBox::of(drainer)),
        freeing_run_told(end, chunks),
    )
}

fn run_told_at(
    book: BookHandle,
    lane: LaneHandle,
    now: u64,
    limit: u32,
) -> (BookHandle, LaneHandle, RanTold)
    requires same { book.held.store ≡ lane.held.store → lane.table ≡ book.table }
    ensures book { result.0.table ≡ book.table }
    ensures lane { result.1.table ≡ lane.table }
    ensures other { book.held.store ≢ lane.held.store → (result.2 ≡ other_store_told) × (result.0.held ≡ book.held)
        × (result.1.held ≡ lane.held) }
    ensures applies { book.held.store ≡ lane.held.store
        → TellsFreeingRun now limit book.held lane.held result.0.held result.1.held result.2 }
{
    let (book, of_book) = book.call_at(StoreNumber);
    let (lane, of_lane) = lane.call_at(StoreNumber);
    if of_book != of_lane {
        return (book, lane, OTHER_STORE_TOLD);
    }
    run_told_named::<Brand>(book, lane, now, limit)
}

/// The same, and it tells which chunks came free: at most 32, and it stops there.
#[unsafe(no_mangle)]
pub extern "C" fn bump_apply_run_told(
    book: &mut BookHandle,
    lane: &mut LaneHandle,
    now: u64,
    limit: u32,
) -> RanTold
    requires same { book.old.held.store ≡ lane.old.held.store → lane.old.table ≡ book.old.table }
    ensures book { book.new.table ≡ book.old.table }
    ensures lane { lane.new.table ≡ lane.old.table }
    ensures other { book.old.held.store ≢ lane.old.held.store → (result ≡ other_store_told)
        × (book.new.held ≡ book.old.held) × (lane.new.held ≡ lane.old.held) }
    ensures applies { book.old.held.store ≡ lane.old.held.store
        → TellsFreeingRun now limit book.old.held lane.old.held book.new.held lane.new.held result }
{
    replace_both(
        book,
        lane,
        (now, limit),
        |book: BookHandle, lane: LaneHandle, x: (u64, u32)| -> (BookHandle, LaneHandle, RanTold) {
            run_told_at(book, lane, x.0, x.1)
        },
    )
}

fn worker_back_named<N: Name>(h: WorkerHandle) -> WorkerSlot
    requires table { h.table ≡ N.table }
    requires one { IsOne N }
    ensures { result.slot ≡ (h.table, h.held) ∷ [] }
{
    WorkerSlot::of_open(h.into_open::<N>())
}

// A worker that goes back to C.
fn worker_back_at(h: WorkerHandle) -> WorkerSlot
    ensures { result.slot ≡ (h.table, h.held) ∷ [] }
{
    worker_back_named::<Brand>(h)
}

fn close_named<N: Name>(
    lane: LaneHandle,
    worker: WorkerHandle,
) -> (LaneHandle, (u32, Option<WorkerSlot>))
    requires table { lane.table ≡ N.table }
    requires same { worker.table ≡ N.table }
    requires one { IsOne N }
    requires ring { why_not_closed lane.held worker.held ≡ None
        → worker.held.worker.sender.ring ≡ lane.held.lane.ring }
    ensures table { result.0.table ≡ lane.table }
    ensures why { result.1.0 ≡ number_of_close (why_not_closed lane.held worker.held) }
    ensures closed { IfNone result.1.1 (IsClosedBy worker.held lane.held result.0.held) }
    ensures refused { IfSome result.1.1 (λ slot. (slot.slot ≡ (worker.table, worker.held) ∷ [])
        × (result.0.held ≡ lane.held)) }
    ensures done { IfNone result.1.1 (result.1.0 ≡ 0) }
    ensures back { IfSome result.1.1 (λ slot. 0 < result.1.0) }
{
    let mut drainer = lane.into_open::<N>().into_box();
    let reader = worker.into_open::<N>().into_box();
    if let Some(why) = drainer.why_not_closed(&reader) {
        let left = WorkerSlot::of_open(OpenBox::of(reader));
        return (
            LaneHandle::of_open(OpenBox::of(drainer)),
            (not_closed_number(why), Some(left)),
        );
    }
    drainer.close(Box::into_inner(reader));
    (LaneHandle::of_open(OpenBox::of(drainer)), (0, None))
}

fn close_at(lane: LaneHandle, worker: WorkerHandle) -> (LaneHandle, (u32, Option<WorkerSlot>))
    requires same { worker.held.store ≡ lane.held.store → worker.table ≡ lane.table }
    requires ring { why_not_closed lane.held worker.held ≡ None
        → worker.held.worker.sender.ring ≡ lane.held.lane.ring }
    ensures table { result.0.table ≡ lane.table }
    ensures why { result.1.0 ≡ number_of_close (why_not_closed lane.held worker.held) }
    ensures closed { IfNone result.1.1 (IsClosedBy worker.held lane.held result.0.held) }
    ensures refused { IfSome result.1.1 (λ slot. (slot.slot ≡ (worker.table, worker.held) ∷ [])
        × (result.0.held ≡ lane.held)) }
    ensures done { IfNone result.1.1 (result.1.0 ≡ 0) }
    ensures back { IfSome result.1.1 (λ slot. 0 < result.1.0) }
{
    let (lane, of_lane) = lane.call_at(StoreNumber);
    let (worker, of_worker) = worker.call_at(StoreNumber);
    if of_worker != of_lane {
        return (lane, (1, Some(worker_back_at(worker))));
    }
    close_named::<Brand>(lane, worker)
}

/// Closes a worker's ring, and gives the worker to its lane. Where it can't be closed, it answers why, and fills an
/// empty slot with the worker again: nothing is done. Worker and lane with the numbers of one store are of that store,
/// and with the number of one worker too they are of one ring: so `bump_open` makes them.
#[unsafe(no_mangle)]
pub extern "C" fn bump_worker_close(
    lane: &mut LaneHandle,
    worker: WorkerHandle,
    back: &mut WorkerSlot,
) -> u32
    requires same { worker.held.store ≡ lane.old.held.store → worker.table ≡ lane.old.table }
    requires ring { why_not_closed lane.old.held worker.held ≡ None
        → worker.held.worker.sender.ring ≡ lane.old.held.lane.ring }
    ensures table { lane.new.table ≡ lane.old.table }
    ensures why { result ≡ number_of_close (why_not_closed lane.old.held worker.held) }
    ensures closed { result ≡ 0 → IsClosedBy worker.held lane.old.held lane.new.held }
    ensures refused { 0 < result → (back.new.slot ≡ (worker.table, worker.held) ∷ [])
        × (lane.new.held ≡ lane.old.held) }
{
    let (answer, left) = core::mem::replace_with(
        lane,
        worker,
        |lane: LaneHandle, worker: WorkerHandle| -> (LaneHandle, (u32, Option<WorkerSlot>)) {
            close_at(lane, worker)
        },
    );
    let Some(slot) = left else {
        return answer;
    };
    *back = slot;
    answer
}

fn lane_free_named<N: Name>(h: LaneHandle)
    requires table { h.table ≡ N.table }
    requires one { IsOne N }
{
    drop(h.into_open::<N>().into_box());
}

/// Ends a lane.
#[unsafe(no_mangle)]
pub extern "C" fn bump_lane_free(lane: LaneHandle) {
    lane_free_named::<Brand>(lane);
}
