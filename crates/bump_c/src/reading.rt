//! A worker's calls, of which none waits.
ghost use Rattle.std.specs.Prelude.{◌≡◌};
ghost use Rattle.bump_handles.specs.Reading.{ReaderReleases};
ghost use Rattle.bump_c.specs.Numbers.{counts_of};
ghost use Rattle.bump_c.specs.One.{IsOne};
ghost use Rattle.bump_c.specs.Tells.{TellsGet, TellsHit, TellsLabel, TellsMarked, TellsMarks, TellsTime, TellsTouch, TellsWords};

use crate::answers::{
    Counts, HitTold, Labelled, MarksTold, TimeTold, Touched, WordsTold, counts_told, hit_told,
    is_marked, label_told, marks_told, taken_number, time_told, touch_told, words_told,
};
use crate::worker_handle::{WorkerCall, WorkerHandle};
use bump_handles::Reader;
use bump_readers::Name;
use bump_rules::ItemId;
use std::marker::Brand;

#[derive(Drop)]
struct Get {
    hold: u32,
    id: ItemId,
}

impl WorkerCall for Get {
    type Told = u32;

    ghost tells = { λ call table before after told.
        TellsGet call.hold call.id.chunk call.id.generation before after told };

    fn make<N: Name>(self, it: &mut Reader<N>) -> u32 {
        taken_number(it.get(self.hold, self.id))
    }
}

/// Takes a hold of an item, by the worker's hold of that number.
#[unsafe(no_mangle)]
pub extern "C" fn bump_get(worker: &mut WorkerHandle, hold: u32, chunk: u32, generation: u32) -> u32
    ensures table { worker.new.table ≡ worker.old.table }
    ensures gets { TellsGet hold chunk generation worker.old.held worker.new.held result }
{
    worker.call(Get {
        hold,
        id: ItemId { chunk, generation },
    })
}

#[derive(Drop)]
struct Touch {
    hold: u32,
    now: u64,
}

impl WorkerCall for Touch {
    type Told = Touched;

    ghost tells = { λ call table before after told. TellsTouch call.hold call.now before after told };

    fn make<N: Name>(self, it: &mut Reader<N>) -> Touched {
        touch_told(it.touch(self.hold, self.now))
    }
}

/// A hit of the item that is held.
#[unsafe(no_mangle)]
pub extern "C" fn bump_touch(worker: &mut WorkerHandle, hold: u32, now: u64) -> Touched
    ensures table { worker.new.table ≡ worker.old.table }
    ensures touches { TellsTouch hold now worker.old.held worker.new.held result }
{
    worker.call(Touch { hold, now })
}

#[derive(Drop)]
struct Label {
    hold: u32,
}

impl WorkerCall for Label {
    type Told = Labelled;

    ghost tells = { λ call table before after told. TellsLabel call.hold before after told };

    fn make<N: Name>(self, it: &mut Reader<N>) -> Labelled {
        label_told(it.label(self.hold))
    }
}

/// The label of the item that is held.
#[unsafe(no_mangle)]
pub extern "C" fn bump_label(worker: &mut WorkerHandle, hold: u32) -> Labelled
    ensures table { worker.new.table ≡ worker.old.table }
    ensures reads { TellsLabel hold worker.old.held worker.new.held result }
{
    worker.call(Label { hold })
}

#[derive(Drop)]
struct Marks {
    hold: u32,
}

impl WorkerCall for Marks {
    type Told = MarksTold;

    ghost tells = { λ call table before after told. TellsMarks call.hold before after told };

    fn make<N: Name>(self, it: &mut Reader<N>) -> MarksTold {
        marks_told(it.head(self.hold))
    }
}

/// The item that is held: its marks, its list and its references, by a load.
#[unsafe(no_mangle)]
pub extern "C" fn bump_marks(worker: &mut WorkerHandle, hold: u32) -> MarksTold
    ensures table { worker.new.table ≡ worker.old.table }
    ensures sees { TellsMarks hold worker.old.held worker.new.held result }
{
    worker.call(Marks { hold })
}

#[derive(Drop)]
struct IsMarked {
    hold: u32,
}

impl WorkerCall for IsMarked {
    type Told = bool;

    ghost tells = { λ call table before after told. TellsMarked call.hold before after told };

    fn make<N: Name>(self, it: &mut Reader<N>) -> bool {
        is_marked(it.head(self.hold))
    }
}

/// Whether the item that is held has both marks, by a load.
#[unsafe(no_mangle)]
pub extern "C" fn bump_marked(worker: &mut WorkerHandle, hold: u32) -> bool
    ensures table { worker.new.table ≡ worker.old.table }
    ensures sees { TellsMarked hold worker.old.held worker.new.held result }
{
    worker.call(IsMarked { hold })
}

#[derive(Drop)]
struct Time {
    hold: u32,
}

impl WorkerCall for Time {
    type Told = TimeTold;

    ghost tells = { λ call table before after told. TellsTime call.hold before after told };

    fn make<N: Name>(self, it: &mut Reader<N>) -> TimeTold {
        time_told(it.time(self.hold))
    }
}

/// The time of the item that is held.
#[unsafe(no_mangle)]
pub extern "C" fn bump_time(worker: &mut WorkerHandle, hold: u32) -> TimeTold
    ensures table { worker.new.table ≡ worker.old.table }
    ensures reads { TellsTime hold worker.old.held worker.new.held result }
{
    worker.call(Time { hold })
}

#[derive(Drop)]
struct Words {
    hold: u32,
    first: u32,
}

impl WorkerCall for Words {
    type Told = WordsTold;

    ghost tells = { λ call table before after told. TellsWords call.hold call.first table before after told };

    fn make<N: Name>(self, it: &mut Reader<N>) -> WordsTold {
        let mut words = [0; 8];
        let count = it.words(self.hold, self.first, &mut words);
        words_told(count, words)
    }
}

/// The further words of the item that is held, from one on: at most 8.
#[unsafe(no_mangle)]
pub extern "C" fn bump_words(worker: &mut WorkerHandle, hold: u32, first: u32) -> WordsTold
    ensures table { worker.new.table ≡ worker.old.table }
    ensures copies { TellsWords hold first worker.old.table worker.old.held worker.new.held result }
{
    worker.call(Words { hold, first })
}

#[derive(Drop)]
struct Release {
    hold: u32,
}

impl WorkerCall for Release {
    type Told = bool;

    ghost tells = { λ call table before after told. ReaderReleases call.hold before after told };

    fn make<N: Name>(self, it: &mut Reader<N>) -> bool {
        it.release(self.hold)
    }
}

/// Gives back what the hold holds, and tells whether there was something.
#[unsafe(no_mangle)]
pub extern "C" fn bump_release(worker: &mut WorkerHandle, hold: u32) -> bool
    ensures table { worker.new.table ≡ worker.old.table }
    ensures releases { ReaderReleases hold worker.old.held worker.new.held result }
{
    worker.call(Release { hold })
}

#[derive(Drop)]
struct Hit {
    id: ItemId,
    now: u64,
}

impl WorkerCall for Hit {
    type Told = HitTold;

    ghost tells = { λ call table before after told.
        TellsHit call.id.chunk call.id.generation call.now before after told };

    fn make<N: Name>(self, it: &mut Reader<N>) -> HitTold {
        hit_told(it.hit(self.id, self.now))
    }
}

/// A whole hit: an item is held, hit, its label read, and given back.
#[unsafe(no_mangle)]
pub extern "C" fn bump_hit(
    worker: &mut WorkerHandle,
    chunk: u32,
    generation: u32,
    now: u64,
) -> HitTold
    ensures table { worker.new.table ≡ worker.old.table }
    ensures hits { TellsHit chunk generation now worker.old.held worker.new.held result }
{
    worker.call(Hit {
        id: ItemId { chunk, generation },
        now,
    })
}

#[derive(Drop)]
struct WorkerCounts;

impl WorkerCall for WorkerCounts {
    type Told = Counts;

    ghost tells = { λ call table before after told. (after ≡ before) × (told ≡ counts_of before.worker.sheet.accounts) };

    fn make<N: Name>(self, it: &mut Reader<N>) -> Counts {
        counts_told(it.counts())
    }
}

/// The worker's counts.
#[unsafe(no_mangle)]
pub extern "C" fn bump_worker_counts(worker: &mut WorkerHandle) -> Counts
    ensures table { worker.new.table ≡ worker.old.table }
    ensures held { worker.new.held ≡ worker.old.held }
    ensures counts { result ≡ counts_of worker.old.held.worker.sheet.accounts }
{
    worker.call(WorkerCounts)
}

fn worker_free_named<N: Name>(h: WorkerHandle)
    requires table { h.table ≡ N.table }
    requires one { IsOne N }
{
    drop(h.into_open::<N>().into_box());
}

/// Ends a worker, and gives back what it holds.
#[unsafe(no_mangle)]
pub extern "C" fn bump_worker_free(worker: WorkerHandle) {
    worker_free_named::<Brand>(worker);
}
