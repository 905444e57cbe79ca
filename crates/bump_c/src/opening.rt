//! A store is opened for C, its parts are taken out, and it is given back.
ghost use Rattle.std.specs.Prelude.{◌≡◌, ◌<◌, IfOk, IfErr, IfSome, IfNone, None, true, false, map};
ghost use Rattle.bump_handles.specs.Opening.{TakesPart};
ghost use Rattle.bump_handles.specs.Views.{DrainerView as TheDrainerView, ReaderView as TheReaderView};
ghost use Rattle.bump_handles.specs.Views.{TaggedBookView as TheTaggedBookView};
ghost use Rattle.bump_rules.specs.declared.configs.Config.{Config as TheConfig};
ghost use Rattle.bump_c.specs.One.{IsOne};
ghost use Rattle.bump_c.specs.Opening.{class_config_of, IsConfigOf, IsWhyNotOpened, HasOpened, HasTaken};

use crate::answers::fault_number;
use crate::book_handle::BookSlot;
use crate::lane_handle::LaneSlot;
use crate::store_handle::{StoreCall, StoreHandle, StoreSlot};
use crate::worker_handle::WorkerSlot;
use bump_handles::{Opened, open};
use bump_readers::Name;
use bump_rules::{ClassConfig, Config};
use bump_unlocked::Blank;
use open_box::OpenBox;
use std::alloc::Global;
use std::marker::Brand;

const NO_MEMORY: u32 = 7;

/// What a class is made from.
#[repr(C)]
#[derive(Clone, Copy)]
pub struct ClassNumbers {
    /// How many chunks it has: 1 or more.
    pub chunks: u32,

    /// A pull takes items from HOT where there are more.
    pub hot: u32,

    /// A pull takes items from WARM where there are more.
    pub warm: u32,
}

/// What a store is made from.
#[repr(C)]
#[derive(Clone, Copy)]
pub struct StoreNumbers {
    /// The store's number, which no other open store has.
    pub store: u64,

    /// How many workers there are: 1 to 64.
    pub workers: u32,

    /// How many bumps a ring has room for: 1 to 65,536.
    pub capacity: u32,

    /// The greatest reference count: 2 to 1,048,575.
    pub refs_limit: u32,

    /// The generation of each chunk's first life: 1 or more.
    pub first_generation: u32,

    /// How many numbered holds each worker has: any number.
    pub holds: u32,

    /// How many words each item has beside its label: any number.
    pub words: u32,
}

// The classes of a configuration, or the number of want of memory.
fn classes_of(alloc: Global, classes: &[ClassNumbers]) -> Result<Vec<ClassConfig>, u32>
    ensures made { IfOk result (λ made. made.items ≡ map class_config_of classes.now) }
    ensures refused { IfErr result (λ answer. answer ≡ 7) }
{
    let Ok(mut made) = Vec::with_capacity(alloc, classes.len()) else {
        return Err(NO_MEMORY);
    };
    for class in classes {
        let config = ClassConfig {
            chunks: class.chunks,
            hot: class.hot,
            warm: class.warm,
        };
        let Ok(()) = made.push(config) else {
            return Err(NO_MEMORY);
        };
    }
    Ok(made)
}

// The configuration, or the number of its first fault or of want of memory.
fn config_of(alloc: Global, numbers: &StoreNumbers, classes: &[ClassNumbers]) -> Result<Config, u32>
    ensures made { IfOk result (λ config. IsConfigOf numbers.now classes.now config) }
    ensures refused { IfErr result (λ answer. IsWhyNotOpened numbers.now classes.now answer) }
{
    let made = match classes_of(alloc, classes) {
        Ok(made) => made,
        Err(answer) => return Err(answer),
    };
    match Config::new(
        numbers.workers,
        numbers.capacity,
        numbers.refs_limit,
        numbers.first_generation,
        made,
    ) {
        Ok(config) => Ok(config),
        Err(fault) => Err(fault_number(fault)),
    }
}

fn open_named<N: Name>(
    alloc: Global,
    blank: Blank,
    config: &Config,
    store: u64,
    holds: u32,
) -> Option<StoreSlot>
    requires name { blank.table ≡ N.table }
    requires one { IsOne N }
    requires config { blank.config ≡ config.now }
    ensures { IfSome result (λ slot. HasOpened store config.now holds slot.slot) }
{
    let Ok(opened) = open::<N>(alloc, blank, config, store, holds) else {
        return None;
    };
    let Ok(opened) = Box::new(alloc, opened) else {
        return None;
    };
    Some(StoreSlot::of_open(OpenBox::of(opened)))
}

fn open_at(
    alloc: Global,
    blank: Blank,
    config: &Config,
    store: u64,
    holds: u32,
) -> Option<StoreSlot>
    requires config { blank.config ≡ config.now }
    ensures { IfSome result (λ slot. HasOpened store config.now holds slot.slot) }
{
    open_named::<Brand>(alloc, blank, config, store, holds)
}

/// Opens a store, and fills an empty slot with it. It answers 0, or the number of the configuration's first fault, or 7
/// where memory was refused.
#[unsafe(no_mangle)]
pub extern "C" fn bump_open(
    alloc: Global,
    store: &mut StoreSlot,
    config: &StoreNumbers,
    classes: &[ClassNumbers],
) -> u32
    ensures opened { result ≡ 0 → (made : TheConfig) × IsConfigOf config.now classes.now made
        × HasOpened config.now.store made config.now.holds store.new.slot }
    ensures refused { 0 < result → IsWhyNotOpened config.now classes.now result }
    ensures unchanged { 0 < result → store.new ≡ store.old }
{
    let made = match config_of(alloc, config, classes) {
        Ok(made) => made,
        Err(answer) => return answer,
    };
    let Ok(blank) = Blank::with_words(alloc, &made, config.words) else {
        return NO_MEMORY;
    };
    match open_at(alloc, blank, &made, config.store, config.holds) {
        Some(slot) => {
            *store = slot;
            0
        }
        None => NO_MEMORY,
    }
}

#[derive(Drop)]
struct TakeWorker {
    number: u32,
}

impl StoreCall for TakeWorker {
    type Told = Option<WorkerSlot>;

    ghost tells = { λ call table before after told.
        IfSome told (λ slot. HasTaken TheReaderView call.number table before.readers after.readers slot.slot)
        × IfNone told (TakesPart TheReaderView call.number before.readers after.readers None)
        × (after ≡ record before { readers = after.readers }) };

    fn make<N: Name>(self, it: &mut Opened<N>) -> Option<WorkerSlot> {
        let taken = it.reader(self.number)?;
        Some(WorkerSlot::of_open(OpenBox::of(taken)))
    }
}

/// Takes the worker with this number out of the store, and fills an empty slot with it. `false`: there is none, or it is
/// taken already, and nothing is changed.
#[unsafe(no_mangle)]
pub extern "C" fn bump_take_worker(
    store: &mut StoreHandle,
    number: u32,
    part: &mut WorkerSlot,
) -> bool
    ensures table { store.new.table ≡ store.old.table }
    ensures taken { result ≡ true → HasTaken TheReaderView number store.old.table store.old.held.readers
        store.new.held.readers part.new.slot }
    ensures none { result ≡ false → TakesPart TheReaderView number store.old.held.readers store.new.held.readers None }
    ensures kept { store.new.held ≡ record store.old.held { readers = store.new.held.readers } }
    ensures unchanged { result ≡ false → part.new ≡ part.old }
{
    match store.call(TakeWorker { number }) {
        Some(slot) => {
            *part = slot;
            true
        }
        None => false,
    }
}

#[derive(Drop)]
struct TakeBook {
    number: u32,
}

impl StoreCall for TakeBook {
    type Told = Option<BookSlot>;

    ghost tells = { λ call table before after told.
        IfSome told (λ slot. HasTaken TheTaggedBookView call.number table before.books after.books slot.slot)
        × IfNone told (TakesPart TheTaggedBookView call.number before.books after.books None)
        × (after ≡ record before { books = after.books }) };

    fn make<N: Name>(self, it: &mut Opened<N>) -> Option<BookSlot> {
        let taken = it.book(self.number)?;
        Some(BookSlot::of_open(OpenBox::of(taken)))
    }
}

/// Takes the book of the class with this number out of the store, and fills an empty slot with it. `false`: there is
/// none, or it is taken already, and nothing is changed.
#[unsafe(no_mangle)]
pub extern "C" fn bump_take_book(store: &mut StoreHandle, number: u32, part: &mut BookSlot) -> bool
    ensures table { store.new.table ≡ store.old.table }
    ensures taken { result ≡ true → HasTaken TheTaggedBookView number store.old.table store.old.held.books
        store.new.held.books part.new.slot }
    ensures none { result ≡ false → TakesPart TheTaggedBookView number store.old.held.books store.new.held.books None }
    ensures kept { store.new.held ≡ record store.old.held { books = store.new.held.books } }
    ensures unchanged { result ≡ false → part.new ≡ part.old }
{
    match store.call(TakeBook { number }) {
        Some(slot) => {
            *part = slot;
            true
        }
        None => false,
    }
}

#[derive(Drop)]
struct TakeLane {
    number: u32,
}

impl StoreCall for TakeLane {
    type Told = Option<LaneSlot>;

    ghost tells = { λ call table before after told.
        IfSome told (λ slot. HasTaken TheDrainerView call.number table before.lanes after.lanes slot.slot)
        × IfNone told (TakesPart TheDrainerView call.number before.lanes after.lanes None)
        × (after ≡ record before { lanes = after.lanes }) };

    fn make<N: Name>(self, it: &mut Opened<N>) -> Option<LaneSlot> {
        let taken = it.lane(self.number)?;
        Some(LaneSlot::of_open(OpenBox::of(taken)))
    }
}

/// Takes the lane of the worker with this number out of the store, and fills an empty slot with it. `false`: there is
/// none, or it is taken already, and nothing is changed.
#[unsafe(no_mangle)]
pub extern "C" fn bump_take_lane(store: &mut StoreHandle, number: u32, part: &mut LaneSlot) -> bool
    ensures table { store.new.table ≡ store.old.table }
    ensures taken { result ≡ true → HasTaken TheDrainerView number store.old.table store.old.held.lanes
        store.new.held.lanes part.new.slot }
    ensures none { result ≡ false → TakesPart TheDrainerView number store.old.held.lanes store.new.held.lanes None }
    ensures kept { store.new.held ≡ record store.old.held { lanes = store.new.held.lanes } }
    ensures unchanged { result ≡ false → part.new ≡ part.old }
{
    match store.call(TakeLane { number }) {
        Some(slot) => {
            *part = slot;
            true
        }
        None => false,
    }
}

/// The library's version: 10000 x major + 100 x minor + patch.
#[unsafe(no_mangle)]
pub extern "C" fn bump_version() -> u32
    ensures { result ≡ 100 }
{
    100
}

fn close_named<N: Name>(h: StoreHandle)
    requires table { h.table ≡ N.table }
    requires one { IsOne N }
{
    drop(h.into_open::<N>().into_box());
}

/// Ends what wasn't taken out of a store.
#[unsafe(no_mangle)]
pub extern "C" fn bump_close(store: StoreHandle) {
    close_named::<Brand>(store);
}
