//! A cache is opened for C, its parts and readers are taken out, and it is given back.
ghost use Rattle.std.specs.Prelude.{◌≡◌, ◌+◌, ◌<◌, IfOk, IfErr, IfSome, IfNone, None, true, false, unwrap_or};
ghost use Rattle.bump_handles.specs.Opening.{TakesPart};
ghost use Rattle.cache_config.specs.Configs.{IsStoreOf};
ghost use Rattle.cache_handles.specs.Configs.{bytes_taken_by, default_config, first_byte_fault, key_words_of, part_of_key};
ghost use Rattle.cache_handles.specs.Configs.{value_words_of};
ghost use Rattle.cache_handles.specs.Views.{BytePartView as TheBytePartView, ByteReaderView as TheByteReaderView};
ghost use Rattle.bump_c.specs.One.{IsOne};
ghost use Rattle.bump_c.specs.Opening.{HasTaken};
ghost use Rattle.bump_c.specs.CacheOpening.{HasOpenedCache, IsWhyNoCache, cache_config_of, cache_numbers_of};
ghost use Rattle.bump_c.specs.CacheOpening.{places_of, ticks_of};

use crate::answers::given;
use crate::cache_answers::byte_fault_number;
use crate::cache_handle::{CacheCall, CacheHandle, CacheSlot};
use crate::cache_part_handle::CachePartSlot;
use crate::cache_reader_handle::CacheReaderSlot;
use bump_heads::{Blank, Name};
use bump_rules::Config;
use cache_handles::{ByteConfig, CacheConfig, OpenedCache, Seed, open};
use open_box::OpenBox;
use std::alloc::{AllocError, Global};
use std::marker::Brand;

const NO_MEMORY: u32 = 9;

/// What a cache is made from.
#[repr(C)]
#[derive(Clone, Copy)]
pub struct CacheNumbers {
    /// The first half of the seed of the keys' hashes, any: a random number, shown to nobody, where others choose the
    /// keys.
    pub seed_first: u64,

    /// The second half of it, likewise.
    pub seed_second: u64,

    /// What expires within so many ticks of its put goes to TEMP; 0: nothing does.
    pub temporary: u64,

    /// The longest key, in bytes: 0 to 1,024.
    pub key_bytes: u32,

    /// The longest value, in bytes: 0 to 1,048,576.
    pub value_bytes: u32,

    /// The most items: 1 to 128,000,000.
    pub items: u32,

    /// Chunks of each part beside those of its items: 1 or more, and multiplied by the parts at most 128,000,000 together
    /// with the items. Where there were 1 + readers * (1 + holds) tests saw each put find one, as long as no chunk had had its
    /// last generation.
    pub spare: u32,

    /// HOT's share of the items in percent, with WARM's at most 100. Where HOT has more, balances move its last items on, a
    /// few at a time: so it may have more.
    pub hot: u32,

    /// WARM's share, in the same sense. Bumps move items into WARM, also past it.
    pub warm: u32,

    /// HOT's last item goes to COLD where it is older than so many percent of the age of COLD's last one;
    /// 4,294,967,295: ages don't count there.
    pub hot_age: u32,

    /// The same of WARM's last item.
    pub warm_age: u32,

    /// How many parts there are: 1 to 256, and no more than items.
    pub parts: u32,

    /// How many readers there are: 1 to 64.
    pub readers: u32,

    /// How many bumps a reader's ring of a part has room for: 1 to 65,536.
    pub ring: u32,

    /// At how many chunks a tend looks for items that have expired: any number.
    pub looks: u32,

    /// How many numbered holds each reader has: any number.
    pub holds: u32,
}

// A number of ticks that may be left out: 0 stands for none.
fn ticks_given(ticks: u64) -> Option<u64>
    ensures { result ≡ ticks_of ticks }
{
    if ticks == 0 { None } else { Some(ticks) }
}

// The configuration of these numbers.
fn config_of(numbers: &CacheNumbers) -> ByteConfig
    ensures { result ≡ cache_config_of numbers.now }
{
    let cache = CacheConfig {
        items: numbers.items,
        spare: numbers.spare,
        hot: numbers.hot,
        warm: numbers.warm,
        hot_age: given(numbers.hot_age),
        warm_age: given(numbers.warm_age),
        parts: numbers.parts,
        readers: numbers.readers,
        ring: numbers.ring,
        temporary: ticks_given(numbers.temporary),
        expiry_looks: numbers.looks,
        seed: Seed {
            first: numbers.seed_first,
            second: numbers.seed_second,
        },
    };
    ByteConfig {
        cache,
        key_bytes: numbers.key_bytes,
        value_bytes: numbers.value_bytes,
    }
}

// The numbers of a configuration, without holds.
fn numbers_of(config: &ByteConfig) -> CacheNumbers
    ensures { result ≡ cache_numbers_of config.now }
{
    CacheNumbers {
        seed_first: config.cache.seed.first,
        seed_second: config.cache.seed.second,
        temporary: config.cache.temporary.unwrap_or(0),
        key_bytes: config.key_bytes,
        value_bytes: config.value_bytes,
        items: config.cache.items,
        spare: config.cache.spare,
        hot: config.cache.hot,
        warm: config.cache.warm,
        hot_age: config.cache.hot_age.unwrap_or(u32::MAX),
        warm_age: config.cache.warm_age.unwrap_or(u32::MAX),
        parts: config.cache.parts,
        readers: config.cache.readers,
        ring: config.cache.ring,
        looks: config.cache.expiry_looks,
        holds: 0,
    }
}

/// The numbers of a cache as memcached has it, of so many items, for so many readers, with keys and values of so many
/// bytes at most: a seed of zeros, one part, nothing in TEMP, and no holds.
#[unsafe(no_mangle)]
pub extern "C" fn bump_cache_defaults(
    items: u32,
    readers: u32,
    key_bytes: u32,
    value_bytes: u32,
) -> CacheNumbers
    ensures config { cache_config_of result ≡ default_config items readers key_bytes value_bytes }
    ensures holds { result.holds ≡ 0 }
{
    let config = ByteConfig::defaults(items, readers, key_bytes, value_bytes);
    numbers_of(&config)
}

/// How many bytes a cache of these numbers asks for when it is opened and keeps, beside those of its handles and numbered
/// holds; 0: no cache is made from them.
#[unsafe(no_mangle)]
pub extern "C" fn bump_cache_bytes_taken(numbers: &CacheNumbers) -> u64
    ensures { result ≡ unwrap_or (bytes_taken_by (cache_config_of numbers.now)) 0 }
{
    let config = config_of(numbers);
    config.bytes_taken().unwrap_or(0)
}

fn open_named<N: Name>(
    alloc: Global,
    blank: Blank,
    store: &Config,
    config: &ByteConfig,
    places: u32,
) -> Result<CacheSlot, AllocError>
    requires name { blank.table ≡ N.table }
    requires one { IsOne N }
    requires slots { blank.table.slots ≡ key_words_of config.now + value_words_of config.now }
    requires made { blank.config ≡ store.now }
    requires store { IsStoreOf config.now.cache store.now }
    requires sound { first_byte_fault config.now ≡ None }
    ensures { IfOk result (λ slot. HasOpenedCache config.now places slot.slot) }
{
    let opened = open::<N>(alloc, blank, store, config, places)?;
    let boxed = Box::new(alloc, opened)?;
    Ok(CacheSlot::of_open(OpenBox::of(boxed)))
}

fn open_at(
    alloc: Global,
    blank: Blank,
    store: &Config,
    config: &ByteConfig,
    places: u32,
) -> Result<CacheSlot, AllocError>
    requires slots { blank.table.slots ≡ key_words_of config.now + value_words_of config.now }
    requires made { blank.config ≡ store.now }
    requires store { IsStoreOf config.now.cache store.now }
    requires sound { first_byte_fault config.now ≡ None }
    ensures { IfOk result (λ slot. HasOpenedCache config.now places slot.slot) }
{
    open_named::<Brand>(alloc, blank, store, config, places)
}

// Opens a cache of a configuration that has no fault. It is refused only for want of memory.
fn open_sound(alloc: Global, config: &ByteConfig, places: u32) -> Result<CacheSlot, AllocError>
    requires { first_byte_fault config.now ≡ None }
    ensures { IfOk result (λ slot. HasOpenedCache config.now places slot.slot) }
{
    let store = config.cache.store(alloc)?;
    let blank = Blank::with_words(alloc, &store, config.words())?;
    open_at(alloc, blank, &store, config, places)
}

// Opens a cache of any configuration; or answers the number of its first fault, or that of want of memory.
fn open_of(alloc: Global, config: &ByteConfig, places: u32) -> Result<CacheSlot, u32>
    ensures opened { IfOk result (λ slot. HasOpenedCache config.now places slot.slot) }
    ensures refused { IfErr result (λ answer. IsWhyNoCache config.now answer) }
    ensures some { IfErr result (λ answer. 0 < answer) }
{
    match config.fault() {
        Some(fault) => Err(byte_fault_number(fault)),
        None => match open_sound(alloc, config, places) {
            Ok(slot) => Ok(slot),
            Err(AllocError) => Err(NO_MEMORY),
        },
    }
}

/// Opens a cache, and fills an empty slot with it. It answers 0, or the number of the configuration's first fault, or
/// 9 where it has none and memory was refused. Each reader has one place more than the numbers tell holds: place 0 is
/// that of the gets of c/bump_cache.h.
#[unsafe(no_mangle)]
pub extern "C" fn bump_cache_open(
    alloc: Global,
    cache: &mut CacheSlot,
    numbers: &CacheNumbers,
) -> u32
    ensures opened { result ≡ 0 → HasOpenedCache (cache_config_of numbers.now) (places_of numbers.now.holds)
        cache.new.slot }
    ensures refused { 0 < result → IsWhyNoCache (cache_config_of numbers.now) result }
    ensures unchanged { 0 < result → cache.new ≡ cache.old }
{
    let config = config_of(numbers);
    let places = numbers.holds.saturating_add(1);
    match open_of(alloc, &config, places) {
        Ok(slot) => {
            *cache = slot;
            0
        }
        Err(answer) => answer,
    }
}

/// The part that a key is of, by number, in a cache of these numbers. 4,294,967,295: the key is too long, or no cache
/// is made from them.
#[unsafe(no_mangle)]
pub extern "C" fn bump_cache_part_of(numbers: &CacheNumbers, key: &[u8]) -> u32
    ensures { result ≡ unwrap_or (part_of_key (cache_config_of numbers.now) key.now) 4294967295 }
{
    let config = config_of(numbers);
    config.part_of(key).unwrap_or(u32::MAX)
}

#[derive(Drop)]
struct TakePart {
    number: u32,
}

impl CacheCall for TakePart {
    type Told = Option<CachePartSlot>;

    ghost tells = { λ call table before after told.
        IfSome told (λ slot. HasTaken TheBytePartView call.number table before.parts after.parts slot.slot)
        × IfNone told (TakesPart TheBytePartView call.number before.parts after.parts None)
        × (after ≡ record before { parts = after.parts }) };

    fn make<N: Name>(self, it: &mut OpenedCache<N>) -> Option<CachePartSlot> {
        let taken = it.part(self.number)?;
        Some(CachePartSlot::of_open(OpenBox::of(taken)))
    }
}

/// Takes the part with this number out of the cache, and fills an empty slot with it. `false`: there is none, or it
/// is taken already, and nothing is changed.
#[unsafe(no_mangle)]
pub extern "C" fn bump_cache_take_part(
    cache: &mut CacheHandle,
    number: u32,
    part: &mut CachePartSlot,
) -> bool
    ensures table { cache.new.table ≡ cache.old.table }
    ensures taken { result ≡ true → HasTaken TheBytePartView number cache.old.table cache.old.held.parts
        cache.new.held.parts part.new.slot }
    ensures none { result ≡ false → TakesPart TheBytePartView number cache.old.held.parts cache.new.held.parts None }
    ensures kept { cache.new.held ≡ record cache.old.held { parts = cache.new.held.parts } }
    ensures unchanged { result ≡ false → part.new ≡ part.old }
{
    match cache.call(TakePart { number }) {
        Some(slot) => {
            *part = slot;
            true
        }
        None => false,
    }
}

#[derive(Drop)]
struct TakeReader {
    number: u32,
}

impl CacheCall for TakeReader {
    type Told = Option<CacheReaderSlot>;

    ghost tells = { λ call table before after told.
        IfSome told (λ slot. HasTaken TheByteReaderView call.number table before.readers after.readers slot.slot)
        × IfNone told (TakesPart TheByteReaderView call.number before.readers after.readers None)
        × (after ≡ record before { readers = after.readers }) };

    fn make<N: Name>(self, it: &mut OpenedCache<N>) -> Option<CacheReaderSlot> {
        let taken = it.reader(self.number)?;
        Some(CacheReaderSlot::of_open(OpenBox::of(taken)))
    }
}

/// Takes the reader with this number out of the cache, and fills an empty slot with it. `false`: there is none, or it
/// is taken already, and nothing is changed.
#[unsafe(no_mangle)]
pub extern "C" fn bump_cache_take_reader(
    cache: &mut CacheHandle,
    number: u32,
    part: &mut CacheReaderSlot,
) -> bool
    ensures table { cache.new.table ≡ cache.old.table }
    ensures taken { result ≡ true → HasTaken TheByteReaderView number cache.old.table cache.old.held.readers
        cache.new.held.readers part.new.slot }
    ensures none { result ≡ false → TakesPart TheByteReaderView number cache.old.held.readers cache.new.held.readers
        None }
    ensures kept { cache.new.held ≡ record cache.old.held { readers = cache.new.held.readers } }
    ensures unchanged { result ≡ false → part.new ≡ part.old }
{
    match cache.call(TakeReader { number }) {
        Some(slot) => {
            *part = slot;
            true
        }
        None => false,
    }
}

fn close_named<N: Name>(h: CacheHandle)
    requires table { h.table ≡ N.table }
    requires one { IsOne N }
{
    drop(h.into_open::<N>().into_box());
}

/// Ends what wasn't taken out of a cache.
#[unsafe(no_mangle)]
pub extern "C" fn bump_cache_close(cache: CacheHandle) {
    close_named::<Brand>(cache);
}
