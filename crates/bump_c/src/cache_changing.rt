//! A part's calls that change it, which are made under the caller's lock of the part.
ghost use Rattle.std.specs.Prelude.{◌≡◌};
ghost use Rattle.cache_handles.specs.Looking.{TellsRemove};
ghost use Rattle.bump_c.specs.CacheTells.{ClearsCachePart, TellsCacheAdd, TellsCachePut, TellsCacheReplace};
ghost use Rattle.bump_c.specs.CacheTells.{TellsCacheTouch, TellsCacheUpdate, TendsCachePart};

use crate::cache_answers::{CachePut, put_told};
use crate::cache_part_handle::{CachePartCall, CachePartHandle};
use bump_heads::Name;
use cache_handles::BytePart;

#[derive(Drop)]
struct Put<'a> {
    key: &'a [u8],
    value: &'a [u8],
    flags: u32,
    expires: u64,
    now: u64,
}

impl<'a> CachePartCall for Put<'a> {
    type Told = CachePut;

    ghost tells = { λ call table before after told.
        TellsCachePut call.key.now call.value.now call.flags call.expires call.now before after told };

    fn make<N: Name>(self, it: &mut BytePart<N>) -> CachePut {
        put_told(it.put(self.key, self.value, self.flags, self.expires, self.now))
    }
}

/// Puts a value under a key, with flags of the caller's, until a time; 0 is never. Where the key has no item and the
/// part is full another one is evicted.
#[unsafe(no_mangle)]
pub extern "C" fn bump_cache_put(
    part: &mut CachePartHandle,
    key: &[u8],
    value: &[u8],
    flags: u32,
    expires: u64,
    now: u64,
) -> CachePut
    ensures table { part.new.table ≡ part.old.table }
    ensures puts { TellsCachePut key.now value.now flags expires now part.old.held part.new.held result }
{
    part.call(Put {
        key,
        value,
        flags,
        expires,
        now,
    })
}

#[derive(Drop)]
struct Add<'a> {
    key: &'a [u8],
    value: &'a [u8],
    flags: u32,
    expires: u64,
    now: u64,
}

impl<'a> CachePartCall for Add<'a> {
    type Told = CachePut;

    ghost tells = { λ call table before after told.
        TellsCacheAdd call.key.now call.value.now call.flags call.expires call.now before after told };

    fn make<N: Name>(self, it: &mut BytePart<N>) -> CachePut {
        put_told(it.add(self.key, self.value, self.flags, self.expires, self.now))
    }
}

/// The same where the key has nothing, or what has expired.
#[unsafe(no_mangle)]
pub extern "C" fn bump_cache_add(
    part: &mut CachePartHandle,
    key: &[u8],
    value: &[u8],
    flags: u32,
    expires: u64,
    now: u64,
) -> CachePut
    ensures table { part.new.table ≡ part.old.table }
    ensures adds { TellsCacheAdd key.now value.now flags expires now part.old.held part.new.held result }
{
    part.call(Add {
        key,
        value,
        flags,
        expires,
        now,
    })
}

#[derive(Drop)]
struct Replace<'a> {
    key: &'a [u8],
    value: &'a [u8],
    flags: u32,
    expires: u64,
    now: u64,
}

impl<'a> CachePartCall for Replace<'a> {
    type Told = CachePut;

    ghost tells = { λ call table before after told.
        TellsCacheReplace call.key.now call.value.now call.flags call.expires call.now before after told };

    fn make<N: Name>(self, it: &mut BytePart<N>) -> CachePut {
        put_told(it.replace(self.key, self.value, self.flags, self.expires, self.now))
    }
}

/// The same where the key has something that hasn't expired.
#[unsafe(no_mangle)]
pub extern "C" fn bump_cache_replace(
    part: &mut CachePartHandle,
    key: &[u8],
    value: &[u8],
    flags: u32,
    expires: u64,
    now: u64,
) -> CachePut
    ensures table { part.new.table ≡ part.old.table }
    ensures replaces { TellsCacheReplace key.now value.now flags expires now part.old.held part.new.held result }
{
    part.call(Replace {
        key,
        value,
        flags,
        expires,
        now,
    })
}

#[derive(Drop)]
struct Update<'a> {
    key: &'a [u8],
    value: &'a [u8],
    now: u64,
}

impl<'a> CachePartCall for Update<'a> {
    type Told = CachePut;

    ghost tells = { λ call table before after told.
        TellsCacheUpdate call.key.now call.value.now call.now before after told };

    fn make<N: Name>(self, it: &mut BytePart<N>) -> CachePut {
        put_told(it.update(self.key, self.value, self.now))
    }
}

/// The same as a replacement, but the flags and the time stay what they are.
#[unsafe(no_mangle)]
pub extern "C" fn bump_cache_update(
    part: &mut CachePartHandle,
    key: &[u8],
    value: &[u8],
    now: u64,
) -> CachePut
    ensures table { part.new.table ≡ part.old.table }
    ensures updates { TellsCacheUpdate key.now value.now now part.old.held part.new.held result }
{
    part.call(Update { key, value, now })
}

#[derive(Drop)]
struct Touch<'a> {
    key: &'a [u8],
    expires: u64,
    now: u64,
}

impl<'a> CachePartCall for Touch<'a> {
    type Told = CachePut;

    ghost tells = { λ call table before after told.
        TellsCacheTouch call.key.now call.expires call.now before after told };

    fn make<N: Name>(self, it: &mut BytePart<N>) -> CachePut {
        put_told(it.touch(self.key, self.expires, self.now))
    }
}

/// The value and its flags stay, and it expires at another time.
#[unsafe(no_mangle)]
pub extern "C" fn bump_cache_touch(
    part: &mut CachePartHandle,
    key: &[u8],
    expires: u64,
    now: u64,
) -> CachePut
    ensures table { part.new.table ≡ part.old.table }
    ensures touches { TellsCacheTouch key.now expires now part.old.held part.new.held result }
{
    part.call(Touch { key, expires, now })
}

#[derive(Drop)]
struct Remove<'a> {
    key: &'a [u8],
    now: u64,
}

impl<'a> CachePartCall for Remove<'a> {
    type Told = bool;

    ghost tells = { λ call table before after told. TellsRemove call.key.now call.now before after told };

    fn make<N: Name>(self, it: &mut BytePart<N>) -> bool {
        it.remove(self.key, self.now)
    }
}

/// Ends what a key has, and tells whether it had something that hadn't expired.
#[unsafe(no_mangle)]
pub extern "C" fn bump_cache_remove(part: &mut CachePartHandle, key: &[u8], now: u64) -> bool
    ensures table { part.new.table ≡ part.old.table }
    ensures removes { TellsRemove key.now now part.old.held part.new.held result }
{
    part.call(Remove { key, now })
}

#[derive(Drop)]
struct Tend {
    now: u64,
}

impl CachePartCall for Tend {
    type Told = ();

    ghost tells = { λ call table before after told. TendsCachePart call.now before after };

    fn make<N: Name>(self, it: &mut BytePart<N>) {
        it.tend(self.now);
    }
}

/// Applies the bumps that wait, ends what has expired among some chunks, frees what nobody holds any more, and
/// balances HOT and WARM.
#[unsafe(no_mangle)]
pub extern "C" fn bump_cache_tend(part: &mut CachePartHandle, now: u64)
    ensures table { part.new.table ≡ part.old.table }
    ensures tends { TendsCachePart now part.old.held part.new.held }
{
    part.call(Tend { now })
}

#[derive(Drop)]
struct Clear;

impl CachePartCall for Clear {
    type Told = ();

    ghost tells = { λ call table before after told. ClearsCachePart before after };

    fn make<N: Name>(self, it: &mut BytePart<N>) {
        it.clear();
    }
}

/// Ends each item.
#[unsafe(no_mangle)]
pub extern "C" fn bump_cache_clear(part: &mut CachePartHandle)
    ensures table { part.new.table ≡ part.old.table }
    ensures clears { ClearsCachePart part.old.held part.new.held }
{
    part.call(Clear)
}
