//! Looks at the chunks to which the index leads.
ghost use Rattle.std.specs.Prelude.{◌≡◌, ◌≢◌, ◌+◌, ◌≤◌, true, false, None, IfOk, IfSome, length};
ghost use Rattle.std.specs.Result.{IfErr};
ghost use Rattle.bump_readers.specs.Glances.{IsGlancing};
ghost use Rattle.cache_index.specs.History.{Looks, SeesIndex};
ghost use Rattle.cache_readers.specs.Glances.{BehindGlance};
ghost use Rattle.cache_readers.specs.Looks.{FindsNothing, FoundBy, HasOtherKey, HasWords, Hits, LookFinds, LookTakes, LooksInVain};
ghost use Rattle.cache_readers.specs.Looks.{SearchBy, SearchEnds, TouchesUnmarked, one_more};
ghost use Rattle.cache_readers.specs.Misses.{HeldAnother, IsAbsent, IsMissed};
ghost use Rattle.cache_readers.specs.declared.vain.Vain.TheVariants as vain;

use crate::glancing::{Glanced, glance_at, glance_first};
use crate::misses::Miss;
use crate::vain::Vain;
use bump_readers::{Name, ReaderHeads};
use bump_rules::{Head, ItemId, has_expired};
use bump_steps::RowLaw;
use bump_unlocked::{Hold, Worker};
use cache_index::{Eye, IndexReader};

// A search begins anew where the life to which the index led has ended, or its chunk can't be held, so often at most.
const TURNS: u32 = 1_000;

// Whether the item that is held has the key.
#[inline(always)]
fn has_key<N: Name, L: RowLaw>(hold: &mut Hold<N>, heads: &ReaderHeads<N, L>, key: &[u64]) -> bool
    requires few { length key.now ≤ N.table.slots }
    ensures has { result ≡ true → HasWords key.now 0 hold.old.row }
    ensures other { result ≡ false → HasOtherKey key.now hold.old.row }
    ensures same { hold.new ≡ hold.old }
{
    let _further = heads.further();
    for index in 0..key.len() {
        if hold.word(heads, index as u32) != key[index] {
            return false;
        }
    }
    true
}

// Reads words of the item that is held, from this further word on.
#[inline(always)]
pub(crate) fn read_words<N: Name, L: RowLaw>(
    hold: &mut Hold<N>,
    heads: &ReaderHeads<N, L>,
    from: usize,
    words: &mut [u64],
)
    requires few { from + length words.old ≤ N.table.slots }
    ensures read { HasWords words.new from hold.old.row }
    ensures length { length words.new ≡ length words.old }
    ensures same { hold.new ≡ hold.old }
{
    let _further = heads.further();
    for index in 0..words.len() {
        words[index] = hold.word(heads, (from + index) as u32);
    }
}

// Touches the item that is held, where the head by which it was taken hadn't both marks. Most hits find both set: then
// the locked step of a touch is saved.
#[inline(always)]
pub(crate) fn touch<N: Name, L: RowLaw>(
    worker: &mut Worker<N>,
    heads: &ReaderHeads<N, L>,
    hold: &mut Hold<N>,
    found: Head,
    now: u64,
)
    ensures touches { TouchesUnmarked heads.now hold.old found now worker.old worker.new }
    ensures same { hold.new ≡ hold.old }
    ensures ring { worker.new.sender.ring ≡ worker.old.sender.ring }
{
    if found.fetched && found.active {
        return;
    }
    let _touch = worker.touch(heads, hold, now);
}

// Looks at a life by a hold, behind a glance at its chunk that told nothing, or none. Where the life hasn't ended, has the
// key and hasn't expired, the hold of it is answered, and the head by which it was taken.
#[inline(always)]
fn look_held<N: Name, L: RowLaw>(
    worker: &mut Worker<N>,
    heads: &ReaderHeads<N, L>,
    id: ItemId,
    key: &[u64],
    now: u64,
) -> Result<(Hold<N>, Head), Vain>
    requires few { length key.now ≤ N.table.slots }
    ensures finds { IfOk result (λ took. BehindGlance id.chunk (λ before. LookTakes L.law heads.now key.now now took.0
        took.1 before worker.new) worker.old) }
    ensures led { IfOk result (λ took. took.0.life.generation ≡ id.generation) }
    ensures vain { IfErr result (λ why. BehindGlance id.chunk (λ before. LooksInVain why heads.now key.now now before
        worker.new) worker.old) }
    ensures other { IfErr result (λ why. why ≡ vain.Other → HeldAnother key.now id worker.old worker.new) }
    ensures ring { worker.new.sender.ring ≡ worker.old.sender.ring }
{
    let Ok((mut hold, found)) = worker.get_any(heads, id.chunk) else {
        return Err(Vain::Ended);
    };
    // Another life may have the key too: one that was put since, and to which the index doesn't lead yet. Whoever took
    // it would find the value before it by the next get.
    if hold.life().generation != id.generation {
        hold.release(heads);
        return Err(Vain::Ended);
    }
    if !has_key(&mut hold, heads, key) {
        hold.release(heads);
        return Err(Vain::Other);
    }
    if has_expired(hold.label(heads), now) {
        hold.release(heads);
        return Err(Vain::Over);
    }
    Ok((hold, found))
}

// Looks at a life. Where `glances` says so it glances first: where that finds the key's item, its value is read, and
// None is answered. Else it looks by a hold.
#[inline(always)]
fn look<N: Name, L: RowLaw>(
    worker: &mut Worker<N>,
    heads: &ReaderHeads<N, L>,
    id: ItemId,
    key: &[u64],
    value: &mut [u64],
    glances: bool,
    now: u64,
) -> Result<Option<(Hold<N>, Head)>, Vain>
    requires few { length key.now + length value.old ≤ N.table.slots }
    ensures finds { IfOk result (λ sight. LookFinds L.law heads.now key.now value.new now sight worker.old worker.new) }
    ensures glanced { IfOk result (λ sight. sight ≡ None → IsGlancing id worker.new.sheet) }
    ensures led { IfOk result (λ sight. IfSome sight (λ took. took.0.life.generation ≡ id.generation)) }
    ensures held { glances ≡ false → IfOk result (λ sight. sight ≢ None) }
    ensures vain { IfErr result (λ why. LooksInVain why heads.now key.now now worker.old worker.new) }
    ensures other { IfErr result (λ why. why ≡ vain.Other → HeldAnother key.now id worker.old worker.new) }
    ensures length { length value.new ≡ length value.old }
    ensures ring { worker.new.sender.ring ≡ worker.old.sender.ring }
{
    if glance_at(worker, heads, id, key, value, glances, now) {
        return Ok(None);
    }
    match look_held(worker, heads, id, key, now) {
        Ok(took) => Ok(Some(took)),
        Err(why) => Err(why),
    }
}

// Goes through the chunks to which the index leads for this hash.
#[inline(always)]
fn look_through<N: Name, L: RowLaw>(
    worker: &mut Worker<N>,
    heads: &ReaderHeads<N, L>,
    index: &IndexReader,
    eye: &mut Eye,
    hash: u32,
    key: &[u64],
    value: &mut [u64],
    glances: bool,
    now: u64,
) -> Result<Option<(Hold<N>, Head)>, Vain>
    requires few { length key.now + length value.old ≤ N.table.slots }
    requires eye { SeesIndex index.now eye.old }
    ensures finds { IfOk result (λ sight. SearchBy (LookFinds L.law heads.now key.now value.new now sight) heads.now
        key.now now worker.old worker.new) }
    ensures held { glances ≡ false → IfOk result (λ sight. sight ≢ None) }
    ensures vain { IfErr result (λ why. SearchEnds why heads.now key.now now worker.old worker.new) }
    ensures absent { IfErr result (λ why. why ≡ vain.Other → IsAbsent hash key.now index.now worker.old eye.old worker.new
        eye.new) }
    ensures looks { Looks eye.old eye.new }
    ensures length { length value.new ≡ length value.old }
    ensures ring { worker.new.sender.ring ≡ worker.old.sender.ring }
{
    let mut search = index.search(eye, hash);
    while let Some(id) = search.next(eye) {
        match look(worker, heads, id, key, value, glances, now) {
            Ok(sight) => return Ok(sight),
            Err(Vain::Ended) => return Err(Vain::Ended),
            Err(Vain::Over) => return Err(Vain::Over),
            Err(Vain::Other) => {}
        }
    }
    Err(Vain::Other)
}

// The first search for a key, from a life on at which a glance told nothing, or there was none: it looks at that by a
// hold, and goes through all to which the index leads then. So it may look at the same life once more, where that has
// another key: few have.
#[inline(always)]
fn look_from<N: Name, L: RowLaw>(
    worker: &mut Worker<N>,
    heads: &ReaderHeads<N, L>,
    index: &IndexReader,
    eye: &mut Eye,
    id: ItemId,
    hash: u32,
    key: &[u64],
    value: &mut [u64],
    glances: bool,
    now: u64,
) -> Result<Option<(Hold<N>, Head)>, Vain>
    requires few { length key.now + length value.old ≤ N.table.slots }
    requires eye { SeesIndex index.now eye.old }
    ensures finds { IfOk result (λ sight. BehindGlance id.chunk (λ before. SearchBy (LookFinds L.law heads.now key.now
        value.new now sight) heads.now key.now now before worker.new) worker.old) }
    ensures held { glances ≡ false → IfOk result (λ sight. sight ≢ None) }
    ensures vain { IfErr result (λ why. BehindGlance id.chunk (λ before. SearchEnds why heads.now key.now now before
        worker.new) worker.old) }
    ensures absent { IfErr result (λ why. why ≡ vain.Other → IsAbsent hash key.now index.now worker.old eye.old worker.new
        eye.new) }
    ensures looks { Looks eye.old eye.new }
    ensures length { length value.new ≡ length value.old }
    ensures ring { worker.new.sender.ring ≡ worker.old.sender.ring }
{
    match look_held(worker, heads, id, key, now) {
        Ok(took) => return Ok(Some(took)),
        Err(Vain::Ended) => return Err(Vain::Ended),
        Err(Vain::Over) => return Err(Vain::Over),
        Err(Vain::Other) => {}
    }
    look_through(worker, heads, index, eye, hash, key, value, glances, now)
}

// Finds the item of a key that hasn't expired, from a life on at which a glance told nothing, or there was none. Where
// `glances` says so and a glance found it, its value is read, and None is answered; else a hold of it, and the head by
// which it was taken. Where nothing is found it says why. Searches that end at a life that has ended are counted in `anew`.
#[inline(always)]
pub(crate) fn find_from<N: Name, L: RowLaw>(
    worker: &mut Worker<N>,
    heads: &ReaderHeads<N, L>,
    index: &IndexReader,
    eye: &mut Eye,
    anew: &mut u64,
    id: ItemId,
    hash: u32,
    key: &[u64],
    value: &mut [u64],
    glances: bool,
    now: u64,
) -> Result<Option<(Hold<N>, Head)>, Miss>
    requires few { length key.now + length value.old ≤ N.table.slots }
    requires eye { SeesIndex index.now eye.old }
    ensures finds { IfOk result (λ sight. BehindGlance id.chunk (λ before. FoundBy (LookFinds L.law heads.now key.now
        value.new now sight) heads.now key.now now anew.old anew.new before worker.new) worker.old) }
    ensures held { glances ≡ false → IfOk result (λ sight. sight ≢ None) }
    ensures vain { IfErr result (λ why. BehindGlance id.chunk (λ before. FindsNothing heads.now key.now now anew.old
        anew.new before worker.new) worker.old) }
    ensures missed { IfErr result (λ why. IsMissed why hash key.now now heads.now index.now anew.old anew.new worker.old
        eye.old worker.new eye.new) }
    ensures looks { Looks eye.old eye.new }
    ensures length { length value.new ≡ length value.old }
    ensures ring { worker.new.sender.ring ≡ worker.old.sender.ring }
{
    match look_from(
        worker, heads, index, eye, id, hash, key, value, glances, now,
    ) {
        Ok(sight) => return Ok(sight),
        Err(Vain::Other) => return Err(Miss::Absent),
        Err(Vain::Over) => return Err(Miss::Expired),
        Err(Vain::Ended) => count_one(anew),
    }
    for _turn in 1..TURNS {
        match look_through(worker, heads, index, eye, hash, key, value, glances, now) {
            Ok(sight) => return Ok(sight),
            Err(Vain::Other) => return Err(Miss::Absent),
            Err(Vain::Over) => return Err(Miss::Expired),
            Err(Vain::Ended) => count_one(anew),
        }
    }
    Err(Miss::Unknown)
}

// Finds the item of a key that hasn't expired: by a glance at the first life to which the index leads, where `glances`
// says so, or from that on.
#[inline(always)]
pub(crate) fn find<N: Name, L: RowLaw>(
    worker: &mut Worker<N>,
    heads: &ReaderHeads<N, L>,
    index: &IndexReader,
    eye: &mut Eye,
    anew: &mut u64,
    hash: u32,
    key: &[u64],
    value: &mut [u64],
    glances: bool,
    now: u64,
) -> Result<Option<(Hold<N>, Head)>, Miss>
    requires few { length key.now + length value.old ≤ N.table.slots }
    requires eye { SeesIndex index.now eye.old }
    ensures finds { IfOk result (λ sight. FoundBy (LookFinds L.law heads.now key.now value.new now sight) heads.now
        key.now now anew.old anew.new worker.old worker.new) }
    ensures held { glances ≡ false → IfOk result (λ sight. sight ≢ None) }
    ensures vain { IfErr result (λ why. FindsNothing heads.now key.now now anew.old anew.new worker.old worker.new) }
    ensures missed { IfErr result (λ why. IsMissed why hash key.now now heads.now index.now anew.old anew.new worker.old
        eye.old worker.new eye.new) }
    ensures looks { Looks eye.old eye.new }
    ensures length { length value.new ≡ length value.old }
    ensures ring { worker.new.sender.ring ≡ worker.old.sender.ring }
{
    match glance_first(worker, heads, index, eye, hash, key, value, glances, now) {
        Glanced::Found => Ok(None),
        Glanced::Nothing => Err(Miss::Absent),
        Glanced::Unsure(id) => {
            find_from(
                worker, heads, index, eye, anew, id, hash, key, value, glances, now,
            )
        }
    }
}

// One more. A count that stopped at its greatest number would cost each get a comparison.
#[inline(always)]
pub(crate) fn count_one(count: &mut u64)
    ensures { count.new ≡ one_more count.old }
{
    *count = count.wrapping_add(1);
}

// Finds the item of a key, touches it and counts a hit, and answers the hold of it; or counts a miss,
// and says why.
#[inline(always)]
pub(crate) fn take<N: Name, L: RowLaw>(
    worker: &mut Worker<N>,
    heads: &ReaderHeads<N, L>,
    index: &IndexReader,
    eye: &mut Eye,
    hits: &mut u64,
    misses: &mut u64,
    anew: &mut u64,
    hash: u32,
    key: &[u64],
    now: u64,
) -> Result<Hold<N>, Miss>
    requires few { length key.now ≤ N.table.slots }
    requires eye { SeesIndex index.now eye.old }
    ensures found { IfOk result (λ hold. Hits L.law heads.now key.now now anew.old anew.new worker.old worker.new
        hold) }
    ensures nothing { IfErr result (λ why. FindsNothing heads.now key.now now anew.old anew.new worker.old worker.new) }
    ensures absent { IfErr result (λ why. IsMissed why hash key.now now heads.now index.now anew.old anew.new worker.old
        eye.old worker.new eye.new) }
    ensures looks { Looks eye.old eye.new }
    ensures hit { IfOk result (λ _. (hits.new ≡ one_more hits.old) × (misses.new ≡ misses.old)) }
    ensures missed { IfErr result (λ _. (hits.new ≡ hits.old) × (misses.new ≡ one_more misses.old)) }
    ensures ring { worker.new.sender.ring ≡ worker.old.sender.ring }
{
    let found = find(
        worker,
        heads,
        index,
        eye,
        anew,
        hash,
        key,
        &mut [],
        false,
        now,
    );
    let sight = match found {
        Ok(sight) => sight,
        Err(why) => {
            count_one(misses);
            return Err(why);
        }
    };
    // This never comes, since no glance was asked for.
    let Some((mut hold, head)) = sight else {
        return Err(Miss::Unknown);
    };
    touch(worker, heads, &mut hold, head, now);
    count_one(hits);
    Ok(hold)
}
