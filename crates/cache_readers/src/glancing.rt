//! Glances at the chunks to which the index leads: looks without a reference, which write nothing.
ghost use Rattle.std.specs.Prelude.{◌≡◌, ◌≢◌, ◌+◌, ◌≤◌, true, false, length};
ghost use Rattle.bump_steps.specs.References.{label_of_row};
ghost use Rattle.bump_readers.specs.Glances.{IsGlancing};
ghost use Rattle.cache_readers.specs.declared.glancing.Glanced.TheVariants as glanced;
ghost use Rattle.cache_index.specs.History.{Looks, SeesIndex};
ghost use Rattle.cache_readers.specs.Glances.{GlanceFinds, GlancesInVain, HasWords, IfUnsure, Reads};
ghost use Rattle.cache_readers.specs.Misses.{IsAbsent};

use bump_readers::{Glance, Name, ReaderHeads};
use bump_rules::{ItemId, has_expired};
use bump_steps::RowLaw;
use bump_unlocked::Worker;
use cache_index::{Eye, IndexReader};

/// What a reader's glance for a key came to.
pub enum Glanced {
    /// It found the key's value: that is a hit.
    Found,

    /// The index leads to no chunk for the key's hash: that is a miss.
    Nothing,

    /// It told nothing of the life to which the index leads first: `WordReader::get_held` goes on from that.
    Unsure(ItemId),
}

// The label that the glance loads.
#[inline(always)]
fn load_label<N: Name, L: RowLaw>(
    worker: &mut Worker<N>,
    heads: &ReaderHeads<N, L>,
    glance: &Glance<N>,
) -> u64
    requires glance { IsGlancing glance.now worker.old.sheet }
    ensures reads { Reads (λ row. result ≡ label_of_row row) worker.old worker.new }
{
    worker.glance_label(heads, glance)
}

// Whether the words that the glance loads are the key's.
#[inline(always)]
fn has_key_words<N: Name, L: RowLaw>(
    worker: &mut Worker<N>,
    heads: &ReaderHeads<N, L>,
    glance: &Glance<N>,
    key: &[u64],
) -> bool
    requires glance { IsGlancing glance.now worker.old.sheet }
    requires few { length key.now ≤ N.table.slots }
    ensures reads { Reads (λ row. result ≡ true → HasWords key.now 0 row) worker.old worker.new }
{
    let _further = heads.further();
    for index in 0..key.len() {
        if worker.glance_word(heads, glance, index as u32) != key[index] {
            return false;
        }
    }
    true
}

// Loads words by the glance, from this further word on.
#[inline(always)]
fn load_words<N: Name, L: RowLaw>(
    worker: &mut Worker<N>,
    heads: &ReaderHeads<N, L>,
    glance: &Glance<N>,
    from: usize,
    words: &mut [u64],
)
    requires glance { IsGlancing glance.now worker.old.sheet }
    requires few { from + length words.old ≤ N.table.slots }
    ensures reads { Reads (HasWords words.new from) worker.old worker.new }
    ensures length { length words.new ≡ length words.old }
{
    let _further = heads.further();
    for index in 0..words.len() {
        words[index] = worker.glance_word(heads, glance, (from + index) as u32);
    }
}

// Glances at a life, where `glances` says so: whether it is linked, has both marks and the key, hasn't expired, and is
// still linked when its value was read. Then a touch would change nothing, and each word that was read is the life's.
#[inline(always)]
pub(crate) fn glance_at<N: Name, L: RowLaw>(
    worker: &mut Worker<N>,
    heads: &ReaderHeads<N, L>,
    id: ItemId,
    key: &[u64],
    value: &mut [u64],
    glances: bool,
    now: u64,
) -> bool
    requires few { length key.now + length value.old ≤ N.table.slots }
    ensures finds { result ≡ true → GlanceFinds L.law key.now value.new now worker.old worker.new }
    ensures led { result ≡ true → IsGlancing id worker.new.sheet }
    ensures vain { result ≡ false → GlancesInVain id.chunk worker.old worker.new }
    ensures none { glances ≡ false → result ≡ false }
    ensures length { length value.new ≡ length value.old }
{
    if !glances {
        return false;
    }
    let Some((glance, found)) = worker.glance(heads, id.chunk) else {
        return false;
    };
    // Tested beside the look for LINKED, the marks are one comparison with it.
    if !found.fetched || !found.active {
        return false;
    }
    if found.generation != id.generation {
        return false;
    }
    if has_expired(load_label(worker, heads, &glance), now) {
        return false;
    }
    if !has_key_words(worker, heads, &glance, key) {
        return false;
    }
    load_words(worker, heads, &glance, key.len(), value);
    let last = worker.end_glance(heads, glance);
    last.linked && last.generation == id.generation
}

// Glances at the first life to which the index leads for this hash, where `glances` says so.
#[inline(always)]
pub(crate) fn glance_first<N: Name, L: RowLaw>(
    worker: &mut Worker<N>,
    heads: &ReaderHeads<N, L>,
    index: &IndexReader,
    eye: &mut Eye,
    hash: u32,
    key: &[u64],
    value: &mut [u64],
    glances: bool,
    now: u64,
) -> Glanced
    requires few { length key.now + length value.old ≤ N.table.slots }
    requires eye { SeesIndex index.now eye.old }
    ensures found { result ≡ glanced.Found → GlanceFinds L.law key.now value.new now worker.old worker.new }
    ensures nothing { result ≡ glanced.Nothing → worker.new ≡ worker.old }
    ensures absent { result ≡ glanced.Nothing → IsAbsent hash key.now index.now worker.old eye.old worker.new eye.new }
    ensures looks { Looks eye.old eye.new }
    ensures unsure { IfUnsure result (λ id. GlancesInVain id.chunk worker.old worker.new) }
    ensures none { glances ≡ false → result ≢ glanced.Found }
    ensures length { length value.new ≡ length value.old }
{
    let mut search = index.search(eye, hash);
    let Some(id) = search.next(eye) else {
        return Glanced::Nothing;
    };
    if glance_at(worker, heads, id, key, value, glances, now) {
        return Glanced::Found;
    }
    Glanced::Unsure(id)
}
