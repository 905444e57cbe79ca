//! The item of a key is found.
ghost use Rattle.std.specs.Prelude.{◌≡◌, ◌≢◌, ◌+◌, ◌≤◌, true, false, suc, length};
ghost use Rattle.bump_steps.specs.Views.{owns};
ghost use Rattle.keyed_hash.specs.Hashes.{hash_of};
ghost use Rattle.cache_part.specs.Keys.{key_at, IsItemOf};
ghost use Rattle.cache_part.specs.Looks.{LooksOnly};
ghost use Rattle.cache_part.specs.Parts.{IsPart};
ghost use Rattle.cache_part.specs.Putting.{TellsOldWords};

use crate::putting::Settings;
use crate::reading;
use bump_heads::Name;
use bump_steps::RowLaw;
use cache_index::Index;
use cache_lists::CountedBook;
use keyed_hash::Seed;

// What the search for a key found.
#[derive(Clone, Copy)]
pub(crate) struct Found {
    // the key's hash
    pub(crate) hash: u32,

    // the chunk of the key's item, if it has one
    pub(crate) chunk: Option<u32>,
}

// Whether the first further words of a chunk are these: all of them are compared.
fn has_key<N: Name, L: RowLaw>(
    lists: &mut CountedBook<N, L>,
    chunk: u32,
    key_words: u32,
    key: &[u64],
) -> bool
    requires own { owns chunk lists.old.book.sheet ≡ true }
    requires words { length key.now ≡ key_words }
    requires few { key_words ≤ N.table.slots }
    ensures same { result ≡ true → key_at key_words lists.old.book.sheet chunk ≡ key.now }
    ensures other { result ≡ false → key_at key_words lists.old.book.sheet chunk ≢ key.now }
    ensures looks { LooksOnly lists.old.book lists.new.book }
    ensures rest { lists.new ≡ record lists.old { book = lists.new.book } }
{
    for index in 0..key_words {
        if lists.word(chunk, index) != key[index as usize] {
            return false;
        }
    }
    true
}

// The item of a key, by a search of the index, which looks at the key of each chunk that has the hash.
pub(crate) fn find<N: Name, L: RowLaw>(
    lists: &mut CountedBook<N, L>,
    index: &mut Index,
    seed: Seed,
    key_words: u32,
    key: &[u64],
) -> Found
    requires part { IsPart seed key_words lists.old.book.sheet index.old.table }
    requires words { length key.now ≡ key_words }
    requires few { key_words ≤ N.table.slots }
    ensures hash { result.hash ≡ hash_of seed key.now }
    ensures item { IsItemOf key_words key.now result.chunk lists.old.book.sheet }
    ensures looks { LooksOnly lists.old.book lists.new.book }
    ensures rest { lists.new ≡ record lists.old { book = lists.new.book } }
    ensures index { index.new ≡ index.old }
{
    let hash = seed.hash(key);
    let mut search = index.search(hash);
    'lanes: while let Some(life) = index.next_of(&mut search) {
        if has_key(lists, life.chunk, key_words, key) {
            return Found {
                hash,
                chunk: Some(life.chunk),
            };
        }
    }
    Found { hash, chunk: None }
}

// The chunk of the item of a key; and when it expires is told, and its value.
pub(crate) fn look<N: Name, L: RowLaw>(
    lists: &mut CountedBook<N, L>,
    index: &mut Index,
    settings: Settings,
    key: &[u64],
    told: &mut [u64],
) -> Option<u32>
    requires part { IsPart settings.seed settings.key_words lists.old.book.sheet index.old.table }
    requires words { length key.now ≡ settings.key_words }
    requires told { length told.old ≡ suc settings.value_words }
    requires few { settings.key_words + settings.value_words ≤ N.table.slots }
    ensures item { IsItemOf settings.key_words key.now result lists.old.book.sheet }
    ensures told { TellsOldWords true settings.key_words settings.value_words result told.old told.new lists.old.book.sheet }
    ensures looks { LooksOnly lists.old.book lists.new.book }
    ensures rest { lists.new ≡ record lists.old { book = lists.new.book } }
    ensures index { index.new ≡ index.old }
{
    let found = find(lists, index, settings.seed, settings.key_words, key);
    reading::read_value(
        lists,
        found.chunk,
        settings.key_words,
        settings.value_words,
        told,
    );
    found.chunk
}
