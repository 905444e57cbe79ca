//! How the index leads to a chunk, and the words of lives.
ghost use Rattle.std.specs.Prelude.{◌≡◌, ◌==◌, not};
ghost use Rattle.cache_index.specs.Leads.{chunk_in, generation_in, life_number};

use bump_rules::ItemId;

/// How many numbers of chunks there are: what a life's word has over its chunk, for each generation.
const CHUNK_NUMBERS: u64 = 1 << 32;

/// How the index leads to a chunk: by the hash, in the lane whose life is the word `place`. The word 0 is no life, so
/// it stands for a chunk to which nothing leads. The life's generation stands in its lane alone.
#[derive(Clone, Copy)]
pub(crate) struct Way {
    pub(crate) hash: u32,
    pub(crate) place: u32,
}

/// The way of a chunk to which nothing leads.
pub(crate) const NO_WAY: Way = Way { hash: 0, place: 0 };

impl Way {
    /// Whether a way leads somewhere.
    pub(crate) fn leads(self) -> bool
        ensures { result ≡ not (self.place == 0) }
    {
        self.place != 0
    }
}

/// The word of a life.
pub(crate) fn number_of(life: ItemId) -> u64
    ensures { result ≡ life_number life.chunk life.generation }
{
    u64::from(life.chunk) + CHUNK_NUMBERS * u64::from(life.generation)
}

/// The life of a word.
#[inline(always)]
pub(crate) fn life_of(number: u64) -> ItemId
    ensures chunk { result.chunk ≡ chunk_in number }
    ensures generation { result.generation ≡ generation_in number }
{
    ItemId {
        chunk: (number % CHUNK_NUMBERS) as u32,
        generation: (number / CHUNK_NUMBERS) as u32,
    }
}
