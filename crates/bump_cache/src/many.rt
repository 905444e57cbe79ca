//! Gets of many keys.
ghost use Rattle.std.specs.Prelude.{◌≡◌, length};
ghost use Rattle.bump_cache.specs.Many.{GetsEach};
ghost use Rattle.bump_cache.specs.Pairs.{IsPair};
ghost use Rattle.bump_cache.specs.Readers.{KeepsRings};

use crate::readers::CacheReader;
use bump_heads::Name;
use packed_words::Packed;

impl<N: Name, K: Packed, V: Packed> CacheReader<N, K, V> {
    // Looks ahead for keys that are to be got soon.
    #[inline(always)]
    fn look_ahead_for(&self, keys: &[K]) {
        for key in keys {
            self.look_ahead(key);
        }
    }

    /// Gets each of these keys in turn, as `get` does, and writes what it answers into the same place of `values`,
    /// which has as many places as there are keys. Each is counted as a hit or as a miss, also one that stands there
    /// twice.
    ///
    /// Before the first get it loads the word of the index at which each key's search begins. So the index's
    /// lines come side by side, and no get waits long for that at which its search begins; for the chunk's own line each
    /// still waits. The keys are best few, some 64 at most: the lines that were
    /// loaded first are to be in the processor's cache still when their get comes.
    #[inline]
    pub fn get_many(&mut self, keys: &[K], values: &mut [Option<V>], now: u64)
        requires even { length values.old ≡ length keys.now }
        ensures each { GetsEach (IsPair K.fits K.as_words V.fits V.as_words) K.as_words V.as_words now keys.now
            values.new self.old self.new }
        ensures length { length values.new ≡ length values.old }
        ensures ring { KeepsRings self.old self.new }
    {
        self.look_ahead_for(keys);
        for index in 0..keys.len() {
            values[index] = self.get(&keys[index], now);
        }
    }
}
