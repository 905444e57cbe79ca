//! A reader's counts, where other threads can read them.
use crate::readers::CacheReader;
use bump_heads::Name;
use packed_words::Packed;
use std::alloc::{AllocError, Global};
use std::sync::Arc;
use std::sync::atomic::{AtomicU64, Ordering};

// The numbers that were published last.
#[derive(Drop)]
struct Published {
    hits: AtomicU64,
    misses: AtomicU64,
    accepted: AtomicU64,
    dropped: AtomicU64,
}

/// The counts of one reader, which any thread may read at any time: those that the reader published last, by
/// `CacheReader::publish`, and 0 before. A get writes nothing here.
///
/// Each number is that of the last publish by itself: where a publish is under way some are of this one and some of the
/// one before. No contract says what they are, since a load of a shared word tells nothing.
#[derive(Drop)]
pub struct ReaderCounts {
    published: Arc<Published, Global>,
}

impl ReaderCounts {
    /// The counts of a reader that published nothing yet: each is 0. It is refused only for want of memory.
    pub fn new(alloc: Global) -> Result<ReaderCounts, AllocError> {
        let published = Published {
            hits: AtomicU64::new(0),
            misses: AtomicU64::new(0),
            accepted: AtomicU64::new(0),
            dropped: AtomicU64::new(0),
        };
        Ok(ReaderCounts {
            published: Arc::new(alloc, published)?,
        })
    }

    /// The same counts, for one more thread. It asks for no memory, and is refused only where there are 2^63 of them.
    pub fn try_clone(&self) -> Result<ReaderCounts, AllocError> {
        Ok(ReaderCounts {
            published: Arc::try_clone(&self.published)?,
        })
    }

    /// How many gets found something, as `CacheReader::hits` told it at the last publish.
    pub fn hits(&self) -> u64 {
        self.published.hits.load(Ordering::SeqCst)
    }

    /// How many gets found nothing, as `CacheReader::misses` told it at the last publish.
    pub fn misses(&self) -> u64 {
        self.published.misses.load(Ordering::SeqCst)
    }

    /// How many bumps of the reader's hits its ring took, as `CacheReader::bumps` told it at the last publish.
    pub fn bumps_accepted(&self) -> u64 {
        self.published.accepted.load(Ordering::SeqCst)
    }

    /// How many bumps of the reader's hits were dropped, as `CacheReader::bumps_dropped` told it at the last publish.
    pub fn bumps_dropped(&self) -> u64 {
        self.published.dropped.load(Ordering::SeqCst)
    }

    // Stores these numbers, one after the other.
    fn store(&self, hits: u64, misses: u64, accepted: u64, dropped: u64) {
        let to = &self.published;
        to.hits.store(hits, Ordering::SeqCst);
        to.misses.store(misses, Ordering::SeqCst);
        to.accepted.store(accepted, Ordering::SeqCst);
        to.dropped.store(dropped, Ordering::SeqCst);
    }
}

impl<N: Name, K: Packed, V: Packed> CacheReader<N, K, V> {
    /// Stores this reader's numbers of hits, misses, accepted and dropped bumps into `counts`, where other threads read
    /// them: by four stores, when its thread likes to, as each thousand gets. `counts` is to be this reader's own:
    /// where two readers publish into one, each number is that of whichever was last. It waits for nobody.
    pub fn publish(&self, counts: &ReaderCounts) {
        counts.store(
            self.hits(),
            self.misses(),
            self.bumps().accepted,
            self.bumps_dropped(),
        );
    }
}
