//! What is measured.

/// What is called.
#[derive(Clone, Copy, PartialEq, Eq)]
pub enum Subject {
    /// A cache.
    Cache,

    /// The kit's `lru` behind a mutex.
    Lru,

    /// 16 of them, each behind a mutex of its own: a key's hash says which one has it.
    Shards,
}

/// Which calls are made, of what is full with so many items.
#[derive(Clone, Copy, PartialEq, Eq)]
pub enum Work {
    /// Gets of keys that are there, at random.
    Get,

    /// The same gets, 32 keys at a time.
    GetMany,

    /// Gets of one key, by all threads.
    Hot,

    /// Puts of fresh keys, which were never there: each evicts an item.
    Put,

    /// The same puts, where there are four parts.
    PutParts,

    /// The same puts, but each thread's keys are of one of the four parts, which no other thread has.
    PutApart,

    /// Puts of keys that are there, at random.
    PutSame,

    /// Sets of fresh keys: puts that tell only whether another item was evicted.
    Set,

    /// Sets of keys that are there, at random.
    SetSame,

    /// None: what memory an item takes is measured.
    Bytes,
}

/// A workload: which calls are made of what.
#[derive(Clone, Copy)]
pub struct Workload {
    pub subject: Subject,
    pub work: Work,
}

impl Work {
    /// Whether puts are made, and no gets.
    pub fn is_put(self) -> bool {
        match self {
            Work::Put
            | Work::PutParts
            | Work::PutApart
            | Work::PutSame
            | Work::Set
            | Work::SetSame => true,
            Work::Get | Work::GetMany | Work::Hot | Work::Bytes => false,
        }
    }

    /// How many parts the cache has.
    pub fn parts(self) -> u32 {
        match self {
            Work::PutParts | Work::PutApart => 4,
            Work::Put | Work::PutSame | Work::Set | Work::SetSame => 1,
            Work::Get | Work::GetMany | Work::Hot | Work::Bytes => 1,
        }
    }
}

impl Workload {
    /// The workload of a name: whose calls, and which, as `cache_get` and `lru16_put_same`. Many keys at a time are got
    /// of a cache alone, keys are set there alone, and it alone has parts.
    pub fn named(name: &str) -> Option<Workload> {
        let (subject, work) = name.split_once('_')?;
        let subject = match subject {
            "cache" => Subject::Cache,
            "lru" => Subject::Lru,
            "lru16" => Subject::Shards,
            _ => return None,
        };
        let work = match work {
            "get" => Work::Get,
            "get_many" if subject == Subject::Cache => Work::GetMany,
            "hot" => Work::Hot,
            "put" => Work::Put,
            "put_parts" if subject == Subject::Cache => Work::PutParts,
            "put_apart" if subject == Subject::Cache => Work::PutApart,
            "put_same" => Work::PutSame,
            "set" if subject == Subject::Cache => Work::Set,
            "set_same" if subject == Subject::Cache => Work::SetSame,
            "bytes" => Work::Bytes,
            _ => return None,
        };
        Some(Workload { subject, work })
    }
}
