//! Why a reader found nothing.

/// Why a get, a hold, a peek or a `contains` found nothing.
#[derive(Clone, Copy, Debug, PartialEq, Eq)]
pub enum Miss {
    /// There was no item of the key. Of each lane of the index this is true: at a moment between the last one that the
    /// reader had seen before and the end of the call the index didn't lead to it from the key's hash; or there stood a life
    /// in it that was held then, and has another key.
    Absent,

    /// The key's item was there, and had expired: it was held, and given back.
    Expired,

    /// It gave up: a thousand searches ended at lives that had ended meanwhile, or whose chunk couldn't be held. A reader
    /// that always found something tells this, too.
    Unknown,
}
