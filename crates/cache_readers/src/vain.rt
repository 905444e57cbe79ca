//! Why a look at a chunk was in vain.

/// Why a look at a chunk to which the index leads was in vain, as contracts name it. No value of it is handed out.
pub enum Vain {
    /// Its item has another key.
    Other,

    /// It has the key, and has expired: the search is over.
    Over,

    /// The life to which the index led has ended, or its chunk can't be held: the search begins anew. Of such a look
    /// nothing else is claimed.
    Ended,
}
