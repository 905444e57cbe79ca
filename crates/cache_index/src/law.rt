//! What the words of an index say at each moment.
ghost use Rattle.cache_index.specs.History.{IsIndex, rows_of};

use crate::led::Way;
use seen_words::{Law, Shows};

/// At each moment each way that was noted leads to its chunk's lane, and readers get there.
pub(crate) struct LeadsOn;

impl Law for LeadsOn {
    ghost law = { IsIndex };
}

impl Shows<LeadsOn> for Vec<Way> {
    ghost shown = { λ ways. rows_of ways.items };
}
