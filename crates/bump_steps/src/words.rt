//! The words that threads share, and the steps on them, under no name.
ghost use Rattle.std.specs.Prelude.{◌≡◌, ◌+◌, ◌<◌, ◌^◌};
ghost use Rattle.bump_steps.specs.Rule.{chunks as all_chunks};
ghost use Rattle.bump_steps.specs.Places.{rows};

use crate::laws::{AnyRow, RowLaw};
use crate::rule::Rule;
use crate::views::{Empty, View};
use atomic_table::Table;
use bump_rules::Config;
use std::alloc::Global;

/// What a thread needs to make a step on the words. It has no bytes; what it knows is its view.
pub type Seat = atomic_table::Seat<Empty, View>;

// No step changes the words before chunk 0's, which take a whole line of the cache: each cut and join of seats reads
// the table's first word, so that it is not to lie where a thread writes. They are as many as let chunk 0's row begin at
// a line: a large block begins 16 bytes behind a page, and 14 words later stand 128 bytes. So a row of 4 words, as a
// chunk with one further word has, and one of 8 lie in one line each.

/// Where chunk 0 has its head.
pub(crate) const HEAD: usize = 14;

/// The table of all words: a row for each chunk, its head, its time, its label and its further words, behind 14 that
/// are spare. The table has as many slots as a chunk has further words: they have no bytes, and their number is known to
/// each seat.
#[derive(Drop)]
pub struct Words<L: RowLaw = AnyRow> {
    /// The kit's table, which asks the rule of each step.
    pub(crate) table: Table<Empty, View, Config, Rule<L>, Global>,

    /// How many words a chunk has.
    pub(crate) row: usize,
    ghost row_is: { row ≡ table.shared.table_id.slots + 3 },
    ghost few: { table.shared.table_id.slots < 2 ^ 32 },
    ghost sized: { rows table.shared.table_id ≡ all_chunks table.shared.key },
}
