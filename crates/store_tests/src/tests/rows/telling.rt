//! What is counted of reads, and what is said of it.
use super::checked::WrongWord;
use std::test::Fail;

/// What readers counted, and the writer.
#[derive(Clone, Copy)]
pub struct RowCounts {
    /// Reads of items that the writer told, of items that were guessed, and of whatever item a chunk had.
    pub told: u64,
    pub guessed: u64,
    pub any: u64,

    /// Items that weren't had.
    pub refused: u64,

    /// Reads whose item had ended before it was released.
    pub ended: u64,

    /// Reads in which a word was wrong at one of the two looks, and a word of one of them.
    pub wrong: u64,
    pub fault: Option<WrongWord>,

    /// Items that were linked, and bumps that were applied.
    pub linked: u64,
    pub applied: u64,
}

impl RowCounts {
    /// Nothing is counted yet.
    pub const NONE: RowCounts = RowCounts {
        told: 0,
        guessed: 0,
        any: 0,
        refused: 0,
        ended: 0,
        wrong: 0,
        fault: None,
        linked: 0,
        applied: 0,
    };

    /// All reads.
    pub fn reads(self) -> u64 {
        self.told
            .saturating_add(self.guessed)
            .saturating_add(self.any)
    }

    /// Both together.
    pub fn and(self, other: RowCounts) -> RowCounts {
        RowCounts {
            told: self.told.saturating_add(other.told),
            guessed: self.guessed.saturating_add(other.guessed),
            any: self.any.saturating_add(other.any),
            refused: self.refused.saturating_add(other.refused),
            ended: self.ended.saturating_add(other.ended),
            wrong: self.wrong.saturating_add(other.wrong),
            fault: self.fault.or(other.fault),
            linked: self.linked.saturating_add(other.linked),
            applied: self.applied.saturating_add(other.applied),
        }
    }
}

/// Says what was counted. `checks/loaded_threads` reads the line.
pub fn tell(rt: &impl Eprint, further: u32, counts: RowCounts) -> Result<(), Fail> {
    let RowCounts {
        told,
        guessed,
        any,
        refused,
        ended,
        wrong,
        fault: _,
        linked,
        applied,
    } = counts;
    eprintln!(rt;
        "rows of {further} further words: reads {} (told {told}, guessed {guessed}, any {any}), refused {refused}, ended {ended}, wrong {wrong}; linked {linked}, applied {applied}",
        counts.reads()
    )?;
    Ok(())
}
