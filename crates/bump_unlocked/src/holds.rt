//! Holds. Contracts see plain data.
ghost use Rattle.std.specs.Prelude.{◌≡◌, ◌<◌};
ghost use Rattle.bump_steps.specs.References.{label_of_row, word_of_row};
ghost use Rattle.bump_rules.specs.declared.items.Head.{Head as TheHead};
ghost use Rattle.bump_steps.specs.declared.views.HoldSheet.{HoldSheet as TheHoldSheet};
ghost use Rattle.bump_unlocked.specs.Holds.{sheet_of, whole, SeesHead, SeesMarks};

use bump_readers::{Hold as Held, Name, ReaderHeads};
use bump_rules::{Head, ItemId};
use bump_steps::RowLaw;
use std::marker::Model;

/// A reference to an item, which a reader has. While there is one, the item's chunk isn't free and keeps its
/// generation, whatever is unlinked meanwhile. It may go to another thread, and it must be spent, by `release`.
pub struct Hold<N: Name> {
    pub(crate) held: Held<N>,
}

impl<N: Name> Model for Hold<N> {
    ghost Value = { TheHoldSheet };

    ghost view = { λ h. sheet_of h.held };

    ghost invariant = { λ h. h.held ≡ whole (sheet_of h.held) };
}

impl<N: Name> Hold<N> {
    /// The item that is held.
    pub fn life(&self) -> ItemId
        ensures { result ≡ self.now.life }
    {
        self.held.life()
    }

    /// The label of the item, by one load: the first word of its row. Nothing changes.
    pub fn label<L: RowLaw>(&mut self, heads: &ReaderHeads<N, L>) -> u64
        ensures is { result ≡ label_of_row self.old.row }
        ensures same { self.new ≡ self.old }
    {
        heads.label_of(&mut self.held)
    }

    /// A further word of the item, by one load: it stands in the row behind the label. Nothing changes.
    #[inline(always)]
    pub fn word<L: RowLaw>(&mut self, heads: &ReaderHeads<N, L>, index: u32) -> u64
        requires index { index < N.table.slots }
        ensures is { result ≡ word_of_row self.old.row index }
        ensures same { self.new ≡ self.old }
    {
        heads.word_of(&mut self.held, index)
    }

    /// The head of the item, by one load of its head word, which the hold's view keeps: its marks, its segment, and how
    /// many references it has. Nothing else changes. Other threads may change the word just behind the load.
    #[inline(always)]
    pub fn head<L: RowLaw>(&mut self, heads: &ReaderHeads<N, L>) -> Head
        ensures { SeesHead self.old self.new result }
    {
        heads.load_head(&mut self.held)
    }

    /// Whether the item has both marks, FETCHED and ACTIVE, by one load of its head word, which the hold's view keeps.
    /// Nothing else changes.
    ///
    /// It is so for most hits of an item that is hit often. A touch would answer Already then, and change no word, but
    /// by a locked step: a caller that asks first, and touches where the answer is no, saves it. Where the marks are
    /// seldom set it is one load more. Another thread may clear ACTIVE just behind the load, as behind a touch.
    #[inline(always)]
    pub fn is_marked<L: RowLaw>(&mut self, heads: &ReaderHeads<N, L>) -> bool
        ensures marked { (found : TheHead) × SeesMarks self.old result self.new found }
    {
        let found = self.head(heads);
        found.fetched && found.active
    }

    /// Gives the reference back, by one subtraction on the head word, as memcached's `do_item_remove`. Where the item
    /// was unlinked meanwhile, and nobody else holds it, a sweep of its class finds its chunk free from then on.
    pub fn release<L: RowLaw>(self, heads: &ReaderHeads<N, L>) {
        let Hold { held } = self;
        heads.give_back(held);
    }
}
