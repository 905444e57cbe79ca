//! The heads of a named store.
ghost use Rattle.std.specs.Prelude.{◌≡◌, ◌<◌};
ghost use Rattle.bump_rules.specs.declared.configs.Config.{Config as TheConfig};
ghost use Rattle.bump_steps.specs.Words.{words_id, config_of};

use bump_readers::{Name, ReaderHeads};
use bump_steps::{AnyRow, RowLaw, Words};
use std::marker::Model;
use std::ops::Deref;

/// The words of all chunks of a store: head, time and label. All threads share them, and seats alone change them.
/// What readers do with them are the calls of `ReaderHeads`, to which it derefs.
#[derive(Drop)]
pub struct Heads<N: Name, L: RowLaw = AnyRow> {
    pub(crate) readers: ReaderHeads<N, L>,
}

impl<N: Name, L: RowLaw> Model for Heads<N, L> {
    ghost Value = { TheConfig };

    ghost view = { λ h. h.readers };
}

impl<N: Name, L: RowLaw> Deref for Heads<N, L> {
    type Target = ReaderHeads<N, L>;

    ghost deref_gives = { λ h r. r ≡ h };

    fn deref(&self) -> &ReaderHeads<N, L>
        ensures { result.now ≡ self.now }
    {
        &self.readers
    }
}

impl<N: Name, L: RowLaw> Heads<N, L> {
    // The words, on which the seats of classes and lanes make their steps.
    pub(crate) fn words(&self) -> &Words<L>
        ensures name { words_id result.now ≡ N.table }
        ensures config { config_of result.now ≡ self.now }
        ensures some { 0 < N.table.words }
    {
        self.readers.words()
    }
}
