//! The words of a named store, as readers use them.
ghost use Rattle.std.specs.Prelude.{◌≡◌, ◌<◌};
ghost use Rattle.bump_rules.specs.declared.configs.Config.{Config as TheConfig};
ghost use Rattle.bump_steps.specs.Rule.{chunks as all_chunks};
ghost use Rattle.bump_steps.specs.Words.{words_id, config_of};

use crate::names::Name;
use bump_rules::Config;
use bump_steps::{AnyRow, RowLaw, Words};
use bump_word::Limit;
use std::marker::{Model, PhantomData};

/// The words of all chunks of a store: head, time, label and further words. All threads share them, and seats alone
/// change them. L is the law that the label and the further words of each linked chunk obey.
#[derive(Drop)]
pub struct ReaderHeads<N: Name, L: RowLaw = AnyRow> {
    pub(crate) words: Words<L>,
    pub(crate) limit: Limit,
    chunks: u32,
    of: PhantomData<N>,
}

impl<N: Name, L: RowLaw> Model for ReaderHeads<N, L> {
    ghost Value = { TheConfig };

    ghost view = { λ h. config_of h.words };

    ghost invariant = { λ h. (words_id h.words ≡ N.table) × (0 < N.table.words)
        × (h.limit ≡ (config_of h.words).refs_limit) × (h.chunks ≡ all_chunks (config_of h.words)) };
}

impl<N: Name, L: RowLaw> ReaderHeads<N, L> {
    /// Words under the name that their table has, of a store with this configuration.
    pub fn new(words: Words<L>, config: &Config) -> ReaderHeads<N, L>
        requires name { words_id words ≡ N.table }
        requires config { config_of words ≡ config.now }
        requires some { 0 < N.table.words }
        ensures { result ≡ config.now }
    {
        ReaderHeads {
            words,
            limit: Limit::new(config.refs_limit),
            chunks: config.chunks(),
            of: PhantomData,
        }
    }

    /// The words without their name, on which the seats of classes and lanes make their steps.
    pub fn words(&self) -> &Words<L>
        ensures name { words_id result.now ≡ N.table }
        ensures config { config_of result.now ≡ self.now }
        ensures some { 0 < N.table.words }
    {
        &self.words
    }

    /// The number of chunks of all classes.
    pub fn chunks(&self) -> u32
        ensures { result ≡ all_chunks self.now }
    {
        self.chunks
    }

    /// How many further words each chunk has, beside its label.
    pub fn further(&self) -> u32
        ensures { result ≡ N.table.slots }
    {
        self.words.further()
    }

    /// The greatest reference count that a chunk may have.
    pub fn refs_limit(&self) -> u32
        ensures { result ≡ self.now.refs_limit }
    {
        *self.limit.refs()
    }
}
