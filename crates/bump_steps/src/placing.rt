//! Where the words of a chunk lie in the table.
ghost use Rattle.std.specs.Prelude.{◌≡◌, suc, ◌+◌, ◌<◌};
ghost use Rattle.bump_steps.specs.Words.{words_id};
ghost use Rattle.bump_steps.specs.Places.{HasChunk, head_place};

use crate::laws::RowLaw;
use crate::words::{HEAD, Words};

impl<L: RowLaw> Words<L> {
    /// How many further words a chunk has, beside its label.
    #[inline(always)]
    pub fn further(&self) -> u32
        ensures { result ≡ (words_id self.now).slots }
    {
        (self.row - 3) as u32
    }

    /// Where the chunk has its head: its place, by which a caller that keeps it makes further steps.
    #[inline(always)]
    pub fn head_at(&self, chunk: u32) -> usize
        requires { HasChunk (words_id self.now) chunk }
        ensures is { result ≡ head_place (words_id self.now).slots chunk }
        ensures near { result < (words_id self.now).words }
    {
        let _bound = self.table.word_count();
        chunk as usize * self.row + HEAD
    }

    /// Where it has its time.
    #[inline(always)]
    pub(crate) fn time_at(&self, chunk: u32) -> usize
        requires { HasChunk (words_id self.now) chunk }
        ensures is { result ≡ head_place (words_id self.now).slots chunk + 1 }
        ensures near { result < (words_id self.now).words }
    {
        let _bound = self.table.word_count();
        chunk as usize * self.row + (HEAD + 1)
    }

    /// Where it has its label.
    #[inline(always)]
    pub(crate) fn label_at(&self, chunk: u32) -> usize
        requires { HasChunk (words_id self.now) chunk }
        ensures is { result ≡ head_place (words_id self.now).slots chunk + (2 + 0) }
        ensures near { result < (words_id self.now).words }
    {
        let _bound = self.table.word_count();
        chunk as usize * self.row + (HEAD + 2)
    }

    /// Where it has a further word.
    #[inline(always)]
    pub(crate) fn word_at(&self, chunk: u32, index: u32) -> usize
        requires chunk { HasChunk (words_id self.now) chunk }
        requires index { index < (words_id self.now).slots }
        ensures is { result ≡ head_place (words_id self.now).slots chunk + (2 + suc index) }
        ensures near { result < (words_id self.now).words }
    {
        let _bound = self.table.word_count();
        chunk as usize * self.row + (HEAD + 3) + index as usize
    }

    /// The place of a chunk's head, as a caller kept it.
    #[inline(always)]
    pub(crate) fn head_by(&self, place: usize, chunk: u32) -> usize
        requires chunk { HasChunk (words_id self.now) chunk }
        requires place { place ≡ head_place (words_id self.now).slots chunk }
        ensures is { result ≡ head_place (words_id self.now).slots chunk }
        ensures near { result < (words_id self.now).words }
    {
        let _chunk = chunk;
        place
    }

    /// The place of its time, by that of its head.
    #[inline(always)]
    pub(crate) fn time_by(&self, place: usize, chunk: u32) -> usize
        requires chunk { HasChunk (words_id self.now) chunk }
        requires place { place ≡ head_place (words_id self.now).slots chunk }
        ensures is { result ≡ head_place (words_id self.now).slots chunk + 1 }
        ensures near { result < (words_id self.now).words }
    {
        let _chunk = chunk;
        let _bound = self.table.word_count();
        place + 1
    }

    /// The place of its label, by that of its head.
    #[inline(always)]
    pub(crate) fn label_by(&self, place: usize, chunk: u32) -> usize
        requires chunk { HasChunk (words_id self.now) chunk }
        requires place { place ≡ head_place (words_id self.now).slots chunk }
        ensures is { result ≡ head_place (words_id self.now).slots chunk + (2 + 0) }
        ensures near { result < (words_id self.now).words }
    {
        let _chunk = chunk;
        let _bound = self.table.word_count();
        place + 2
    }

    /// The place of a further word, by that of its head.
    #[inline(always)]
    pub(crate) fn word_by(&self, place: usize, chunk: u32, index: u32) -> usize
        requires chunk { HasChunk (words_id self.now) chunk }
        requires place { place ≡ head_place (words_id self.now).slots chunk }
        requires index { index < (words_id self.now).slots }
        ensures is { result ≡ head_place (words_id self.now).slots chunk + (2 + suc index) }
        ensures near { result < (words_id self.now).words }
    {
        let _chunk = chunk;
        let _bound = self.table.word_count();
        place + 3 + index as usize
    }
}
