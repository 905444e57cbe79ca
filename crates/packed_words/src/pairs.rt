//! Two values side by side: the words of the first, and behind them those of the second.
ghost use Rattle.std.specs.Prelude.{◌+◌, ◌++◌, ◌<◌, ◌^◌};
ghost use Rattle.std.proofs.Common.{ap₂, ◌∙◌, sym};
ghost use Rattle.std.proofs.lemmas.List.{length-append};
ghost use Rattle.std.proofs.lemmas.List.Elements.{All-append};
ghost use Rattle.packed_words.specs.Parts.{same_parts};

use crate::packed::Packed;

impl<A: Packed, B: Packed> Packed for (A, B) {
    ghost width = { A.width + B.width };

    ghost fits = { λ p. A.fits p.0 × B.fits p.1 };

    ghost as_words = { λ p. A.as_words p.0 ++ B.as_words p.1 };

    #[inline(always)]
    fn words() -> usize {
        A::words() + B::words()
    }

    #[inline(always)]
    fn pack(&self, to: &mut [u64]) {
        let first = A::words();
        self.0.pack(&mut to[..first]);
        self.1.pack(&mut to[first..]);
    }

    #[inline(always)]
    fn unpack(words: &[u64]) -> (A, B) {
        let first = A::words();
        (A::unpack(&words[..first]), B::unpack(&words[first..]))
    }

    #[inline(always)]
    fn equals(&self, words: &[u64]) -> bool {
        let first = A::words();
        self.0.equals(&words[..first]) & self.1.equals(&words[first..])
    }

    ghost length_is = { λ v h. length-append (A.as_words v.0) (B.as_words v.1) ∙ ap₂ (λ m n. m + n) (A.length_is v.0 h.0) (B.length_is v.1 h.1) };

    ghost are_words = { λ v h. All-append (λ w. w < 2 ^ 64) (A.as_words v.0) (B.as_words v.1) (A.are_words v.0 h.0) (B.are_words v.1 h.1) };

    ghost one_value = { λ v w p q e.
        let parts = same_parts (A.as_words v.0) (B.as_words v.1) (A.as_words w.0) (B.as_words w.1)
        (A.length_is v.0 p.0 ∙ sym (A.length_is w.0 q.0)) e in
        ap₂ (λ a b. (a, b)) (A.one_value v.0 w.0 p.0 q.0 parts.0) (B.one_value v.1 w.1 p.1 q.1 parts.1) };
}
