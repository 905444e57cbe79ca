//! Numbers as words: each takes one.
ghost use Rattle.std.specs.Prelude.{◌<◌, ◌^◌, [], ◌∷◌};
ghost use Rattle.std.specs.Prelude.{refl, FitsSigned};
ghost use Rattle.std.specs.Int.{w64, cast_unsigned};
ghost use Rattle.std.proofs.Common.{rules};
ghost use Rattle.std.proofs.lemmas.Grind.{common_steps};
ghost use Rattle.packed_words.specs.Signed.{signed_word, one_signed};

use crate::packed::Packed;

impl Packed for u64 {
    ghost width = { 1 };

    ghost fits = { λ n. n < 2 ^ 64 };

    ghost as_words = { λ n. n ∷ [] };

    #[inline(always)]
    fn words() -> usize {
        1
    }

    #[inline(always)]
    fn pack(&self, to: &mut [u64]) {
        to[0] = *self;
    }

    #[inline(always)]
    fn unpack(words: &[u64]) -> u64 {
        words[0]
    }

    #[inline(always)]
    fn equals(&self, words: &[u64]) -> bool {
        words[0] == *self
    }

    ghost length_is = { λ v h. refl };

    ghost are_words = { λ v h. Prim.search (rules, common_steps) };

    ghost one_value = { λ v w p q e. Prim.search (rules, common_steps) };
}

impl Packed for u32 {
    ghost width = { 1 };

    ghost fits = { λ n. n < 2 ^ 32 };

    ghost as_words = { λ n. n ∷ [] };

    #[inline(always)]
    fn words() -> usize {
        1
    }

    #[inline(always)]
    fn pack(&self, to: &mut [u64]) {
        to[0] = u64::from(*self);
    }

    #[inline(always)]
    fn unpack(words: &[u64]) -> u32 {
        words[0] as u32
    }

    #[inline(always)]
    fn equals(&self, words: &[u64]) -> bool {
        words[0] == u64::from(*self)
    }

    ghost length_is = { λ v h. refl };

    ghost are_words = { λ v h. Prim.search (rules, common_steps) };

    ghost one_value = { λ v w p q e. Prim.search (rules, common_steps) };
}

impl Packed for i64 {
    ghost width = { 1 };

    ghost fits = { FitsSigned w64 };

    ghost as_words = { λ z. cast_unsigned w64 z ∷ [] };

    #[inline(always)]
    fn words() -> usize {
        1
    }

    #[inline(always)]
    fn pack(&self, to: &mut [u64]) {
        to[0] = self.cast_unsigned();
    }

    #[inline(always)]
    fn unpack(words: &[u64]) -> i64 {
        words[0].cast_signed()
    }

    #[inline(always)]
    fn equals(&self, words: &[u64]) -> bool {
        words[0] == self.cast_unsigned()
    }

    ghost length_is = { λ v h. refl };

    ghost are_words = { signed_word };

    ghost one_value = { one_signed };
}
