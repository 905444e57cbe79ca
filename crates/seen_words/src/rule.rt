//! The rule of the table of words, and its steps.
ghost use Rattle.seen_words.specs.Past.{Kept, first_sight, eye_of, same_sight, enter_tells, load_tells, read_tells, write_tells};

use crate::views::{NoSlot, Sight};
use atomic_table::{Play, Split, TableRule};
use std::alloc::Global;
use std::marker::{Brand, PhantomData};

/// What a table of words says of each moment.
pub trait Law {
    ghost use Rattle.seen_words.specs.Past.{MomentLaw};

    /// What holds of a moment, behind those that came before it, the last one first.
    ghost law: { MomentLaw };
}

/// A value that shows what is noted of it, at a table with a law.
pub trait Shows<L> {
    ghost use Rattle.std.specs.Prelude.{ℕ, List};

    ghost shown: { Self → List (List ℕ) };
}

/// There is one pen, which knows each moment; each eye knows those up to some moment.
pub struct OnePen<L: Law> {
    of: PhantomData<L>,
}

impl<L: Law> TableRule<NoSlot, Sight, Vec<u64, Global>> for OnePen<L> {
    ghost holds = { λ first table. Kept L.law table };

    ghost first = { λ first. first_sight first.items };
}

/// What is noted at a write.
pub trait Noting {
    ghost use Rattle.std.specs.Prelude.{ℕ, List};

    ghost note: { List (List ℕ) };
}

impl Noting for Brand {
    ghost use Rattle.std.specs.Prelude.{[]};

    ghost note = { [] };
}

/// The pen's owner reads a word.
pub struct Reads;

impl Play<NoSlot, Sight> for Reads {
    ghost then = { read_tells };
}

/// The pen writes a word, and notes this.
pub struct Writes<B: Noting> {
    of: PhantomData<B>,
}

impl<B: Noting> Play<NoSlot, Sight> for Writes<B> {
    ghost then = { write_tells B.note };
}

/// A thread's eye sees a word.
pub struct Sees<L: Law> {
    of: PhantomData<L>,
}

impl<L: Law> Play<NoSlot, Sight> for Sees<L> {
    ghost then = { load_tells L.law };
}

/// An eye is opened.
pub struct Opens<L: Law> {
    of: PhantomData<L>,
}

impl<L: Law> Play<NoSlot, Sight> for Opens<L> {
    ghost then = { enter_tells L.law };
}

/// An eye is opened that has seen what the pen, or another eye, has seen.
pub struct Again;

impl Split<Sight> for Again {
    ghost left = { same_sight };

    ghost right = { eye_of };
}
