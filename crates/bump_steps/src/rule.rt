//! The rule of the table of words.
ghost use Rattle.bump_steps.specs.Rule.{Kept, opened};

use crate::laws::RowLaw;
use crate::views::{Empty, View};
use atomic_table::TableRule;
use bump_rules::Config;
use std::marker::PhantomData;

/// What holds of the words, and of what all seats know, between any two steps of all threads.
pub struct Rule<L: RowLaw> {
    of: PhantomData<L>,
}

impl<L: RowLaw> TableRule<Empty, View, Config> for Rule<L> {
    ghost holds = { Kept L.law };

    ghost first = { opened };
}
