//! What a table says of the words of the chunks that are in use.

/// A law of rows. Of each chunk that is linked the law of its table holds: who begins a life shows it of the label and
/// the words that the life has, and who takes a hold of the life is told it of the words that he reads.
pub trait RowLaw {
    ghost use Rattle.bump_steps.specs.Rule.{RowPredicate};

    // Of the words by number: the label is number 0, behind it the further words come, and then 0 for ever.
    ghost law: { RowPredicate };
}

/// The law of a table whose rows may have any words.
pub struct AnyRow;

impl RowLaw for AnyRow {
    ghost law = { λ words. Unit {0} };
}
