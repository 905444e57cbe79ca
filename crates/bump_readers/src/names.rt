//! Names one store.
use std::marker::Brand;

/// The table of one store.
pub trait Name {
    ghost use Rattle.atomic_table.specs.Seated.{TableId};

    ghost table: { TableId };
}

impl Name for Brand {
    ghost use Rattle.bump_readers.specs.Naming.{no_table};

    ghost table = { no_table };
}
