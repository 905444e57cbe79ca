//! What the sender of a ring promises its receiver.
ghost use Rattle.std.specs.Prelude.{◌≡◌, length};

use bump_readers::{Name, Rider};
use rtrb::Protocol;
use std::marker::PhantomData;

/// The bump at each place of a ring has the place as its number, counted from 0. It is a rider of the type's store, and
/// the promise names no value of any run.
pub struct Numbered<N: Name> {
    of: PhantomData<N>,
}

impl<N: Name> Protocol<Rider<N>> for Numbered<N> {
    ghost allows = { λ before rider. rider.number ≡ length before };
}
