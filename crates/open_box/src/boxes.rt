//! A `Box` that stands open: its pointer and its allocator, with its value still theirs.
ghost use Rattle.std.specs.Prelude.{◌≡◌};
ghost use Rattle.std.specs.Box.Ownership.{box_owns};

use std::alloc::Allocator;
use std::marker::Model;

/// What a `Box` is made of, in sight of whoever has it. They own what the box owned: its memory, and the value in it.
/// What takes them apart has to prove where that goes.
pub struct OpenBox<T, A: Allocator> {
    /// Where the value lies.
    pub ptr: *mut T,

    /// The allocator that the memory is of.
    pub alloc: A,

    /// The value.
    pub ghost value: { T },
}

impl<T, A: Allocator> Model for OpenBox<T, A> {
    ghost also_owns = { λ p. box_owns (A.dealloc_token p.alloc) T.row p.ptr p.value };
}

impl<T, A: Allocator> OpenBox<T, A> {
    /// Takes a box apart. The value stays where it lies.
    pub fn of(b: Box<T, A>) -> OpenBox<T, A>
    where
        T: Drop,
        ensures { result.value ≡ b.value }
    {
        let (ptr, alloc) = Box::into_raw_with_allocator(b);
        OpenBox { ptr, alloc }
    }

    /// Makes a box again.
    pub fn into_box(self) -> Box<T, A>
        ensures { result.value ≡ self.value }
    {
        let OpenBox { ptr, alloc } = self;
        unsafe { Box::from_raw(alloc, ptr) }
    }
}
