//! A store that is finished: the sizes of its classes' lists.
ghost use Rattle.std.specs.Prelude.{◌≡◌, ◌<◌, length, map, IfOk, IfErr};
ghost use Rattle.bump_class.specs.Books.{BookView as TheBookView};
ghost use Rattle.bump_store.specs.Finishing.{sum_of, AreSizesOf, AreSizesOfLists, AreOfClasses};

use crate::stores::Store;
use bump_class::Book;
use bump_heads::Name;
use bump_rules::Place;
use bump_steps::{AnyRow, RowLaw};
use std::alloc::Global;
use std::sync::Wait;

/// How many chunks stand in each of a class's seven lists (memcached's `sizes` of `items.c`).
#[derive(Debug, PartialEq, Eq, Clone, Copy)]
pub struct ClassSizes {
    /// In HOT.
    pub hot: u32,

    /// In WARM.
    pub warm: u32,

    /// In COLD.
    pub cold: u32,

    /// In TEMP.
    pub temp: u32,

    /// In DYING: unlinked, and at the last look still held.
    pub dying: u32,

    /// In UNUSED.
    pub unused: u32,

    /// In RETIRED: they had their last generation.
    pub retired: u32,
}

/// Why `finish` told no sizes: memory was refused. The store comes back.
#[derive(Drop)]
pub struct Unfinished<N: Name, L: RowLaw = AnyRow> {
    /// The store. Its locks, and what stands behind them, were not changed.
    pub store: Store<N, L>,
}

// The sizes of a Book's lists.
fn sizes_of<N: Name, L: RowLaw>(book: &Book<N, L>) -> ClassSizes
    ensures { AreSizesOfLists result book.now.lists }
{
    ClassSizes {
        hot: book.size(Place::Hot),
        warm: book.size(Place::Warm),
        cold: book.size(Place::Cold),
        temp: book.size(Place::Temp),
        dying: book.size(Place::Dying),
        unused: book.size(Place::Unused),
        retired: book.size(Place::Retired),
    }
}

impl<N: Name, L: RowLaw> Store<N, L> {
    // The sizes of the lists of a Book of the class.
    fn class_sizes<R: Wait>(&self, rt: &R, class: u32) -> ClassSizes
        requires { class < length self.now.classes }
        ensures { (book : TheBookView) × AreSizesOf class self.now.classes result book }
    {
        let guard = self.lock_class(rt, class);
        let book: &Book<N, L> = &guard;
        book.promise();
        sizes_of(book)
    }

    /// Ends the store, and tells the sizes of its classes' lists, by class: it waits until no other thread has the
    /// lock of a class, for one class after the other. A class's sizes are those of the lists of some Book of the
    /// class, and add up to the number of its chunks. It is refused only for want of memory, and the store comes back.
    pub fn finish<R: Wait>(self, alloc: Global, rt: &R) -> Result<Vec<ClassSizes>, Unfinished<N, L>>
        ensures books { IfOk result (λ sizes. AreOfClasses self.classes sizes.items) }
        ensures sums { IfOk result (λ sizes. map sum_of sizes.items ≡ map (λ class. class.chunks) self.classes) }
        ensures store { IfErr result (λ unfinished. unfinished.store ≡ self) }
    {
        let Ok(mut all) = Vec::with_capacity(alloc, self.books.len()) else {
            return Err(Unfinished { store: self });
        };
        for class in 0..self.books.len() {
            let Ok(()) = all.push(self.class_sizes(rt, class as u32)) else {
                unreachable!()
            };
        }
        Ok(all)
    }
}
