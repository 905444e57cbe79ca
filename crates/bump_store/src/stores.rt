//! A store: the words of its chunks, and the Book of each class under its lock.
ghost use Rattle.std.specs.Prelude.{◌≡◌, ◌≤◌, ◌<◌, ◌↔◌, vec_len, length, IfOk, IsErr, true};
ghost use Rattle.std.specs.Arc.{arc_value};
ghost use Rattle.std.specs.Sync.Mutex.{mutex_guard_value};
ghost use Rattle.bump_rules.specs.declared.configs.Config.{Config as TheConfig};
ghost use Rattle.bump_steps.specs.Views.{owns};
ghost use Rattle.bump_store.specs.Stores.{IsStore, HasLimitsOf, IsOfClass};

use bump_class::Book;
use bump_heads::{Heads, Name, ReaderHeads};
use bump_rules::ClassConfig;
use bump_steps::{AnyRow, RowLaw};
use std::alloc::Global;
use std::marker::Model;
use std::ops::Deref;
use std::sync::{Arc, Mutex, MutexGuard, Wait};
use thiserror::Error;

/// Why `lock` lent no Book: the store has no class of this number.
#[derive(Error, Debug, PartialEq, Eq, Clone, Copy)]
#[error("the store has no such class")]
pub struct NoSuchClass;

/// A store, which all threads share: the words of its chunks, and the lists of each class, each under a lock of its
/// own. Workers get, touch and hold its items without a lock: it derefs to what their calls take.
#[derive(Drop)]
pub struct Store<N: Name, L: RowLaw = AnyRow> {
    pub(crate) heads: Arc<Heads<N, L>, Global>,
    pub(crate) books: Vec<Mutex<Book<N, L>>>,
    // the first chunk of each class, and behind them the number of all chunks
    pub(crate) starts: Vec<u32>,
    // the configuration of each class
    pub(crate) classes: Vec<ClassConfig>,
    pub(crate) workers: u32,
}

impl<N: Name, L: RowLaw> Model for Store<N, L> {
    ghost Value = { TheConfig };

    ghost view = { λ s. arc_value s.heads };

    ghost invariant = { λ s. IsStore (arc_value s.heads).classes s.starts.items (vec_len s.books)
        × (s.classes.items ≡ (arc_value s.heads).classes) × (s.workers ≡ (arc_value s.heads).workers) };
}

impl<N: Name, L: RowLaw> Deref for Store<N, L> {
    type Target = ReaderHeads<N, L>;

    ghost deref_gives = { λ s r. r ≡ s };

    fn deref(&self) -> &ReaderHeads<N, L>
        ensures { result.now ≡ self.now }
    {
        &self.heads
    }
}

impl<N: Name, L: RowLaw> Store<N, L> {
    /// The Book of a class, under its lock, which is let go with the guard: it waits until no other thread has it.
    /// `class` is any number. It is refused as NoSuchClass exactly where there is no such class.
    ///
    /// The Book is a Book of this class: it has its number, its chunks, and the limits of its configuration, and it
    /// counts moves for as many workers as the store has. All four are compared under the lock, since a caller that has
    /// two guards could exchange their Books. Where that was done, the call goes round the locks, one at a time, until
    /// it finds the right one.
    pub fn lock<R: Wait>(
        &self,
        rt: &R,
        class: u32,
    ) -> Result<MutexGuard<'_, Book<N, L>>, NoSuchClass>
        ensures class { IfOk result (λ guard. IsOfClass class self.now.classes (mutex_guard_value guard)) }
        ensures workers { IfOk result (λ guard. (mutex_guard_value guard).workers ≡ self.now.workers) }
        ensures none { IsErr result ↔ (length self.now.classes ≤ class) }
    {
        if class as usize >= self.books.len() {
            return Err(NoSuchClass);
        }
        Ok(self.lock_class(rt, class))
    }

    // The Book of a class that there is.
    pub(crate) fn lock_class<R: Wait>(&self, rt: &R, class: u32) -> MutexGuard<'_, Book<N, L>>
        requires { class < length self.now.classes }
        ensures class { IsOfClass class self.now.classes (mutex_guard_value result) }
        ensures workers { (mutex_guard_value result).workers ≡ self.now.workers }
    {
        let mut at = class as usize;
        for _ in rt.forever() {
            let guard = self.books[at].lock(rt);
            if self.is_of_class(&guard, class) {
                return guard;
            }
            at = self.next_lock(at);
        }
        unreachable!()
    }

    // Whether the Book is that of the class, by its number, its chunks, its limits and the number of workers.
    fn is_of_class(&self, book: &Book<N, L>, class: u32) -> bool
        requires { class < length self.now.classes }
        ensures class { result ≡ true → IsOfClass class self.now.classes book.now }
        ensures workers { result ≡ true → book.now.workers ≡ self.now.workers }
    {
        let place = class as usize;
        let range = book.range();
        book.class() == class
            && range.start == self.starts[place]
            && range.end == self.starts[place + 1]
            && book.workers() == self.workers
            && self.has_limits_of(book, class)
    }

    // Whether the Book has the limits that the class's configuration has.
    fn has_limits_of(&self, book: &Book<N, L>, class: u32) -> bool
        requires { class < length self.now.classes }
        ensures { result ≡ true → HasLimitsOf class self.now.classes book.now }
    {
        let config = self.classes[class as usize];
        let (hot, warm) = book.limits();
        hot == config.hot && warm == config.warm
    }

    // The place of the lock that is tried behind this one.
    fn next_lock(&self, at: usize) -> usize
        requires { at < length self.now.classes }
        ensures { result < length self.now.classes }
    {
        if at + 1 < self.books.len() { at + 1 } else { 0 }
    }

    // The Book that has the chunk, under its lock. It is looked for among all, from that of the chunk's class on.
    #[inline(always)]
    pub(crate) fn lock_of_chunk<R: Wait>(&self, rt: &R, chunk: u32) -> MutexGuard<'_, Book<N, L>>
        ensures { owns chunk (mutex_guard_value result).sheet ≡ true }
    {
        let mut at = self.class_or_first(chunk);
        for _ in rt.forever() {
            let guard = self.books[at].lock(rt);
            if guard.has_chunk(chunk) {
                return guard;
            }
            at = self.next_lock(at);
        }
        unreachable!()
    }
}
