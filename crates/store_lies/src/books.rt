//! A Book, as a caller calls it.
ghost use Rattle.bump_class.specs.Changes.{book_with_words};
ghost use Rattle.bump_class.specs.Changes.{book_with_item};
ghost use Rattle.bump_class.specs.Ends.{Unlinks, unlink_refusal};
ghost use Rattle.bump_class.specs.Links.{linked_item, MayHave};
ghost use Rattle.bump_class.specs.Pulls.{Pulls, limits_of_call, PullsBy};
ghost use Rattle.bump_class.specs.Sweeps.{Sweeps};
ghost use Rattle.bump_rules.specs.Entries.{moves_of};
ghost use Rattle.bump_rules.specs.Labels.{label_of_life};
ghost use Rattle.bump_rules.specs.declared.items.Head.{Head as TheHead};
ghost use Rattle.bump_steps.specs.Views.{of_word};
ghost use Rattle.std.specs.Prelude.{◌≡◌, ◌<◌, length, IfOk, ◌≤◌, ℕ, slice_index, OnErr, Some};
ghost use Rattle.std.specs.Result.{result_err};
ghost use Rattle.bump_rules.specs.declared.places.Start.TheVariants as start;

use bump_store::{
    Book, Ended, Head, ItemId, LinkRefusal, Name, Pulled, RowLaw, Tail, UnlinkRefusal,
};

/// How many moves for bumps of a worker the history has.
pub fn moves<N: Name, L: RowLaw>(book: &Book<N, L>, worker: u32) -> u64
    requires range { worker < book.now.workers }
    ensures { result ≡ moves_of worker book.now.sheet.history }
{
    book.moves(worker)
}

/// Links an item with further words at the front of HOT.
pub fn link_words<N: Name, L: RowLaw>(
    book: &mut Book<N, L>,
    label: u64,
    words: &[u64],
    now: u64,
) -> Result<ItemId, LinkRefusal>
    requires few { length words.now ≤ N.table.slots }
    requires law { MayHave L.law label words.now }
    ensures item { result ≡ linked_item book.old }
    ensures linked { IfOk result (λ id. book.new ≡ book_with_words start.Hot id label words.now now book.old) }
    ensures label { IfOk result (λ id. label_of_life id 0 book.new.sheet.labels ≡ Some label) }
    ensures words { IfOk result (λ id. (j : ℕ) → j < length words.now
        → label_of_life id 0 (of_word j book.new.sheet.words) ≡ Some (slice_index words.now j)) }
    ensures unchanged { OnErr result (book.new ≡ book.old) }
{
    book.link_words(label, words, now)
}

/// Unlinks an item.
pub fn unlink<N: Name, L: RowLaw>(book: &mut Book<N, L>, id: ItemId) -> Result<Ended, UnlinkRefusal>
    ensures refused { result_err result ≡ unlink_refusal book.old id }
    ensures unlinked { Unlinks book.old id result book.new }
    ensures unchanged { OnErr result ((book.new.lists ≡ book.old.lists)
        × (book.new.sheet.history ≡ book.old.sheet.history)) }
{
    book.unlink(id)
}

/// Looks at the last item of a list, and moves or ends it.
pub fn pull<N: Name, L: RowLaw>(book: &mut Book<N, L>, tail: Tail) -> Pulled
    ensures { Pulls book.old tail result book.new }
{
    book.pull(tail)
}

/// The same by another limit than the class's.
pub fn pull_past<N: Name, L: RowLaw>(book: &mut Book<N, L>, tail: Tail, limit: u32) -> Pulled
    ensures { PullsBy (limits_of_call limit) book.old tail result book.new }
{
    book.pull_past(tail, limit)
}

/// Frees the chunks of DYING that nobody holds.
pub fn sweep<N: Name, L: RowLaw>(book: &mut Book<N, L>) -> u32
    ensures { (heads : ℕ → TheHead) × Sweeps book.old result book.new heads }
{
    book.sweep()
}

/// Links an item at the front of HOT.
pub fn link<N: Name>(book: &mut Book<N>, label: u64, now: u64) -> Result<ItemId, LinkRefusal>
    ensures item { result ≡ linked_item book.old }
    ensures linked { IfOk result (λ id. book.new ≡ book_with_item start.Hot id label now book.old) }
    ensures label { IfOk result (λ id. label_of_life id 0 book.new.sheet.labels ≡ Some label) }
    ensures unchanged { OnErr result (book.new ≡ book.old) }
{
    book.link(label, now)
}

/// Links an item at the front of TEMP.
pub fn link_temp<N: Name>(book: &mut Book<N>, label: u64, now: u64) -> Result<ItemId, LinkRefusal>
    ensures item { result ≡ linked_item book.old }
    ensures linked { IfOk result (λ id. book.new ≡ book_with_item start.Temp id label now book.old) }
    ensures label { IfOk result (λ id. label_of_life id 0 book.new.sheet.labels ≡ Some label) }
    ensures unchanged { OnErr result (book.new ≡ book.old) }
{
    book.link_temp(label, now)
}
