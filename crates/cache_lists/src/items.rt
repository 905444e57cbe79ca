//! What is done with a Book's items.
ghost use Rattle.std.specs.Prelude.{◌≡◌, ◌≢◌, ℕ, ◌+◌, ◌<◌, ◌≤◌, true, length, slice_index, IfSome, IfNone, IfOk, OnErr, option_map, None, Some, is_some};
ghost use Rattle.bump_links.specs.Lists.{last_of, first_of};
ghost use Rattle.bump_rules.specs.Commands.{item_told};
ghost use Rattle.bump_rules.specs.Lists.{all_without};
ghost use Rattle.bump_rules.specs.Places.{first_segment, place_of};
ghost use Rattle.bump_rules.specs.declared.places.Place.TheVariants.{Dying, Unused};
ghost use Rattle.bump_rules.specs.declared.places.Tail.TheVariants as tail;
ghost use Rattle.bump_rules.specs.Labels.{label_of_life};
ghost use Rattle.bump_steps.specs.Views.{last_label, owns, of_word};
ghost use Rattle.cache_lists.specs.Linked.{linked_at};
ghost use Rattle.cache_lists.specs.Items.{may_tell, chunk_told, victim, KeepsItems, BeginsAt, HasRow, ShowsMarks};
ghost use Rattle.cache_lists.specs.Looks.{LooksOnly};
ghost use Rattle.cache_lists.specs.Freeing.{FreesUpTo};
ghost use Rattle.cache_lists.specs.Ends.{EndsOne, EndsLinked};
ghost use Rattle.cache_lists.specs.Items.{HasNoBumpFor};
ghost use Rattle.cache_lists.specs.Draining.{AppliesAboard, LooksAtMost};
ghost use Rattle.bump_class.specs.Changes.{book_with_words};
ghost use Rattle.bump_class.specs.Links.{MayHave, linked_item};
ghost use Rattle.bump_class.specs.Lanes.{entries};
ghost use Rattle.bump_class.specs.Pulls.{Pulls, PullsBy, limits_of_call};
ghost use Rattle.cache_lists.specs.Ages.{LooksPast};
ghost use Rattle.bump_class.specs.Sweeps.{Sweeps};
ghost use Rattle.bump_rules.specs.declared.items.Head.{Head as TheHead};
ghost use Rattle.cache_lists.specs.Segments.{SameSegments};
ghost use Rattle.cache_lists.specs.Flows.{Flows, way_of_pull, way_of_applied};
ghost use Rattle.bump_rules.specs.declared.items.ItemId.{ItemId as TheItemId};
ghost use Rattle.bump_rules.specs.Tables.{last_pulled, pulled_to};

use crate::ages::Bound;
use crate::victims::Victim;
use bump_class::{Book, LinkRefusal, RawLane};
use bump_heads::Name;
use bump_rules::{Applied, ItemId, Place, Pulled, Segment, Start, Tail};
use bump_steps::RowLaw;

// The last item of HOT, WARM or COLD is looked at, and moved by the tail table.
#[inline(always)]
pub(crate) fn look_at<N: Name, L: RowLaw>(book: &mut Book<N, L>, from: Tail) -> Pulled
    requires { from ≢ tail.Evict }
    ensures kept { KeepsItems book.old book.new }
    ensures pulls { Pulls book.old from result book.new }
    ensures told { may_tell from result ≡ true }
    ensures item { option_map (λ (id : TheItemId). id.chunk) (item_told result) ≡ last_pulled from book.old.lists }
    ensures linked { IfSome (item_told result) (λ id. linked_at book.new.sheet id.chunk ≡ Some id.generation) }
    ensures own { IfSome (item_told result) (λ id. owns id.chunk book.new.sheet ≡ true) }
    ensures none { IfNone (item_told result) (book.new ≡ book.old) }
    ensures flows { Flows (way_of_pull from result) book.old book.new }
    ensures others { IfSome (item_told result) (λ id. SameSegments (all_without id.chunk book.old.lists)
        (all_without id.chunk book.new.lists)) }
{
    book.promise();
    book.pull(from)
}

// The last item of HOT, WARM or COLD is looked at, and moved by the tail table, by this limit in place of its list's.
#[inline(always)]
fn pull_past<N: Name, L: RowLaw>(book: &mut Book<N, L>, from: Tail, limit: u32) -> Pulled
    requires { from ≢ tail.Evict }
    ensures kept { KeepsItems book.old book.new }
    ensures pulls { PullsBy (limits_of_call limit) book.old from result book.new }
    ensures told { may_tell from result ≡ true }
    ensures flows { Flows (way_of_pull from result) book.old book.new }
{
    book.promise();
    book.pull_past(from, limit)
}

// The last item of HOT or WARM is looked at, by the limit that its list has for an item that was used when it was.
#[inline(always)]
pub(crate) fn look_past<N: Name, L: RowLaw>(
    book: &mut Book<N, L>,
    from: Tail,
    bound: Bound,
    now: u64,
) -> Pulled
    requires { from ≢ tail.Evict }
    ensures kept { KeepsItems book.old book.new }
    ensures looked { LooksPast from bound now (is_some (pulled_to result)) book.old book.new }
    ensures told { may_tell from result ≡ true }
    ensures flows { Flows (way_of_pull from result) book.old book.new }
{
    let Some(chunk) = book.last(from.segment().place()) else {
        return Pulled::Empty;
    };
    let (_, time) = book.see(chunk);
    let idle = now.saturating_sub(time);
    pull_past(book, from, bound.most_at(idle))
}

// The label of a chunk whose item ended, and then the marks: when it expires, whether it was hit, and whether it was
// ACTIVE.
fn see_ended<N: Name, L: RowLaw>(book: &mut Book<N, L>, chunk: u32) -> (u64, bool, bool)
    requires own { owns chunk book.old.sheet ≡ true }
    requires ended { linked_at book.old.sheet chunk ≡ None }
    ensures expires { result.0 ≡ last_label book.old.sheet chunk }
    ensures marks { ShowsMarks chunk result.1 result.2 book.new }
    ensures looks { LooksOnly book.old book.new }
{
    let expires = book.label(chunk);
    let head = book.load_head(chunk);
    (expires, head.fetched, head.active)
}

// The last item of HOT or WARM ends. It answers None where there is no such item, and changes nothing then.
fn look_and_end<N: Name, L: RowLaw>(book: &mut Book<N, L>, from: Tail) -> Option<Victim>
    requires { from ≢ tail.Evict }
    ensures last { last_pulled from book.old.lists ≡ chunk_told result }
    ensures ends { EndsOne result book.old book.new }
{
    let pulled = look_at(book, from);
    let Some(id) = pulled.item() else {
        return None;
    };
    let Some(segment) = end(book, id.chunk) else {
        unreachable!()
    };
    let (expires, fetched, active) = see_ended(book, id.chunk);
    Some(Victim {
        chunk: id.chunk,
        last_of: from.segment(),
        moved: pulled.to(),
        from: segment,
        expires,
        fetched,
        active,
    })
}

// The item whose turn it is ends: the last of COLD; where COLD is empty, of WARM; where that is too, of HOT; and where
// all these are, of TEMP.
pub(crate) fn end_next<N: Name, L: RowLaw>(book: &mut Book<N, L>) -> Option<Victim>
    ensures next { victim book.old.lists ≡ chunk_told result }
    ensures ends { EndsOne result book.old book.new }
{
    if let Some(ended) = end_cold(book) {
        return Some(ended);
    }
    if let Some(ended) = look_and_end(book, Tail::Warm) {
        return Some(ended);
    }
    if let Some(ended) = look_and_end(book, Tail::Hot) {
        return Some(ended);
    }
    end_temp(book)
}

// The last item of COLD ends. It answers None where there is no such item, and changes nothing then.
fn end_cold<N: Name, L: RowLaw>(book: &mut Book<N, L>) -> Option<Victim>
    ensures last { last_of book.old.lists.cold ≡ chunk_told result }
    ensures ends { EndsOne result book.old book.new }
{
    book.promise();
    let Some(id) = book.pull(Tail::Evict).item() else {
        return None;
    };
    let (expires, fetched, active) = see_ended(book, id.chunk);
    Some(Victim {
        chunk: id.chunk,
        last_of: Segment::Cold,
        moved: None,
        from: Segment::Cold,
        expires,
        fetched,
        active,
    })
}

// The last item of TEMP ends, where it stands: no look at it comes before. It answers None where there is no such item,
// and changes nothing then.
fn end_temp<N: Name, L: RowLaw>(book: &mut Book<N, L>) -> Option<Victim>
    ensures last { last_of book.old.lists.temp ≡ chunk_told result }
    ensures ends { EndsOne result book.old book.new }
{
    let Some(chunk) = book.last(Place::Temp) else {
        return None;
    };
    let Some(segment) = end(book, chunk) else {
        unreachable!()
    };
    let (expires, fetched, active) = see_ended(book, chunk);
    Some(Victim {
        chunk,
        last_of: Segment::Temp,
        moved: None,
        from: segment,
        expires,
        fetched,
        active,
    })
}

// The item ends that is linked at a chunk; and tells the list in which it was, or None where none is.
pub(crate) fn end<N: Name, L: RowLaw>(book: &mut Book<N, L>, chunk: u32) -> Option<Segment>
    requires own { owns chunk book.old.sheet ≡ true }
    ensures ends { EndsLinked chunk result book.old book.new }
    ensures flows { IfSome result (λ from. Flows (Some (place_of from, Dying)) book.old book.new) }
    ensures stays { IfNone result (Flows None book.old book.new) }
{
    let head = book.load_head(chunk);
    let generation = head.generation;
    book.promise();
    match book.unlink(ItemId { chunk, generation }) {
        Ok(_) => Some(head.segment),
        Err(_) => None,
    }
}

// What was unlinked and is held by nobody any more is free.
pub(crate) fn sweep<N: Name, L: RowLaw>(book: &mut Book<N, L>) -> u32
    ensures swept { (heads : ℕ → TheHead) × Sweeps book.old result book.new heads }
    ensures kept { KeepsItems book.old book.new }
    ensures flows { Flows None book.old book.new }
    ensures segments { SameSegments book.old.lists book.new.lists }
{
    book.promise();
    book.sweep()
}

// As many chunks as a slice has room for come free, and are told there, of those that were unlinked and are held by
// nobody any more.
pub(crate) fn free_some<N: Name, L: RowLaw>(book: &mut Book<N, L>, freed: &mut [u32]) -> u32
    ensures frees { (heads : ℕ → TheHead) × FreesUpTo (length freed.old) book.old result book.new heads }
    ensures few { result ≤ length freed.old }
    ensures kept { KeepsItems book.old book.new }
    ensures flows { Flows None book.old book.new }
    ensures segments { SameSegments book.old.lists book.new.lists }
{
    book.promise();
    book.sweep_into(freed)
}

// A life begins, where this says.
fn link<N: Name, L: RowLaw>(
    book: &mut Book<N, L>,
    start: Start,
    label: u64,
    words: &[u64],
    now: u64,
) -> Result<ItemId, LinkRefusal>
    requires few { length words.now ≤ N.table.slots }
    requires law { MayHave L.law label words.now }
    ensures item { result ≡ linked_item book.old }
    ensures linked { IfOk result (λ id. book.new ≡ book_with_words start id label words.now now book.old) }
    ensures label { IfOk result (λ id. label_of_life id 0 book.new.sheet.labels ≡ Some label) }
    ensures words { IfOk result (λ id. (j : ℕ) → j < length words.now
        → label_of_life id 0 (of_word j book.new.sheet.words) ≡ Some (slice_index words.now j)) }
    ensures unchanged { OnErr result (book.new ≡ book.old) }
{
    match start {
        Start::Hot => book.link_words(label, words, now),
        Start::Temp => book.link_temp_words(label, words, now),
    }
}

// An item is linked at the front of HOT or TEMP, at a chunk that is free, with a label and further words. It answers
// None exactly where no chunk is free, and changes nothing then.
pub(crate) fn begin<N: Name, L: RowLaw>(
    book: &mut Book<N, L>,
    start: Start,
    label: u64,
    words: &[u64],
    now: u64,
) -> Option<ItemId>
    requires few { length words.now ≤ N.table.slots }
    requires law { MayHave L.law label words.now }
    ensures free { IfNone result (first_of book.old.lists.unused ≡ None) }
    ensures none { IfNone result (book.new ≡ book.old) }
    ensures linked { IfSome result (λ id. book.new ≡ book_with_words start id label words.now now book.old) }
    ensures label { IfSome result (λ id. label_of_life id 0 book.new.sheet.labels ≡ Some label) }
    ensures words { IfSome result (λ id. (j : ℕ) → j < length words.now
        → label_of_life id 0 (of_word j book.new.sheet.words) ≡ Some (slice_index words.now j)) }
    ensures begins { IfSome result (λ id. BeginsAt id book.old book.new) }
    ensures first { IfSome result (λ id. first_of book.old.lists.unused ≡ Some id.chunk) }
    ensures row { IfSome result (λ id. HasRow id.chunk label words.now book.new) }
    ensures flows { IfSome result (λ id. Flows (Some (Unused, place_of (first_segment start))) book.old book.new) }
    ensures apart { IfSome result (λ id. SameSegments (all_without id.chunk book.old.lists) book.old.lists) }
{
    book.promise();
    match link(book, start, label, words, now) {
        Ok(id) => Some(id),
        Err(_) => None,
    }
}

// Applies the next bump of a lane to a Book, where its chunk is one of the Book's and has the life of which it is. It
// tells what that came to, or None where there is no such bump.
pub(crate) fn apply_next<N: Name, L: RowLaw>(
    book: &mut Book<N, L>,
    lane: &mut RawLane<N, L>,
    now: u64,
) -> Option<Applied>
    ensures items { KeepsItems book.old book.new }
    ensures applies { IfSome result (λ it. AppliesAboard now book.old lane.old it book.new lane.new) }
    ensures applied { IfSome result (λ it. length (entries lane.new) ≡ length (entries lane.old) + 1) }
    ensures kept { IfNone result (entries lane.new ≡ entries lane.old) }
    ensures none { IfNone result (HasNoBumpFor book.old lane.new) }
    ensures looks { IfNone result (LooksAtMost book.old lane.new book.new) }
    ensures ring { lane.new.ring ≡ lane.old.ring }
    ensures flows { Flows (way_of_applied result) book.old book.new }
{
    let Some(bump) = lane.fetch() else {
        return None;
    };
    if !book.has_chunk(bump.life.chunk) {
        return None;
    }
    // A bump holds a reference, so its chunk has this life still. What an application promises doesn't say so, and one
    // look more shows it.
    let head = book.load_head(bump.life.chunk);
    if head.generation != bump.life.generation {
        return None;
    }
    Some(book.apply_front(lane, now))
}
