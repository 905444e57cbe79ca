//! A class's calls that change it, which are made under the caller's lock of the class.
ghost use Rattle.std.specs.Prelude.{◌≡◌};
ghost use Rattle.bump_rules.specs.declared.places.Start.TheVariants as start;
ghost use Rattle.bump_handles.specs.Booking.{BookSweeps, BookSweepsInto};
ghost use Rattle.bump_c.specs.Numbers.{no_chunks};
ghost use Rattle.bump_c.specs.One.{IsOne};
ghost use Rattle.bump_c.specs.Tells.{TellsLink, TellsLinkWords, TellsUnlink, TellsPull};

use crate::answers::{
    FreedTold, LinkTold, PullTold, UnlinkTold, given, linked_told, pulled_told, tail_of,
    unlinked_told, words_linked_told,
};
use crate::book_handle::{BookCall, BookHandle};
use bump_handles::TaggedBook;
use bump_readers::Name;
use bump_rules::ItemId;
use std::marker::Brand;

const NO_SUCH_TAIL: PullTold = PullTold {
    answer: 7,
    chunk: 0,
    generation: 0,
    label: 0,
};

#[derive(Drop)]
struct Link {
    label: u64,
    now: u64,
}

impl BookCall for Link {
    type Told = LinkTold;

    ghost tells = { λ call table before after told. TellsLink start.Hot call.label call.now before after told };

    fn make<N: Name>(self, it: &mut TaggedBook<N>) -> LinkTold {
        linked_told(it.link(self.label, self.now))
    }
}

/// Links an item with a label at the front of HOT.
#[unsafe(no_mangle)]
pub extern "C" fn bump_link(book: &mut BookHandle, label: u64, now: u64) -> LinkTold
    ensures table { book.new.table ≡ book.old.table }
    ensures links { TellsLink start.Hot label now book.old.held book.new.held result }
{
    book.call(Link { label, now })
}

#[derive(Drop)]
struct LinkTemp {
    label: u64,
    now: u64,
}

impl BookCall for LinkTemp {
    type Told = LinkTold;

    ghost tells = { λ call table before after told. TellsLink start.Temp call.label call.now before after told };

    fn make<N: Name>(self, it: &mut TaggedBook<N>) -> LinkTold {
        linked_told(it.link_temp(self.label, self.now))
    }
}

/// Links an item with a label at the front of TEMP.
#[unsafe(no_mangle)]
pub extern "C" fn bump_link_temp(book: &mut BookHandle, label: u64, now: u64) -> LinkTold
    ensures table { book.new.table ≡ book.old.table }
    ensures links { TellsLink start.Temp label now book.old.held book.new.held result }
{
    book.call(LinkTemp { label, now })
}

#[derive(Drop)]
struct LinkWords<'a> {
    label: u64,
    words: &'a [u64],
    now: u64,
}

impl<'a> BookCall for LinkWords<'a> {
    type Told = LinkTold;

    ghost tells = { λ call table before after told.
        TellsLinkWords start.Hot table call.label call.words.now call.now before after told };

    fn make<N: Name>(self, it: &mut TaggedBook<N>) -> LinkTold {
        words_linked_told(it.link_words(self.label, self.words, self.now))
    }
}

/// Links an item with a label and further words at the front of HOT.
#[unsafe(no_mangle)]
pub extern "C" fn bump_link_words(
    book: &mut BookHandle,
    label: u64,
    words: &[u64],
    now: u64,
) -> LinkTold
    ensures table { book.new.table ≡ book.old.table }
    ensures links { TellsLinkWords start.Hot book.old.table label words.now now book.old.held book.new.held result }
{
    book.call(LinkWords { label, words, now })
}

#[derive(Drop)]
struct LinkTempWords<'a> {
    label: u64,
    words: &'a [u64],
    now: u64,
}

impl<'a> BookCall for LinkTempWords<'a> {
    type Told = LinkTold;

    ghost tells = { λ call table before after told.
        TellsLinkWords start.Temp table call.label call.words.now call.now before after told };

    fn make<N: Name>(self, it: &mut TaggedBook<N>) -> LinkTold {
        words_linked_told(it.link_temp_words(self.label, self.words, self.now))
    }
}

/// Links an item with a label and further words at the front of TEMP.
#[unsafe(no_mangle)]
pub extern "C" fn bump_link_temp_words(
    book: &mut BookHandle,
    label: u64,
    words: &[u64],
    now: u64,
) -> LinkTold
    ensures table { book.new.table ≡ book.old.table }
    ensures links { TellsLinkWords start.Temp book.old.table label words.now now book.old.held book.new.held result }
{
    book.call(LinkTempWords { label, words, now })
}

#[derive(Drop)]
struct Unlink {
    id: ItemId,
}

impl BookCall for Unlink {
    type Told = UnlinkTold;

    ghost tells = { λ call table before after told. TellsUnlink call.id.chunk call.id.generation before after told };

    fn make<N: Name>(self, it: &mut TaggedBook<N>) -> UnlinkTold {
        unlinked_told(it.unlink(self.id))
    }
}

/// Ends an item.
#[unsafe(no_mangle)]
pub extern "C" fn bump_unlink(book: &mut BookHandle, chunk: u32, generation: u32) -> UnlinkTold
    ensures table { book.new.table ≡ book.old.table }
    ensures unlinks { TellsUnlink chunk generation book.old.held book.new.held result }
{
    book.call(Unlink {
        id: ItemId { chunk, generation },
    })
}

#[derive(Drop)]
struct Pull {
    tail: u32,
    limit: u32,
}

impl BookCall for Pull {
    type Told = PullTold;

    ghost tells = { λ call table before after told. TellsPull call.tail call.limit before after told };

    fn make<N: Name>(self, it: &mut TaggedBook<N>) -> PullTold {
        let Some(list) = tail_of(self.tail) else {
            return NO_SUCH_TAIL;
        };
        let (pulled, label) = it.pull(list, given(self.limit));
        pulled_told(pulled, label)
    }
}

/// Looks at the last item of a list, and moves or ends it, by a limit or by the class's.
#[unsafe(no_mangle)]
pub extern "C" fn bump_pull(book: &mut BookHandle, tail: u32, limit: u32) -> PullTold
    ensures table { book.new.table ≡ book.old.table }
    ensures pulls { TellsPull tail limit book.old.held book.new.held result }
{
    book.call(Pull { tail, limit })
}

#[derive(Drop)]
struct Sweep;

impl BookCall for Sweep {
    type Told = u32;

    ghost tells = { λ call table before after told. BookSweeps before after told };

    fn make<N: Name>(self, it: &mut TaggedBook<N>) -> u32 {
        it.sweep()
    }
}

/// Frees those chunks of DYING that nobody holds any more, and tells how many.
#[unsafe(no_mangle)]
pub extern "C" fn bump_sweep(book: &mut BookHandle) -> u32
    ensures table { book.new.table ≡ book.old.table }
    ensures sweeps { BookSweeps book.old.held book.new.held result }
{
    book.call(Sweep)
}

#[derive(Drop)]
struct SweepTold;

impl BookCall for SweepTold {
    type Told = FreedTold;

    ghost tells = { λ call table before after told. BookSweepsInto before no_chunks after told.chunks told.count };

    fn make<N: Name>(self, it: &mut TaggedBook<N>) -> FreedTold {
        let mut chunks = [0; 32];
        let count = it.sweep_into(&mut chunks);
        FreedTold { count, chunks }
    }
}

/// Sweeps, and tells which chunks came free: at most 32, and it stops there.
#[unsafe(no_mangle)]
pub extern "C" fn bump_sweep_told(book: &mut BookHandle) -> FreedTold
    ensures table { book.new.table ≡ book.old.table }
    ensures sweeps { BookSweepsInto book.old.held no_chunks book.new.held result.chunks result.count }
{
    book.call(SweepTold)
}

fn book_free_named<N: Name>(h: BookHandle)
    requires table { h.table ≡ N.table }
    requires one { IsOne N }
{
    drop(h.into_open::<N>().into_box());
}

/// Ends a book.
#[unsafe(no_mangle)]
pub extern "C" fn bump_book_free(book: BookHandle) {
    book_free_named::<Brand>(book);
}
