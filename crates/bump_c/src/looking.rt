//! A class's calls that look at it, which are made under the caller's lock of the class.
ghost use Rattle.std.specs.Prelude.{◌≡◌};
ghost use Rattle.bump_c.specs.Tells.{TellsLook, TellsMoveCount, TellsSeen, TellsSize, TellsWalk};

use crate::answers::{
    LimitsTold, Seen, WalkTold, given, looked_told, nothing_seen, place_of, seen_told, walked_told,
};
use crate::book_handle::{BookCall, BookHandle};
use bump_handles::TaggedBook;
use bump_readers::Name;

const NO_SUCH_LIST: WalkTold = WalkTold {
    answer: 2,
    count: 0,
    next: u32::MAX,
    chunks: [0; 32],
};

#[derive(Drop)]
struct Size {
    place: u32,
}

impl BookCall for Size {
    type Told = u32;

    ghost tells = { λ call table before after told. (after ≡ before) × TellsSize call.place before told };

    fn make<N: Name>(self, it: &mut TaggedBook<N>) -> u32 {
        match place_of(self.place) {
            Some(list) => it.size(list),
            None => u32::MAX,
        }
    }
}

/// How many chunks a list has, or the greatest number where there is no such list.
#[unsafe(no_mangle)]
pub extern "C" fn bump_size(book: &mut BookHandle, place: u32) -> u32
    ensures table { book.new.table ≡ book.old.table }
    ensures held { book.new.held ≡ book.old.held }
    ensures size { TellsSize place book.old.held result }
{
    book.call(Size { place })
}

#[derive(Drop)]
struct Moves {
    worker: u32,
}

impl BookCall for Moves {
    type Told = u64;

    ghost tells = { λ call table before after told. (after ≡ before) × TellsMoveCount call.worker before told };

    fn make<N: Name>(self, it: &mut TaggedBook<N>) -> u64 {
        it.moves(self.worker).unwrap_or(u64::MAX)
    }
}

/// How many items a worker's bumps brought to WARM, or the greatest number where there is no such worker.
#[unsafe(no_mangle)]
pub extern "C" fn bump_moves(book: &mut BookHandle, worker: u32) -> u64
    ensures table { book.new.table ≡ book.old.table }
    ensures held { book.new.held ≡ book.old.held }
    ensures moves { TellsMoveCount worker book.old.held result }
{
    book.call(Moves { worker })
}

#[derive(Drop)]
struct Limits;

impl BookCall for Limits {
    type Told = LimitsTold;

    ghost tells = { λ call table before after told.
        (after ≡ before) × (told ≡ record { hot = before.book.hot_limit; warm = before.book.warm_limit }) };

    fn make<N: Name>(self, it: &mut TaggedBook<N>) -> LimitsTold {
        let (hot, warm) = it.limits();
        LimitsTold { hot, warm }
    }
}

/// The limits of HOT and of WARM.
#[unsafe(no_mangle)]
pub extern "C" fn bump_limits(book: &mut BookHandle) -> LimitsTold
    ensures table { book.new.table ≡ book.old.table }
    ensures held { book.new.held ≡ book.old.held }
    ensures limits { result ≡ record { hot = book.old.held.book.hot_limit; warm = book.old.held.book.warm_limit } }
{
    book.call(Limits)
}

#[derive(Drop)]
struct See {
    chunk: u32,
}

impl BookCall for See {
    type Told = Seen;

    ghost tells = { λ call table before after told. TellsSeen call.chunk before after told };

    fn make<N: Name>(self, it: &mut TaggedBook<N>) -> Seen {
        seen_told(it.see(self.chunk))
    }
}

/// What a chunk's word says, its time and its label.
#[unsafe(no_mangle)]
pub extern "C" fn bump_see(book: &mut BookHandle, chunk: u32) -> Seen
    ensures table { book.new.table ≡ book.old.table }
    ensures sees { TellsSeen chunk book.old.held book.new.held result }
{
    book.call(See { chunk })
}

#[derive(Drop)]
struct Look {
    place: u32,
    behind: u32,
}

impl BookCall for Look {
    type Told = Seen;

    ghost tells = { λ call table before after told. TellsLook call.place call.behind before after told };

    fn make<N: Name>(self, it: &mut TaggedBook<N>) -> Seen {
        match place_of(self.place) {
            Some(list) => looked_told(it.look(list, given(self.behind))),
            None => nothing_seen(3),
        }
    }
}

/// What the word of a list's last chunk says, or of the one before a chunk of it, its time and its label.
#[unsafe(no_mangle)]
pub extern "C" fn bump_look(book: &mut BookHandle, place: u32, behind: u32) -> Seen
    ensures table { book.new.table ≡ book.old.table }
    ensures looks { TellsLook place behind book.old.held book.new.held result }
{
    book.call(Look { place, behind })
}

#[derive(Drop)]
struct Walk {
    place: u32,
    from: u32,
}

impl BookCall for Walk {
    type Told = WalkTold;

    ghost tells = { λ call table before after told. (after ≡ before) × TellsWalk call.place call.from before told };

    fn make<N: Name>(self, it: &mut TaggedBook<N>) -> WalkTold {
        let Some(list) = place_of(self.place) else {
            return NO_SUCH_LIST;
        };
        let mut chunks = [0; 32];
        let walked = it.walk(list, given(self.from), &mut chunks);
        walked_told(walked, chunks)
    }
}

/// The chunks of a list, front first, from a chunk on: at most 32.
#[unsafe(no_mangle)]
pub extern "C" fn bump_walk(book: &mut BookHandle, place: u32, from: u32) -> WalkTold
    ensures table { book.new.table ≡ book.old.table }
    ensures held { book.new.held ≡ book.old.held }
    ensures walks { TellsWalk place from book.old.held result }
{
    book.call(Walk { place, from })
}
