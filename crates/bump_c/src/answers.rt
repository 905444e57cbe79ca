//! What C reads: numbers in the order of the enums of c/bump.h, and plain records.
ghost use Rattle.std.specs.Prelude.{◌≡◌, ◌<◌, IfSome, IfNone};
ghost use Rattle.bump_rules.specs.Places.{place_number};
ghost use Rattle.bump_c.specs.Numbers.{number_of_taken, number_of_refusal, number_of_touch, bump_of_touch, touched_of};
ghost use Rattle.bump_c.specs.Numbers.{labelled_of, told_of_hit, marks_of, has_both_marks, time_of, words_of, counts_of};
ghost use Rattle.bump_c.specs.Numbers.{number_of_not_closed, link_of_item, not_linked_as, linked_of, words_linked_of};
ghost use Rattle.bump_c.specs.Numbers.{unlinked_of, number_of_tail, pulled_as, told_of_pulled, number_of_segment};
ghost use Rattle.bump_c.specs.Numbers.{not_seen, sight_of, seen_of, looked_of, walked_of, run_of, freeing_run_of};
ghost use Rattle.bump_c.specs.Numbers.{number_of_rest, rest_of, number_of_fault, given_of};

use bump_class::{LinkRefusal, UnlinkRefusal};
use bump_handles::{
    NotClosed, NotThere, OtherClass, RestState, Rested, RunEnd, Sight, Taken, Walked, WholeHit,
    WordsRefusal,
};
use bump_rules::{
    Accounts, ConfigFault, Dropped, Ended, Head, ItemId, Place, Pulled, Segment, Tail, Touch,
};
use bump_unlocked::GetRefusal;

/// What became of a touch.
#[repr(C)]
#[derive(Clone, Copy)]
pub struct Touched {
    /// As enum bump_touch_answer.
    pub answer: u32,

    /// Which of the worker's accepted bumps was queued, from 0; else 0.
    pub number: u64,
}

/// A label that was read.
#[repr(C)]
#[derive(Clone, Copy)]
pub struct Labelled {
    /// As enum bump_hold_answer.
    pub answer: u32,

    /// The label; 0 where none was read.
    pub label: u64,
}

/// What became of a whole hit.
#[repr(C)]
#[derive(Clone, Copy)]
pub struct HitTold {
    /// As enum bump_get_answer.
    pub got: u32,

    /// As enum bump_touch_answer; 8 where nothing was held.
    pub touch: u32,

    /// The label; 0 where nothing was held.
    pub label: u64,
}

/// A worker's counts.
#[repr(C)]
#[derive(Clone, Copy)]
pub struct Counts {
    /// Bumps attempted: the sum of the others.
    pub attempted: u64,

    /// Bumps that the worker's ring took.
    pub accepted: u64,

    /// Bumps dropped because the ring had no room.
    pub full: u64,

    /// Bumps dropped after eight failed exchanges.
    pub busy: u64,

    /// Bumps dropped because the reference count was at its limit.
    pub refs: u64,
}

/// What was linked.
#[repr(C)]
#[derive(Clone, Copy)]
pub struct LinkTold {
    /// As enum bump_link_answer.
    pub answer: u32,

    /// The chunk of the item; 0 where there is none.
    pub chunk: u32,

    /// The generation of the item; 0 where there is none.
    pub generation: u32,
}

/// What became of an item that was to be unlinked.
#[repr(C)]
#[derive(Clone, Copy)]
pub struct UnlinkTold {
    /// As enum bump_unlink_answer.
    pub answer: u32,

    /// The item's label; 0 where nothing was unlinked.
    pub label: u64,
}

/// What a pull did with an item.
#[repr(C)]
#[derive(Clone, Copy)]
pub struct PullTold {
    /// As enum bump_pull_answer.
    pub answer: u32,

    /// The chunk of the item; 0 where there is none.
    pub chunk: u32,

    /// The generation of the item; 0 where there is none.
    pub generation: u32,

    /// The label of the item; 0 where there is none.
    pub label: u64,
}

/// A class's limits.
#[repr(C)]
#[derive(Clone, Copy)]
pub struct LimitsTold {
    /// A pull takes items from HOT where there are more.
    pub hot: u32,

    /// A pull takes items from WARM where there are more.
    pub warm: u32,
}

/// What three loads found of a chunk.
#[repr(C)]
#[derive(Clone, Copy)]
pub struct Seen {
    /// As enum bump_see_answer.
    pub answer: u32,

    /// The chunk.
    pub chunk: u32,

    /// The chunk's generation.
    pub generation: u32,

    /// How many references there are.
    pub refs: u32,

    /// As enum bump_place, up to TEMP.
    pub segment: u32,

    /// The item's time.
    pub time: u64,

    /// The item's label.
    pub label: u64,

    /// Whether it is linked.
    pub linked: bool,

    /// Whether it was hit.
    pub fetched: bool,

    /// Whether it was hit again.
    pub active: bool,
}

/// The head of an item that is held.
#[repr(C)]
#[derive(Clone, Copy)]
pub struct MarksTold {
    /// As enum bump_hold_answer.
    pub answer: u32,

    /// How many references there are.
    pub refs: u32,

    /// As enum bump_place, up to TEMP.
    pub segment: u32,

    /// Whether it is linked.
    pub linked: bool,

    /// Whether it was hit.
    pub fetched: bool,

    /// Whether it was hit again.
    pub active: bool,
}

/// A number that was read of an item that is held.
#[repr(C)]
#[derive(Clone, Copy)]
pub struct TimeTold {
    /// As enum bump_hold_answer.
    pub answer: u32,

    /// The time; 0 where none was read.
    pub time: u64,
}

/// Words of an item that is held.
#[repr(C)]
#[derive(Clone, Copy)]
pub struct WordsTold {
    /// As enum bump_hold_answer.
    pub answer: u32,

    /// How many further words each item has; 0 where none were read.
    pub count: u32,

    /// As many of them as there is room for; 0 behind the last one.
    pub words: [u64; 8],
}

/// Chunks that came free.
#[repr(C)]
#[derive(Clone, Copy)]
pub struct FreedTold {
    /// How many they are.
    pub count: u32,

    /// The chunks; 0 behind the last one.
    pub chunks: [u32; 32],
}

/// How far a list was walked.
#[repr(C)]
#[derive(Clone, Copy)]
pub struct WalkTold {
    /// As enum bump_walk_answer.
    pub answer: u32,

    /// How many chunks were told.
    pub count: u32,

    /// The chunk behind them; the greatest number where there is none.
    pub next: u32,

    /// The chunks; 0 behind the last one.
    pub chunks: [u32; 32],
}

/// Whether a run was applied, and of how many.
#[repr(C)]
#[derive(Clone, Copy)]
pub struct Ran {
    /// As enum bump_run_answer.
    pub answer: u32,

    /// How many bumps were applied.
    pub applied: u32,
}

/// And which chunks came free.
#[repr(C)]
#[derive(Clone, Copy)]
pub struct RanTold {
    /// As enum bump_run_answer.
    pub answer: u32,

    /// How many bumps were applied.
    pub applied: u32,

    /// How many chunks came free.
    pub freed: u32,

    /// The chunks; 0 behind the last one.
    pub chunks: [u32; 32],
}

/// What is left of a lane's ring.
#[repr(C)]
#[derive(Clone, Copy)]
pub struct RestTold {
    /// As enum bump_rest_answer.
    pub answer: u32,

    /// How many bumps are left; 0 where it is not LEFT.
    pub left: u64,

    /// The closed worker's counts; zeros where it is OPEN.
    pub counts: Counts,

    /// How many bumps the lane ever applied.
    pub applied: u64,
}

/// The number of an answer of a get.
#[inline(always)]
pub fn taken_number(taken: Taken) -> u32
    ensures { result ≡ number_of_taken taken }
{
    match taken {
        Taken::Held => 0,
        Taken::NoPlace => 1,
        Taken::NoSuchChunk => 2,
        Taken::Stale => 3,
        Taken::RefsFull => 4,
        Taken::Busy => 5,
    }
}

fn refusal_number(refusal: GetRefusal) -> u32
    ensures { result ≡ number_of_refusal refusal }
{
    match refusal {
        GetRefusal::NoSuchChunk => 2,
        GetRefusal::Stale => 3,
        GetRefusal::RefsFull => 4,
        GetRefusal::Busy => 5,
    }
}

#[inline(always)]
fn touch_number(touch: Touch) -> u32
    ensures { result ≡ number_of_touch touch }
{
    match touch {
        Touch::First => 0,
        Touch::Already => 1,
        Touch::Marked => 2,
        Touch::Queued(_) => 3,
        Touch::Dropped(Dropped::Full) => 4,
        Touch::Dropped(Dropped::Busy) => 5,
        Touch::Dropped(Dropped::RefsFull) => 6,
        Touch::Exhausted => 7,
    }
}

#[inline(always)]
fn touch_bump(touch: Touch) -> u64
    ensures { result ≡ bump_of_touch touch }
{
    match touch {
        Touch::Queued(number) => number,
        Touch::First | Touch::Already | Touch::Marked | Touch::Dropped(_) | Touch::Exhausted => 0,
    }
}

/// A touch's answer, as C reads it.
#[inline(always)]
pub fn touch_told(answer: Option<Touch>) -> Touched
    ensures { result ≡ touched_of answer }
{
    match answer {
        None => Touched {
            answer: 8,
            number: 0,
        },
        Some(touch) => Touched {
            answer: touch_number(touch),
            number: touch_bump(touch),
        },
    }
}

/// A label, as C reads it.
#[inline(always)]
pub fn label_told(answer: Option<u64>) -> Labelled
    ensures { result ≡ labelled_of answer }
{
    match answer {
        None => Labelled {
            answer: 1,
            label: 0,
        },
        Some(label) => Labelled { answer: 0, label },
    }
}

/// A whole hit, as C reads it.
#[inline(always)]
pub fn hit_told(answer: Result<WholeHit, GetRefusal>) -> HitTold
    ensures { result ≡ told_of_hit answer }
{
    match answer {
        Ok(whole) => HitTold {
            got: 0,
            touch: touch_number(whole.touch),
            label: whole.label,
        },
        Err(refusal) => HitTold {
            got: refusal_number(refusal),
            touch: 8,
            label: 0,
        },
    }
}

/// A worker's counts, as C reads them.
pub fn counts_told(accounts: Accounts) -> Counts
    ensures { result ≡ counts_of accounts }
{
    Counts {
        attempted: accounts.attempted,
        accepted: accounts.accepted,
        full: accounts.full,
        busy: accounts.busy,
        refs: accounts.refs,
    }
}

/// The number of a reason why a worker isn't closed.
pub fn not_closed_number(why: NotClosed) -> u32
    ensures { result ≡ number_of_not_closed why }
{
    match why {
        NotClosed::OtherStore => 1,
        NotClosed::OtherWorker => 2,
        NotClosed::HoldsOut => 3,
        NotClosed::Twice => 4,
    }
}

// An item that was linked.
fn linked_item(item: ItemId) -> LinkTold
    ensures { result ≡ link_of_item item }
{
    LinkTold {
        answer: 0,
        chunk: item.chunk,
        generation: item.generation,
    }
}

// A number in place of an item.
fn not_linked(answer: u32) -> LinkTold
    ensures { result ≡ not_linked_as answer }
{
    LinkTold {
        answer,
        chunk: 0,
        generation: 0,
    }
}

/// A link's answer, as C reads it.
pub fn linked_told(answer: Result<ItemId, LinkRefusal>) -> LinkTold
    ensures { result ≡ linked_of answer }
{
    match answer {
        Ok(item) => linked_item(item),
        Err(LinkRefusal::NoFreeChunk) => not_linked(1),
    }
}

/// The answer of a link with words, as C reads it.
pub fn words_linked_told(answer: Result<ItemId, WordsRefusal>) -> LinkTold
    ensures { result ≡ words_linked_of answer }
{
    match answer {
        Ok(item) => linked_item(item),
        Err(WordsRefusal::NoFreeChunk) => not_linked(1),
        Err(WordsRefusal::TooMany) => not_linked(2),
    }
}

/// An unlink's answer, as C reads it.
pub fn unlinked_told(answer: Result<(Ended, u64), UnlinkRefusal>) -> UnlinkTold
    ensures { result ≡ unlinked_of answer }
{
    match answer {
        Ok((Ended::Freed, label)) => UnlinkTold { answer: 0, label },
        Ok((Ended::Deferred, label)) => UnlinkTold { answer: 1, label },
        Err(UnlinkRefusal::NoSuchChunk) => UnlinkTold {
            answer: 2,
            label: 0,
        },
        Err(UnlinkRefusal::NotLinked) => UnlinkTold {
            answer: 3,
            label: 0,
        },
    }
}

/// The tail with a number, if there is one.
pub fn tail_of(number: u32) -> Option<Tail>
    ensures is { IfSome result (λ tail. number ≡ number_of_tail tail) }
    ensures none { IfNone result (3 < number) }
{
    match number {
        0 => Some(Tail::Hot),
        1 => Some(Tail::Warm),
        2 => Some(Tail::Cold),
        3 => Some(Tail::Evict),
        _ => None,
    }
}

/// The list with a number, if there is one.
pub fn place_of(number: u32) -> Option<Place>
    ensures is { IfSome result (λ place. number ≡ place_number place) }
    ensures none { IfNone result (6 < number) }
{
    match number {
        0 => Some(Place::Hot),
        1 => Some(Place::Warm),
        2 => Some(Place::Cold),
        3 => Some(Place::Temp),
        4 => Some(Place::Dying),
        5 => Some(Place::Unused),
        6 => Some(Place::Retired),
        _ => None,
    }
}

fn pulled_item(number: u32, item: ItemId, label: u64) -> PullTold
    ensures { result ≡ pulled_as number item label }
{
    PullTold {
        answer: number,
        chunk: item.chunk,
        generation: item.generation,
        label,
    }
}

/// A pull's answer, as C reads it, with the item's label.
pub fn pulled_told(answer: Pulled, label: u64) -> PullTold
    ensures { result ≡ told_of_pulled answer label }
{
    match answer {
        Pulled::Empty => PullTold {
            answer: 0,
            chunk: 0,
            generation: 0,
            label,
        },
        Pulled::Stay(item) => pulled_item(1, item, label),
        Pulled::Warm(item) => pulled_item(2, item, label),
        Pulled::Again(item) => pulled_item(3, item, label),
        Pulled::Cold(item) => pulled_item(4, item, label),
        Pulled::Freed(item) => pulled_item(5, item, label),
        Pulled::Deferred(item) => pulled_item(6, item, label),
    }
}

fn segment_number(segment: Segment) -> u32
    ensures { result ≡ number_of_segment segment }
{
    match segment {
        Segment::Hot => 0,
        Segment::Warm => 1,
        Segment::Cold => 2,
        Segment::Temp => 3,
    }
}

/// A number that may be left out: 4,294,967,295 stands for none.
pub fn given(number: u32) -> Option<u32>
    ensures { result ≡ given_of number }
{
    if number == u32::MAX {
        None
    } else {
        Some(number)
    }
}

/// A number in place of what was found.
pub fn nothing_seen(answer: u32) -> Seen
    ensures { result ≡ not_seen answer }
{
    Seen {
        answer,
        chunk: 0,
        generation: 0,
        refs: 0,
        segment: 0,
        time: 0,
        label: 0,
        linked: false,
        fetched: false,
        active: false,
    }
}

fn sight_told(it: Sight) -> Seen
    ensures { result ≡ sight_of it }
{
    Seen {
        answer: 0,
        chunk: it.chunk,
        generation: it.head.generation,
        refs: it.head.refs,
        segment: segment_number(it.head.segment),
        time: it.time,
        label: it.label,
        linked: it.head.linked,
        fetched: it.head.fetched,
        active: it.head.active,
    }
}

/// What was found of a chunk, as C reads it.
pub fn seen_told(answer: Option<Sight>) -> Seen
    ensures { result ≡ seen_of answer }
{
    match answer {
        None => nothing_seen(1),
        Some(it) => sight_told(it),
    }
}

/// What was found of a chunk of a list, as C reads it.
pub fn looked_told(answer: Result<Option<Sight>, NotThere>) -> Seen
    ensures { result ≡ looked_of answer }
{
    match answer {
        Err(NotThere) => nothing_seen(1),
        Ok(None) => nothing_seen(2),
        Ok(Some(it)) => sight_told(it),
    }
}

/// How far a list was walked, as C reads it.
pub fn walked_told(answer: Result<Walked, NotThere>, chunks: [u32; 32]) -> WalkTold
    ensures { result ≡ walked_of answer chunks }
{
    match answer {
        Err(NotThere) => WalkTold {
            answer: 1,
            count: 0,
            next: u32::MAX,
            chunks,
        },
        Ok(walked) => WalkTold {
            answer: 0,
            count: walked.count,
            next: walked.next.unwrap_or(u32::MAX),
            chunks,
        },
    }
}

/// The head of an item that is held, as C reads it.
#[inline(always)]
pub fn marks_told(answer: Option<Head>) -> MarksTold
    ensures { result ≡ marks_of answer }
{
    match answer {
        None => MarksTold {
            answer: 1,
            refs: 0,
            segment: 0,
            linked: false,
            fetched: false,
            active: false,
        },
        Some(head) => MarksTold {
            answer: 0,
            refs: head.refs,
            segment: segment_number(head.segment),
            linked: head.linked,
            fetched: head.fetched,
            active: head.active,
        },
    }
}

/// Whether an item is held that has both marks.
#[inline(always)]
pub fn is_marked(answer: Option<Head>) -> bool
    ensures { result ≡ has_both_marks answer }
{
    match answer {
        None => false,
        Some(head) => head.fetched && head.active,
    }
}

/// A time that was read, as C reads it.
pub fn time_told(answer: Option<u64>) -> TimeTold
    ensures { result ≡ time_of answer }
{
    match answer {
        None => TimeTold { answer: 1, time: 0 },
        Some(time) => TimeTold { answer: 0, time },
    }
}

/// Words that were read, as C reads them.
pub fn words_told(answer: Option<u32>, words: [u64; 8]) -> WordsTold
    ensures { result ≡ words_of answer words }
{
    match answer {
        None => WordsTold {
            answer: 1,
            count: 0,
            words,
        },
        Some(count) => WordsTold {
            answer: 0,
            count,
            words,
        },
    }
}

/// How many bumps were applied, as C reads it.
pub fn run_told(answer: Result<u32, OtherClass>) -> Ran
    ensures { result ≡ run_of answer }
{
    match answer {
        Ok(applied) => Ran { answer: 0, applied },
        Err(OtherClass) => Ran {
            answer: 2,
            applied: 0,
        },
    }
}

/// And how many chunks came free by that, and which.
pub fn freeing_run_told(answer: Result<RunEnd, OtherClass>, chunks: [u32; 32]) -> RanTold
    ensures { result ≡ freeing_run_of answer chunks }
{
    match answer {
        Ok(end) => RanTold {
            answer: 0,
            applied: end.applied,
            freed: end.freed,
            chunks,
        },
        Err(OtherClass) => RanTold {
            answer: 2,
            applied: 0,
            freed: 0,
            chunks,
        },
    }
}

fn rest_number(state: RestState) -> u32
    ensures { result ≡ number_of_rest state }
{
    match state {
        RestState::Settled => 0,
        RestState::Open => 1,
        RestState::Left => 2,
        RestState::Unseen => 3,
        RestState::Gone => 4,
    }
}

/// What is left of a lane's ring, as C reads it.
pub fn rest_told(rested: Rested) -> RestTold
    ensures { result ≡ rest_of rested }
{
    RestTold {
        answer: rest_number(rested.state),
        left: rested.left,
        counts: counts_told(rested.counts),
        applied: rested.applied,
    }
}

/// The number of a configuration's fault.
pub fn fault_number(fault: ConfigFault) -> u32
    ensures { result ≡ number_of_fault fault }
{
    match fault {
        ConfigFault::Workers => 1,
        ConfigFault::Capacity => 2,
        ConfigFault::RefsLimit => 3,
        ConfigFault::Generation => 4,
        ConfigFault::Classes => 5,
        ConfigFault::Chunks => 6,
    }
}
