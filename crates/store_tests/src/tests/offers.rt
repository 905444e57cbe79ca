//! A ring of one by its own calls: what it accepts comes out, and what it has no room for comes back.
ghost use Rattle.std.specs.Prelude.{◌≡◌, ◌+◌, ◌<◌, Some, length, IfSome, [], ◌∷◌};
ghost use Rattle.bump_rules.specs.declared.hands.Hand.TheVariants.{Idle, Trying};
ghost use Rattle.bump_rules.specs.Rings.{most_attempts};
ghost use Rattle.bump_steps.specs.Places.{head_place};
ghost use Rattle.bump_store.specs.Rule.{chunks as all_chunks, worker_sheet, no_accounts};
ghost use Rattle.bump_steps.specs.declared.views.HoldSheet.{HoldSheet as TheHoldSheet};
ghost use Rattle.bump_readers.specs.Riding.{ride_of};
ghost use Rattle.bump_readers.specs.Workers.{worker_seen};

use super::calls::{link_cold, pull_round};
use super::expecting::expect;
use bump_heads::{HeadParts, Heads, Rider, WorkerSeat};
use bump_ring::{Receiver, Sender, ring};
use bump_store::{Blank, Book, ClassConfig, Config, ItemId, Name, ReaderHeads, Segment};
use std::alloc::{AllocError, Global};
use std::marker::Brand;
use std::process::Abort;
use std::test::Fail;

/// How many bumps go through the ring.
const ROUNDS: u64 = 1_000;

/// The only class: its only item goes on where it is pulled from HOT or from WARM.
const CLASS: ClassConfig = ClassConfig {
    chunks: 1,
    hot: 0,
    warm: 0,
};

// The item that the worker holds is hit, and a bump of it is attempted: it is in COLD, and not ACTIVE.
fn attempt<N: Name>(
    rt: &impl Abort,
    heads: &ReaderHeads<N>,
    seat: &mut WorkerSeat<N>,
    life: ItemId,
    place: usize,
)
    requires place { place ≡ head_place N.table.slots life.chunk }
    requires held { (h : TheHoldSheet) × (seat.old.hold ≡ Some h) × (h.life ≡ life) }
    requires idle { seat.old.sheet.hand ≡ Idle }
    requires attempts { seat.old.sheet.accounts.attempted < most_attempts }
    ensures trying { seat.new.sheet.hand ≡ Trying life }
    ensures hold { seat.new.hold ≡ seat.old.hold }
    ensures worker { seat.new.sheet.worker ≡ seat.old.sheet.worker }
    ensures accounts { seat.new.sheet.accounts ≡ record seat.old.sheet.accounts {
      attempted = seat.old.sheet.accounts.attempted + 1;
    } }
{
    heads.mark_fetched(seat, life, place);
    let found = heads.mark_active(seat, life, place);
    assert!(rt; matches!(found.segment, Segment::Cold));
    assert!(rt; !found.active);
}

// A bump of the item is sent off.
fn send_off<N: Name>(
    rt: &impl Abort,
    heads: &ReaderHeads<N>,
    seat: &mut WorkerSeat<N>,
    life: ItemId,
    place: usize,
) -> Rider<N>
    requires place { place ≡ head_place N.table.slots life.chunk }
    requires held { (h : TheHoldSheet) × (seat.old.hold ≡ Some h) × (h.life ≡ life) }
    requires trying { seat.old.sheet.hand ≡ Trying life }
    ensures rider { result ≡ ride_of seat.old seat.old.sheet.accounts.accepted life }
    ensures idle { seat.new.sheet.hand ≡ Idle }
    ensures hold { seat.new.hold ≡ seat.old.hold }
    ensures worker { seat.new.sheet.worker ≡ seat.old.sheet.worker }
    ensures accounts { seat.new.sheet.accounts ≡ record seat.old.sheet.accounts {
      accepted = seat.old.sheet.accounts.accepted + 1;
    } }
{
    match heads.ride(seat, life, place) {
        Ok(rider) => rider,
        Err(_) => panic!(rt; "there is room"),
    }
}

// A bump that came back is given up.
fn give_up<N: Name>(
    heads: &ReaderHeads<N>,
    seat: &mut WorkerSeat<N>,
    rider: Rider<N>,
    life: ItemId,
    place: usize,
)
    requires place { place ≡ head_place N.table.slots life.chunk }
    requires held { (h : TheHoldSheet) × (seat.old.hold ≡ Some h) × (h.life ≡ life) }
    requires idle { seat.old.sheet.hand ≡ Idle }
    requires own { rider.worker ≡ seat.old.sheet.worker }
    requires life { rider.life ≡ life }
    requires last { rider.number + 1 ≡ seat.old.sheet.accounts.accepted }
    ensures idle { seat.new.sheet.hand ≡ Idle }
    ensures hold { seat.new.hold ≡ seat.old.hold }
    ensures attempted { seat.new.sheet.accounts.attempted ≡ seat.old.sheet.accounts.attempted }
    ensures accepted { seat.new.sheet.accounts.accepted ≡ rider.number }
{
    heads.rider_back(seat, rider);
    heads.give_back_bump(seat, life, place);
    heads.unmark(seat, life, place);
}

// The ring has room for a bump, and numbers it.
fn put<N: Name>(rt: &impl Abort, sender: &mut Sender<N>, rider: Rider<N>, number: u64)
    requires next { rider.number ≡ length sender.old.sent }
    ensures more { length sender.new.sent ≡ length sender.old.sent + 1 }
    ensures ring { sender.new.ring ≡ sender.old.ring }
{
    match sender.offer(rider) {
        Ok(told) => expect(rt, "the number", &told, &number),
        Err(_) => panic!(rt; "there is room"),
    }
}

// The ring has no room for a bump, which comes back.
fn refuse<N: Name>(rt: &impl Abort, sender: &mut Sender<N>, rider: Rider<N>) -> Rider<N>
    requires next { rider.number ≡ length sender.old.sent }
    ensures back { result ≡ rider }
    ensures same { sender.new ≡ sender.old }
{
    match sender.offer(rider) {
        Ok(_) => panic!(rt; "there is no room"),
        Err(back) => back,
    }
}

// The bump with this number comes out.
fn take<N: Name>(rt: &impl Abort, receiver: &mut Receiver<N>, life: ItemId, number: u64) -> Rider<N>
    requires next { length receiver.old.received ≡ number }
    ensures number { result.number ≡ number }
    ensures more { length receiver.new.received ≡ number + 1 }
    ensures ring { receiver.new.ring ≡ receiver.old.ring }
{
    match receiver.take() {
        Some(rider) => {
            expect(rt, "the bump", &rider.life(), &life);
            rider
        }
        None => panic!(rt; "a bump waits"),
    }
}

// A bump of the item goes into the ring with this number, or, where there is none, finds no room in it.
fn offer<N: Name>(
    rt: &impl Abort,
    heads: &ReaderHeads<N>,
    seat: &mut WorkerSeat<N>,
    sender: &mut Sender<N>,
    life: ItemId,
    place: usize,
    number: Option<u64>,
)
    requires place { place ≡ head_place N.table.slots life.chunk }
    requires held { (h : TheHoldSheet) × (seat.old.hold ≡ Some h) × (h.life ≡ life) }
    requires idle { seat.old.sheet.hand ≡ Idle }
    requires attempts { seat.old.sheet.accounts.attempted < most_attempts }
    requires accepted { seat.old.sheet.accounts.accepted ≡ length sender.old.sent }
    ensures idle { seat.new.sheet.hand ≡ Idle }
    ensures hold { seat.new.hold ≡ seat.old.hold }
    ensures accepted { seat.new.sheet.accounts.accepted ≡ length sender.new.sent }
    ensures attempted { seat.new.sheet.accounts.attempted ≡ seat.old.sheet.accounts.attempted + 1 }
    ensures ring { sender.new.ring ≡ sender.old.ring }
{
    attempt(rt, heads, seat, life, place);
    let rider = send_off(rt, heads, seat, life, place);
    match number {
        Some(number) => put(rt, sender, rider, number),
        None => {
            let back = refuse(rt, sender, rider);
            expect(rt, "what comes back", &back.life(), &life);
            give_up(heads, seat, back, life, place);
        }
    }
}

// So many rounds: a bump goes into the ring, a second one finds no room, and the first one comes out. Between the two
// the item's ACTIVE is cleared, by a pull to WARM and one back.
fn offer_each<N: Name>(
    rt: &impl Abort,
    heads: &ReaderHeads<N>,
    book: &mut Book<N>,
    seat: &mut WorkerSeat<N>,
    sender: &mut Sender<N>,
    receiver: &mut Receiver<N>,
    life: ItemId,
    place: usize,
)
    requires place { place ≡ head_place N.table.slots life.chunk }
    requires held { (h : TheHoldSheet) × (seat.old.hold ≡ Some h) × (h.life ≡ life) }
    requires idle { seat.old.sheet.hand ≡ Idle }
    requires none { seat.old.sheet.accounts ≡ no_accounts }
    requires empty { (sender.old.sent ≡ []) × (receiver.old.received ≡ []) }
    ensures idle { seat.new.sheet.hand ≡ Idle }
    ensures hold { seat.new.hold ≡ seat.old.hold }
    ensures rings { (sender.new.ring ≡ sender.old.ring) × (receiver.new.ring ≡ receiver.old.ring) }
{
    for number in 0..ROUNDS {
        offer(rt, heads, seat, sender, life, place, Some(number));
        pull_round(rt, book, life);
        offer(rt, heads, seat, sender, life, place, None);
        take(rt, receiver, life, number);
    }
}

// The ring is closed: it accepted all bumps, and has nothing left.
fn close<N: Name>(rt: &impl Abort, sender: Sender<N>, receiver: Receiver<N>)
    requires ring { receiver.ring ≡ sender.ring }
{
    let mut receiver = receiver;
    let mut closed = sender.close();
    expect(rt, "accepted bumps", &closed.accepted(), &ROUNDS);
    expect(rt, "what is left", &receiver.rest(&mut closed), &Some(0));
}

// The only item is held by the only worker through all rounds, and then given back.
fn hold_and_offer<N: Name>(
    rt: &impl Abort,
    heads: &ReaderHeads<N>,
    book: &mut Book<N>,
    seat: &mut WorkerSeat<N>,
    sender: &mut Sender<N>,
    receiver: &mut Receiver<N>,
)
    requires new { seat.old ≡ worker_seen (worker_sheet 0) }
    requires some { all_chunks heads.now ≡ 1 }
    requires empty { (sender.old.sent ≡ []) × (receiver.old.received ≡ []) }
    ensures rings { (sender.new.ring ≡ sender.old.ring) × (receiver.new.ring ≡ receiver.old.ring) }
{
    let item = link_cold(rt, book, 7, 1);
    assert!(rt; item.chunk == 0);
    let mut hold = heads.take(seat, item).expect(rt, "it is linked");
    heads.hold_in(seat, &mut hold);
    offer_each(rt, heads, book, seat, sender, receiver, item, hold.place());
    heads.hold_out(seat, &mut hold);
    heads.give_back(hold);
}

fn offer_in<N: Name>(
    rt: &impl Abort,
    alloc: Global,
    blank: Blank,
    config: &Config,
) -> Result<(), AllocError>
    requires name { blank.table ≡ N.table }
    requires config { blank.config ≡ config.now }
    requires small { (config.now.workers ≡ 1) × (config.now.classes ≡ CLASS ∷ []) }
{
    let HeadParts {
        heads,
        mut classes,
        mut workers,
        lanes: _,
    } = Heads::<N>::new(alloc, blank, config)?;
    let class = classes.pop().expect(rt, "there is a class");
    let mut book = Book::new(alloc, class, 0, CLASS, 1)?;
    let mut seat = workers.pop().expect(rt, "there is a worker");
    let (mut sender, mut receiver) = ring(alloc, 1)?;
    hold_and_offer(rt, &heads, &mut book, &mut seat, &mut sender, &mut receiver);
    close(rt, sender, receiver);
    Ok(())
}

// None where memory is refused.
fn config_of(alloc: Global) -> Option<Config>
    ensures small { IfSome result (λ c. (c.workers ≡ 1) × (c.classes ≡ CLASS ∷ [])) }
{
    Config::new(1, 1, 65_535, 1, vec![in alloc; CLASS].ok()?).ok()
}

#[test]
fn a_full_ring_hands_a_bump_back(rt: HostRuntime) -> Result<(), Fail> {
    let alloc = rt.alloc();
    let config = config_of(alloc).ok_or("no memory")?;
    let blank = Blank::new(alloc, &config)?;
    offer_in::<Brand>(&rt, alloc, blank, &config)?;
    Ok(())
}
