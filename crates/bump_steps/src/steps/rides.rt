//! The steps by which a worker takes the reference of a bump, sends it off, has it back and drops it.
ghost use Rattle.std.specs.Prelude.{ℕ, ◌≡◌, ◌<◌, [], None, List, option_map};
ghost use Rattle.bump_rules.specs.declared.items.Head.{Head as TheHead};
ghost use Rattle.bump_rules.specs.declared.items.ItemId.{ItemId as TheItemId};
ghost use Rattle.bump_rules.specs.declared.hands.Hand.TheVariants.{Idle, Trying, InHand};
ghost use Rattle.bump_rules.specs.Lives.{life as life_in};
ghost use Rattle.bump_steps.specs.declared.views.Ride.{Ride as TheRide};
ghost use Rattle.bump_steps.specs.Places.{head_place};
ghost use Rattle.bump_steps.specs.Seats.{IsSeated, StaysSeated};
ghost use Rattle.bump_steps.specs.Words.{words_id, config_of};
ghost use Rattle.bump_steps.specs.Rule.{blank};
ghost use Rattle.bump_steps.specs.Riders.{ride_me};
ghost use Rattle.bump_steps.specs.Marks.{on_worker};
ghost use Rattle.bump_steps.specs.Tries.{RideFound, drop_of, worker_after_attempt};
ghost use Rattle.bump_steps.specs.Rides.{dropped_as, load_to_ride_tells, try_to_ride_tells, release_tells, IsOn};
ghost use Rattle.bump_steps.specs.Rides.{HasRoomForReference, without_ride, ride_only, return_both};

use crate::decoding::head_of;
use crate::laws::RowLaw;
use crate::refusals::RideRefusal;
use crate::views::{Empty, View};
use crate::words::{Seat, Words};
use atomic_table::{Join, Play, Split};
use bump_rules::ItemId;
use bump_word::Count;
use bump_word::laws::ONE_REFERENCE;
use std::marker::{Brand, PhantomData};

/// Tells a step what no view has: the limit, the life, and how many exchanges have failed if this step does.
pub trait Attempt {
    ghost limit: { ℕ };

    ghost failed: { ℕ };

    ghost life: { TheItemId };
}

impl Attempt for Brand {
    ghost limit = { 0 };

    ghost failed = { 0 };

    ghost life = { life_in 0 0 };
}

pub struct LoadToRide<W: Attempt> {
    of: PhantomData<W>,
}

impl<W: Attempt> Play<Empty, View> for LoadToRide<W> {
    ghost then = { λ _ m r n. load_to_ride_tells W.limit W.failed W.life m r n };
}

pub struct Reserve<W: Attempt> {
    of: PhantomData<W>,
}

impl<W: Attempt> Play<Empty, View> for Reserve<W> {
    ghost then = { λ s m r n. try_to_ride_tells W.limit W.failed W.life s.first m r n };
}

pub struct GiveBackBump<W: Attempt> {
    of: PhantomData<W>,
}

impl<W: Attempt> Play<Empty, View> for GiveBackBump<W> {
    ghost then = { λ _ m r n. release_tells W.life m r n };
}

pub struct RideOut;

impl Split<View> for RideOut {
    ghost left = { without_ride };

    ghost right = { ride_only };
}

pub struct RideBack;

impl Join<View> for RideBack {
    ghost both = { return_both };

    ghost spent = { blank };
}

impl<L: RowLaw> Words<L> {
    fn load_to_ride_by<W: Attempt>(
        &self,
        seat: &mut Seat,
        limit: Count,
        life: ItemId,
        place: usize,
    ) -> u64
        requires seat { IsSeated (words_id self.now) seat.old life.chunk }
        requires place { place ≡ head_place (words_id self.now).slots life.chunk }
        requires attempt { (W.limit ≡ limit) × (W.failed ≡ 0) × (W.life ≡ life) }
        requires limit { limit ≡ (config_of self.now).refs_limit }
        requires trying { IsOn (Trying life) life seat.old.me.0 }
        ensures same { StaysSeated seat.old seat.new }
        ensures told { load_to_ride_tells limit 0 life seat.old.me result seat.new.me }
    {
        self.table
            .shared
            .load::<LoadToRide<W>>(seat, self.head_by(place, life.chunk))
    }

    /// A load, of a worker that looks for room for its bump's reference.
    pub fn load_to_ride(&self, seat: &mut Seat, limit: Count, life: ItemId, place: usize) -> u64
        requires seat { IsSeated (words_id self.now) seat.old life.chunk }
        requires place { place ≡ head_place (words_id self.now).slots life.chunk }
        requires limit { limit ≡ (config_of self.now).refs_limit }
        requires trying { IsOn (Trying life) life seat.old.me.0 }
        ensures same { StaysSeated seat.old seat.new }
        ensures told { load_to_ride_tells limit 0 life seat.old.me result seat.new.me }
    {
        self.load_to_ride_by::<Brand>(seat, limit, life, place)
    }

    fn try_to_ride_by<W: Attempt>(
        &self,
        seat: &mut Seat,
        limit: Count,
        life: ItemId,
        place: usize,
        seen: u64,
        failed: u32,
    ) -> u64
        requires seat { IsSeated (words_id self.now) seat.old life.chunk }
        requires place { place ≡ head_place (words_id self.now).slots life.chunk }
        requires attempt { (W.limit ≡ limit) × (W.failed ≡ failed) × (W.life ≡ life) }
        requires limit { limit ≡ (config_of self.now).refs_limit }
        requires trying { IsOn (Trying life) life seat.old.me.0 }
        requires room { HasRoomForReference limit seen }
        ensures same { StaysSeated seat.old seat.new }
        ensures told { try_to_ride_tells limit failed life seen seat.old.me result seat.new.me }
    {
        self.table.shared.compare_exchange::<Reserve<W>>(
            seat,
            self.head_by(place, life.chunk),
            seen,
            seen + ONE_REFERENCE,
        )
    }

    /// An exchange that takes the bump's reference. Where it fails it is noted as one that failed, and `failed`
    /// exchanges have failed with it.
    pub fn try_to_ride(
        &self,
        seat: &mut Seat,
        limit: Count,
        life: ItemId,
        place: usize,
        seen: u64,
        failed: u32,
    ) -> u64
        requires seat { IsSeated (words_id self.now) seat.old life.chunk }
        requires place { place ≡ head_place (words_id self.now).slots life.chunk }
        requires limit { limit ≡ (config_of self.now).refs_limit }
        requires trying { IsOn (Trying life) life seat.old.me.0 }
        requires room { HasRoomForReference limit seen }
        ensures same { StaysSeated seat.old seat.new }
        ensures told { try_to_ride_tells limit failed life seen seat.old.me result seat.new.me }
    {
        self.try_to_ride_by::<Brand>(seat, limit, life, place, seen, failed)
    }

    /// One load, and at most 8 exchanges. The limit is read anew for each word, as its comparison's operand.
    #[inline(always)]
    pub fn ride(
        &self,
        seat: &mut Seat,
        limit: &Count,
        life: ItemId,
        place: usize,
    ) -> Option<RideRefusal>
        requires seat { IsSeated (words_id self.now) seat.old life.chunk }
        requires place { place ≡ head_place (words_id self.now).slots life.chunk }
        requires limit { limit.now ≡ (config_of self.now).refs_limit }
        requires trying { IsOn (Trying life) life seat.old.me.0 }
        ensures same { StaysSeated seat.old seat.new }
        ensures told { (first : TheHead) × (more : List TheHead) × RideFound limit.now life first more
            × (seat.new.me ≡ (on_worker (worker_after_attempt limit.now life first more) seat.old.me.0, seat.old.me.1))
            × (option_map dropped_as result ≡ drop_of limit.now first more) }
    {
        let mut word = self.load_to_ride(seat, *limit, life, place);
        for failed in 0..8u32 {
            let head = head_of(word);
            if head.refs as Count >= *limit {
                return Some(RideRefusal::RefsFull);
            }
            let found = self.try_to_ride(seat, *limit, life, place, word, failed + 1);
            if found == word {
                return None;
            }
            word = found;
        }
        Some(RideRefusal::Busy)
    }

    fn give_back_bump_by<W: Attempt>(&self, seat: &mut Seat, life: ItemId, place: usize) -> u64
        requires seat { IsSeated (words_id self.now) seat.old life.chunk }
        requires place { place ≡ head_place (words_id self.now).slots life.chunk }
        requires attempt { W.life ≡ life }
        requires in_hand { IsOn (InHand life) life seat.old.me.0 }
        ensures same { StaysSeated seat.old seat.new }
        ensures told { release_tells life seat.old.me result seat.new.me }
    {
        self.table
            .shared
            .fetch_sub::<GiveBackBump<W>>(seat, self.head_by(place, life.chunk), ONE_REFERENCE)
    }

    /// The subtraction that gives the reference of a bump back which found no room: the same step as `give_back`,
    /// noted by the worker.
    pub fn give_back_bump(&self, seat: &mut Seat, life: ItemId, place: usize) -> u64
        requires seat { IsSeated (words_id self.now) seat.old life.chunk }
        requires place { place ≡ head_place (words_id self.now).slots life.chunk }
        requires in_hand { IsOn (InHand life) life seat.old.me.0 }
        ensures same { StaysSeated seat.old seat.new }
        ensures told { release_tells life seat.old.me result seat.new.me }
    {
        self.give_back_bump_by::<Brand>(seat, life, place)
    }

    /// The reference in the worker's hand leaves it.
    pub fn part_ride(&self, seat: &mut Seat) -> Seat
        requires { (seat.old.table_id ≡ words_id self.now) × (0 < (words_id self.now).words) }
        ensures same { (seat.new.table_id ≡ seat.old.table_id) × (seat.new.id ≡ seat.old.id)
            × (result.table_id ≡ seat.old.table_id) }
        ensures sheets { (seat.new.me ≡ (without_ride seat.old.me.0, seat.old.me.1))
            × (result.me ≡ (ride_only seat.old.me.0, [])) }
    {
        self.table.shared.split_seat::<RideOut>(seat)
    }

    /// A rider's seat joins its worker's, which has no bump under way.
    pub fn rider_back(&self, seat: &mut Seat, rider: Seat)
        requires seats { (seat.old.table_id ≡ words_id self.now) × (rider.table_id ≡ words_id self.now)
            × (0 < (words_id self.now).words) }
        requires rider { (r : TheRide) × (rider.me ≡ ride_me r) × IsOn Idle r.life seat.old.me.0 }
        ensures same { StaysSeated seat.old seat.new }
        ensures back { seat.new.me ≡ (return_both seat.old.me.0 rider.me.0, seat.old.me.1) }
    {
        self.table.shared.join_seat::<RideBack>(seat, rider);
    }
}
