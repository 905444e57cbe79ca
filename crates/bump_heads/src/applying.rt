//! The steps under a class's lock that change no list but by a move: those of a link or a pull, and those of an
//! application, for which a lane's seat joins the class's, which makes the steps, and is split off again.
ghost use Rattle.std.specs.Prelude.{◌≡◌, None, Some, IfSome, option_map, true};
ghost use Rattle.bump_rules.specs.declared.items.Head.{Head as TheHead};
ghost use Rattle.bump_rules.specs.History.{place_of};
ghost use Rattle.bump_rules.specs.Lawful.{Shows};
ghost use Rattle.bump_word.specs.Words.{word_of, Fits};
ghost use Rattle.bump_steps.specs.declared.views.LaneSheet.{LaneSheet as TheLaneSheet};
ghost use Rattle.bump_steps.specs.Places.{head_place};
ghost use Rattle.bump_steps.specs.Views.{bump_aboard, owns, standing};
ghost use Rattle.bump_steps.specs.Applications.{lane_after_alight, lane_after_try, class_at_rest};
ghost use Rattle.bump_heads.specs.Seats.{aboard_lane};
ghost use Rattle.bump_heads.specs.Applying.{carried_by, life_aboard, MayClearActive, MayPutTime};
ghost use Rattle.bump_heads.specs.Applying.{MayChangeSegment, IsShown, MayEndAs, seat_after_clear_active};
ghost use Rattle.bump_heads.specs.Applying.{seat_after_put_time, seat_after_move, FoundOfBump, NamesNoBumpTwice};
ghost use Rattle.bump_heads.specs.Applying.{TellsMoves};

use crate::seats::{ClassSeat, LaneSeat};
use atomic_table::Badge;
use bump_readers::Name;
use bump_rules::{Bump, Head, Outcome, Segment};
use bump_steps::{RowLaw, head_of};

impl<N: Name, L: RowLaw> ClassSeat<N, L> {
    /// Joins the lane's seat, and looks at the head of the item of the bump that it carries, which is this one, and
    /// whose chunk is the class's: the first step of memcached's `lru_bump_async` drain for a bump. No other lane may
    /// be joined. The lane is hollow from then on, until `alight`. Answers the head that was found.
    #[inline(always)]
    pub fn try_front(&mut self, lane: &mut LaneSeat<N, L>, bump: Bump, place: usize) -> Head
        requires alone { self.old.lane ≡ None }
        requires carries { carried_by lane.old ≡ Some bump }
        requires own { owns (life_aboard lane.old).chunk self.old.sheet ≡ true }
        requires place { place ≡ head_place N.table.slots bump.life.chunk }
        ensures hollow { lane.new ≡ None }
        ensures tried { self.new ≡ record self.old {
          lane = option_map
              (lane_after_try (life_aboard lane.old).chunk (word_of result)) lane.old;
        } }
        ensures found { FoundOfBump self.old.sheet (life_aboard lane.old) result }
        ensures fits { Fits result }

        // No bump is named twice by the history of the class, and its moves for bumps of this lane's worker are those
        // that the lane tells of items of the class.
        ensures once { NamesNoBumpTwice self.new.sheet }
        ensures moves { IfSome self.new.lane (TellsMoves self.new.sheet) }
    {
        let seat = std::mem::replace(&mut lane.badge, Badge::blank()).into_seat();
        let words = self.heads.words();
        words.join(&mut self.seat, seat);
        head_of(words.try_front(&mut self.seat, bump.life.chunk, place))
    }

    /// Clears ACTIVE of the chunk, which is the class's, by one and (memcached's `ITEM_ACTIVE` in `lru_pull_tail`).
    /// Without a lane it is a pull's step, and the chunk stands in HOT, WARM, COLD or TEMP; with a lane joined it is
    /// made for its bump, which is of this chunk, in COLD, and at whose head the lane looked. Answers the head that was
    /// found.
    #[inline(always)]
    pub fn clear_active(&mut self, chunk: u32, place: usize) -> Head
        requires own { owns chunk self.old.sheet ≡ true }
        requires place { place ≡ head_place N.table.slots chunk }
        requires may { MayClearActive chunk (standing self.old.sheet chunk).0 self.old.lane }
        ensures cleared { self.new ≡ seat_after_clear_active chunk result self.old }
        ensures shows { Shows result (standing self.old.sheet chunk).0 }
        ensures generation { result.generation ≡ (standing self.old.sheet chunk).1 }
        ensures life { IfSome (aboard_lane self.old.lane) (λ b. b.life.generation ≡ result.generation) }
        ensures fits { Fits result }
    {
        let word = self
            .heads
            .words()
            .clear_active(&mut self.seat, chunk, place);
        head_of(word)
    }

    /// Stores the time of the chunk, which is the class's (memcached's `it->time` under the lock). Without a lane it
    /// is a link's step, and the chunk stands in UNUSED; with a lane joined it is made for its bump, which is of this
    /// chunk, at whose head the lane looked, and whose item is linked.
    pub fn put_time(&mut self, chunk: u32, place: usize, now: u64)
        requires own { owns chunk self.old.sheet ≡ true }
        requires place { place ≡ head_place N.table.slots chunk }
        requires may { MayPutTime chunk (standing self.old.sheet chunk).0 self.old.lane }
        ensures timed { self.new ≡ seat_after_put_time chunk now self.old }
    {
        self.heads
            .words()
            .put_time(&mut self.seat, chunk, place, now);
    }

    /// Moves the chunk, which is the class's, from the segment in whose list it stands to another one, or to the
    /// front of its own, by one exclusive or (memcached's `it->slabs_clsid` with its LRU bits). Without a lane it is
    /// a pull's step; with a lane joined it is made for its bump, which is of this chunk, from COLD to WARM, after
    /// ACTIVE was found and cleared. Answers the head that was found.
    #[inline(always)]
    pub fn change_segment(&mut self, chunk: u32, place: usize, from: Segment, to: Segment) -> Head
        requires own { owns chunk self.old.sheet ≡ true }
        requires place { place ≡ head_place N.table.slots chunk }
        requires stands { (standing self.old.sheet chunk).0 ≡ place_of from }
        requires may { MayChangeSegment chunk from to self.old.lane }
        ensures moved { self.new ≡ seat_after_move chunk from to result self.old }
        ensures shows { Shows result (place_of from) }
        ensures generation { result.generation ≡ (standing self.old.sheet chunk).1 }
        ensures life { IfSome (aboard_lane self.old.lane) (λ b. b.life.generation ≡ result.generation) }
        ensures fits { Fits result }
    {
        let word = self
            .heads
            .words()
            .change_segment(&mut self.seat, chunk, place, from, to);
        head_of(word)
    }

    /// Ends the bump aboard, which is this one: gives back its reference, writes its entry, and gives the lane, which
    /// is hollow, its seat back. Answers the head that was found. By the head that the lane's look found its outcome
    /// is
    /// 1. Gone, where the item wasn't linked;
    /// 2. TimeOnly, where it was linked, but not in COLD;
    /// 3. TimeOnly, where ACTIVE was cleared and hadn't been set;
    /// 4. Moved, where it had been set, and the item was moved.
    ///
    /// It is called in these four cases alone.
    #[inline(always)]
    pub fn alight(
        &mut self,
        lane: &mut LaneSeat<N, L>,
        bump: Bump,
        place: usize,
        outcome: Outcome,
    ) -> Head
        requires hollow { lane.old ≡ None }
        requires place { place ≡ head_place N.table.slots bump.life.chunk }
        requires ends { (l : TheLaneSheet) × (h : TheHead) × MayEndAs self.old l bump h outcome }
        ensures class { self.new ≡ record { sheet = class_at_rest self.old.sheet; lane = None } }
        ensures lane { lane.new ≡ option_map (lane_after_alight outcome (life_aboard self.old.lane).chunk
            (word_of result)) self.old.lane }
        ensures found { FoundOfBump self.old.sheet (life_aboard self.old.lane) result }
        ensures fits { Fits result }

        // The entry that was written is true.
        ensures entry { IfSome self.old.lane (λ l. IfSome (bump_aboard l.stage)
            (λ b. IsShown self.new.sheet l b outcome)) }

        // No bump is named twice by the history of the class, and its moves for bumps of this lane's worker are those
        // that entries of the lane tell of items of the class.
        ensures once { NamesNoBumpTwice self.new.sheet }
        ensures moves { IfSome lane.new (TellsMoves self.new.sheet) }
    {
        let words = self.heads.words();
        let word = words.alight(&mut self.seat, bump.life.chunk, place, outcome);
        let sheet = words.part_lanes(&mut self.seat);
        lane.badge = sheet.into_badge();
        head_of(word)
    }
}
