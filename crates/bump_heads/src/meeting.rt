//! A hold meets its class, and a class a lane, and the store's workers.
ghost use Rattle.std.specs.Prelude.{◌≡◌, ℕ, suc, Some, None, IsSome, IfSome, true};
ghost use Rattle.bump_rules.specs.Labels.{label_of_life};
ghost use Rattle.bump_rules.specs.Lawful.{IsUsed};
ghost use Rattle.bump_steps.specs.Views.{owns, standing, last_label, last_word, of_word};
ghost use Rattle.bump_readers.specs.Seats.{row_in};
ghost use Rattle.bump_steps.specs.References.{label_of_row, word_of_row};
ghost use Rattle.bump_heads.specs.Applying.{NamesNoBumpTwice, TellsMoves, NamesWorkersBelow};
ghost use Rattle.bump_rules.specs.Totals.{total};
ghost use Rattle.bump_steps.specs.Meetings.{class_after_meet};

use crate::seats::{ClassSeat, LaneSeat};
use atomic_table::Badge;
use bump_readers::{Hold, Name, ReaderHeads};
use bump_steps::RowLaw;

impl<N: Name, L: RowLaw> ClassSeat<N, L> {
    /// Shows a hold and its class each other: joins the hold's sheet to the class's seat, loads the label word, and
    /// splits the hold off again. The hold must be whole, and its chunk of this class. Answers the label: it is the
    /// one that the class stored for the hold's life before that life began, and the first word of the hold's row. So is
    /// each further word of the row. The chunk isn't free, and stands in the hold's life.
    pub fn meet(&mut self, hold: &mut Hold<N>) -> u64
        requires whole { IsSome hold.old.sheet }
        requires own { owns hold.old.life.chunk self.old.sheet ≡ true }
        ensures class { self.new ≡ self.old }
        ensures hold { hold.new ≡ hold.old }
        ensures label { result ≡ last_label self.old.sheet hold.old.life.chunk }
        ensures stored { label_of_life hold.old.life 0 self.old.sheet.labels ≡ Some result }
        ensures read { result ≡ label_of_row (row_in hold.old.sheet) }
        ensures words { (j : ℕ) → label_of_life hold.old.life 0 (of_word j self.old.sheet.words) ≡ Some
            (word_of_row (row_in hold.old.sheet) j) }
        ensures last { (j : ℕ) → last_word (suc j) self.old.sheet hold.old.life.chunk ≡ word_of_row
            (row_in hold.old.sheet) j }
        ensures in_use { IsUsed (standing self.old.sheet hold.old.life.chunk).0
            × ((standing self.old.sheet hold.old.life.chunk).1 ≡ hold.old.life.generation) }
    {
        self.heads.words().join(&mut self.seat, hold.seat_out());
        let label = self.heads.words().meet(&mut self.seat, hold.life().chunk);
        hold.seat_in(self.heads.words().part_holds(&mut self.seat));
        label
    }

    /// Shows a class and a lane each other: joins the lane's sheet to the class's seat, makes one load, which the class
    /// notes, and splits the lane off again. The lane must be whole, and no other one joined. From then on it is known
    /// that the class's history names no bump twice, and that the moves that it has for bumps of the lane's worker are
    /// those that the lane tells of items of the class. Nothing else changes.
    pub fn meet_lane(&mut self, lane: &mut LaneSeat<N, L>)
        requires alone { self.old.lane ≡ None }
        requires whole { IsSome lane.old }
        ensures class { self.new ≡ record self.old { sheet = class_after_meet self.old.sheet } }
        ensures lane { lane.new ≡ lane.old }
        ensures once { NamesNoBumpTwice self.old.sheet }
        ensures moves { IfSome lane.old (TellsMoves self.old.sheet) }
    {
        let seat = std::mem::replace(&mut lane.badge, Badge::blank()).into_seat();
        let words = self.heads.words();
        words.join(&mut self.seat, seat);
        words.meet_lane(&mut self.seat);
        lane.badge = words.part_lanes(&mut self.seat).into_badge();
    }

    /// Shows a class and the workers of its store each other, by one load, which the class notes. No lane is joined. From
    /// then on it is known that the class's history names no bump twice, and that each move for a bump that it has is of
    /// one of these workers. Nothing else changes.
    pub fn meet_workers(&mut self, heads: &ReaderHeads<N, L>)
        requires alone { self.old.lane ≡ None }
        ensures class { self.new ≡ record self.old { sheet = class_after_meet self.old.sheet } }
        ensures once { NamesNoBumpTwice self.old.sheet }
        ensures workers { NamesWorkersBelow heads.now.workers self.old.sheet }
    {
        heads.words().meet_workers(&mut self.seat);
    }
}
