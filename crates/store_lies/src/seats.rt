//! Seats of a class and of a lane, as their callers make steps by them.
ghost use Rattle.bump_heads.specs.Applying.{FoundOfBump, IsShown, MayEndAs, NamesNoBumpTwice, TellsMoves, life_aboard, stage_of};
ghost use Rattle.bump_heads.specs.Linking.{class_after_open_life, generation_of_chunk, place_of_chunk};
ghost use Rattle.bump_rules.specs.Labels.{label_of_life};
ghost use Rattle.bump_rules.specs.Lawful.{IsUsed};
ghost use Rattle.bump_rules.specs.Lives.{life};
ghost use Rattle.bump_rules.specs.declared.items.Head.{Head as TheHead};
ghost use Rattle.bump_rules.specs.declared.lanes.LaneStage.TheVariants.{Empty as IsEmpty};
ghost use Rattle.bump_rules.specs.declared.places.Place.TheVariants.{Dying, Unused};
ghost use Rattle.bump_steps.specs.Applications.{class_at_rest, lane_after_alight};
ghost use Rattle.bump_steps.specs.Lives.{class_after_put_label, class_after_put_word, class_after_sweep_or_load};
ghost use Rattle.bump_steps.specs.Places.{head_place};
ghost use Rattle.bump_steps.specs.Riders.{applied_by, bump_of_ride, lane_after_board};
ghost use Rattle.bump_steps.specs.Sights.{class_after_see_label, class_after_see_word};
ghost use Rattle.bump_steps.specs.Views.{bump_aboard, last_label, last_word, last_words, of_word, owns};
ghost use Rattle.bump_steps.specs.declared.views.LaneSheet.{LaneSheet as TheLaneSheet};
ghost use Rattle.bump_word.specs.Words.{Fits, word_of};
ghost use Rattle.std.specs.Prelude.{◌≡◌, ◌+◌, ◌<◌, suc, length, true, false, None, Some, IsSome, IfSome, option_map};

use bump_heads::{Bump, ClassSeat, Head, ItemId, LaneSeat, Name, Outcome, Rider, RowLaw, Start};

/// Stores the label of a free chunk.
pub fn put_label<N: Name, L: RowLaw>(
    seat: &mut ClassSeat<N, L>,
    chunk: u32,
    place: usize,
    label: u64,
)
    requires alone { seat.old.lane ≡ None }
    requires own { owns chunk seat.old.sheet ≡ true }
    requires place { place ≡ head_place N.table.slots chunk }
    requires unused { place_of_chunk seat.old.sheet chunk ≡ Unused }
    ensures labelled { seat.new ≡ record seat.old { sheet = class_after_put_label chunk label seat.old.sheet } }
{
    seat.put_label(chunk, place, label);
}

/// Stores the first further word of a free chunk, and begins its next life.
pub fn begin<N: Name, L: RowLaw>(
    seat: &mut ClassSeat<N, L>,
    chunk: u32,
    place: usize,
    start: Start,
    word: u64,
) -> ItemId
    requires alone { seat.old.lane ≡ None }
    requires own { owns chunk seat.old.sheet ≡ true }
    requires place { place ≡ head_place N.table.slots chunk }
    requires unused { place_of_chunk seat.old.sheet chunk ≡ Unused }
    requires some { 0 < N.table.slots }
    requires law { L.law (last_words (class_after_put_word chunk 0 word seat.old.sheet) chunk) }
    ensures next { result ≡ life chunk (generation_of_chunk seat.old.sheet chunk + 1) }
    ensures opened { seat.new ≡ record seat.old {
      sheet = class_after_open_life start result (class_after_put_word chunk 0 word seat.old.sheet);
    } }
{
    seat.put_word(chunk, place, 0, word);
    seat.open_life_in(chunk, place, start)
}

/// The label of a chunk.
pub fn see_label<N: Name, L: RowLaw>(seat: &mut ClassSeat<N, L>, chunk: u32) -> u64
    requires own { owns chunk seat.old.sheet ≡ true }
    ensures seen { seat.new ≡ record seat.old { sheet = class_after_see_label chunk result seat.old.sheet } }
    ensures stored { result ≡ last_label seat.old.sheet chunk }
    ensures life { IsUsed (place_of_chunk seat.old.sheet chunk)
        → label_of_life (life chunk (generation_of_chunk seat.old.sheet chunk)) 0 seat.old.sheet.labels ≡ Some result }
{
    seat.see_label(chunk)
}

/// A further word of a chunk.
pub fn see_word<N: Name, L: RowLaw>(seat: &mut ClassSeat<N, L>, chunk: u32, index: u32) -> u64
    requires own { owns chunk seat.old.sheet ≡ true }
    requires index { index < N.table.slots }
    ensures seen { seat.new ≡ record seat.old { sheet = class_after_see_word chunk result seat.old.sheet } }
    ensures stored { result ≡ last_word (suc index) seat.old.sheet chunk }
    ensures life { IsUsed (place_of_chunk seat.old.sheet chunk)
        → label_of_life (life chunk (generation_of_chunk seat.old.sheet chunk)) 0
        (of_word index seat.old.sheet.words) ≡ Some result }
{
    seat.see_word(chunk, index)
}

/// Looks whether a chunk of DYING is held.
pub fn seen_unheld<N: Name, L: RowLaw>(seat: &mut ClassSeat<N, L>, chunk: u32, place: usize) -> Head
    requires alone { seat.old.lane ≡ None }
    requires own { owns chunk seat.old.sheet ≡ true }
    requires place { place ≡ head_place N.table.slots chunk }
    requires dying { place_of_chunk seat.old.sheet chunk ≡ Dying }
    ensures seen { seat.new ≡ record seat.old {
      sheet = class_after_sweep_or_load chunk result.refs
          (word_of result) seat.old.sheet;
    } }
    ensures fits { Fits result }
    ensures unlinked { result.linked ≡ false }
    ensures generation { result.generation ≡ generation_of_chunk seat.old.sheet chunk }
{
    seat.seen_unheld(chunk, place)
}

/// Ends the bump aboard.
pub fn alight<N: Name, L: RowLaw>(
    seat: &mut ClassSeat<N, L>,
    lane: &mut LaneSeat<N, L>,
    bump: Bump,
    place: usize,
    outcome: Outcome,
) -> Head
    requires hollow { lane.old ≡ None }
    requires place { place ≡ head_place N.table.slots bump.life.chunk }
    requires ends { (l : TheLaneSheet) × (h : TheHead) × MayEndAs seat.old l bump h outcome }
    ensures class { seat.new ≡ record { sheet = class_at_rest seat.old.sheet; lane = None } }
    ensures lane { lane.new ≡ option_map (lane_after_alight outcome (life_aboard seat.old.lane).chunk
        (word_of result)) seat.old.lane }
    ensures found { FoundOfBump seat.old.sheet (life_aboard seat.old.lane) result }
    ensures fits { Fits result }
    ensures entry { IfSome seat.old.lane (λ l. IfSome (bump_aboard l.stage)
        (λ b. IsShown seat.new.sheet l b outcome)) }
    ensures once { NamesNoBumpTwice seat.new.sheet }
    ensures moves { IfSome lane.new (TellsMoves seat.new.sheet) }
{
    seat.alight(lane, bump, place, outcome)
}

/// A bump goes aboard a lane.
pub fn board<N: Name, L: RowLaw>(lane: &mut LaneSeat<N, L>, rider: Rider<N>)
    requires whole { IsSome lane.old }
    requires empty { stage_of lane.old ≡ IsEmpty }
    requires next { rider.number ≡ length (applied_by lane.old) }
    ensures boarded { lane.new ≡ option_map (lane_after_board (bump_of_ride rider)) lane.old }
{
    lane.board(rider);
}
