//! How items of a Shelf went from list to list.
ghost use Rattle.std.specs.Prelude.{◌≡◌, None, Some};
ghost use Rattle.bump_rules.specs.Places.{first_segment, place_of};
ghost use Rattle.bump_rules.specs.declared.places.Place.TheVariants.{Cold, Dying, Hot, Temp, Unused, Warm};
ghost use Rattle.cache_lists.specs.Flows.{way_to, way_of_applied};
ghost use Rattle.cache_lists.specs.Counts.{noted, no_flow};

use bump_rules::{Applied, Segment, Start};

/// How often items went from list to list since the Shelf was made. Each count stops at 2^64 - 1.
#[derive(Clone, Copy, Debug, PartialEq, Eq)]
pub struct Flow {
    /// Items that were linked in HOT.
    pub linked: u64,

    /// Items that were linked in TEMP.
    pub linked_temp: u64,

    /// From HOT to WARM, rescued by ACTIVE.
    pub hot_to_warm: u64,

    /// From HOT to COLD.
    pub hot_to_cold: u64,

    /// From WARM to its front again, by ACTIVE.
    pub warm_to_warm: u64,

    /// From WARM to COLD.
    pub warm_to_cold: u64,

    /// From COLD to WARM, by a bump.
    pub cold_to_warm: u64,

    /// Items that ended in HOT.
    pub ended_hot: u64,

    /// Items that ended in WARM.
    pub ended_warm: u64,

    /// Items that ended in COLD.
    pub ended_cold: u64,

    /// Items that ended in TEMP.
    pub ended_temp: u64,
}

impl Flow {
    /// Nothing went anywhere yet.
    pub fn new() -> Flow
        ensures { result ≡ no_flow }
    {
        Flow {
            linked: 0,
            linked_temp: 0,
            hot_to_warm: 0,
            hot_to_cold: 0,
            warm_to_warm: 0,
            warm_to_cold: 0,
            cold_to_warm: 0,
            ended_hot: 0,
            ended_warm: 0,
            ended_cold: 0,
            ended_temp: 0,
        }
    }

    // An item was linked, where this says.
    pub(crate) fn note_link(&mut self, start: Start)
        ensures { self.new ≡ noted (Some (Unused, place_of (first_segment start))) self.old }
    {
        match start {
            Start::Hot => self.linked = self.linked.saturating_add(1),
            Start::Temp => self.linked_temp = self.linked_temp.saturating_add(1),
        }
    }

    // An item of HOT, WARM or COLD went from there to the front of another list, or of the same, if anywhere.
    pub(crate) fn note_move(&mut self, from: Segment, to: Option<Segment>)
        ensures { self.new ≡ noted (way_to from to) self.old }
    {
        match (from, to) {
            (Segment::Hot, Some(Segment::Warm)) => {
                self.hot_to_warm = self.hot_to_warm.saturating_add(1);
            }
            (Segment::Hot, Some(Segment::Cold)) => {
                self.hot_to_cold = self.hot_to_cold.saturating_add(1);
            }
            (Segment::Warm, Some(Segment::Warm)) => {
                self.warm_to_warm = self.warm_to_warm.saturating_add(1);
            }
            (Segment::Warm, Some(Segment::Cold)) => {
                self.warm_to_cold = self.warm_to_cold.saturating_add(1);
            }
            (Segment::Cold, Some(Segment::Warm)) => {
                self.cold_to_warm = self.cold_to_warm.saturating_add(1);
            }
            _ => {}
        }
    }

    // An item of this segment ended.
    pub(crate) fn note_end(&mut self, from: Segment)
        ensures { self.new ≡ noted (Some (place_of from, Dying)) self.old }
    {
        match from {
            Segment::Hot => self.ended_hot = self.ended_hot.saturating_add(1),
            Segment::Warm => self.ended_warm = self.ended_warm.saturating_add(1),
            Segment::Cold => self.ended_cold = self.ended_cold.saturating_add(1),
            Segment::Temp => self.ended_temp = self.ended_temp.saturating_add(1),
        }
    }

    // A bump was applied so, or none was.
    pub(crate) fn note_bump(&mut self, applied: Option<Applied>)
        ensures { self.new ≡ noted (way_of_applied applied) self.old }
    {
        if let Some(Applied::Moved) = applied {
            self.cold_to_warm = self.cold_to_warm.saturating_add(1);
        }
    }
}
