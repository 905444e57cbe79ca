//! The tables: what a hit, an attempt, an applied bump, an end and a pull come to, by the words found.
ghost use Rattle.std.specs.Prelude.{◌≡◌};
ghost use Rattle.bump_rules.specs.Tables.{dropped_of, ended_of, hit_of, may_move, most_exchanges};
ghost use Rattle.bump_rules.specs.Tables.{outcome_of, pulled_of, pulled_to, refused_of, segment_of, touch_of};

use crate::bumps::{Ended, Outcome};
use crate::class_lists::ClassLists;
use crate::commands::{Dropped, Hit, Pulled, Room, Touch};
use crate::items::{Head, ItemId};
use crate::places::{Limits, Place, Segment, Tail};

/// After so many exchanges that failed no more are tried.
pub const MOST_EXCHANGES: u32 = 8;

impl Head {
    /// The hit table: what a hit comes to, by the heads that its first step and its second one found. Where no second
    /// one is made, its head isn't looked at.
    pub fn hit(self, second: Head) -> Hit
        ensures { result ≡ hit_of self second }
    {
        if !self.fetched {
            return Hit::First;
        }
        if self.active || second.active {
            return Hit::Already;
        }
        match second.segment {
            Segment::Cold => Hit::Attempts,
            Segment::Hot | Segment::Warm | Segment::Temp => Hit::Marked,
        }
    }

    /// Why no reference is taken for a bump, if none is, by the limit, by how many exchanges failed, and
    /// by the head that was found last.
    pub fn refused(self, limit: u32, failed: u32) -> Option<Dropped>
        ensures { result ≡ refused_of limit failed self }
    {
        if failed == MOST_EXCHANGES {
            return Some(Dropped::Busy);
        }
        if self.refs < limit {
            return None;
        }
        Some(Dropped::RefsFull)
    }

    /// The rule of an attempt: why a bump is dropped, if it is, by the same and by the ring's room.
    pub fn dropped(self, limit: u32, failed: u32, room: Room) -> Option<Dropped>
        ensures { result ≡ dropped_of limit failed self room }
    {
        match (self.refused(limit, failed), room) {
            (Some(dropped), _) => Some(dropped),
            (None, Room::Known) => None,
            (None, Room::Unknown) => Some(Dropped::Full),
        }
    }

    /// The update table: what applying a bump comes to, by the head that was found when it was looked at, and by the
    /// head that the clearing step found. Where there is no such step, its head isn't looked at.
    pub fn outcome(self, cleared: Head) -> Outcome
        ensures { result ≡ outcome_of self cleared }
    {
        if !self.linked {
            return Outcome::Gone;
        }
        if matches!(self.segment, Segment::Cold) && cleared.active {
            return Outcome::Moved;
        }
        Outcome::TimeOnly
    }

    /// What the end of an unlinked life comes to, by the head that is found behind it.
    pub fn ended(self) -> Ended
        ensures { result ≡ ended_of self }
    {
        if self.refs == 0 {
            return Ended::Freed;
        }
        Ended::Deferred
    }
}

impl Hit {
    /// What the hit answers: where it attempts a bump, by why that was dropped, if it was, and by its number else.
    pub fn touch(self, dropped: Option<Dropped>, number: u64) -> Touch
        ensures { result ≡ touch_of self dropped number }
    {
        match (self, dropped) {
            (Hit::First, _) => Touch::First,
            (Hit::Already, _) => Touch::Already,
            (Hit::Marked, _) => Touch::Marked,
            (Hit::Attempts, Some(dropped)) => Touch::Dropped(dropped),
            (Hit::Attempts, None) => Touch::Queued(number),
        }
    }
}

impl Segment {
    /// Whether a pull may move an item from this segment to another.
    pub fn may_move(self, to: Segment) -> bool
        ensures { result ≡ may_move self to }
    {
        match (self, to) {
            (Segment::Hot | Segment::Warm, Segment::Warm | Segment::Cold) => true,
            (Segment::Cold, Segment::Warm) => true,
            _ => false,
        }
    }
}

impl Tail {
    /// The segment of the list that a pull looks at.
    pub fn segment(self) -> Segment
        ensures { result ≡ segment_of self }
    {
        match self {
            Tail::Hot => Segment::Hot,
            Tail::Warm => Segment::Warm,
            Tail::Cold | Tail::Evict => Segment::Cold,
        }
    }

    /// The tail table: what a pull does with the last item of its list, by the head that was found of it,
    /// by the lists as they stand, by the limits of HOT and WARM, and by what the item's end comes to,
    /// which counts for an evict alone.
    pub fn pulled(
        self,
        found: Head,
        lists: &ClassLists,
        limits: Limits,
        ended: Ended,
        id: ItemId,
    ) -> Pulled
        ensures { result ≡ pulled_of self found lists.now limits ended id }
    {
        match self {
            Tail::Hot if found.active => Pulled::Warm(id),
            Tail::Hot if lists.len(Place::Hot) > limits.hot => Pulled::Cold(id),
            Tail::Hot => Pulled::Stay(id),
            Tail::Warm if found.active => Pulled::Again(id),
            Tail::Warm if lists.len(Place::Warm) > limits.warm => Pulled::Cold(id),
            Tail::Warm => Pulled::Stay(id),
            Tail::Cold if found.active => Pulled::Warm(id),
            Tail::Cold => Pulled::Stay(id),
            Tail::Evict if matches!(ended, Ended::Freed) => Pulled::Freed(id),
            Tail::Evict => Pulled::Deferred(id),
        }
    }
}

impl Pulled {
    /// The segment to whose front the item goes, if it is moved.
    pub fn to(self) -> Option<Segment>
        ensures { result ≡ pulled_to self }
    {
        match self {
            Pulled::Warm(_) | Pulled::Again(_) => Some(Segment::Warm),
            Pulled::Cold(_) => Some(Segment::Cold),
            Pulled::Empty | Pulled::Stay(_) | Pulled::Freed(_) | Pulled::Deferred(_) => None,
        }
    }
}
