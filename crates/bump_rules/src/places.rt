//! Segments of the recency list, and the lists of a class.
ghost use Rattle.std.specs.Prelude.{◌≡◌, ◌<◌};
ghost use Rattle.bump_rules.specs.Places.{place_of, first_segment, place_number, place_count};

/// A segment of a class's recency list: memcached's HOT, WARM, COLD and TEMP.
#[derive(Clone, Copy, Debug, PartialEq, Eq)]
pub enum Segment {
    /// Where an item begins that isn't linked in TEMP.
    Hot,

    /// Where an item goes that a pull or a bump finds ACTIVE.
    Warm,

    /// Where a pull moves an item that isn't ACTIVE. Only here a hit attempts a bump.
    Cold,

    /// Where an item stays that is linked there, until it is unlinked: no pull looks at it.
    Temp,
}

/// Where a new item is linked.
#[derive(Clone, Copy, Debug, PartialEq, Eq)]
pub enum Start {
    /// At the front of HOT.
    Hot,

    /// At the front of TEMP.
    Temp,
}

/// The list whose last item a pull looks at.
#[derive(Clone, Copy, Debug, PartialEq, Eq)]
pub enum Tail {
    /// HOT, which a pull brings down to its limit.
    Hot,

    /// WARM, which a pull brings down to its limit.
    Warm,

    /// COLD, which has no limit: a pull only rescues an item that is ACTIVE.
    Cold,

    /// COLD again: its last item is ended, whatever its marks.
    Evict,
}

/// The limits of a class: a pull takes an item that isn't ACTIVE from a list that has more items. COLD has no limit.
#[derive(Clone, Copy, Debug, PartialEq, Eq)]
pub struct Limits {
    /// How many items HOT may have: any number.
    pub hot: u32,

    /// How many items WARM may have: any number.
    pub warm: u32,
}

/// One of the seven lists of a class. A chunk stands in exactly one of them at every moment.
#[derive(Clone, Copy, Debug, PartialEq, Eq)]
pub enum Place {
    /// The items of HOT.
    Hot,

    /// The items of WARM.
    Warm,

    /// The items of COLD.
    Cold,

    /// The items of TEMP.
    Temp,

    /// Unlinked while it was held, and not yet found without holders.
    Dying,

    /// Free, to be linked again.
    Unused,

    /// Free, and never linked again: its generations are used up.
    Retired,
}

impl Segment {
    /// The list of a segment.
    pub fn place(self) -> Place
        ensures { result ≡ place_of self }
    {
        match self {
            Segment::Hot => Place::Hot,
            Segment::Warm => Place::Warm,
            Segment::Cold => Place::Cold,
            Segment::Temp => Place::Temp,
        }
    }
}

impl Start {
    /// The segment in which the item begins.
    pub fn segment(self) -> Segment
        ensures { result ≡ first_segment self }
    {
        match self {
            Start::Hot => Segment::Hot,
            Start::Temp => Segment::Temp,
        }
    }
}

impl Place {
    /// The number of its list among those of a class.
    pub fn number(self) -> u32
        ensures number { result ≡ place_number self }
        ensures one_of_all { result < place_count }
    {
        match self {
            Place::Hot => 0,
            Place::Warm => 1,
            Place::Cold => 2,
            Place::Temp => 3,
            Place::Dying => 4,
            Place::Unused => 5,
            Place::Retired => 6,
        }
    }
}
