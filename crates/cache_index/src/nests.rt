//! The nests: words that all threads may load. A nest is a line of 64 bytes: the tags of its six lanes, how many keys
//! passed it, and the life of each lane.
ghost use Rattle.std.specs.Prelude.{◌≡◌, ◌≢◌, ◌<◌, ◌≤◌, ◌+◌, ◌*◌, ◌/◌, ◌%◌, ◌^◌, ℕ, IfOk, IfSome, IfNone, false, [], if◌then◌else◌, ◌==◌};
ghost use Rattle.std.specs.Prelude.{length, slice_index, slice_set, replicate, List};
ghost use Rattle.cache_index.specs.Tags.{lanes, tag_of, tag_in};
ghost use Rattle.cache_index.specs.Places.{IsPlace, home_of, nest_behind, nest_of, steps_to};
ghost use Rattle.cache_index.specs.Places.{tag_at, passed_at, place_in, tag_behind};
ghost use Rattle.cache_index.specs.Changes.{OneMorePassed, HasNewTag};
ghost use Rattle.std.specs.Int.{bit_at};
ghost use Rattle.seen_words.specs.Past.{note_of, words_of};
ghost use Rattle.cache_index.specs.History.{AreNoted, IsReached, KeepHashes, SeesMoment, ways_of};

use crate::law::LeadsOn;
use crate::led::Way;
use crate::tags::{LANES, lane_with, lanes_with, tag_of, with_tag};
use seen_words::{Eye, Pen, SeenWords};
use std::alloc::{AllocError, Global};
use std::marker::Model;

/// How many words a nest has.
pub(crate) const NEST_WORDS: u32 = 8;

/// Which of a nest's words says how many keys passed it.
const PASSED: u32 = 1;

/// Which of a nest's words has the life of its first lane.
const FIRST_LIFE: u32 = 2;

/// The nests of an index.
#[derive(Drop)]
pub(crate) struct Nests {
    words: SeenWords<LeadsOn>,
    count: u32,
}

impl Model for Nests {
    ghost use Rattle.std.specs.Prelude.{◌≡◌, ◌<◌, ◌≤◌, ◌+◌, ◌*◌, ◌^◌};
    ghost use Rattle.cache_index.specs.Views.{NestsView};

    ghost Value = { NestsView };

    ghost view = { λ n. record { table = n.words.table; nests = n.count } };

    ghost invariant = { λ n. (n.words.count ≡ 8 * n.count) × (0 < n.count) × (n.count < 2 ^ 29) };
}

/// A lane that the writer found: its number, counted from the hash's home on over all nests, and where it is.
#[derive(Clone, Copy)]
pub(crate) struct FoundLane {
    pub(crate) number: u32,
    pub(crate) nest: u32,
    pub(crate) lane: u32,
}

/// The nest so many steps behind another, where the first follows the last.
#[inline(always)]
pub(crate) fn behind(nests: u32, nest: u32, steps: u32) -> u32
    requires few { nests < 2 ^ 29 }
    requires nest { nest < nests }
    requires steps { steps ≤ nests }
    ensures { result ≡ nest_behind nests nest steps }
{
    if nest + steps < nests {
        nest + steps
    } else {
        nest + steps - nests
    }
}

impl Nests {
    /// So many nests, all of whose lanes are off, and the pen of their words.
    pub(crate) fn new(alloc: Global, count: u32) -> Result<(Nests, Pen), AllocError>
        requires some { 0 < count }
        requires few { count < 2 ^ 29 }
        ensures nests { IfOk result (λ made. made.0.nests ≡ count) }
        ensures table { IfOk result (λ made. made.1.table ≡ made.0.table) }
        ensures words { IfOk result (λ made. made.1.words ≡ replicate (8 * count) 0) }
        ensures noted { IfOk result (λ made. note_of made.1.past ≡ []) }
    {
        let (words, pen) = SeenWords::new(alloc, NEST_WORDS * count)?;
        Ok((Nests { words, count }, pen))
    }

    /// How many nests there are.
    #[inline(always)]
    pub(crate) fn count(&self) -> u32
        ensures count { result ≡ self.now.nests }
        ensures some { 0 < result }
        ensures few { result < 2 ^ 29 }
    {
        self.count
    }

    /// The nest at which a search for a hash begins.
    #[inline(always)]
    pub(crate) fn home(&self, hash: u32) -> u32
        ensures home { result ≡ home_of self.now.nests hash }
        ensures within { result < self.now.nests }
    {
        (u64::from(hash) * u64::from(self.count) >> 32) as u32
    }

    /// The nest so many steps behind a hash's home.
    #[inline(always)]
    pub(crate) fn nest(&self, hash: u32, steps: u32) -> u32
        requires { steps < self.now.nests }
        ensures nest { result ≡ nest_behind self.now.nests (home_of self.now.nests hash) steps }
        ensures within { result < self.now.nests }
    {
        behind(self.count, self.home(hash), steps)
    }

    /// How many steps it is from the hash's home to the nest that has this word, which is one of the nests'.
    pub(crate) fn steps(&self, hash: u32, word: u32) -> u32
        requires { nest_of word < self.now.nests }
        ensures steps { result ≡ steps_to self.now.nests (home_of self.now.nests hash) (nest_of word) }
        ensures within { result < self.now.nests }
    {
        let home = self.home(hash);
        let nest = word / NEST_WORDS;
        if nest < home {
            self.count + nest - home
        } else {
            nest - home
        }
    }

    /// An eye that has seen all that the pen wrote.
    pub(crate) fn eye(&self, pen: &mut Pen) -> Eye
        requires pen { pen.old.table ≡ self.now.table }
        ensures table { result.table ≡ self.now.table }
        ensures seen { result.seen ≡ pen.old.past }
        ensures words { words_of result.seen ≡ pen.old.words }
        ensures pen { pen.new ≡ pen.old }
    {
        self.words.pens_eye(pen)
    }

    // The first word of a nest. Of this width it is one shift and one mask of a hash's product with the number of nests.
    #[inline(always)]
    fn first_word(nest: u32) -> usize
        ensures { result ≡ 8 * nest }
    {
        NEST_WORDS as usize * nest as usize
    }

    /// The lanes of a nest whose tag is this, as they are at the last moment that the eye has seen then. `tag` is at most
    /// 255.
    #[inline(always)]
    pub(crate) fn lanes_now(&self, eye: &mut Eye, nest: u32, tag: u64) -> u64
        requires eye { eye.old.table ≡ self.now.table }
        requires nest { nest < self.now.nests }
        requires tag { tag < 256 }
        ensures narrow { result < 2 ^ 48 }
        ensures eye { SeesMoment eye.old eye.new }
        ensures lanes { (lane : ℕ) → lane < lanes → bit_at result (8 * lane + 7)
            ≡ (if tag_in (slice_index (words_of eye.new.seen) (8 * nest)) lane == tag then 1 else 0) }
    {
        lanes_with(self.words.load(eye, Nests::first_word(nest)), tag)
    }

    /// Loads the word of a nest's tags, and lets it go: so that whoever loads it soon needn't wait for its memory.
    #[inline(always)]
    pub(crate) fn look_ahead(&self, nest: u32)
        requires { nest < self.now.nests }
    {
        self.words.look_ahead(Nests::first_word(nest));
    }

    /// Whether some key passed the nest, at the last moment that the eye has seen then.
    #[inline(always)]
    pub(crate) fn is_passed_now(&self, eye: &mut Eye, nest: u32) -> bool
        requires eye { eye.old.table ≡ self.now.table }
        requires nest { nest < self.now.nests }
        ensures eye { SeesMoment eye.old eye.new }
        ensures none { result ≡ false → slice_index (words_of eye.new.seen) (8 * nest + 1) ≡ 0 }
    {
        self.words
            .load(eye, Nests::first_word(nest) + PASSED as usize)
            != 0
    }

    /// The word of the life of a lane in a nest, at the last moment that the eye has seen then.
    #[inline(always)]
    pub(crate) fn life_now(&self, eye: &mut Eye, nest: u32, lane: u32) -> u64
        requires eye { eye.old.table ≡ self.now.table }
        requires nest { nest < self.now.nests }
        requires lane { lane < lanes }
        ensures eye { SeesMoment eye.old eye.new }
        ensures life { result ≡ slice_index (words_of eye.new.seen) (8 * nest + 2 + lane) }
    {
        self.words.load(
            eye,
            Nests::first_word(nest) + lane as usize + FIRST_LIFE as usize,
        )
    }

    /// The first lane of a nest, from one on, whose tag is this, or 6 where there is none. `tag` is at most 255.
    #[inline(always)]
    pub(crate) fn lane(&self, pen: &mut Pen, nest: u32, tag: u64, from: u32) -> u32
        requires pen { pen.old.table ≡ self.now.table }
        requires nest { nest < self.now.nests }
        requires tag { tag < 256 }
        requires from { from ≤ lanes }
        ensures pen { pen.new ≡ pen.old }
        ensures within { result ≤ lanes }
        ensures behind { from ≤ result }
        ensures found { result < lanes → tag_in (slice_index pen.old.words (8 * nest)) result ≡ tag }
        ensures others { (lane : ℕ) → from ≤ lane → lane < result →
            tag_in (slice_index pen.old.words (8 * nest)) lane ≢ tag }
    {
        lane_with(
            self.words.read(pen, (NEST_WORDS * nest) as usize),
            tag,
            from,
        )
    }

    /// How many keys passed a nest.
    pub(crate) fn passed(&self, pen: &mut Pen, nest: u32) -> u64
        requires pen { pen.old.table ≡ self.now.table }
        requires nest { nest < self.now.nests }
        ensures pen { pen.new ≡ pen.old }
        ensures passed { result ≡ slice_index pen.old.words (8 * nest + 1) }
    {
        self.words.read(pen, (NEST_WORDS * nest + PASSED) as usize)
    }

    /// The word of the life of a lane.
    pub(crate) fn life(&self, pen: &mut Pen, nest: u32, lane: u32) -> u64
        requires pen { pen.old.table ≡ self.now.table }
        requires nest { nest < self.now.nests }
        requires lane { lane < lanes }
        ensures pen { pen.new ≡ pen.old }
        ensures life { result ≡ slice_index pen.old.words (place_in nest lane) }
    {
        self.words
            .read(pen, (NEST_WORDS * nest + FIRST_LIFE + lane) as usize)
    }

    /// The place of the first lane that is off, on the way from the hash's home over all nests, for a key more by this
    /// hash: it passes each nest before that lane's. `None` where all lanes are on.
    pub(crate) fn take_place(&self, pen: &mut Pen, hash: u32, ways: &Vec<Way>) -> Option<u32>
        requires pen { pen.old.table ≡ self.now.table }
        requires size { length pen.old.words ≡ 8 * self.now.nests }
        requires few { (nest : ℕ) → nest < self.now.nests → passed_at pen.old.words nest < 2 ^ 32 }
        requires reached { IsReached self.now.nests pen.old.words ways.now.items }
        requires noted { AreNoted (note_of pen.old.past) ways.now.items }
        ensures table { pen.new.table ≡ pen.old.table }
        ensures noted { AreNoted (note_of pen.new.past) ways.now.items }
        ensures place { IfSome result (λ place. IsPlace self.now.nests place) }
        ensures off { IfSome result (λ place. tag_at pen.old.words place ≡ 0) }
        ensures words { IfSome result (λ place. let home = home_of self.now.nests hash in
            OneMorePassed self.now.nests home (steps_to self.now.nests home (nest_of place))
            pen.old.words pen.new.words) }
        ensures full { IfNone result ((place : ℕ) →
            IsPlace self.now.nests place → 0 < tag_at pen.old.words place) }
    {
        for steps in 0..self.count {
            let nest = self.nest(hash, steps);
            let lane = self.lane(pen, nest, 0, 0);
            if lane < LANES {
                return Some(NEST_WORDS * nest + FIRST_LIFE + lane);
            }
            let word = (NEST_WORDS * nest + PASSED) as usize;
            let passed = self.words.read(pen, word);
            self.words.write(pen, word, passed + 1, ways);
        }
        None
    }

    /// The first lane with the tag of a hash, of the lanes counted from the hash's home on, from one of them on; or
    /// `None` where none has it that a key of this hash could be in. `from` is at most the count of all lanes.
    pub(crate) fn look(&self, pen: &mut Pen, hash: u32, from: u32) -> Option<FoundLane>
        requires pen { pen.old.table ≡ self.now.table }
        requires from { from ≤ lanes * self.now.nests }
        ensures pen { pen.new ≡ pen.old }
        ensures nest { IfSome result (λ at.
            at.nest ≡ nest_behind self.now.nests (home_of self.now.nests hash) (at.number / lanes)) }
        ensures lane { IfSome result (λ at. (at.lane ≡ at.number % lanes) × (at.nest < self.now.nests)) }
        ensures within { IfSome result (λ at. (from ≤ at.number) × (at.number < lanes * self.now.nests)) }
        ensures found { IfSome result (λ at.
            tag_behind pen.old.words self.now.nests (home_of self.now.nests hash) at.number ≡ tag_of hash) }
        ensures first { IfSome result (λ at. (number : ℕ) → from ≤ number → number < at.number →
            tag_behind pen.old.words self.now.nests (home_of self.now.nests hash) number ≢ tag_of hash) }
        ensures none { IfNone result ((number : ℕ) → from ≤ number → number < lanes * self.now.nests →
            ((steps : ℕ) → steps < number / lanes →
            0 < passed_at pen.old.words (nest_behind self.now.nests (home_of self.now.nests hash) steps)) →
            tag_behind pen.old.words self.now.nests (home_of self.now.nests hash) number ≢ tag_of hash) }
    {
        let tag = tag_of(hash);
        for steps in from / LANES..self.count {
            let nest = self.nest(hash, steps);
            let begun = LANES * steps < from;
            let lane = self.lane(pen, nest, tag, if begun { from % LANES } else { 0 });
            if lane < LANES {
                let number = LANES * steps + lane;
                return Some(FoundLane { number, nest, lane });
            }
            if self.passed(pen, nest) == 0 {
                return None;
            }
        }
        None
    }

    /// A key, by this hash, passes no more the nests from its home up to the one that has this place.
    pub(crate) fn pass_no_more(&self, pen: &mut Pen, hash: u32, place: u32, ways: &Vec<Way>)
        requires pen { pen.old.table ≡ self.now.table }
        requires size { length pen.old.words ≡ 8 * self.now.nests }
        requires place { nest_of place < self.now.nests }
        requires reached { let home = home_of self.now.nests hash in (steps : ℕ) → (words : List ℕ) →
            steps ≤ steps_to self.now.nests home (nest_of place) →
            OneMorePassed self.now.nests home steps words pen.old.words → IsReached self.now.nests words ways.now.items }
        requires passed { let home = home_of self.now.nests hash in (nest : ℕ) → nest < self.now.nests →
            steps_to self.now.nests home nest < steps_to self.now.nests home (nest_of place) →
            0 < passed_at pen.old.words nest }
        requires noted { AreNoted (note_of pen.old.past) ways.now.items }
        ensures table { pen.new.table ≡ pen.old.table }
        ensures words { let home = home_of self.now.nests hash in
            OneMorePassed self.now.nests home (steps_to self.now.nests home (nest_of place))
            pen.new.words pen.old.words }
        ensures noted { AreNoted (note_of pen.new.past) ways.now.items }
    {
        for steps in 0..self.steps(hash, place) {
            let word = (NEST_WORDS * self.nest(hash, steps) + PASSED) as usize;
            let passed = self.words.read(pen, word);
            self.words.write(pen, word, passed - 1, ways);
        }
    }

    /// The word of a life becomes this.
    pub(crate) fn set_life(&self, pen: &mut Pen, place: u32, life: u64, ways: &Vec<Way>)
        requires pen { pen.old.table ≡ self.now.table }
        requires size { length pen.old.words ≡ 8 * self.now.nests }
        requires reached { IsReached self.now.nests (slice_set pen.old.words place life) ways.now.items }
        requires keeps { KeepHashes (ways_of (note_of pen.old.past)) ways.now.items }
        requires place { nest_of place < self.now.nests }
        ensures table { pen.new.table ≡ pen.old.table }
        ensures words { pen.new.words ≡ slice_set pen.old.words place life }
        ensures noted { AreNoted (note_of pen.new.past) ways.now.items }
    {
        self.words.write(pen, place as usize, life, ways);
    }

    /// The lane of a place gets this tag, 0 to 255, by one store: 0 turns it off.
    pub(crate) fn set_tag(&self, pen: &mut Pen, place: u32, tag: u64, ways: &Vec<Way>)
        requires pen { pen.old.table ≡ self.now.table }
        requires reached { (words : List ℕ) → HasNewTag self.now.nests place tag pen.old.words words →
            IsReached self.now.nests words ways.now.items }
        requires keeps { KeepHashes (ways_of (note_of pen.old.past)) ways.now.items }
        requires size { length pen.old.words ≡ 8 * self.now.nests }
        requires place { IsPlace self.now.nests place }
        requires tag { tag < 256 }
        ensures table { pen.new.table ≡ pen.old.table }
        ensures words { HasNewTag self.now.nests place tag pen.old.words pen.new.words }
        ensures noted { AreNoted (note_of pen.new.past) ways.now.items }
    {
        let word = (place / NEST_WORDS * NEST_WORDS) as usize;
        let tags = self.words.read(pen, word);
        let next = with_tag(tags, place % NEST_WORDS - FIRST_LIFE, tag);
        self.words.write(pen, word, next, ways);
    }
}
