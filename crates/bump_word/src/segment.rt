//! The numbers of the segments, and the step from one to another.
ghost use Rattle.std.specs.Prelude.{◌≡◌, ◌<◌, ◌^◌};
ghost use Rattle.bump_word.specs.Layout.{segment_width};
ghost use Rattle.bump_word.specs.Words.{segment_number, segment_change};

use crate::layout::SEGMENT_AT;
use bump_rules::Segment;

const HOT: u64 = 0;

const WARM: u64 = 1;

const COLD: u64 = 2;

const TEMP: u64 = 3;

/// The number that stands for a segment in the head word.
pub fn number(segment: Segment) -> u64
    ensures { result ≡ segment_number segment }
{
    match segment {
        Segment::Hot => HOT,
        Segment::Warm => WARM,
        Segment::Cold => COLD,
        Segment::Temp => TEMP,
    }
}

/// The segment of a number. Each number that the segment's bits can make is one's.
pub fn segment_of(number: u64) -> Segment
    requires { number < 2 ^ segment_width }
    ensures { number ≡ segment_number result }
{
    match number {
        HOT => Segment::Hot,
        WARM => Segment::Warm,
        COLD => Segment::Cold,
        _ => Segment::Temp,
    }
}

/// The operand of the exclusive or that takes a head word from one segment to the other, and back.
/// It is the exclusive or of the two segments' numbers, shifted to the segment's bits.
pub fn segment_xor(from: Segment, to: Segment) -> u64
    ensures { result ≡ segment_change from to }
{
    (number(from) ^ number(to)) << SEGMENT_AT.first
}
