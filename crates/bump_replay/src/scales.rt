//! Where sizes and shares stand in a picture.
ghost use Rattle.std.specs.Prelude.{◌≤◌, ◌<◌};

use std::fmt;

/// A length in a picture, in tenths of its unit.
#[derive(Clone, Copy)]
pub struct Tenths(pub u64);

impl fmt::Display for Tenths {
    fn fmt<W: fmt::Write>(&self, f: &mut fmt::Formatter<W>) -> fmt::Result {
        let whole = self.0 / 10;
        let tenths = self.0 % 10;
        write!(f, "{whole}.{tenths}")
    }
}

/// The left end of the chart, its right end, its top and its bottom, in tenths.
pub const LEFT: u64 = 600;

pub const RIGHT: u64 = 5_800;

pub const TOP: u64 = 400;

pub const BOTTOM: u64 = 3_000;

const WIDTH: u64 = RIGHT - LEFT;

const HEIGHT: u64 = BOTTOM - TOP;

// From so many times the smallest size on, sizes stand by their logarithms.
const FAR: u64 = 10;

// So many times a logarithm is halved into bits behind its whole part.
const BITS: u32 = 10;

// The logarithm of a size to the base 2, in 1,024ths; that of 0 is 0. Each square of what is above the power of two
// gives a bit more.
fn logarithm(size: u32) -> u64 {
    let size = size.max(1);
    let whole = size.ilog2();
    let mut part = size << (31 - whole);
    let mut logarithm = u64::from(whole);
    for _ in 0..BITS {
        let square = u64::from(part).saturating_mul(u64::from(part)) >> 31;
        logarithm = logarithm.saturating_mul(2);
        if square >> 32 > 0 {
            logarithm = logarithm.saturating_add(1);
            part = u32::try_from(square >> 1).unwrap_or(u32::MAX);
        } else {
            part = u32::try_from(square).unwrap_or(u32::MAX);
        }
    }
    logarithm
}

/// Where sizes stand from the left.
#[derive(Clone, Copy)]
pub struct SizeScale {
    smallest: u32,
    largest: u32,
}

impl SizeScale {
    /// The scale of sizes from the smallest to the largest.
    pub fn new(smallest: u32, largest: u32) -> SizeScale {
        SizeScale { smallest, largest }
    }

    /// Whether there is one size only.
    pub fn is_point(&self) -> bool {
        self.smallest >= self.largest
    }

    /// Whether sizes stand by their logarithms: where the largest is ten times the smallest or more.
    pub fn is_logarithmic(&self) -> bool {
        u64::from(self.largest) >= FAR * u64::from(self.smallest)
    }

    // What is even on the scale.
    fn even(&self, size: u32) -> u64 {
        if self.is_logarithmic() {
            logarithm(size)
        } else {
            u64::from(size)
        }
    }

    /// Where a size stands, in tenths: one size alone in the middle.
    pub fn x_of(&self, size: u32) -> u64
        ensures right { result ≤ RIGHT }
        ensures left { LEFT ≤ result }
    {
        if self.is_point() {
            return LEFT + WIDTH / 2;
        }
        let first = self.even(self.smallest);
        let all = self.even(self.largest).saturating_sub(first).max(1);
        let part = self.even(size).saturating_sub(first);
        LEFT + (part.saturating_mul(WIDTH) / all).min(WIDTH)
    }
}

/// Where shares stand from above, in hundredths of a percent.
#[derive(Clone, Copy)]
pub struct ShareScale {
    /// The share at the bottom.
    pub least: u64,

    /// The share at the top.
    pub most: u64,

    /// So far apart the shares are that are named.
    pub step: u64,
}

// All shares.
const WHOLE: ShareScale = ShareScale {
    least: 0,
    most: 10_000,
    step: 2_500,
};

// How far apart named shares may be, and how many steps there are at most.
const STEPS: [u64; 11] = [1, 2, 5, 10, 20, 50, 100, 200, 500, 1_000, 2_000];

const MOST_STEPS: u64 = 5;

// How far apart they are around one share alone.
const STEP_OF_ONE: u64 = 100;

impl ShareScale {
    /// The scale of all shares, from 0 to 100 percent.
    pub fn whole() -> ShareScale {
        WHOLE
    }

    /// The scale that fits shares from the least to the most.
    pub fn fitting(least: u64, most: u64) -> ShareScale {
        if most <= least {
            let least = (least.min(9_999) / STEP_OF_ONE) * STEP_OF_ONE;
            return ShareScale {
                least,
                most: least + STEP_OF_ONE,
                step: STEP_OF_ONE,
            };
        }
        for step in STEPS {
            let step = step.max(1);
            let first = least / step;
            let last = most.div_ceil(step);
            if last.saturating_sub(first) <= MOST_STEPS {
                return ShareScale {
                    least: first.saturating_mul(step),
                    most: last.saturating_mul(step),
                    step,
                };
            }
        }
        WHOLE
    }

    /// Where a share stands, in tenths.
    pub fn y_of(&self, share: u64) -> u64
        ensures bottom { result ≤ BOTTOM }
        ensures top { TOP ≤ result }
    {
        let all = self.most.saturating_sub(self.least).max(1);
        let part = share.saturating_sub(self.least);
        BOTTOM - (part.saturating_mul(HEIGHT) / all).min(HEIGHT)
    }

    /// How many steps there are.
    pub fn steps(&self) -> u64 {
        self.most.saturating_sub(self.least) / self.step.max(1)
    }
}

/// A share in percent, with as many digits behind the point as the steps between named shares need.
#[derive(Clone, Copy)]
pub struct NamedShare {
    /// The share, in hundredths of a percent.
    pub share: u64,

    /// So far apart the shares are that are named.
    pub step: u64,
}

impl fmt::Display for NamedShare {
    fn fmt<W: fmt::Write>(&self, f: &mut fmt::Formatter<W>) -> fmt::Result {
        let percent = self.share / 100;
        let hundredths = self.share % 100;
        if self.step % 100 == 0 {
            write!(f, "{percent}")
        } else if self.step % 10 == 0 {
            let tenths = hundredths / 10;
            write!(f, "{percent}.{tenths}")
        } else {
            write!(f, "{percent}.{hundredths:02}")
        }
    }
}
