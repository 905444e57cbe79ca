//! The share of misses over the sizes, as a part of a picture.
use crate::rows::{POLICIES, Row, missed, tally_of, word_of};
use crate::scales::{BOTTOM, LEFT, NamedShare, RIGHT, ShareScale, SizeScale, TOP, Tenths};
use replay_policies::{Policy, Tally};
use std::alloc::{AllocError, Global};

// So much lower than a point the middle of a text's foot stands, for both to be at one height.
const FOOT: u64 = 40;

// So wide a digit is taken to be, and so far apart two sizes are named, in tenths.
const DIGIT: u64 = 85;

const GAP: u64 = 120;

// So far apart the names of two policies are.
const LINE: u64 = 160;

/// Whose line it is: the cache's, or a plain policy's.
#[derive(Clone, Copy)]
enum Subject {
    Bump,
    Plain(Policy),
}

impl Subject {
    fn word(self) -> &'static str {
        match self {
            Subject::Bump => "bump",
            Subject::Plain(policy) => word_of(policy),
        }
    }

    // Each color can be read on a light ground and on a dark one.
    fn color(self) -> &'static str {
        match self {
            Subject::Bump => "#d1495b",
            Subject::Plain(Policy::Lru) => "#2e86ab",
            Subject::Plain(Policy::Fifo) => "#3a9d5d",
            Subject::Plain(Policy::Clock) => "#b8860b",
            Subject::Plain(Policy::Sieve) => "#8e6bbf",
            Subject::Plain(Policy::S3Fifo) => "#7b8794",
        }
    }

    fn width(self) -> u32 {
        match self {
            Subject::Bump => 3,
            Subject::Plain(_) => 2,
        }
    }

    fn tally_in(self, row: &Row) -> Option<Tally> {
        match self {
            Subject::Bump => Some(tally_of(&row.bump)),
            Subject::Plain(policy) => row.tally_of_policy(policy),
        }
    }

    // The share of misses in hundredths of a percent, where it was run.
    fn share_in(self, row: &Row) -> Option<u64> {
        match self.tally_in(row) {
            Some(tally) => Some(missed(&tally)),
            None => None,
        }
    }
}

// Where a line's name stands, from above.
#[derive(Clone, Copy)]
struct NamePlace {
    subject: Subject,
    // where the line ends
    end: u64,
    // where the name stands
    y: u64,
}

/// A chart of these rows, which are sorted by size.
#[derive(Drop)]
pub struct Chart<'a> {
    rows: &'a [&'a Row],
    sizes: SizeScale,
    shares: ShareScale,
    subjects: Vec<Subject>,
}

// Whose lines there are: the cache's last, so that it lies above the others.
fn subjects_of(alloc: Global, rows: &[&Row]) -> Result<Vec<Subject>, AllocError> {
    let mut subjects = Vec::new(alloc);
    for policy in POLICIES {
        if rows.iter().any(|row| row.tally_of_policy(policy).is_some()) {
            subjects.push(Subject::Plain(policy))?;
        }
    }
    subjects.push(Subject::Bump)?;
    Ok(subjects)
}

// The scale that fits the shares of all lines.
fn fitting_shares(rows: &[&Row], subjects: &[Subject]) -> ShareScale {
    let mut least = 10_000;
    let mut most = 0;
    for row in rows {
        for subject in subjects {
            if let Some(share) = subject.share_in(row) {
                least = share.min(least);
                most = share.max(most);
            }
        }
    }
    ShareScale::fitting(least, most)
}

fn size_scale(rows: &[&Row]) -> SizeScale {
    match (rows.first(), rows.last()) {
        (Some(first), Some(last)) => SizeScale::new(first.items, last.items),
        _ => SizeScale::new(0, 0),
    }
}

// How wide a number is taken to be.
fn width_of(number: u32) -> u64 {
    let digits = match number.checked_ilog10() {
        Some(tens) => u64::from(tens).saturating_add(1),
        None => 1,
    };
    digits.saturating_mul(DIGIT)
}

impl<'a> Chart<'a> {
    /// The chart of rows, sorted by size: all shares where that is asked for, else those that there are.
    pub fn new(alloc: Global, rows: &'a [&'a Row], is_full: bool) -> Result<Chart<'a>, AllocError> {
        let subjects = subjects_of(alloc, rows)?;
        let shares = if is_full {
            ShareScale::whole()
        } else {
            fitting_shares(rows, &subjects)
        };
        Ok(Chart {
            rows,
            sizes: size_scale(rows),
            shares,
            subjects,
        })
    }

    /// Writes it.
    pub fn put(&self, alloc: Global, text: &mut String) -> Result<(), AllocError> {
        self.put_shares(text)?;
        self.put_sizes(text)?;
        self.put_titles(text)?;
        for subject in &self.subjects {
            self.put_line(text, *subject)?;
        }
        let places = self.name_places(alloc)?;
        for place in &places {
            self.put_name(text, *place)?;
        }
        Ok(())
    }

    // The named shares, each with a line over the chart.
    fn put_shares(&self, text: &mut String) -> Result<(), AllocError> {
        let step = self.shares.step;
        for place in 0..=self.shares.steps() {
            let share = self.shares.least.saturating_add(place.saturating_mul(step));
            let y = self.shares.y_of(share);
            let (line, foot) = (Tenths(y), Tenths(y.saturating_add(FOOT)));
            let name = NamedShare { share, step };
            writeln!(text, "<path class=\"axis\" d=\"M60 {line}H580\"/>")?;
            writeln!(
                text,
                "<text x=\"52\" y=\"{foot}\" class=\"end\">{name}</text>"
            )?;
        }
        Ok(())
    }

    // A mark for each size, and the names of those that have room for them: of the smallest and the largest always.
    fn put_sizes(&self, text: &mut String) -> Result<(), AllocError> {
        let Some(last) = self.rows.last() else {
            return Ok(());
        };
        let last = last.items;
        let end = self.sizes.x_of(last).saturating_sub(width_of(last) / 2);
        let mut taken = 0;
        let mut before = None;
        for row in self.rows {
            if before == Some(row.items) {
                continue;
            }
            before = Some(row.items);
            let half = width_of(row.items) / 2;
            let x = self.sizes.x_of(row.items);
            let mark = Tenths(x);
            writeln!(text, "<path class=\"mark\" d=\"M{mark} 300V305\"/>")?;
            let is_clear = taken <= x.saturating_sub(half);
            let is_before = x.saturating_add(half).saturating_add(GAP) <= end;
            if row.items == last || (is_clear && is_before) {
                taken = x.saturating_add(half).saturating_add(GAP);
                let items = row.items;
                writeln!(
                    text,
                    "<text x=\"{mark}\" y=\"320\" class=\"mid\">{items}</text>"
                )?;
            }
        }
        Ok(())
    }

    fn put_titles(&self, text: &mut String) -> Result<(), AllocError> {
        let cut = if self.shares.least > 0 {
            " (the axis doesn't begin at 0)"
        } else {
            ""
        };
        writeln!(text, "<text x=\"60\" y=\"22\">missed, %{cut}</text>")?;
        let scale = if self.sizes.is_logarithmic() && !self.sizes.is_point() {
            ", logarithmic scale"
        } else {
            ""
        };
        writeln!(
            text,
            "<text x=\"320\" y=\"340\" class=\"mid\">items of the cache{scale}</text>"
        )
    }

    // Where a line's point of a row stands, where it was run.
    fn point_of(&self, subject: Subject, row: &Row) -> Option<(Tenths, Tenths)> {
        let share = subject.share_in(row)?;
        let x = self.sizes.x_of(row.items);
        Some((Tenths(x), Tenths(self.shares.y_of(share))))
    }

    // A line through the points.
    fn put_path(&self, text: &mut String, subject: Subject) -> Result<(), AllocError> {
        let (color, width) = (subject.color(), subject.width());
        write!(
            text,
            "<polyline fill=\"none\" stroke-width=\"{width}\" stroke=\"{color}\" points=\""
        )?;
        for row in self.rows {
            if let Some((x, y)) = self.point_of(subject, row) {
                write!(text, "{x},{y} ")?;
            }
        }
        writeln!(text, "\"/>")
    }

    // The points.
    fn put_points(&self, text: &mut String, subject: Subject) -> Result<(), AllocError> {
        let (color, width) = (subject.color(), subject.width());
        for row in self.rows {
            if let Some((x, y)) = self.point_of(subject, row) {
                writeln!(
                    text,
                    "<circle cx=\"{x}\" cy=\"{y}\" r=\"{width}\" fill=\"{color}\"/>"
                )?;
            }
        }
        Ok(())
    }

    // A point for each size, and a line through them where there are several sizes.
    fn put_line(&self, text: &mut String, subject: Subject) -> Result<(), AllocError> {
        if !self.sizes.is_point() {
            self.put_path(text, subject)?;
        }
        self.put_points(text, subject)
    }

    // Where the names of the lines stand: at their ends, but so far apart that none lies over another.
    fn name_places(&self, alloc: Global) -> Result<Vec<NamePlace>, AllocError> {
        let mut places = Vec::new(alloc);
        let Some(last) = self.rows.last() else {
            return Ok(places);
        };
        for subject in &self.subjects {
            if let Some(share) = subject.share_in(last) {
                let end = self.shares.y_of(share);
                places.push(NamePlace {
                    subject: *subject,
                    end,
                    y: end,
                })?;
            }
        }
        places.sort_by_key(|place| place.end)?;
        move_apart(&mut places);
        Ok(places)
    }

    // A line's name, and a thin line from its end to there.
    fn put_name(&self, text: &mut String, place: NamePlace) -> Result<(), AllocError> {
        let (word, color) = (place.subject.word(), place.subject.color());
        let Some(last) = self.rows.last() else {
            return Ok(());
        };
        let from = Tenths(self.sizes.x_of(last.items));
        let (end, y) = (Tenths(place.end), Tenths(place.y));
        let foot = Tenths(place.y.saturating_add(FOOT));
        writeln!(
            text,
            "<path class=\"lead\" stroke=\"{color}\" d=\"M{from} {end}H588L606 {y}\"/>"
        )?;
        writeln!(
            text,
            "<text x=\"610\" y=\"{foot}\" style=\"fill:{color}\">{word}</text>"
        )
    }
}

// Moves names that stand too near below the one above, and then those that are below the chart up again.
fn move_apart(places: &mut [NamePlace]) {
    let mut free = TOP;
    for place in places.iter_mut() {
        place.y = place.y.max(free);
        free = place.y.saturating_add(LINE);
    }
    let mut free = BOTTOM;
    for place in places.iter_mut().rev() {
        place.y = place.y.min(free);
        free = place.y.saturating_sub(LINE);
    }
}
