//! The hits that a trace's text tells, by kind.
ghost use Rattle.std.specs.Prelude.{◌≡◌, ◌==◌, None, Some, MatchOption, position};
ghost use Rattle.replay_runs.specs.Counting.{behind_space, kind_of, kind_of_line, no_hits, with_one_more, with_line};
ghost use Rattle.replay_runs.specs.Counting.{hits_told, total_hits};

use bump_trace::cut;

/// How many hits a trace's text tells of, by kind: the lines `get`, by the words of docs/TRACE.md. Counts stop at
/// 2^64 - 1.
#[derive(Clone, Copy, Debug, PartialEq, Eq)]
pub struct HitCounts {
    /// `first`: the item's first hit.
    pub first: u64,

    /// `already`: found both marks set.
    pub already: u64,

    /// `marked`: set ACTIVE in HOT, WARM or TEMP.
    pub marked: u64,

    /// `queued`: queued a bump.
    pub queued: u64,

    /// `dropped full`: dropped a bump, since the ring had no room.
    pub full: u64,

    /// `dropped busy`: dropped a bump, since exchanges failed.
    pub busy: u64,

    /// `dropped refs`: dropped a bump, since the item's count was at its limit.
    pub refs: u64,

    /// `exhausted`: made no step, since no attempt was left.
    pub exhausted: u64,
}

/// The kinds of hits.
#[derive(Clone, Copy)]
enum HitKind {
    First,
    Already,
    Marked,
    Queued,
    Full,
    Busy,
    Refs,
    Exhausted,
}

// What stands behind the first space, if there is one.
fn behind_space(bytes: &[u8]) -> Option<&[u8]>
    ensures { MatchOption result (behind_space bytes.now ≡ None) (λ rest. behind_space bytes.now ≡ Some rest.now) }
{
    match space(bytes) {
        Some(at) => Some(&bytes[at + 1..]),
        None => None,
    }
}

// The place of the first space.
fn space(bytes: &[u8]) -> Option<usize>
    ensures { result ≡ position (λ b. b == 32) bytes.now }
{
    bytes.iter().position(|b| *b == b' ')
}

// The kind of a hit that these words tell.
fn kind_of(hit: &[u8]) -> Option<HitKind>
    ensures { result ≡ kind_of hit.now }
{
    if hit == b"first".as_slice() {
        Some(HitKind::First)
    } else if hit == b"already".as_slice() {
        Some(HitKind::Already)
    } else if hit == b"marked".as_slice() {
        Some(HitKind::Marked)
    } else if hit.starts_with(b"queued ") {
        Some(HitKind::Queued)
    } else if hit == b"dropped full".as_slice() {
        Some(HitKind::Full)
    } else if hit == b"dropped busy".as_slice() {
        Some(HitKind::Busy)
    } else if hit == b"dropped refs".as_slice() {
        Some(HitKind::Refs)
    } else if hit == b"exhausted".as_slice() {
        Some(HitKind::Exhausted)
    } else {
        None
    }
}

// The kind of the hit that a line tells, if it tells one: by what stands behind the first four spaces.
fn kind_of_line(line: &[u8]) -> Option<HitKind>
    ensures { result ≡ kind_of_line line.now }
{
    if !line.starts_with(b"get ") {
        return None;
    }
    let worker = behind_space(line)?;
    let name = behind_space(worker)?;
    let label = behind_space(name)?;
    let hit = behind_space(label)?;
    kind_of(hit)
}

impl HitCounts {
    // No hit was told.
    fn new() -> HitCounts
        ensures { result ≡ no_hits }
    {
        HitCounts {
            first: 0,
            already: 0,
            marked: 0,
            queued: 0,
            full: 0,
            busy: 0,
            refs: 0,
            exhausted: 0,
        }
    }

    /// How many hits there are of all kinds together, at most 2^64 - 1.
    pub fn total(&self) -> u64
        ensures { result ≡ total_hits self.now }
    {
        self.first
            .saturating_add(self.already)
            .saturating_add(self.marked)
            .saturating_add(self.queued)
            .saturating_add(self.full)
            .saturating_add(self.busy)
            .saturating_add(self.refs)
            .saturating_add(self.exhausted)
    }

    // One more hit of a kind.
    fn count(&mut self, kind: HitKind)
        ensures { self.new ≡ with_one_more kind self.old }
    {
        match kind {
            HitKind::First => self.first = self.first.saturating_add(1),
            HitKind::Already => self.already = self.already.saturating_add(1),
            HitKind::Marked => self.marked = self.marked.saturating_add(1),
            HitKind::Queued => self.queued = self.queued.saturating_add(1),
            HitKind::Full => self.full = self.full.saturating_add(1),
            HitKind::Busy => self.busy = self.busy.saturating_add(1),
            HitKind::Refs => self.refs = self.refs.saturating_add(1),
            HitKind::Exhausted => self.exhausted = self.exhausted.saturating_add(1),
        }
    }

    // One more hit, where the line tells one.
    fn count_line(&mut self, line: &[u8])
        ensures { self.new ≡ with_line line.now self.old }
    {
        if let Some(kind) = kind_of_line(line) {
            self.count(kind);
        }
    }
}

/// Counts the hits that a text tells.
pub(crate) fn count_hits(text: &[u8]) -> HitCounts
    ensures { result ≡ hits_told text.now }
{
    let mut hits = HitCounts::new();
    let mut rest = text;
    while let Some((line, after)) = cut(rest) {
        hits.count_line(line);
        rest = after;
    }
    hits
}
