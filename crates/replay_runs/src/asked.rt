//! What an access log asks of a cache.
ghost use Rattle.std.specs.Prelude.{◌≡◌, slice_index_or};
ghost use Rattle.replay_runs.specs.Asked.{expires_by, operation_at, time_at};

use access_logs::Operation;

/// What a log asks for, access by access.
#[derive(Clone, Copy)]
pub struct Asked<'a> {
    /// The keys, by their numbers.
    pub keys: &'a [u32],

    /// The accesses' times. One that has none here is at its place, from 0.
    pub times: &'a [u64],

    /// What is asked for: of a get that finds nothing a put, too, and of what is neither a get, a set nor a delete nothing.
    /// It is a get where nothing stands here.
    pub operations: &'a [Operation],

    /// How long after an access what it puts expires. It never does where nothing stands here, or 0.
    pub ttls: &'a [u64],
}

/// An access's time: that of its place, and where there is none the place itself.
pub(crate) fn time_at(times: &[u64], place: usize) -> u64
    ensures { result ≡ time_at times.now place }
{
    match times.get(place) {
        Some(time) => *time,
        None => place as u64,
    }
}

impl Asked<'_> {
    /// What is asked for at a place, counted from 0.
    pub fn operation(&self, place: usize) -> Operation
        ensures { result ≡ operation_at self.now.operations.now place }
    {
        match self.operations.get(place) {
            Some(operation) => *operation,
            None => Operation::Get,
        }
    }

    /// The time of an access, by its place.
    pub fn time(&self, place: usize) -> u64
        ensures { result ≡ time_at self.now.times.now place }
    {
        time_at(self.times, place)
    }

    /// When what is put at a place expires: 0 where it never does. A time past the last one is the last one.
    pub fn expires(&self, place: usize) -> u64
        ensures { result ≡ expires_by (slice_index_or self.now.ttls.now place 0) (time_at self.now.times.now place) }
    {
        match self.ttls.get(place) {
            Some(0) | None => 0,
            Some(ttl) => self.time(place).saturating_add(*ttl),
        }
    }
}
