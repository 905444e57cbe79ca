//! How many bumps wait in the rings of a cache that one thread has.
use crate::plans::Plan;
use cache_shelf::{PUT_BUMPS, PUT_ROUNDS};
use std::alloc::{AllocError, Global};

/// How many bumps wait. A cache doesn't tell it, but how many were accepted, and what a put and a tend apply, is known.
#[derive(Drop)]
pub(crate) struct Waits {
    readers: usize,
    // how many bumps of each reader were accepted so far
    accepted: Vec<u64>,
    // how many wait in each ring: in those of the first part, one for each reader, and so on
    rings: Vec<u64>,
    // how many puts there were in each part since one had its turn
    puts: Vec<u32>,
    most: u64,
}

impl Waits {
    /// No bump waits in a ring of the plan's cache.
    pub(crate) fn new(alloc: Global, plan: &Plan) -> Result<Waits, AllocError> {
        let readers = plan.config.readers as usize;
        let mut accepted = Vec::new(alloc);
        accepted.resize(readers, 0)?;
        let mut rings = Vec::new(alloc);
        rings.resize(readers.saturating_mul(plan.config.parts as usize), 0)?;
        let mut puts = Vec::new(alloc);
        puts.resize(plan.config.parts as usize, 0)?;
        Ok(Waits {
            readers,
            accepted,
            rings,
            puts,
            most: 0,
        })
    }

    // The place of a reader's ring in a part.
    fn ring_of(&self, reader: u32, part: u32) -> usize {
        (part as usize)
            .saturating_mul(self.readers)
            .saturating_add(reader as usize)
    }

    /// So many bumps of a reader were accepted by now; whether these are more than at the last call.
    pub(crate) fn has_more(&mut self, reader: u32, accepted: u64) -> bool {
        match self.accepted.get_mut(reader as usize) {
            Some(last) => {
                let has_more = accepted > *last;
                *last = accepted;
                has_more
            }
            None => false,
        }
    }

    /// One more waits in a reader's ring of a part.
    pub(crate) fn add(&mut self, reader: u32, part: u32) {
        let place = self.ring_of(reader, part);
        if let Some(ring) = self.rings.get_mut(place) {
            *ring = ring.saturating_add(1);
        }
    }

    // Counts a put in a part; whether it had its turn to apply bumps.
    fn has_turn(&mut self, part: u32) -> bool {
        match self.puts.get_mut(part as usize) {
            Some(puts) => {
                *puts = puts.saturating_add(1) % PUT_ROUNDS;
                *puts == 0
            }
            None => false,
        }
    }

    /// A put in a part applied as many of each reader as it does: at least, since one that found no chunk free, or the
    /// last item of COLD held, applied all.
    pub(crate) fn apply_for_put(&mut self, part: u32) {
        if self.has_turn(part) {
            self.apply_share(part);
        }
        self.most = self.most.max(self.waiting());
    }

    // As many of each reader were applied in a part as a put applies that has its turn.
    fn apply_share(&mut self, part: u32) {
        let first = self.ring_of(0, part);
        for reader in 0..self.readers {
            if let Some(ring) = self.rings.get_mut(first.saturating_add(reader)) {
                *ring = ring.saturating_sub(u64::from(PUT_BUMPS));
            }
        }
    }

    /// A tend applied all.
    pub(crate) fn apply_all(&mut self) {
        for ring in self.rings.iter_mut() {
            *ring = 0;
        }
    }

    // How many wait in all rings.
    fn waiting(&self) -> u64 {
        let mut all = 0u64;
        for ring in &self.rings {
            all = all.saturating_add(*ring);
        }
        all
    }

    /// The most that waited behind a put, at most: one that found no chunk free, or COLD's last item held, applied more.
    pub(crate) fn most(&self) -> u64 {
        self.most
    }
}
