//! How much the entries of a part weigh.
ghost use Rattle.std.specs.Prelude.{◌≡◌};

use std::alloc::{AllocError, Global};
use std::marker::Model;
use std::ops::Deref;
use std::sync::atomic::{AtomicU64, Ordering};
use std::sync::{Arc, Wait};

// How many bytes the entries of a part weigh together that are in memory.
#[derive(Drop)]
pub(crate) struct Scale {
    bytes: Arc<AtomicU64>,
}

impl Scale {
    // A scale with nothing on it.
    pub(crate) fn new(alloc: Global) -> Result<Scale, AllocError> {
        let bytes = Arc::new(alloc, AtomicU64::new(0))?;
        Ok(Scale { bytes })
    }

    // The same scale, once more. It is refused where 2^63 - 1 have it.
    pub(crate) fn again(&self) -> Result<Scale, AllocError> {
        let bytes = Arc::try_clone(&self.bytes)?;
        Ok(Scale { bytes })
    }

    // What is on it.
    pub(crate) fn bytes(&self) -> u64 {
        self.bytes.load(Ordering::SeqCst)
    }

    // Puts so much more on it, if all is at most this much then. It tells whether it is.
    pub(crate) fn add<W: Wait>(&self, rt: &W, weight: u64, most: u64) -> bool {
        let mut seen = self.bytes();
        for _ in rt.forever() {
            let sum = match seen.checked_add(weight) {
                Some(sum) if sum <= most => sum,
                _ => return false,
            };
            match self
                .bytes
                .compare_exchange(seen, sum, Ordering::SeqCst, Ordering::SeqCst)
            {
                Ok(_) => return true,
                Err(other) => seen = other,
            }
        }
        unreachable!()
    }
}

// What an entry has on a scale, until this is dropped.
pub(crate) struct Weight {
    bytes: u64,
    scale: Scale,
}

impl Weight {
    // What was put on this scale before.
    pub(crate) fn new(bytes: u64, scale: Scale) -> Weight {
        Weight { bytes, scale }
    }
}

impl Drop for Weight {
    fn drop(self) {
        let Self { bytes, scale } = self;
        scale.bytes.fetch_sub(bytes, Ordering::SeqCst);
    }
}

/// A value of a cache with a limit in bytes. It derefs to the value, as which contracts see it. Only a put makes one, and what its
/// entry weighs counts until it is dropped.
#[derive(Drop)]
pub struct Weighed<V> {
    value: V,
    weight: Weight,
}

impl<V> Model for Weighed<V> {
    ghost Value = { V };

    ghost view = { λ w. w.value };
}

impl<V> Weighed<V> {
    // A value, whose entry has this weight.
    pub(crate) fn new(value: V, weight: Weight) -> Weighed<V>
        ensures { result ≡ value }
    {
        Weighed { value, weight }
    }

    // The value alone: its weight is given back.
    pub(crate) fn into_value(self) -> V
        ensures { result ≡ self }
    {
        let Self { value, weight } = self;
        drop(weight);
        value
    }
}

impl<V> Deref for Weighed<V> {
    type Target = V;

    ghost use Rattle.std.specs.Prelude.{◌≡◌};

    ghost deref_gives = { λ weighed value. value ≡ weighed };

    fn deref(&self) -> &V {
        &self.value
    }
}
