//! The accesses of a log, by the class of their key.
use crate::course::Course;
use access_logs::Log;
use std::alloc::{AllocError, Global};

/// The accesses to the keys of one class, in turn.
#[derive(Drop)]
pub struct ClassAccesses {
    /// The largest size of the class in bytes.
    pub class: u32,

    /// How many keys are of the class.
    pub keys: u32,

    /// The accesses.
    pub course: Course,
}

/// The accesses of a log, by the class of their key.
#[derive(Drop)]
pub struct AccessesByClass {
    /// Those of each class.
    pub parts: Vec<ClassAccesses>,

    /// How many are to keys that are too large for each class.
    pub too_large: u64,
}

// The place of the first class that takes such a size, or how many classes there are.
fn place_of(classes: &[u32], size: u32) -> usize {
    classes.partition_point(|class| *class < size)
}

// The place of each key's class, by its first size.
fn places_of(alloc: Global, log: &Log, classes: &[u32]) -> Result<Vec<Option<usize>>, AllocError> {
    let mut places = Vec::new(alloc);
    for _ in 0..log.keys {
        places.push(None)?;
    }
    for (key, size) in log.accesses.iter().zip(log.sizes.iter()) {
        if let Some(place) = places.get_mut(*key as usize) {
            if place.is_none() {
                *place = Some(place_of(classes, *size));
            }
        }
    }
    Ok(places)
}

// One key more, in the part with this place, if it has one.
fn count_key(parts: &mut AccessesByClass, place: &Option<usize>) {
    if let Some(place) = place {
        if let Some(part) = parts.parts.get_mut(*place) {
            part.keys = part.keys.saturating_add(1);
        }
    }
}

// One access more, which has this number in the log, in the part with this place.
fn take(
    parts: &mut AccessesByClass,
    place: usize,
    log: &Log,
    number: usize,
) -> Result<(), AllocError> {
    match parts.parts.get_mut(place) {
        Some(part) => part.course.add(log, number),
        None => {
            parts.too_large = parts.too_large.saturating_add(1);
            Ok(())
        }
    }
}

/// The accesses of a log by these classes, in bytes and ascending: the class of a key is the first that takes the size
/// of its first access.
pub fn parts_of(alloc: Global, log: &Log, classes: &[u32]) -> Result<AccessesByClass, AllocError> {
    let places = places_of(alloc, log, classes)?;
    let mut parts = AccessesByClass {
        parts: Vec::new(alloc),
        too_large: 0,
    };
    for class in classes {
        parts.parts.push(ClassAccesses {
            class: *class,
            keys: 0,
            course: Course::new(alloc),
        })?;
    }
    for place in &places {
        count_key(&mut parts, place);
    }
    for (number, key) in log.accesses.iter().enumerate() {
        if let Some(Some(place)) = places.get(*key as usize) {
            take(&mut parts, *place, log, number)?;
        }
    }
    Ok(parts)
}

/// How many bytes the items of all keys would take, each in a chunk of its class: as large as the largest item there.
pub fn bytes_of_all(parts: &[ClassAccesses]) -> u128 {
    let mut bytes = 0u128;
    for part in parts {
        let of_class = u128::from(part.keys).saturating_mul(u128::from(part.class));
        bytes = bytes.saturating_add(of_class);
    }
    bytes
}

/// How many items of a class so many bytes buy, where the items of all keys would take `all` of them: each class gets
/// chunks for the same share of its keys, rounded down; but one at least, and no more than it has keys.
pub fn items_of(part: &ClassAccesses, bytes: u64, all: u128) -> u32 {
    let bought = u128::from(part.keys).saturating_mul(u128::from(bytes)) / all.max(1);
    let items = bought.min(u128::from(part.keys)).max(1);
    u32::try_from(items).unwrap_or(u32::MAX)
}
