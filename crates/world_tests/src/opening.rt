//! Configurations and Worlds that tests make. Nothing is promised of them: a test looks at what it needs as it runs.
use bump_core::{ClassConfig, Config, ConfigFault, World};
use std::alloc::{AllocError, Global};

/// Workers, the capacity of a ring, the limit of references, and the first generation.
pub type Numbers = (u32, u32, u32, u32);

/// Chunks of a class, and the limits of HOT and WARM.
pub type Sizes = (u32, u32, u32);

// The classes of these sizes.
fn classes_of(alloc: Global, sizes: &[Sizes]) -> Result<Vec<ClassConfig>, AllocError> {
    let mut classes = Vec::new(alloc);
    for (chunks, hot, warm) in sizes.iter() {
        classes.push(ClassConfig {
            chunks: *chunks,
            hot: *hot,
            warm: *warm,
        })?;
    }
    Ok(classes)
}

/// A configuration of these numbers, or its first fault.
pub fn config_of(
    alloc: Global,
    numbers: Numbers,
    sizes: &[Sizes],
) -> Result<Result<Config, ConfigFault>, AllocError> {
    let classes = classes_of(alloc, sizes)?;
    let (workers, capacity, refs_limit, generation) = numbers;
    Ok(Config::new(workers, capacity, refs_limit, generation, classes))
}

/// A World of some classes. The numbers are those of a configuration. None where memory is refused.
pub fn store(alloc: Global, numbers: Numbers, sizes: &[Sizes]) -> Option<World> {
    let config = config_of(alloc, numbers, sizes).ok()?.ok()?;
    World::new(alloc, &config).ok()
}

/// A World of one worker and one class of two chunks, as a trace begins one, where memory is not refused.
pub fn world(alloc: Global, capacity: u32, hot: u32, warm: u32) -> Option<World> {
    store(alloc, (1, capacity, 4, 1), &[(2, hot, warm)])
}
