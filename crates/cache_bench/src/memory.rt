//! How much memory the process has.
use std::rt::Files;
use std::{fs, io};

/// What the process has of the machine's memory, or by how much that grew, in KiB.
#[derive(Clone, Copy)]
pub struct Memory {
    /// What it has now.
    pub resident: u64,

    /// The most that it had up to now.
    pub peak: u64,
}

impl Memory {
    /// By how much more it is than it was before.
    pub fn since(self, before: Memory) -> Memory {
        Memory {
            resident: self.resident.saturating_sub(before.resident),
            peak: self.peak.saturating_sub(before.peak),
        }
    }
}

// The number of KiB that Linux tells in a line of this name, or 0 where it tells none.
fn told(status: &str, name: &str) -> u64 {
    for line in status.lines() {
        if let Some(told) = line.strip_prefix(name) {
            return told
                .trim_end_matches("kB")
                .trim()
                .parse::<u64>()
                .unwrap_or(0);
        }
    }
    0
}

/// What the process has now, as Linux tells it.
pub fn memory_now<R: Files + AllocGlobal>(rt: &R) -> io::Result<Memory> {
    let status = fs::read_to_string(rt, "/proc/self/status")?;
    Ok(Memory {
        resident: told(status.as_str(), "VmRSS:"),
        peak: told(status.as_str(), "VmHWM:"),
    })
}
