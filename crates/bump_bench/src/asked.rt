//! What the command line asks for.
use crate::lines::Subject;
use std::alloc::{AllocError, Global};

// How often each workload is passed through, where the command line doesn't say.
const PASSES: u32 = 15;

/// What is to be measured. The words behind the program's name are the name of a workload, or `all`; how many passes
/// are wanted; and of how many threads.
#[derive(Drop)]
pub struct Asked {
    word: String,
    pub passes: u32,
    threads: Option<u32>,
}

// The number in the command line, if there is one at this place.
fn number_at(words: &[String], place: usize) -> Option<u32> {
    words.get(place)?.parse::<u32>().ok()
}

impl Asked {
    /// By the command line's words, the program's name first. None where there is no other.
    pub fn by(alloc: Global, words: &[String]) -> Result<Option<Asked>, AllocError> {
        let Some(word) = words.get(1) else {
            return Ok(None);
        };
        Ok(Some(Asked {
            word: String::from_str(alloc, word)?,
            passes: number_at(words, 2).unwrap_or(PASSES),
            threads: number_at(words, 3),
        }))
    }

    /// Whether it asks for this workload: by its name, or by `all`, and where it says how many threads, by their count.
    pub fn wants(&self, subject: Subject) -> bool {
        let is_named = self.word.as_str() == "all" || self.word.as_str() == subject.name;
        is_named && self.threads.unwrap_or(subject.threads) == subject.threads
    }
}
