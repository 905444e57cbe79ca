//! From a Head to its word, and back.
ghost use Rattle.std.specs.Prelude.{◌≡◌, ◌≢◌, ◌↔◌, ◌≤◌, IsNone, IfSome};
ghost use Rattle.bump_word.specs.Words.{IsPacked, FindsHead, Spells, zeros_of};

use crate::layout::{
    ACTIVE_AT, FETCHED_AT, GENERATION_AT, LINKED_AT, REFS_AT, REFS_MAX, SEGMENT_AT, ZERO_AT,
};
use crate::segment::{number, segment_of};
use bump_rules::Head;

/// The word of a Head, whose reference count is at most [`REFS_MAX`].
pub fn pack(head: Head) -> u64
    requires { head.refs ≤ REFS_MAX }
    ensures { IsPacked head result }
{
    u64::from(head.refs) << REFS_AT.first
        | u64::from(head.linked) << LINKED_AT.first
        | u64::from(head.fetched) << FETCHED_AT.first
        | u64::from(head.active) << ACTIVE_AT.first
        | number(head.segment) << SEGMENT_AT.first
        | u64::from(head.generation) << GENERATION_AT.first
}

/// The Head of a word. None exactly where one of the bits between segment and generation is set: such a word is no
/// Head's.
pub fn unpack(word: u64) -> Option<Head>
    ensures head { IfSome result (λ h. Spells word h) }
    ensures every { FindsHead word result }
    ensures none { IsNone result ↔ (zeros_of word ≢ 0) }
{
    if ZERO_AT.read(word) != 0 {
        return None;
    }
    Some(Head {
        refs: REFS_AT.read(word) as u32,
        linked: LINKED_AT.is_set(word),
        fetched: FETCHED_AT.is_set(word),
        active: ACTIVE_AT.is_set(word),
        segment: segment_of(SEGMENT_AT.read(word)),
        generation: GENERATION_AT.read(word) as u32,
    })
}
