//! Why an attempt to take a reference fails.
ghost use Rattle.std.specs.Prelude.{◌≡◌, option_map};
ghost use Rattle.bump_rules.specs.Tables.{get_of};
ghost use Rattle.bump_steps.specs.Tries.{refused_by, any_refusal as refusal_for_any};
ghost use Rattle.bump_word.specs.Words.{Spells};

use bump_rules::{Head, ItemId};
use bump_word::Limit;
use thiserror::Error;

/// Why `take` gave no hold.
#[derive(Error, Debug, PartialEq, Eq, Clone, Copy)]
pub enum TakeRefusal {
    /// The chunk isn't linked, or has another generation: the life is over, or has not begun.
    #[error("the item is not linked")]
    Stale,

    /// The chunk's reference count is at its limit.
    #[error("the item has as many references as it may have")]
    RefsFull,

    /// Eight exchanges failed, since other threads changed the word before each of them.
    #[error("other threads changed the item again and again")]
    Busy,
}

/// Why `take_any` gave no hold.
#[derive(Error, Debug, PartialEq, Eq, Clone, Copy)]
pub enum AnyRefusal {
    /// The chunk isn't linked: it has no life that could be held.
    #[error("the chunk has no linked item")]
    Gone,

    /// The chunk's reference count is at its limit.
    #[error("the item has as many references as it may have")]
    RefsFull,

    /// Eight exchanges failed, since other threads changed the word before each of them.
    #[error("other threads changed the item again and again")]
    Busy,
}

/// Why `ride` gave no rider: the bump is dropped.
#[derive(Error, Debug, PartialEq, Eq, Clone, Copy)]
pub enum RideRefusal {
    /// The chunk's reference count is at its limit.
    #[error("the item has as many references as it may have")]
    RefsFull,

    /// Eight exchanges failed, since other threads changed the word before each of them.
    #[error("other threads changed the item again and again")]
    Busy,
}

// Why a get of the life is refused where this word is found, the head's, if it is: Stale comes before RefsFull. The
// limit is lent, so that it is read where it lies, anew for each word.
pub fn refusal(word: u64, head: Head, life: ItemId, limit: &Limit) -> Option<TakeRefusal>
    requires { Spells word head }
    ensures { result ≡ refused_by (get_of limit.now life.generation head) }
{
    if limit.has_room(word) && head.generation == life.generation {
        return None;
    }
    if !head.linked || head.generation != life.generation {
        return Some(TakeRefusal::Stale);
    }
    Some(TakeRefusal::RefsFull)
}

// Why a get of whatever life the chunk has is refused where this word is found, the head's, if it is.
pub fn any_refusal(word: u64, head: Head, limit: &Limit) -> Option<AnyRefusal>
    requires { Spells word head }
    ensures { result ≡ option_map refusal_for_any (refused_by (get_of limit.now head.generation head)) }
{
    if limit.has_room(word) {
        return None;
    }
    if !head.linked {
        return Some(AnyRefusal::Gone);
    }
    Some(AnyRefusal::RefsFull)
}
