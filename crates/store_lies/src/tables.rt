//! The tables, as a caller asks them.
ghost use Rattle.bump_rules.specs.Heads.{linked_head};
ghost use Rattle.bump_rules.specs.History.{freed_change};
ghost use Rattle.bump_rules.specs.Tables.{ended_of, outcome_of, pulled_of, pulled_to};
ghost use Rattle.std.specs.Prelude.{◌≡◌};

use bump_rules::{
    Change, ClassLists, Ended, Head, ItemId, Limits, Outcome, Pulled, Segment, Start, Tail,
};

/// What applying a bump comes to.
pub fn outcome(found: Head, cleared: Head) -> Outcome
    ensures { result ≡ outcome_of found cleared }
{
    found.outcome(cleared)
}

/// What the end of an unlinked life comes to.
pub fn ended(found: Head) -> Ended
    ensures { result ≡ ended_of found }
{
    found.ended()
}

/// What a pull does with the last item of its list.
pub fn pulled(
    tail: Tail,
    found: Head,
    lists: &ClassLists,
    limits: Limits,
    ended: Ended,
    id: ItemId,
) -> Pulled
    ensures { result ≡ pulled_of tail found lists.now limits ended id }
{
    tail.pulled(found, lists, limits, ended, id)
}

/// The segment to whose front a pull moves an item.
pub fn pulled_to(pulled: Pulled) -> Option<Segment>
    ensures { result ≡ pulled_to pulled }
{
    pulled.to()
}

/// The head of a new life.
pub fn after_link(start: Start, generation: u32) -> Head
    ensures { result ≡ linked_head start generation }
{
    Head::after_link(start, generation)
}

/// The entry of a chunk that is found without holders.
pub fn freed(life: ItemId) -> Change
    ensures { result ≡ freed_change life }
{
    Change::freed(life)
}
