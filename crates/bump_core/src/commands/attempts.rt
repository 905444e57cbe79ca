//! An attempted bump in the command of a hit: it is queued or dropped at once.
ghost use Rattle.std.specs.Prelude.{◌≡◌, ◌<◌, [], ◌∷◌, ◌++◌, IfOk, OnOk, OnErr, None, Some, length};
ghost use Rattle.bump_core.specs.Commands.{attempt, room_at, dropped_at};
ghost use Rattle.bump_rules.specs.Accounts.{counted};
ghost use Rattle.bump_rules.specs.Tables.{attempted_of};
ghost use Rattle.bump_rules.specs.Rings.{most_attempts};
ghost use Rattle.model_state.specs.State.{worker_at, with_worker};
ghost use Rattle.model_state.specs.Views.{state_of};
ghost use Rattle.model_state.specs.Worlds.{IsLawful};

use bump_rules::{Accounts, Dropped, Head, ItemId, Room, Touch};
use model_state::WorldState;
use std::alloc::AllocError;

// The worker's attempt ends with a drop, which leaves the item as it was.
fn count_drop(inside: &mut WorldState, worker: u32, dropped: Dropped)
    requires worker { worker < length (state_of inside.old).workers }
    requires room { (worker_at (state_of inside.old) worker).accounts.attempted < most_attempts }
    requires lawful { IsLawful (state_of inside.old) }
    ensures { state_of inside.new ≡
        with_worker (state_of inside.old) worker (record (worker_at (state_of inside.old) worker) {
          accounts = counted (Some dropped) (worker_at (state_of inside.old) worker).accounts;
        }) }
{
    let hand = inside.hand(worker);
    let accounts = inside.accounts(worker);
    let attempted = accounts.attempted + 1;
    let after = match dropped {
        Dropped::Full => Accounts {
            attempted,
            full: accounts.full + 1,
            ..accounts
        },
        Dropped::Busy => Accounts {
            attempted,
            busy: accounts.busy + 1,
            ..accounts
        },
        Dropped::RefsFull => Accounts {
            attempted,
            refs: accounts.refs + 1,
            ..accounts
        },
    };
    inside.set_hand(worker, hand, after);
}

// Whether the worker's ring shows room.
fn room(inside: &WorldState, worker: u32) -> Room
    requires worker { worker < length (state_of inside.now).workers }
    requires lawful { IsLawful (state_of inside.now) }
    ensures { result ≡ room_at (state_of inside.now) worker }
{
    if inside.waiting(worker) < inside.capacity as usize {
        Room::Known
    } else {
        Room::Unknown
    }
}

/// A bump of a held item is attempted.
pub fn attempt(inside: &mut WorldState, worker: u32, life: ItemId) -> Result<Touch, AllocError>
    requires worker { worker < length (state_of inside.old).workers }
    requires chunk { life.chunk < length (state_of inside.old).chunks }
    requires room { (worker_at (state_of inside.old) worker).accounts.attempted < most_attempts }
    requires lawful { IsLawful (state_of inside.old) }
    ensures ok { OnOk result (state_of inside.new ≡
        attempt (state_of inside.old) worker life (dropped_at (state_of inside.old) worker life)) }
    ensures answer { IfOk result (λ t. t ≡
        attempted_of (dropped_at (state_of inside.old) worker life)
        (length (worker_at (state_of inside.old) worker).sent)) }
    ensures err { OnErr result (state_of inside.new ≡ state_of inside.old) }
    ensures memory { OnErr result (dropped_at (state_of inside.old) worker life ≡ None) }
{
    let head = inside.head(life.chunk);
    // nothing comes between the events of a command, so no exchange fails
    if let Some(dropped) = head.dropped(inside.refs_limit, 0, room(inside, worker)) {
        count_drop(inside, worker, dropped);
        return Ok(Touch::Dropped(dropped));
    }
    let accounts = inside.accounts(worker);
    let number = inside.sent_bumps(worker).len() as u64;
    inside.queue(
        worker,
        life,
        Accounts {
            attempted: accounts.attempted + 1,
            accepted: accounts.accepted + 1,
            ..accounts
        },
    )?;
    inside.set_head(
        life.chunk,
        Head {
            active: true,
            refs: head.refs + 1,
            ..head
        },
    );
    Ok(Touch::Queued(number))
}
