//! What a touch counts.
ghost use Rattle.std.specs.Prelude.{◌≡◌, ◌<◌};
ghost use Rattle.bump_rules.specs.declared.hands.Hand.TheVariants as hand;
ghost use Rattle.bump_rules.specs.Rings.{IsAccounts, most_attempts};
ghost use Rattle.bump_unlocked.specs.Counts.{counted_touch};

use bump_rules::{Accounts, Dropped, Touch};

// Counts a touch with this answer, in one place, so that no drop is forgotten.
#[inline(always)]
pub fn count(counts: &mut Accounts, touch: Touch)
    requires add_up { IsAccounts counts.old counts.old.accepted hand.Idle }
    requires room { counts.old.attempted < most_attempts }
    ensures { counts.new ≡ counted_touch touch counts.old }
{
    match touch {
        Touch::Queued(_) => {
            counts.attempted += 1;
            counts.accepted += 1;
        }
        Touch::Dropped(Dropped::Full) => {
            counts.attempted += 1;
            counts.full += 1;
        }
        Touch::Dropped(Dropped::Busy) => {
            counts.attempted += 1;
            counts.busy += 1;
        }
        Touch::Dropped(Dropped::RefsFull) => {
            counts.attempted += 1;
            counts.refs += 1;
        }
        _ => {}
    }
}
