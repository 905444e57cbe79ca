//! Small stores that tests open, and heads as tests write them.
ghost use Rattle.std.specs.Prelude.{◌≡◌, ◌<◌, None, Some, IfOk, IfSome};
ghost use Rattle.std.specs.Arc.{arc_value};
ghost use Rattle.bump_rules.specs.declared.hands.Hand.TheVariants.{Idle};
ghost use Rattle.bump_heads.specs.References.{new_hold};
ghost use Rattle.bump_heads.specs.Rule.{chunks as all_chunks, lane_sheet};
ghost use Rattle.bump_heads.specs.Making.{lane_seen};
ghost use Rattle.bump_heads.specs.ReadersSeats.{row_in};
ghost use Rattle.bump_heads.specs.Taking.{whole_hold};
ghost use Rattle.head_tests.specs.Stores.{HasSmallClass, IsNew, IsSmall};

use super::*;
use bump_heads::{ClassConfig, Config, Head, ItemId, Segment};
use std::alloc::{AllocError, Global};
use std::sync::Arc;

/// What a store of one class with two chunks and one worker is made of.
#[derive(Drop)]
pub struct Small<N: Name> {
    pub heads: Arc<Heads<N>, Global>,
    pub class: ClassSeat<N>,
    pub worker: WorkerSeat<N>,
    pub lane: LaneSeat<N>,
}

/// The configuration of such a store, whose first generation is 1, with this limit of references, 2 to 1,048,575.
/// None where memory is refused.
pub fn config_of(alloc: Global, limit: u32) -> Option<Config>
    ensures limit { IfSome result (λ c. c.refs_limit ≡ limit) }
    ensures small { IfSome result IsSmall }
{
    let class = ClassConfig {
        chunks: 2,
        hot: 1,
        warm: 1,
    };
    Config::new(1, 4, limit, 1, vec![in alloc; class].ok()?).ok()
}

/// Opens such a store, of whichever first generation.
pub fn open<N: Name>(alloc: Global, blank: Blank, config: &Config) -> Result<Small<N>, AllocError>
    requires name { blank.table ≡ N.table }
    requires config { blank.config ≡ config.now }
    requires small { HasSmallClass config.now }
    ensures new { config.now.first_generation ≡ 1
        → IfOk result (λ s. IsNew (arc_value s.heads) s.class s.worker) }
    ensures chunks { IfOk result (λ s. all_chunks (arc_value s.heads) ≡ 2) }
    ensures alone { IfOk result (λ s. s.worker.hold ≡ None) }
    ensures lane { IfOk result (λ s. s.lane ≡ lane_seen (lane_sheet 0)) }
{
    let HeadParts {
        heads,
        mut classes,
        mut workers,
        mut lanes,
    } = Heads::<N>::new(alloc, blank, config)?;
    let (Some(class), Some(worker), Some(lane)) = (classes.pop(), workers.pop(), lanes.pop()) else {
        return Err(AllocError);
    };
    Ok(Small {
        heads,
        class,
        worker,
        lane,
    })
}

/// The life of the chunk in this generation.
pub fn life_of(chunk: u32, generation: u32) -> ItemId
    ensures { result ≡ record { chunk = chunk; generation = generation } }
{
    ItemId { chunk, generation }
}

/// A head with these marks: `l` for linked, `f` for fetched, `a` for active.
pub fn head(refs: u32, marks: &str, segment: Segment, generation: u32) -> Head {
    Head {
        refs,
        linked: marks.contains('l'),
        fetched: marks.contains('f'),
        active: marks.contains('a'),
        segment,
        generation,
    }
}

/// Why the item isn't taken. One that is taken is given back.
pub fn refusal<N: Name>(
    heads: &Heads<N>,
    worker: &mut WorkerSeat<N>,
    life: ItemId,
) -> Option<TakeRefusal>
    requires alone { worker.old.hold ≡ None }
    requires chunk { life.chunk < all_chunks heads.now }
    ensures hold { worker.new.hold ≡ None }
    ensures hand { worker.new.sheet.hand ≡ worker.old.sheet.hand }
    ensures accounts { worker.new.sheet.accounts ≡ worker.old.sheet.accounts }
{
    match heads.take(worker, life) {
        Ok(hold) => {
            heads.give_back(hold);
            None
        }
        Err(refusal) => Some(refusal),
    }
}

/// Splits a hold that looked at no head off the worker's seat, to which it was joined.
pub fn let_out<N: Name>(heads: &Heads<N>, worker: &mut WorkerSeat<N>, hold: &mut Hold<N>)
    requires idle { worker.old.sheet.hand ≡ Idle }
    requires joined { worker.old.hold ≡ Some (new_hold hold.old.life (row_in worker.old.hold)) }
    requires hollow { hold.old.sheet ≡ None }
    ensures worker { worker.new ≡ record worker.old { hold = None } }
    ensures hold { hold.new ≡ whole_hold hold.old.life (row_in worker.old.hold) }
{
    heads.hold_out(worker, hold);
}
