//! A table whose chunks had no life yet, and the seats of its classes, workers and lanes.
ghost use Rattle.std.specs.Prelude.{◌≡◌, ◌≤◌, ◌<◌, ◌-◌, [], IfOk, None, Some, length, map};
ghost use Rattle.std.specs.Arc.{arc_value};
ghost use Rattle.bump_steps.specs.Places.{rows};
ghost use Rattle.bump_steps.specs.Rule.{opened, class_sheets, worker_sheets, lane_sheets, blank};
ghost use Rattle.bump_steps.specs.Words.{words_id, config_of};
ghost use Rattle.bump_readers.specs.Workers.{worker_seen};
ghost use Rattle.bump_heads.specs.Making.{BlankView as TheBlankView, class_seen, lane_seen, AreNewClasses, AreNewLanes};
ghost use Rattle.bump_rules.specs.Configs.{most_workers};

use crate::heads::Heads;
use crate::seats::{ClassSeat, LaneSeat};
use bump_readers::{Name, ReaderHeads, WorkerSeat};
use bump_rules::Config;
use bump_steps::{AnyRow, RowLaw, Seat, Words};
use std::alloc::{AllocError, Global};
use std::marker::{Model, PhantomData};
use std::sync::Arc;

/// The words of a store that has no name yet, and the one seat that has every sheet. Its chunks had no life.
#[derive(Drop)]
pub struct Blank<L: RowLaw = AnyRow> {
    words: Words<L>,
    seat: Seat,
}

impl<L: RowLaw> Model for Blank<L> {
    ghost Value = { TheBlankView };

    ghost view = { λ b. record { config = config_of b.words; table = words_id b.words } };

    ghost invariant = { λ b. (b.seat.table_id ≡ words_id b.words) × (b.seat.me ≡ (opened (config_of b.words), []))
        × (0 < (words_id b.words).words) };
}

/// What a store's heads are made of: the heads, and a seat for each class, worker and lane, by number.
#[derive(Drop)]
pub struct HeadParts<N: Name, L: RowLaw = AnyRow> {
    pub heads: Arc<Heads<N, L>, Global>,
    pub classes: Vec<ClassSeat<N, L>>,
    pub workers: Vec<WorkerSeat<N>>,
    pub lanes: Vec<LaneSeat<N, L>>,
}

impl Blank {
    /// A table whose chunks had no life yet, whose rows may have any label, and no further words.
    pub fn new(alloc: Global, config: &Config) -> Result<Blank, AllocError>
        ensures config { IfOk result (λ b. b.config ≡ config.now) }
        ensures further { IfOk result (λ b. b.table.slots ≡ 0) }
    {
        Blank::with_words(alloc, config, 0)
    }
}

impl<L: RowLaw> Blank<L> {
    /// The same, where each chunk has so many further words beside its label, and L is the law of them that each chunk in
    /// use obeys.
    pub fn with_words(alloc: Global, config: &Config, further: u32) -> Result<Blank<L>, AllocError>
        ensures config { IfOk result (λ b. b.config ≡ config.now) }
        ensures further { IfOk result (λ b. b.table.slots ≡ further) }
    {
        let (words, seat) = Words::fresh(alloc, config, further)?;
        Ok(Blank { words, seat })
    }
}

fn part_classes<N: Name, L: RowLaw>(
    alloc: Global,
    heads: &Arc<Heads<N, L>, Global>,
    seat: &mut Seat,
    count: u32,
) -> Result<Vec<ClassSeat<N, L>>, AllocError>
    requires seat { (seat.old.table_id ≡ N.table) × (seat.old.me.1 ≡ []) }
    requires sheets { (length seat.old.me.0.classes ≡ count) × AreNewClasses (rows N.table) 0 seat.old.me.0.classes }
    ensures rest { IfOk result (λ v. (seat.new.table_id ≡ N.table)
        × (seat.new.me ≡ (record seat.old.me.0 { classes = [] }, []))) }
    ensures seats { IfOk result (λ v. v.items ≡ map class_seen seat.old.me.0.classes) }
{
    let mut seats = Vec::with_capacity(alloc, count as usize)?;
    for class in 0..count {
        let sheet = heads.words().part_class(seat);
        seats.push(ClassSeat {
            seat: sheet,
            class,
            heads: Arc::try_clone(heads)?,
            of: PhantomData,
        })?;
    }
    Ok(seats)
}

fn part_lanes<N: Name, L: RowLaw>(
    alloc: Global,
    heads: &Arc<Heads<N, L>, Global>,
    seat: &mut Seat,
    count: u32,
) -> Result<Vec<LaneSeat<N, L>>, AllocError>
    requires seat { (seat.old.table_id ≡ N.table) × (seat.old.me.1 ≡ []) }
    requires sheets { (length seat.old.me.0.lanes ≡ count) × AreNewLanes 0 seat.old.me.0.lanes }
    requires few { count ≤ most_workers }
    ensures rest { IfOk result (λ v. (seat.new.table_id ≡ N.table)
        × (seat.new.me ≡ (record seat.old.me.0 { lanes = [] }, []))) }
    ensures seats { IfOk result (λ v. v.items ≡ map lane_seen seat.old.me.0.lanes) }
{
    let mut seats = Vec::with_capacity(alloc, count as usize)?;
    for worker in 0..count {
        let sheet = heads.words().part_lane(seat);
        seats.push(LaneSeat {
            badge: sheet.into_badge(),
            worker,
            heads: Arc::try_clone(heads)?,
            of: PhantomData,
        })?;
    }
    Ok(seats)
}

impl<N: Name, L: RowLaw> Heads<N, L> {
    /// The heads of the blank, under the name that its table has, and the seats of its classes, workers and lanes.
    pub fn new(
        alloc: Global,
        blank: Blank<L>,
        config: &Config,
    ) -> Result<HeadParts<N, L>, AllocError>
        requires name { blank.table ≡ N.table }
        requires config { blank.config ≡ config.now }
        ensures heads { IfOk result (λ p. arc_value p.heads ≡ config.now) }
        ensures classes { IfOk result (λ p. p.classes.items ≡ map class_seen
            (class_sheets (config.now.first_generation - 1) 0 0 config.now.classes)) }
        ensures workers { IfOk result (λ p. p.workers.items ≡ map worker_seen (worker_sheets 0 config.now.workers)) }
        ensures lanes { IfOk result (λ p. p.lanes.items ≡ map lane_seen (lane_sheets 0 config.now.workers)) }
    {
        let Blank { words, mut seat } = blank;
        let readers = ReaderHeads::new(words, config);
        let heads = Arc::new(alloc, Heads { readers })?;
        let count = config.classes.as_slice().len() as u32;
        let classes = part_classes(alloc, &heads, &mut seat, count)?;
        let workers = heads.part_workers(alloc, &mut seat, config.workers)?;
        let lanes = part_lanes(alloc, &heads, &mut seat, config.workers)?;
        Ok(HeadParts {
            heads,
            classes,
            workers,
            lanes,
        })
    }
}
