//! What seats know of the words: plain data, which contracts speak of. No value of it is ever made.
use bump_rules::{Accounts, AppliedBump, Change, Hand, ItemId, LabelStep, LaneStage};
use std::collections::LinkedList;

/// A kind of atomic step.
#[derive(Clone, Copy)]
pub enum Kind {
    /// A load of a head word.
    Load,

    /// An exchange that failed, since it found another word than it expects.
    Failed,

    /// A reference was taken for a hold.
    Take,

    /// FETCHED was set.
    Fetch,

    /// ACTIVE was set.
    Mark,

    /// A reference was taken for a bump.
    Reserve,

    /// ACTIVE was cleared after a drop.
    Unmark,

    /// The reference of a bump that found no room was given back.
    GiveBackBump,

    /// A reader stored the time.
    StoreTime,

    /// A life began.
    Link,

    /// A life was unlinked.
    Unlink,

    /// An unlinked chunk was found without a reference.
    Sweep,

    /// ACTIVE was cleared under the class's lock.
    ClearActive,

    /// The segment bits were changed.
    Move,

    /// The head of the bump aboard was looked at.
    Try,

    /// The reference of the bump aboard was given back.
    Alight,

    /// The label was stored.
    PutLabel,

    /// A further word was stored.
    PutWord,

    /// The time was stored under the class's lock.
    PutTime,

    /// The time was loaded by a class.
    SeeTime,

    /// The label was loaded by a class.
    SeeLabel,

    /// A further word was loaded by a class.
    SeeWord,

    /// A head word was loaded for the generation in it.
    SeeGeneration,

    /// A spare word was loaded, by which a class meets a lane, or the store's workers. Its chunk and its word are 0.
    Meet,
}

/// A step that a seat made.
#[derive(Clone, Copy)]
pub struct OwnStep {
    /// What was done.
    pub kind: Kind,

    /// The chunk on one of whose words it was made.
    pub chunk: u32,

    /// The word that it found, or the value that it stored; of a `SeeGeneration` the generation that it found.
    pub word: u64,

    /// The bump for which it was made, if it was for one: its worker, and its number.
    pub bump: Option<(u32, u64)>,
}

/// What is done about the further words of a chunk, those beside its label.
#[derive(Clone, Copy)]
pub enum WordStep {
    /// A value (the third) was stored as the chunk's (the first's) further word of a number (the second), from 0.
    Put(u32, u32, u64),

    /// This life began.
    Begun(ItemId),
}

/// A reference that travels as a bump.
#[derive(Clone, Copy)]
pub struct Ride {
    /// The worker whose bump it is.
    pub worker: u32,

    /// Its number among this worker's accepted bumps, from 0.
    pub number: u64,

    /// The life that was hit, to which it refers.
    pub life: ItemId,
}

/// What a worker's seat knows.
pub struct WorkerSheet {
    /// The worker's number, from 0.
    pub worker: u32,

    /// How far it is with an attempted bump.
    pub hand: Hand,

    /// Its counts of bumps. A bump that travels counts as accepted, until it comes back.
    pub accounts: Accounts,

    /// The lives that it hit first, in order.
    pub hits: LinkedList<ItemId>,

    /// The steps that it made, in order.
    pub steps: LinkedList<OwnStep>,

    /// The holds that its exchanges took, as they were then, the last one first. Each has the words that stood in its
    /// chunk when the exchange took it.
    pub taken: LinkedList<HoldSheet>,

    /// Its glances, the last one first: each has the words that stood in its chunk when it began.
    pub glances: LinkedList<GlanceSheet>,
}

/// What a hold knows.
pub struct HoldSheet {
    /// The life to which it refers.
    pub life: ItemId,

    /// The life's words: its label, and then its further words, which were stored before it began.
    pub row: LinkedList<u64>,

    /// The head words that its looks found, in order.
    pub looks: LinkedList<u64>,
}

/// What a glance knows: a look at a life without a reference. While the life is linked its words are those of the row,
/// and each word that the glance loaded was the one of the row.
pub struct GlanceSheet {
    /// The life that its first load found linked.
    pub life: ItemId,

    /// The life's words, as a hold has them.
    pub row: LinkedList<u64>,

    /// Whether each word that it loaded is the one of the row.
    pub agrees: bool,
}

/// The mark of a hold's reference that was given back.
#[derive(Clone, Copy)]
pub struct GivenBack {
    /// The life to which it referred.
    pub life: ItemId,

    /// The head word that the subtraction found.
    pub word: u64,
}

/// What a class's seat knows.
pub struct ClassSheet {
    /// The class's number, from 0.
    pub class: u32,

    /// Its first chunk.
    pub first: u32,

    /// The number of its chunks.
    pub count: u32,

    /// The generation of its chunks before their first life.
    pub fresh: u32,

    /// What happened to its lists, in order.
    pub history: LinkedList<Change>,

    /// The labels that it stored, and the lives that it began, in order.
    pub labels: LinkedList<LabelStep>,

    /// The further words that it stored, and the lives that it began, in order.
    pub words: LinkedList<WordStep>,

    /// The bump for which it moved an item last, until that bump's reference is given back: the application in
    /// progress.
    pub applying: Option<Ride>,

    /// The steps that it made, in order.
    pub steps: LinkedList<OwnStep>,
}

/// What a lane's seat knows.
pub struct LaneSheet {
    /// The worker whose ring it drains.
    pub worker: u32,

    /// How far it is with the bump aboard.
    pub stage: LaneStage,

    /// The bumps that it applied, in order.
    pub applied: LinkedList<AppliedBump>,

    /// The steps that it made, in order.
    pub steps: LinkedList<OwnStep>,
}

/// What a seat of the table knows: the sheets of which it is made.
pub struct View {
    /// Workers' sheets.
    pub workers: LinkedList<WorkerSheet>,

    /// Holds' sheets.
    pub holds: LinkedList<HoldSheet>,

    /// References that travel.
    pub riders: LinkedList<Ride>,

    /// Classes' sheets.
    pub classes: LinkedList<ClassSheet>,

    /// Lanes' sheets.
    pub lanes: LinkedList<LaneSheet>,

    /// References of holds that it gave back, in order. No sum counts them.
    pub returned: LinkedList<GivenBack>,

    /// The loads of heads that made it, in order: one of a seat that a load made, which has no sheet. No sum counts them.
    pub seen: LinkedList<OwnStep>,
}

/// What lies in a slot of the table. The table has none.
#[derive(Clone, Copy)]
pub struct Empty;
