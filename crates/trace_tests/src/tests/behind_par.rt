//! Worked traces whose lines behind `par` are made by threads, with their texts.

/// Two workers, each with an item of its own in COLD, which each hits twice behind `par`.
pub(super) const OWN_ITEMS: (&str, &str) = (
    "store 2 4 8 1\nclass 2 0 5\nset a 0 7\nset b 0 8\npull 0 hot\npull 0 hot\npar\nget 0 a\nget 0 a\nget 1 b\nget 1 b\n",
    "set a 0.1\nset b 1.1\npull 0 hot cold 0.1\npull 0 hot cold 1.1\nworker 0 attempted 1 accepted 1 full 0 busy 0 refs 0 applied 1\nworker 1 attempted 1 accepted 1 full 0 busy 0 refs 0 applied 1\ntotal first 2 already 0 marked 0 queued 2 dropped 0 miss 0 refs 0 busy 0 closed 0\nmoves 0 0 1\nmoves 0 1 1\nsizes 0 hot 0 warm 2 cold 0 dying 0 unused 0 retired 0\n",
);

/// Both workers hit one item, which one of them queues: the trace, and its text where worker 0 does and where worker 1
/// does.
pub(super) const ONE_ITEM: (&str, [&str; 2]) = (
    "store 2 4 8 1\nclass 1 0 5\nset a 0 7\npull 0 hot\npar\nget 0 a\nget 0 a\nget 1 a\nget 1 a\n",
    [
        "set a 0.1\npull 0 hot cold 0.1\nworker 0 attempted 1 accepted 1 full 0 busy 0 refs 0 applied 1\nworker 1 attempted 0 accepted 0 full 0 busy 0 refs 0 applied 0\ntotal first 1 already 2 marked 0 queued 1 dropped 0 miss 0 refs 0 busy 0 closed 0\nmoves 0 0 1\nmoves 0 1 0\nsizes 0 hot 0 warm 1 cold 0 dying 0 unused 0 retired 0\n",
        "set a 0.1\npull 0 hot cold 0.1\nworker 0 attempted 0 accepted 0 full 0 busy 0 refs 0 applied 0\nworker 1 attempted 1 accepted 1 full 0 busy 0 refs 0 applied 1\ntotal first 1 already 2 marked 0 queued 1 dropped 0 miss 0 refs 0 busy 0 closed 0\nmoves 0 0 0\nmoves 0 1 1\nsizes 0 hot 0 warm 1 cold 0 dying 0 unused 0 retired 0\n",
    ],
);

/// Traces whose text is the same for each schedule: each worker with an item of its own; a worker that was closed
/// before, a hold that is kept, and lines of maintenance alone; an item of TEMP; no `par`; and nothing at all.
pub(super) const REPORTED: [(&str, &str); 5] = [
    OWN_ITEMS,
    (
        "store 2 4 8 1\nclass 2 0 5\nset a 0 7\nhold 1 a h\nclose 0\npar\nget 0 a\nget 0 a\ndel a\nsweep 0\npull 0 hot\ndrain\n",
        "set a 0.1\nhold 1 a h held\nclose 0 attempted 0 accepted 0 full 0 busy 0 refs 0 applied 0\nworker 0 attempted 0 accepted 0 full 0 busy 0 refs 0 applied 0\nworker 1 attempted 0 accepted 0 full 0 busy 0 refs 0 applied 0\ntotal first 0 already 0 marked 0 queued 0 dropped 0 miss 0 refs 0 busy 0 closed 2\nmoves 0 0 0\nmoves 0 1 0\nsizes 0 hot 0 warm 0 cold 0 dying 1 unused 1 retired 0\n",
    ),
    (
        "store 1 4 4 1\nclass 2 0 5\ntemp a 0 7\npar\nget 0 a\nget 0 a\npull 0 hot\ndrain\n",
        "temp a 0.1\nworker 0 attempted 0 accepted 0 full 0 busy 0 refs 0 applied 0\ntotal first 1 already 0 marked 1 queued 0 dropped 0 miss 0 refs 0 busy 0 closed 0\nmoves 0 0 0\nsizes 0 hot 0 warm 0 cold 0 dying 0 unused 1 retired 0 temp 1\n",
    ),
    (
        "store 1 4 4 1\nclass 2 0 5\nset a 0 7\npull 0 hot\nget 0 a\nget 0 a\n",
        "set a 0.1\npull 0 hot cold 0.1\nget 0 a 7 first\nget 0 a 7 queued 0\nworker 0 attempted 1 accepted 1 full 0 busy 0 refs 0 applied 1\ntotal first 0 already 0 marked 0 queued 0 dropped 0 miss 0 refs 0 busy 0 closed 0\nmoves 0 0 1\nsizes 0 hot 0 warm 1 cold 0 dying 0 unused 1 retired 0\n",
    ),
    (
        "store 1 4 4 1\nclass 2 0 5\n",
        "worker 0 attempted 0 accepted 0 full 0 busy 0 refs 0 applied 0\ntotal first 0 already 0 marked 0 queued 0 dropped 0 miss 0 refs 0 busy 0 closed 0\nmoves 0 0 0\nsizes 0 hot 0 warm 0 cold 0 dying 0 unused 2 retired 0\n",
    ),
];

/// What each thread does, in which order, and what is reported of it: a drained item is pulled from WARM; one thread
/// alone makes a `pull`; a worker's lines are made in their order, and each class has sizes of its own; a hold that is
/// kept is given back before the workers are settled; and a miss is no want of references.
pub(super) const TOLD_APART: [(&str, &str); 5] = [
    (
        "store 1 4 4 1\nclass 1 0 0\nset a 0 7\npull 0 hot\nget 0 a\nget 0 a\npar\ndrain\npull 0 warm\n",
        "set a 0.1\npull 0 hot cold 0.1\nget 0 a 7 first\nget 0 a 7 queued 0\nworker 0 attempted 1 accepted 1 full 0 busy 0 refs 0 applied 1\ntotal first 0 already 0 marked 0 queued 0 dropped 0 miss 0 refs 0 busy 0 closed 0\nmoves 0 0 1\nsizes 0 hot 0 warm 0 cold 1 dying 0 unused 0 retired 0\n",
    ),
    (
        "store 2 4 4 1\nclass 2 0 5\nset a 0 1\nset b 0 2\npar\npull 0 hot\n",
        "set a 0.1\nset b 1.1\nworker 0 attempted 0 accepted 0 full 0 busy 0 refs 0 applied 0\nworker 1 attempted 0 accepted 0 full 0 busy 0 refs 0 applied 0\ntotal first 0 already 0 marked 0 queued 0 dropped 0 miss 0 refs 0 busy 0 closed 0\nmoves 0 0 0\nmoves 0 1 0\nsizes 0 hot 1 warm 0 cold 1 dying 0 unused 0 retired 0\n",
    ),
    (
        "store 1 1 8 1\nclass 1 0 5\nclass 1 0 5\nset a 0 1\nset b 1 2\npull 0 hot\npull 1 hot\npar\nget 0 a\nget 0 a\nget 0 b\nget 0 b\n",
        "set a 0.1\nset b 1.1\npull 0 hot cold 0.1\npull 1 hot cold 1.1\nworker 0 attempted 2 accepted 1 full 1 busy 0 refs 0 applied 1\ntotal first 2 already 0 marked 0 queued 1 dropped 1 miss 0 refs 0 busy 0 closed 0\nmoves 0 0 1\nmoves 1 0 0\nsizes 0 hot 0 warm 1 cold 0 dying 0 unused 0 retired 0\nsizes 1 hot 0 warm 0 cold 1 dying 0 unused 0 retired 0\n",
    ),
    (
        "store 1 4 4 1\nclass 1 0 5\nset a 0 7\npull 0 hot\nhold 0 a h\nhit 0 h\nhit 0 h\ndel a\npar\n",
        "set a 0.1\npull 0 hot cold 0.1\nhold 0 a h held\nhit 0 h first\nhit 0 h queued 0\ndel a deferred\nworker 0 attempted 1 accepted 1 full 0 busy 0 refs 0 applied 1\ntotal first 0 already 0 marked 0 queued 0 dropped 0 miss 0 refs 0 busy 0 closed 0\nmoves 0 0 0\nsizes 0 hot 0 warm 0 cold 0 dying 0 unused 1 retired 0\n",
    ),
    (
        "store 1 4 2 1\nclass 2 5 5\nset a 0 1\nset b 0 2\nhold 0 a h\ndel b\npar\nget 0 a\nget 0 b\nget 0 b\n",
        "set a 0.1\nset b 1.1\nhold 0 a h held\ndel b freed\nworker 0 attempted 0 accepted 0 full 0 busy 0 refs 0 applied 0\ntotal first 0 already 0 marked 0 queued 0 dropped 0 miss 2 refs 1 busy 0 closed 0\nmoves 0 0 0\nsizes 0 hot 1 warm 0 cold 0 dying 0 unused 1 retired 0\n",
    ),
];

/// Each kind of line of maintenance in a class behind the first one, of which only its own thread makes each; and three
/// workers, each with lines of its own: a pull, a sweep, an evict, an item's end, and hits.
pub(super) const EACH_ITS_OWN: [(&str, &str); 5] = [
    (
        "store 1 4 4 1\nclass 1 5 5\nclass 2 0 5\nset a 1 7\npar\npull 1 hot\n",
        "set a 1.1\nworker 0 attempted 0 accepted 0 full 0 busy 0 refs 0 applied 0\ntotal first 0 already 0 marked 0 queued 0 dropped 0 miss 0 refs 0 busy 0 closed 0\nmoves 0 0 0\nmoves 1 0 0\nsizes 0 hot 0 warm 0 cold 0 dying 0 unused 1 retired 0\nsizes 1 hot 0 warm 0 cold 1 dying 0 unused 1 retired 0\n",
    ),
    (
        "store 1 4 4 1\nclass 1 0 5\nclass 1 0 5\nset a 1 7\nhold 0 a h\ndel a\ndrop h\npar\nsweep 1\n",
        "set a 1.1\nhold 0 a h held\ndel a deferred\ndrop h\nworker 0 attempted 0 accepted 0 full 0 busy 0 refs 0 applied 0\ntotal first 0 already 0 marked 0 queued 0 dropped 0 miss 0 refs 0 busy 0 closed 0\nmoves 0 0 0\nmoves 1 0 0\nsizes 0 hot 0 warm 0 cold 0 dying 0 unused 1 retired 0\nsizes 1 hot 0 warm 0 cold 0 dying 0 unused 1 retired 0\n",
    ),
    (
        "store 1 4 4 1\nclass 1 0 5\nclass 1 0 5\nset a 1 7\npull 1 hot\npar\npull 1 evict\n",
        "set a 1.1\npull 1 hot cold 1.1\nworker 0 attempted 0 accepted 0 full 0 busy 0 refs 0 applied 0\ntotal first 0 already 0 marked 0 queued 0 dropped 0 miss 0 refs 0 busy 0 closed 0\nmoves 0 0 0\nmoves 1 0 0\nsizes 0 hot 0 warm 0 cold 0 dying 0 unused 1 retired 0\nsizes 1 hot 0 warm 0 cold 0 dying 0 unused 1 retired 0\n",
    ),
    (
        "store 1 4 4 1\nclass 1 0 5\nclass 1 0 5\nset a 1 7\nset b 0 8\npar\ndel a\n",
        "set a 1.1\nset b 0.1\nworker 0 attempted 0 accepted 0 full 0 busy 0 refs 0 applied 0\ntotal first 0 already 0 marked 0 queued 0 dropped 0 miss 0 refs 0 busy 0 closed 0\nmoves 0 0 0\nmoves 1 0 0\nsizes 0 hot 1 warm 0 cold 0 dying 0 unused 0 retired 0\nsizes 1 hot 0 warm 0 cold 0 dying 0 unused 1 retired 0\n",
    ),
    (
        "store 3 4 8 1\nclass 3 0 5\nset a 0 7\nset b 0 8\nset c 0 9\npull 0 hot\npull 0 hot\npull 0 hot\npar\nget 2 a\nget 2 a\nget 2 b\nget 2 b\nget 1 c\nget 1 c\n",
        "set a 0.1\nset b 1.1\nset c 2.1\npull 0 hot cold 0.1\npull 0 hot cold 1.1\npull 0 hot cold 2.1\nworker 0 attempted 0 accepted 0 full 0 busy 0 refs 0 applied 0\nworker 1 attempted 1 accepted 1 full 0 busy 0 refs 0 applied 1\nworker 2 attempted 2 accepted 2 full 0 busy 0 refs 0 applied 2\ntotal first 3 already 0 marked 0 queued 3 dropped 0 miss 0 refs 0 busy 0 closed 0\nmoves 0 0 0\nmoves 0 1 1\nmoves 0 2 2\nsizes 0 hot 0 warm 3 cold 0 dying 0 unused 0 retired 0\n",
    ),
];

/// One drainer drains the lanes of both workers at the `drain` line, before it pulls their items out of WARM.
pub(super) const ALL_LANES: (&str, &str) = (
    "store 2 4 8 1\nclass 2 0 0\nset a 0 7\nset b 0 8\npull 0 hot\npull 0 hot\nget 0 a\nget 0 a\nget 1 b\nget 1 b\npar\ndrain\npull 0 warm\npull 0 warm\n",
    "set a 0.1\nset b 1.1\npull 0 hot cold 0.1\npull 0 hot cold 1.1\nget 0 a 7 first\nget 0 a 7 queued 0\nget 1 b 8 first\nget 1 b 8 queued 0\nworker 0 attempted 1 accepted 1 full 0 busy 0 refs 0 applied 1\nworker 1 attempted 1 accepted 1 full 0 busy 0 refs 0 applied 1\ntotal first 0 already 0 marked 0 queued 0 dropped 0 miss 0 refs 0 busy 0 closed 0\nmoves 0 0 1\nmoves 0 1 1\nsizes 0 hot 0 warm 0 cold 2 dying 0 unused 0 retired 0\n",
);

/// Where a line has a fault, its line is all that follows: no line behind `par` is made before.
pub(super) const FAULTS_BEHIND_PAR: [(&str, &str); 6] = [
    ("", "line 1: ORDER\n"),
    (
        "store 1 4 4 1\nclass 2 5 5\nset a 0 7\npar\nget 0 a\nshow\n",
        "set a 0.1\nline 6: ORDER\n",
    ),
    (
        "store 1 4 4 1\nclass 2 5 5\nset a 0 7\npar\nget 0 a\nget 1 a\n",
        "set a 0.1\nline 6: WORKER\n",
    ),
    (
        "store 1 4 4 1\nclass 2 5 5\nset a 0 7\npar\nget 0 a\ndel b\n",
        "set a 0.1\nline 6: UNBOUND\n",
    ),
    (
        "store 1 4 4 1\nclass 2 5 5\nset a 0 7\npar\nget 0 a\nsweep 1\n",
        "set a 0.1\nline 6: CLASS\n",
    ),
    (
        "store 1 4 4 1\nclass 2 5 5\nset a 0 7\npar\nget 0 a\ndrain",
        "set a 0.1\nline 6: TRUNCATED\n",
    ),
];

/// Two workers, which make three and two lines behind `par`.
pub(super) const GATED: (&str, &str) = (
    "store 2 4 8 1\nclass 2 0 5\nset a 0 7\nset b 0 8\npar\nget 0 a\nget 1 b\nget 0 a\nget 1 b\nget 0 a\n",
    "set a 0.1\nset b 1.1\nworker 0 attempted 0 accepted 0 full 0 busy 0 refs 0 applied 0\nworker 1 attempted 0 accepted 0 full 0 busy 0 refs 0 applied 0\ntotal first 2 already 1 marked 2 queued 0 dropped 0 miss 0 refs 0 busy 0 closed 0\nmoves 0 0 0\nmoves 0 1 0\nsizes 0 hot 2 warm 0 cold 0 dying 0 unused 0 retired 0\n",
);

/// An item that ends beside its hits, whose chunk is free then, or is so with its last reference.
pub(super) const ENDED: &str =
    "store 2 4 8 1\nclass 1 0 5\nset a 0 7\npull 0 hot\npar\nget 0 a\nget 0 a\nget 1 a\nget 1 a\ndel a\ndrain\nsweep 0\n";
