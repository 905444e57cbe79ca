//! Worked traces with their texts, and the faults of each kind of line. A table has few rows: a test's proof grows with
//! the square of its table.

/// A second hit in COLD queues a bump, which moves the item to WARM.
pub(super) const PROMOTION: (&str, &str) = (
    "store 1 4 4 1\nclass 2 0 5\nset a 0 7\npull 0 hot\nget 0 a\nget 0 a\ndrain\nshow\n",
    "set a 0.1\npull 0 hot cold 0.1\nget 0 a 7 first\nget 0 a 7 queued 0\nbump 0 0 0.1 warm\ndrain 1\nclass 0 hot 0\nclass 0 warm 1 0.1:1:f:7\nclass 0 cold 0\nclass 0 dying 0\nclass 0 unused 1 1\nclass 0 retired 0\nworker 0 attempted 1 accepted 1 full 0 busy 0 refs 0 applied 1\n",
);

/// Traces that are run to their end.
pub(super) const WORKED: [(&str, &str); 12] = [
    (
        "store 1 4 4 1\nclass 2 5 5\nshow\n",
        "class 0 hot 0\nclass 0 warm 0\nclass 0 cold 0\nclass 0 dying 0\nclass 0 unused 2 0 1\nclass 0 retired 0\nworker 0 attempted 0 accepted 0 full 0 busy 0 refs 0 applied 0\n",
    ),
    (
        "store 1 4 4 1\nclass 2 5 5\nset a 0 7\nget 0 a\nget 0 a\nshow\n",
        "set a 0.1\nget 0 a 7 first\nget 0 a 7 marked\nclass 0 hot 1 0.1:1:fa:5\nclass 0 warm 0\nclass 0 cold 0\nclass 0 dying 0\nclass 0 unused 1 1\nclass 0 retired 0\nworker 0 attempted 0 accepted 0 full 0 busy 0 refs 0 applied 0\n",
    ),
    (
        "store 1 4 4 1\nclass 2 0 0\nset a 0 7\nget 0 a\nget 0 a\npull 0 hot\nshow\n",
        "set a 0.1\nget 0 a 7 first\nget 0 a 7 marked\npull 0 hot warm 0.1\nclass 0 hot 0\nclass 0 warm 1 0.1:1:f:5\nclass 0 cold 0\nclass 0 dying 0\nclass 0 unused 1 1\nclass 0 retired 0\nworker 0 attempted 0 accepted 0 full 0 busy 0 refs 0 applied 0\n",
    ),
    (
        "store 1 4 4 1\nclass 2 0 5\nset a 0 7\npull 0 hot\npull 0 hot\npull 0 cold\n",
        "set a 0.1\npull 0 hot cold 0.1\npull 0 hot empty\npull 0 cold stay 0.1\n",
    ),
    PROMOTION,
    (
        "store 1 4 4 1\nclass 2 0 5\nset a 0 7\npull 0 hot\nget 0 a\nget 0 a\nget 0 a\nshow\n",
        "set a 0.1\npull 0 hot cold 0.1\nget 0 a 7 first\nget 0 a 7 queued 0\nget 0 a 7 already\nclass 0 hot 0\nclass 0 warm 0\nclass 0 cold 1 0.1:2:fa:3\nclass 0 dying 0\nclass 0 unused 1 1\nclass 0 retired 0\nworker 0 attempted 1 accepted 1 full 0 busy 0 refs 0 applied 0\n",
    ),
    (
        "store 1 1 4 1\nclass 2 0 5\nset a 0 7\nset b 0 8\npull 0 hot\npull 0 hot\nget 0 a\nget 0 a\nget 0 b\nget 0 b\nshow\n",
        "set a 0.1\nset b 1.1\npull 0 hot cold 0.1\npull 0 hot cold 1.1\nget 0 a 7 first\nget 0 a 7 queued 0\nget 0 b 8 first\nget 0 b 8 dropped full\nclass 0 hot 0\nclass 0 warm 0\nclass 0 cold 2 1.1:1:f:4 0.1:2:fa:3\nclass 0 dying 0\nclass 0 unused 0\nclass 0 retired 0\nworker 0 attempted 2 accepted 1 full 1 busy 0 refs 0 applied 0\n",
    ),
    (
        "store 1 1 4 1\nclass 2 0 5\nset a 0 7\nset b 0 8\npull 0 hot\npull 0 hot\nget 0 a\nget 0 a\nget 0 b\nget 0 b\ndrain\nget 0 b\n",
        "set a 0.1\nset b 1.1\npull 0 hot cold 0.1\npull 0 hot cold 1.1\nget 0 a 7 first\nget 0 a 7 queued 0\nget 0 b 8 first\nget 0 b 8 dropped full\nbump 0 0 0.1 warm\ndrain 1\nget 0 b 8 queued 1\n",
    ),
    (
        "store 1 4 4 1\nclass 2 0 5\nset a 0 7\npull 0 hot\nget 0 a\nget 0 a\npull 0 cold\ndrain\nshow\n",
        "set a 0.1\npull 0 hot cold 0.1\nget 0 a 7 first\nget 0 a 7 queued 0\npull 0 cold warm 0.1\nbump 0 0 0.1 time\ndrain 1\nclass 0 hot 0\nclass 0 warm 1 0.1:1:f:8\nclass 0 cold 0\nclass 0 dying 0\nclass 0 unused 1 1\nclass 0 retired 0\nworker 0 attempted 1 accepted 1 full 0 busy 0 refs 0 applied 1\n",
    ),
    (
        "store 1 4 4 1\nclass 3 0 5\nset a 0 1\nset b 0 2\nset c 0 3\npull 0 hot\npull 0 hot\npull 0 hot\nget 0 b\nget 0 b\ndrain\nshow\n",
        "set a 0.1\nset b 1.1\nset c 2.1\npull 0 hot cold 0.1\npull 0 hot cold 1.1\npull 0 hot cold 2.1\nget 0 b 2 first\nget 0 b 2 queued 0\nbump 0 0 1.1 warm\ndrain 1\nclass 0 hot 0\nclass 0 warm 1 1.1:1:f:11\nclass 0 cold 2 2.1:1:-:5 0.1:1:-:3\nclass 0 dying 0\nclass 0 unused 0\nclass 0 retired 0\nworker 0 attempted 1 accepted 1 full 0 busy 0 refs 0 applied 1\n",
    ),
    (
        "store 1 4 4 1\nclass 2 5 5\n###############################################################################################################################################################################################################################################################\n",
        "",
    ),
    (
        "store 1 4 4 1\nclass 1 5 5\nset a 0 7\nset a 0 8\nget 0 a\n",
        "set a 0.1\nset a full\nget 0 a 7 first\n",
    ),
];

/// Items of TEMP.
pub(super) const TEMP: [(&str, &str); 3] = [
    (
        "store 1 4 4 1\nclass 2 0 5\ntemp a 0 7\nget 0 a\nget 0 a\nget 0 a\npull 0 hot\npull 0 evict\nshow\ndel a\n",
        "temp a 0.1\nget 0 a 7 first\nget 0 a 7 marked\nget 0 a 7 already\npull 0 hot empty\npull 0 evict empty\nclass 0 hot 0\nclass 0 warm 0\nclass 0 cold 0\nclass 0 temp 1 0.1:1:fa:5\nclass 0 dying 0\nclass 0 unused 1 1\nclass 0 retired 0\nworker 0 attempted 0 accepted 0 full 0 busy 0 refs 0 applied 0\ndel a freed\n",
    ),
    (
        "store 1 4 4 1\nclass 1 0 5\nset a 0 7\ntemp b 0 8\n",
        "set a 0.1\ntemp b full\n",
    ),
    (
        "store 1 4 4 1\nclass 1 5 5\nclass 1 5 5\ntemp a 1 7\nshow\n",
        "temp a 1.1\nclass 0 hot 0\nclass 0 warm 0\nclass 0 cold 0\nclass 0 dying 0\nclass 0 unused 1 0\nclass 0 retired 0\nclass 1 hot 0\nclass 1 warm 0\nclass 1 cold 0\nclass 1 temp 1 1.1:1:-:4\nclass 1 dying 0\nclass 1 unused 0\nclass 1 retired 0\nworker 0 attempted 0 accepted 0 full 0 busy 0 refs 0 applied 0\n",
    ),
];

/// The most classes, the most workers, and the highest limit of references.
pub(super) const LARGEST: [(&str, &str); 3] = [
    (
        "store 1 1 2 1\nclass 1 0 0\nclass 1 0 0\nclass 1 0 0\nclass 1 0 0\nclass 1 0 0\nclass 1 0 0\nclass 1 0 0\nclass 1 0 0\nclass 1 0 0\nclass 1 0 0\nclass 1 0 0\nclass 1 0 0\nclass 1 0 0\nclass 1 0 0\nclass 1 0 0\nclass 1 0 0\nshow\nmoves\n",
        "class 0 hot 0\nclass 0 warm 0\nclass 0 cold 0\nclass 0 dying 0\nclass 0 unused 1 0\nclass 0 retired 0\nclass 1 hot 0\nclass 1 warm 0\nclass 1 cold 0\nclass 1 dying 0\nclass 1 unused 1 1\nclass 1 retired 0\nclass 2 hot 0\nclass 2 warm 0\nclass 2 cold 0\nclass 2 dying 0\nclass 2 unused 1 2\nclass 2 retired 0\nclass 3 hot 0\nclass 3 warm 0\nclass 3 cold 0\nclass 3 dying 0\nclass 3 unused 1 3\nclass 3 retired 0\nclass 4 hot 0\nclass 4 warm 0\nclass 4 cold 0\nclass 4 dying 0\nclass 4 unused 1 4\nclass 4 retired 0\nclass 5 hot 0\nclass 5 warm 0\nclass 5 cold 0\nclass 5 dying 0\nclass 5 unused 1 5\nclass 5 retired 0\nclass 6 hot 0\nclass 6 warm 0\nclass 6 cold 0\nclass 6 dying 0\nclass 6 unused 1 6\nclass 6 retired 0\nclass 7 hot 0\nclass 7 warm 0\nclass 7 cold 0\nclass 7 dying 0\nclass 7 unused 1 7\nclass 7 retired 0\nclass 8 hot 0\nclass 8 warm 0\nclass 8 cold 0\nclass 8 dying 0\nclass 8 unused 1 8\nclass 8 retired 0\nclass 9 hot 0\nclass 9 warm 0\nclass 9 cold 0\nclass 9 dying 0\nclass 9 unused 1 9\nclass 9 retired 0\nclass 10 hot 0\nclass 10 warm 0\nclass 10 cold 0\nclass 10 dying 0\nclass 10 unused 1 10\nclass 10 retired 0\nclass 11 hot 0\nclass 11 warm 0\nclass 11 cold 0\nclass 11 dying 0\nclass 11 unused 1 11\nclass 11 retired 0\nclass 12 hot 0\nclass 12 warm 0\nclass 12 cold 0\nclass 12 dying 0\nclass 12 unused 1 12\nclass 12 retired 0\nclass 13 hot 0\nclass 13 warm 0\nclass 13 cold 0\nclass 13 dying 0\nclass 13 unused 1 13\nclass 13 retired 0\nclass 14 hot 0\nclass 14 warm 0\nclass 14 cold 0\nclass 14 dying 0\nclass 14 unused 1 14\nclass 14 retired 0\nclass 15 hot 0\nclass 15 warm 0\nclass 15 cold 0\nclass 15 dying 0\nclass 15 unused 1 15\nclass 15 retired 0\nworker 0 attempted 0 accepted 0 full 0 busy 0 refs 0 applied 0\nmoves 0 0 0\nmoves 1 0 0\nmoves 2 0 0\nmoves 3 0 0\nmoves 4 0 0\nmoves 5 0 0\nmoves 6 0 0\nmoves 7 0 0\nmoves 8 0 0\nmoves 9 0 0\nmoves 10 0 0\nmoves 11 0 0\nmoves 12 0 0\nmoves 13 0 0\nmoves 14 0 0\nmoves 15 0 0\n",
    ),
    (
        "store 64 1 2 1\nclass 1 0 0\nmoves\n",
        "moves 0 0 0\nmoves 0 1 0\nmoves 0 2 0\nmoves 0 3 0\nmoves 0 4 0\nmoves 0 5 0\nmoves 0 6 0\nmoves 0 7 0\nmoves 0 8 0\nmoves 0 9 0\nmoves 0 10 0\nmoves 0 11 0\nmoves 0 12 0\nmoves 0 13 0\nmoves 0 14 0\nmoves 0 15 0\nmoves 0 16 0\nmoves 0 17 0\nmoves 0 18 0\nmoves 0 19 0\nmoves 0 20 0\nmoves 0 21 0\nmoves 0 22 0\nmoves 0 23 0\nmoves 0 24 0\nmoves 0 25 0\nmoves 0 26 0\nmoves 0 27 0\nmoves 0 28 0\nmoves 0 29 0\nmoves 0 30 0\nmoves 0 31 0\nmoves 0 32 0\nmoves 0 33 0\nmoves 0 34 0\nmoves 0 35 0\nmoves 0 36 0\nmoves 0 37 0\nmoves 0 38 0\nmoves 0 39 0\nmoves 0 40 0\nmoves 0 41 0\nmoves 0 42 0\nmoves 0 43 0\nmoves 0 44 0\nmoves 0 45 0\nmoves 0 46 0\nmoves 0 47 0\nmoves 0 48 0\nmoves 0 49 0\nmoves 0 50 0\nmoves 0 51 0\nmoves 0 52 0\nmoves 0 53 0\nmoves 0 54 0\nmoves 0 55 0\nmoves 0 56 0\nmoves 0 57 0\nmoves 0 58 0\nmoves 0 59 0\nmoves 0 60 0\nmoves 0 61 0\nmoves 0 62 0\nmoves 0 63 0\n",
    ),
    (
        "store 1 4 1048575 1\nclass 1 5 5\nset a 0 7\nhold 0 a h\nget 0 a\n",
        "set a 0.1\nhold 0 a h held\nget 0 a 7 first\n",
    ),
];

/// What `moves` counts, by class and worker: each move for a bump, whether it was drained or left by a closed worker;
/// no bump that found its item out of COLD or ended, and no move by a pull.
pub(super) const MOVES: [(&str, &str); 7] = [
    (
        "store 2 4 8 1\nclass 2 0 0\nset a 0 7\npull 0 hot\nget 0 a\nget 0 a\npull 0 cold\npull 0 warm\nget 1 a\ndrain\nmoves\n",
        "set a 0.1\npull 0 hot cold 0.1\nget 0 a 7 first\nget 0 a 7 queued 0\npull 0 cold warm 0.1\npull 0 warm cold 0.1\nget 1 a 7 queued 0\nbump 0 0 0.1 warm\nbump 1 0 0.1 time\ndrain 2\nmoves 0 0 1\nmoves 0 1 0\n",
    ),
    (
        "store 1 4 4 1\nclass 2 0 5\nset a 0 7\npull 0 hot\nget 0 a\nget 0 a\npull 0 cold\ndrain\nmoves\n",
        "set a 0.1\npull 0 hot cold 0.1\nget 0 a 7 first\nget 0 a 7 queued 0\npull 0 cold warm 0.1\nbump 0 0 0.1 time\ndrain 1\nmoves 0 0 0\n",
    ),
    (
        "store 1 4 4 1\nclass 2 0 5\nset a 0 7\npull 0 hot\nget 0 a\nget 0 a\ndel a\ndrain\nmoves\n",
        "set a 0.1\npull 0 hot cold 0.1\nget 0 a 7 first\nget 0 a 7 queued 0\ndel a deferred\nbump 0 0 0.1 gone freed\ndrain 1\nmoves 0 0 0\n",
    ),
    (
        "store 2 4 8 1\nclass 1 0 5\nclass 1 0 5\nset a 0 7\nset b 1 8\npull 0 hot\npull 1 hot\nget 1 b\nget 1 b\nget 0 a\nget 0 a\nclose 1\nmoves\ndrain\nmoves\n",
        "set a 0.1\nset b 1.1\npull 0 hot cold 0.1\npull 1 hot cold 1.1\nget 1 b 8 first\nget 1 b 8 queued 0\nget 0 a 7 first\nget 0 a 7 queued 0\nbump 1 0 1.1 warm\nclose 1 attempted 1 accepted 1 full 0 busy 0 refs 0 applied 1\nmoves 0 0 0\nmoves 0 1 0\nmoves 1 0 0\nmoves 1 1 1\nbump 0 0 0.1 warm\ndrain 1\nmoves 0 0 1\nmoves 0 1 0\nmoves 1 0 0\nmoves 1 1 1\n",
    ),
    (
        "store 1 1 4 1\nclass 1 0 0\nset a 0 7\npull 0 hot\nget 0 a\nget 0 a\ndrain\npull 0 warm\nget 0 a\ndrain\nmoves\n",
        "set a 0.1\npull 0 hot cold 0.1\nget 0 a 7 first\nget 0 a 7 queued 0\nbump 0 0 0.1 warm\ndrain 1\npull 0 warm cold 0.1\nget 0 a 7 queued 1\nbump 0 1 0.1 warm\ndrain 1\nmoves 0 0 2\n",
    ),
    (
        "store 3 4 8 1\nclass 3 0 5\nset a 0 7\nset b 0 8\nset c 0 9\npull 0 hot\npull 0 hot\npull 0 hot\nget 2 a\nget 2 a\nget 2 b\nget 2 b\nget 1 c\nget 1 c\ndrain\nmoves\n",
        "set a 0.1\nset b 1.1\nset c 2.1\npull 0 hot cold 0.1\npull 0 hot cold 1.1\npull 0 hot cold 2.1\nget 2 a 7 first\nget 2 a 7 queued 0\nget 2 b 8 first\nget 2 b 8 queued 1\nget 1 c 9 first\nget 1 c 9 queued 0\nbump 1 0 2.1 warm\nbump 2 0 0.1 warm\nbump 2 1 1.1 warm\ndrain 3\nmoves 0 0 0\nmoves 0 1 1\nmoves 0 2 2\n",
    ),
    (
        "store 1 4 4 1\nclass 1 0 5\nclass 1 0 5\nclass 1 0 5\nset a 2 7\npull 2 hot\nget 0 a\nget 0 a\ndrain\nmoves\n",
        "set a 2.1\npull 2 hot cold 2.1\nget 0 a 7 first\nget 0 a 7 queued 0\nbump 0 0 2.1 warm\ndrain 1\nmoves 0 0 0\nmoves 1 0 0\nmoves 2 0 1\n",
    ),
];

/// Traces that end with a fault of what they say.
pub(super) const WORKED_FAULTS: [(&str, &str); 10] = [
    ("", "line 1: ORDER\n"),
    ("store 0 4 4 1\nclass 2 5 5\nshow\n", "line 3: WORKERS\n"),
    ("store 1 0 4 1\nclass 2 5 5\n", "line 3: CAPACITY\n"),
    ("store 1 4 4 1\nclass 2 5 5\nsho", "line 3: TRUNCATED\n"),
    ("store 1 4 4 1\nclass 2 5 5\nfly 0\n", "line 3: COMMAND\n"),
    ("store 1 4 4 1\nclass 2 5 5\nset a 1 7\n", "line 3: CLASS\n"),
    ("store 1 4 4 1\nclass 2 5 5\nget 1 a\n", "line 3: WORKER\n"),
    ("store 1 4 4 1\nclass 2 5 5\nget 0 a\n", "line 3: UNBOUND\n"),
    (
        "store 1 4 4 1\nclass 2 5 5\nset a 0 07\n",
        "line 3: NUMBER\n",
    ),
    (
        "store 1 4 4 1\nclass 2 5 5\n################################################################################################################################################################################################################################################################\n",
        "line 3: LONG\n",
    ),
];

/// Traces that end with a fault of their bytes, their words or their order.
pub(super) const HOSTILE_FAULTS: [(&str, &str); 13] = [
    (
        "store 1 4 4 1\nclass 2 5 5\n################################################################################################################################################################################################################################################################",
        "line 3: LONG\n",
    ),
    ("store 1 4 4 1\nclass 2 5 5\nget 0  a\n", "line 3: COUNT\n"),
    ("store 1 4 4 1\nclass 2 5 5\nshow \n", "line 3: COUNT\n"),
    ("store 1 4 4 1\nclass 2 5 5\n show\n", "line 3: COMMAND\n"),
    ("store 1 4 4 1\nclass 2 5 5\nset A 0 7\n", "line 3: NAME\n"),
    (
        "store 1 4 4 1\nclass 2 5 5\nset aaaaaaaaaaaaaaaaaaaaaaaaaaaaaaaaa 0 7\n",
        "line 3: NAME\n",
    ),
    (
        "store 1 4 4 1\nclass 2 5 5\nget 4294967296 a\n",
        "line 3: NUMBER\n",
    ),
    (
        "store 1 4 4 1\nclass 2 5 5\nset a 0 18446744073709551616\n",
        "line 3: NUMBER\n",
    ),
    (
        "store 1 4 4 1\nclass 2 5 5\npull 0 temp\n",
        "line 3: SEGMENT\n",
    ),
    (
        "store 1 4 4 1\nclass 2 5 5\nstore 1 4 4 1\n",
        "line 3: ORDER\n",
    ),
    ("store 0 4 4 1\nclass 2 5 5\nfly 0\n", "line 3: COMMAND\n"),
    ("store 1 4 4 1\nshow\n", "line 2: CLASSES\n"),
    (
        "store 1 4 4 1\nclass 1000001 5 5\nshow\n",
        "line 3: CHUNKS\n",
    ),
];

/// A word too few or too many.
pub(super) const COUNT_FAULTS: [(&str, &str); 15] = [
    ("store 1 4 4\n", "line 1: COUNT\n"),
    ("store 1 4 4 1 1\n", "line 1: COUNT\n"),
    ("store 1 4 4 1\nclass 2 5\n", "line 2: COUNT\n"),
    ("store 1 4 4 1\nclass 2 5 5 1\n", "line 2: COUNT\n"),
    ("store 1 4 4 1\nclass 2 5 5\nset a 0\n", "line 3: COUNT\n"),
    (
        "store 1 4 4 1\nclass 2 5 5\nset a 0 7 1\n",
        "line 3: COUNT\n",
    ),
    ("store 1 4 4 1\nclass 2 5 5\nget 0\n", "line 3: COUNT\n"),
    ("store 1 4 4 1\nclass 2 5 5\nget 0 a 1\n", "line 3: COUNT\n"),
    ("store 1 4 4 1\nclass 2 5 5\npull 0\n", "line 3: COUNT\n"),
    (
        "store 1 4 4 1\nclass 2 5 5\npull 0 hot 1\n",
        "line 3: COUNT\n",
    ),
    ("store 1 4 4 1\nclass 2 5 5\ndrain 1\n", "line 3: COUNT\n"),
    ("store 1 4 4 1\nclass 2 5 5\nshow 1\n", "line 3: COUNT\n"),
    ("store 1 4 4 1\nclass 2 5 5\nmoves 0\n", "line 3: COUNT\n"),
    ("store 1 4 4 1\nclass 2 5 5\ntemp a 0\n", "line 3: COUNT\n"),
    (
        "store 1 4 4 1\nclass 2 5 5\ntemp a 0 7 1\n",
        "line 3: COUNT\n",
    ),
];

/// Each field wrong.
pub(super) const FIELD_FAULTS: [(&str, &str); 15] = [
    ("store 4294967296 4 4 1\n", "line 1: NUMBER\n"),
    ("store 1 4294967296 4 1\n", "line 1: NUMBER\n"),
    ("store 1 4 4294967296 1\n", "line 1: NUMBER\n"),
    ("store 1 4 4 4294967296\n", "line 1: NUMBER\n"),
    ("store 1 4 4 1\nclass 4294967296 5 5\n", "line 2: NUMBER\n"),
    ("store 1 4 4 1\nclass 2 4294967296 5\n", "line 2: NUMBER\n"),
    ("store 1 4 4 1\nclass 2 5 4294967296\n", "line 2: NUMBER\n"),
    ("store 1 4 4 1\nclass 2 5 5\nset A 0 7\n", "line 3: NAME\n"),
    (
        "store 1 4 4 1\nclass 2 5 5\nset a 4294967296 7\n",
        "line 3: NUMBER\n",
    ),
    (
        "store 1 4 4 1\nclass 2 5 5\nset a 0 18446744073709551616\n",
        "line 3: NUMBER\n",
    ),
    (
        "store 1 4 4 1\nclass 2 5 5\nget 4294967296 a\n",
        "line 3: NUMBER\n",
    ),
    ("store 1 4 4 1\nclass 2 5 5\nget 0 A\n", "line 3: NAME\n"),
    (
        "store 1 4 4 1\nclass 2 5 5\npull 4294967296 hot\n",
        "line 3: NUMBER\n",
    ),
    (
        "store 1 4 4 1\nclass 2 5 5\npull 0 hot_\n",
        "line 3: SEGMENT\n",
    ),
    (
        "store 1 4 4 1\nclass 2 5 5\ntemp a x 7\n",
        "line 3: NUMBER\n",
    ),
];

/// Several wrong fields, what there is no class or worker of, what may not stand there, and wrong configurations.
pub(super) const ORDER_FAULTS: [(&str, &str); 13] = [
    ("store 1 4 4 1\nclass 2 5 5\nset A x 7\n", "line 3: NAME\n"),
    (
        "store 1 4 4 1\nclass 2 5 5\nset a x y\n",
        "line 3: NUMBER\n",
    ),
    ("store 1 4 4 1\nclass 2 5 5\nget x A\n", "line 3: NUMBER\n"),
    (
        "store 1 4 4 1\nclass 2 5 5\npull x evict\n",
        "line 3: NUMBER\n",
    ),
    (
        "store 1 4 4 1\nclass 2 5 5\npull 1 hot\n",
        "line 3: CLASS\n",
    ),
    (
        "store 1 4 4 1\nclass 2 5 5\ntemp a 1 7\n",
        "line 3: CLASS\n",
    ),
    ("store 1 4 4 1\nclass 2 5 5\nget 1 zz\n", "line 3: WORKER\n"),
    (
        "store 1 4 4 1\nclass 2 5 5\nshow\nclass 2 5 5\n",
        "class 0 hot 0\nclass 0 warm 0\nclass 0 cold 0\nclass 0 dying 0\nclass 0 unused 2 0 1\nclass 0 retired 0\nworker 0 attempted 0 accepted 0 full 0 busy 0 refs 0 applied 0\nline 4: ORDER\n",
    ),
    ("show\n", "line 1: ORDER\n"),
    ("\n", "line 2: ORDER\n"),
    ("store 1 4 1 1\nclass 2 5 5\nshow\n", "line 3: REFS\n"),
    ("store 1 4 4 0\nclass 2 5 5\nshow\n", "line 3: GENERATION\n"),
    ("store 1 4 4 1\nclass 0 5 5\nshow\n", "line 3: CHUNKS\n"),
];
