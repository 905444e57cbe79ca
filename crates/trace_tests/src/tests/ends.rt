//! Worked traces of pulls, ends, evicts, sweeps, closings, holds, several workers and several classes.

/// What a pull finds to do, a bump that finds its item back in COLD and not ACTIVE, and a chunk that is retired by an
/// evict and a sweep.
pub(super) const PULLS: [(&str, &str); 3] = [
    (
        "store 1 4 4 1\nclass 3 1 1\npull 0 hot\npull 0 warm\npull 0 cold\nset a 0 7\npull 0 hot\nget 0 a\nget 0 a\nget 0 a\nshow\n",
        "pull 0 hot empty\npull 0 warm empty\npull 0 cold empty\nset a 0.1\npull 0 hot stay 0.1\nget 0 a 7 first\nget 0 a 7 marked\nget 0 a 7 already\nclass 0 hot 1 0.1:1:fa:9\nclass 0 warm 0\nclass 0 cold 0\nclass 0 dying 0\nclass 0 unused 2 1 2\nclass 0 retired 0\nworker 0 attempted 0 accepted 0 full 0 busy 0 refs 0 applied 0\n",
    ),
    (
        "store 1 4 4 1\nclass 2 0 0\nset a 0 7\npull 0 hot\nget 0 a\nget 0 a\npull 0 cold\npull 0 warm\ndrain\nshow\n",
        "set a 0.1\npull 0 hot cold 0.1\nget 0 a 7 first\nget 0 a 7 queued 0\npull 0 cold warm 0.1\npull 0 warm cold 0.1\nbump 0 0 0.1 time\ndrain 1\nclass 0 hot 0\nclass 0 warm 0\nclass 0 cold 1 0.1:1:f:9\nclass 0 dying 0\nclass 0 unused 1 1\nclass 0 retired 0\nworker 0 attempted 1 accepted 1 full 0 busy 0 refs 0 applied 1\n",
    ),
    (
        "store 1 4 4 4294967295\nclass 1 0 5\nset a 0 7\npull 0 hot\nhold 0 a h\npull 0 evict\nsweep 0\ndrop h\nsweep 0\nset b 0 8\nshow\n",
        "set a 0.4294967295\npull 0 hot cold 0.4294967295\nhold 0 a h held\npull 0 evict deferred 0.4294967295\nsweep 0 0\ndrop h\nsweep 0 1\nset b full\nclass 0 hot 0\nclass 0 warm 0\nclass 0 cold 0\nclass 0 dying 0\nclass 0 unused 0\nclass 0 retired 1 0\nworker 0 attempted 0 accepted 0 full 0 busy 0 refs 0 applied 0\n",
    ),
];

/// Ends, evicts, sweeps, closings, several workers and several classes.
pub(super) const ENDS: [(&str, &str); 7] = [
    (
        "store 1 4 4 1\nclass 2 0 5\nset a 0 7\npull 0 hot\nget 0 a\nget 0 a\ndel a\ndrain\nshow\n",
        "set a 0.1\npull 0 hot cold 0.1\nget 0 a 7 first\nget 0 a 7 queued 0\ndel a deferred\nbump 0 0 0.1 gone freed\ndrain 1\nclass 0 hot 0\nclass 0 warm 0\nclass 0 cold 0\nclass 0 dying 0\nclass 0 unused 2 0 1\nclass 0 retired 0\nworker 0 attempted 1 accepted 1 full 0 busy 0 refs 0 applied 1\n",
    ),
    (
        "store 2 4 8 1\nclass 2 0 0\nset a 0 7\npull 0 hot\nget 0 a\nget 0 a\npull 0 cold\npull 0 warm\nget 1 a\ndrain\nshow\n",
        "set a 0.1\npull 0 hot cold 0.1\nget 0 a 7 first\nget 0 a 7 queued 0\npull 0 cold warm 0.1\npull 0 warm cold 0.1\nget 1 a 7 queued 0\nbump 0 0 0.1 warm\nbump 1 0 0.1 time\ndrain 2\nclass 0 hot 0\nclass 0 warm 1 0.1:1:f:10\nclass 0 cold 0\nclass 0 dying 0\nclass 0 unused 1 1\nclass 0 retired 0\nworker 0 attempted 1 accepted 1 full 0 busy 0 refs 0 applied 1\nworker 1 attempted 1 accepted 1 full 0 busy 0 refs 0 applied 1\n",
    ),
    (
        "store 1 4 4 4294967295\nclass 1 5 5\nset a 0 7\ndel a\nset b 0 8\nshow\n",
        "set a 0.4294967295\ndel a freed\nset b full\nclass 0 hot 0\nclass 0 warm 0\nclass 0 cold 0\nclass 0 dying 0\nclass 0 unused 0\nclass 0 retired 1 0\nworker 0 attempted 0 accepted 0 full 0 busy 0 refs 0 applied 0\n",
    ),
    (
        "store 1 4 4 1\nclass 2 0 5\npull 0 evict\nset a 0 7\npull 0 hot\npull 0 evict\n",
        "pull 0 evict empty\nset a 0.1\npull 0 hot cold 0.1\npull 0 evict freed 0.1\n",
    ),
    (
        "store 1 4 4 1\nclass 2 0 1\nset a 0 7\nget 0 a\nget 0 a\npull 0 hot\nget 0 a\npull 0 warm\npull 0 warm\nsweep 0\nshow\n",
        "set a 0.1\nget 0 a 7 first\nget 0 a 7 marked\npull 0 hot warm 0.1\nget 0 a 7 marked\npull 0 warm again 0.1\npull 0 warm stay 0.1\nsweep 0 0\nclass 0 hot 0\nclass 0 warm 1 0.1:1:f:7\nclass 0 cold 0\nclass 0 dying 0\nclass 0 unused 1 1\nclass 0 retired 0\nworker 0 attempted 0 accepted 0 full 0 busy 0 refs 0 applied 0\n",
    ),
    (
        "store 1 4 4 1\nclass 1 5 5\nclass 2 5 5\nset a 1 7\nshow\n",
        "set a 1.1\nclass 0 hot 0\nclass 0 warm 0\nclass 0 cold 0\nclass 0 dying 0\nclass 0 unused 1 0\nclass 0 retired 0\nclass 1 hot 1 1.1:1:-:4\nclass 1 warm 0\nclass 1 cold 0\nclass 1 dying 0\nclass 1 unused 1 2\nclass 1 retired 0\nworker 0 attempted 0 accepted 0 full 0 busy 0 refs 0 applied 0\n",
    ),
    (
        "store 1 4 8 1\nclass 2 0 5\nset a 0 7\nset b 0 8\npull 0 hot\npull 0 hot\nget 0 a\nget 0 a\nget 0 b\nget 0 b\nclose 0\nget 0 a\nclose 0\n",
        "set a 0.1\nset b 1.1\npull 0 hot cold 0.1\npull 0 hot cold 1.1\nget 0 a 7 first\nget 0 a 7 queued 0\nget 0 b 8 first\nget 0 b 8 queued 1\nbump 0 0 0.1 warm\nbump 0 1 1.1 warm\nclose 0 attempted 2 accepted 2 full 0 busy 0 refs 0 applied 2\nget 0 a closed\nclose 0 closed\n",
    ),
];

/// The last generations of a chunk, and numbers of bumps that go on behind the room of a ring.
pub(super) const LAST_COUNTS: [(&str, &str); 3] = [
    (
        "store 1 4 4 4294967294\nclass 1 5 5\nset a 0 7\ndel a\nset b 0 8\ndel b\nset c 0 9\nget 0 a\nget 0 b\nsweep 0\n",
        "set a 0.4294967294\ndel a freed\nset b 0.4294967295\ndel b freed\nset c full\nget 0 a miss\nget 0 b miss\nsweep 0 0\n",
    ),
    (
        "store 1 4 4 4294967295\nclass 1 5 5\nset a 0 7\nhold 0 a h\ndel a\nsweep 0\ndrop h\nsweep 0\nshow\n",
        "set a 0.4294967295\nhold 0 a h held\ndel a deferred\nsweep 0 0\ndrop h\nsweep 0 1\nclass 0 hot 0\nclass 0 warm 0\nclass 0 cold 0\nclass 0 dying 0\nclass 0 unused 0\nclass 0 retired 1 0\nworker 0 attempted 0 accepted 0 full 0 busy 0 refs 0 applied 0\n",
    ),
    (
        "store 1 1 4 1\nclass 1 0 0\nset a 0 7\npull 0 hot\nget 0 a\nget 0 a\ndrain\npull 0 warm\nget 0 a\ndrain\npull 0 warm\nget 0 a\ndrain\n",
        "set a 0.1\npull 0 hot cold 0.1\nget 0 a 7 first\nget 0 a 7 queued 0\nbump 0 0 0.1 warm\ndrain 1\npull 0 warm cold 0.1\nget 0 a 7 queued 1\nbump 0 1 0.1 warm\ndrain 1\npull 0 warm cold 0.1\nget 0 a 7 queued 2\nbump 0 2 0.1 warm\ndrain 1\n",
    ),
];

/// Holds that are kept.
pub(super) const HOLDS: [(&str, &str); 5] = [
    (
        "store 1 4 4 1\nclass 1 5 5\nset a 0 7\nhold 0 a h\ndel a\nset b 0 9\nread h\ndrop h\nsweep 0\nset b 0 9\nget 0 a\nhold 0 a k\ndel a\n",
        "set a 0.1\nhold 0 a h held\ndel a deferred\nset b full\nread h 7\ndrop h\nsweep 0 1\nset b 0.2\nget 0 a miss\nhold 0 a k miss\ndel a gone\n",
    ),
    (
        "store 1 4 2 1\nclass 2 0 5\nset a 0 7\nhold 0 a h\nhold 0 a k\nget 0 a\ndrop h\npull 0 hot\nget 0 a\nget 0 a\nshow\n",
        "set a 0.1\nhold 0 a h held\nhold 0 a k refs\nget 0 a refs\ndrop h\npull 0 hot cold 0.1\nget 0 a 7 first\nget 0 a 7 dropped refs\nclass 0 hot 0\nclass 0 warm 0\nclass 0 cold 1 0.1:1:f:3\nclass 0 dying 0\nclass 0 unused 1 1\nclass 0 retired 0\nworker 0 attempted 1 accepted 0 full 0 busy 0 refs 1 applied 0\n",
    ),
    (
        "store 1 4 4 1\nclass 2 0 5\npull 0 evict\nset a 0 7\npull 0 hot\nhold 0 a h\npull 0 evict\ndrop h\nsweep 0\n",
        "pull 0 evict empty\nset a 0.1\npull 0 hot cold 0.1\nhold 0 a h held\npull 0 evict deferred 0.1\ndrop h\nsweep 0 1\n",
    ),
    (
        "store 1 4 4 1\nclass 1 0 5\nset a 0 7\npull 0 hot\nhold 0 a h\ndel a\nhit 0 h\nhit 0 h\ndrain\ndrop h\nsweep 0\n",
        "set a 0.1\npull 0 hot cold 0.1\nhold 0 a h held\ndel a deferred\nhit 0 h first\nhit 0 h queued 0\nbump 0 0 0.1 gone deferred\ndrain 1\ndrop h\nsweep 0 1\n",
    ),
    (
        "store 1 4 4 1\nclass 1 0 5\nset a 0 7\nhold 0 a h\nhold 0 a k\ndrop h\ndel a\nread k\nhit 0 k\nhold 0 a h\ndrop k\nsweep 0\n",
        "set a 0.1\nhold 0 a h held\nhold 0 a k held\ndrop h\ndel a deferred\nread k 7\nhit 0 k first\nhold 0 a h miss\ndrop k\nsweep 0 1\n",
    ),
];

/// What may not stand behind `par`, and what is told of a closed worker.
pub(super) const LATE_FAULTS: [(&str, &str); 2] = [
    (
        "store 1 4 4 1\nclass 2 5 5\nset a 0 7\npar\nget 0 a\nshow\n",
        "set a 0.1\nget 0 a 7 first\nline 6: ORDER\n",
    ),
    (
        "store 1 4 4 1\nclass 1 0 5\nset a 0 7\nhold 0 a h\nclose 0\nhit 0 h\nhold 0 a k\nhold 0 a h\n",
        "set a 0.1\nhold 0 a h held\nclose 0 attempted 0 accepted 0 full 0 busy 0 refs 0 applied 0\nhit 0 h closed\nhold 0 a k closed\nline 8: HELD\n",
    ),
];

/// A trace that has each line of the language, as short as can be, and its text.
pub(super) const EVERY_LINE: (&str, &str) = (
    "store 1 1 4 1\nclass 1 0 5\nset a 0 7\npull 0 hot\nhold 0 a h\nhit 0 h\nhit 0 h\nget 0 a\nread h\ndel a\ndrain\ndrop h\nsweep 0\ntemp b 0 8\nclose 0\nshow\nmoves\npar\nsweep 0\n",
    "set a 0.1\npull 0 hot cold 0.1\nhold 0 a h held\nhit 0 h first\nhit 0 h queued 0\nget 0 a 7 already\nread h 7\ndel a deferred\nbump 0 0 0.1 gone deferred\ndrain 1\ndrop h\nsweep 0 1\ntemp b 0.2\nclose 0 attempted 1 accepted 1 full 0 busy 0 refs 0 applied 1\nclass 0 hot 0\nclass 0 warm 0\nclass 0 cold 0\nclass 0 temp 1 0.2:1:-:14\nclass 0 dying 0\nclass 0 unused 0\nclass 0 retired 0\nworker 0 attempted 1 accepted 1 full 0 busy 0 refs 0 applied 1\nmoves 0 0 0\nsweep 0 0\n",
);

/// A longer trace with each line of the language, and its text.
pub(super) const MIXED_LINES: (&str, &str) = (
    "# each line of the language\nstore 2 2 8 1\nclass 3 0 1\nclass 1 5 5\nset a 0 7\nset b 0 8\nset c 1 9\nset d 1 10\npull 0 hot\npull 0 hot\nhold 1 a h\nhold 1 a h2\nget 0 a\nget 0 a\nhit 1 h\nread h\nget 0 b\nget 0 b\nget 0 b\ndel a\ndrain\ndrop h\ndrop h2\nsweep 0\npull 0 warm\npull 0 cold\npull 0 evict\nclose 0\nget 0 c\nhold 0 c k\nclose 0\nget 1 a\ndel a\nshow\npar\nget 1 c\ndel c\npull 1 hot\nsweep 1\ndrain\n",
    "set a 0.1\nset b 1.1\nset c 3.1\nset d full\npull 0 hot cold 0.1\npull 0 hot cold 1.1\nhold 1 a h held\nhold 1 a h2 held\nget 0 a 7 first\nget 0 a 7 queued 0\nhit 1 h already\nread h 7\nget 0 b 8 first\nget 0 b 8 queued 1\nget 0 b 8 already\ndel a deferred\nbump 0 0 0.1 gone deferred\nbump 0 1 1.1 warm\ndrain 2\ndrop h\ndrop h2\nsweep 0 1\npull 0 warm stay 1.1\npull 0 cold empty\npull 0 evict empty\nclose 0 attempted 2 accepted 2 full 0 busy 0 refs 0 applied 2\nget 0 c closed\nhold 0 c k closed\nclose 0 closed\nget 1 a miss\ndel a gone\nclass 0 hot 0\nclass 0 warm 1 1.1:1:f:21\nclass 0 cold 0\nclass 0 dying 0\nclass 0 unused 2 0 2\nclass 0 retired 0\nclass 1 hot 1 3.1:1:-:7\nclass 1 warm 0\nclass 1 cold 0\nclass 1 dying 0\nclass 1 unused 0\nclass 1 retired 0\nworker 0 attempted 2 accepted 2 full 0 busy 0 refs 0 applied 2\nworker 1 attempted 0 accepted 0 full 0 busy 0 refs 0 applied 0\nget 1 c 9 first\ndel c freed\npull 1 hot empty\nsweep 1 0\ndrain 0\n",
);
