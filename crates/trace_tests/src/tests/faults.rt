//! Traces with faults.

/// A trace for each fault word of a line, as short as can be.
pub(super) const EVERY_LINE_FAULT: [(&str, &str); 8] = [
    (
        "################################################################################################################################################################################################################################################################\n",
        "line 1: LONG\n",
    ),
    ("#", "line 1: TRUNCATED\n"),
    ("x\n", "line 1: COMMAND\n"),
    ("set\n", "line 1: COUNT\n"),
    ("close x\n", "line 1: NUMBER\n"),
    ("del A\n", "line 1: NAME\n"),
    ("pull 0 x\n", "line 1: SEGMENT\n"),
    ("", "line 1: ORDER\n"),
];

/// A trace for each fault word of a store, as short as can be.
pub(super) const EVERY_STORE_FAULT: [(&str, &str); 10] = [
    ("store 0 1 2 1\n", "line 2: WORKERS\n"),
    ("store 1 0 2 1\n", "line 2: CAPACITY\n"),
    ("store 1 1 1 1\n", "line 2: REFS\n"),
    ("store 1 1 2 0\n", "line 2: GENERATION\n"),
    ("store 1 1 2 1\n", "line 2: CLASSES\n"),
    ("store 1 1 2 1\nclass 0 0 0\n", "line 3: CHUNKS\n"),
    ("store 1 1 2 1\nclass 1 0 0\nclose 1\n", "line 3: WORKER\n"),
    ("store 1 1 2 1\nclass 1 0 0\nsweep 1\n", "line 3: CLASS\n"),
    ("store 1 1 2 1\nclass 1 0 0\ndel a\n", "line 3: UNBOUND\n"),
    (
        "store 1 1 3 1\nclass 1 0 0\nset a 0 0\nhold 0 a h\nhold 0 a h\n",
        "set a 0.1\nhold 0 a h held\nline 5: HELD\n",
    ),
];

/// A word too few or too many in each line.
pub(super) const LINE_COUNTS: [(&str, &str); 15] = [
    ("store 1 4 4 1\nclass 2 5 5\ndel\n", "line 3: COUNT\n"),
    ("store 1 4 4 1\nclass 2 5 5\ndel a b\n", "line 3: COUNT\n"),
    ("store 1 4 4 1\nclass 2 5 5\nsweep\n", "line 3: COUNT\n"),
    ("store 1 4 4 1\nclass 2 5 5\nsweep 0 0\n", "line 3: COUNT\n"),
    ("store 1 4 4 1\nclass 2 5 5\nclose\n", "line 3: COUNT\n"),
    ("store 1 4 4 1\nclass 2 5 5\nclose 0 0\n", "line 3: COUNT\n"),
    ("store 1 4 4 1\nclass 2 5 5\npar 0\n", "line 3: COUNT\n"),
    ("store 1 4 4 1\nclass 2 5 5\nhold 0 a\n", "line 3: COUNT\n"),
    (
        "store 1 4 4 1\nclass 2 5 5\nhold 0 a h h\n",
        "line 3: COUNT\n",
    ),
    ("store 1 4 4 1\nclass 2 5 5\nhit 0\n", "line 3: COUNT\n"),
    ("store 1 4 4 1\nclass 2 5 5\nhit 0 h h\n", "line 3: COUNT\n"),
    ("store 1 4 4 1\nclass 2 5 5\nread\n", "line 3: COUNT\n"),
    ("store 1 4 4 1\nclass 2 5 5\nread h h\n", "line 3: COUNT\n"),
    ("store 1 4 4 1\nclass 2 5 5\ndrop\n", "line 3: COUNT\n"),
    ("store 1 4 4 1\nclass 2 5 5\ndrop h h\n", "line 3: COUNT\n"),
];

/// Each field of each line wrong.
pub(super) const LINE_FIELDS: [(&str, &str); 12] = [
    ("store 1 4 4 1\nclass 2 5 5\ndel A\n", "line 3: NAME\n"),
    ("store 1 4 4 1\nclass 2 5 5\nsweep x\n", "line 3: NUMBER\n"),
    (
        "store 1 4 4 1\nclass 2 5 5\nsweep 4294967296\n",
        "line 3: NUMBER\n",
    ),
    ("store 1 4 4 1\nclass 2 5 5\nclose x\n", "line 3: NUMBER\n"),
    (
        "store 1 4 4 1\nclass 2 5 5\nclose 4294967296\n",
        "line 3: NUMBER\n",
    ),
    (
        "store 1 4 4 1\nclass 2 5 5\nhold x a h\n",
        "line 3: NUMBER\n",
    ),
    ("store 1 4 4 1\nclass 2 5 5\nhold 0 A h\n", "line 3: NAME\n"),
    ("store 1 4 4 1\nclass 2 5 5\nhold 0 a H\n", "line 3: NAME\n"),
    ("store 1 4 4 1\nclass 2 5 5\nhit x h\n", "line 3: NUMBER\n"),
    ("store 1 4 4 1\nclass 2 5 5\nhit 0 H\n", "line 3: NAME\n"),
    ("store 1 4 4 1\nclass 2 5 5\nread H\n", "line 3: NAME\n"),
    ("store 1 4 4 1\nclass 2 5 5\ndrop H\n", "line 3: NAME\n"),
];

/// Names, workers and classes that there are not.
pub(super) const LINE_NAMES: [(&str, &str); 15] = [
    ("store 1 4 4 1\nclass 2 5 5\ndel a\n", "line 3: UNBOUND\n"),
    ("store 1 4 4 1\nclass 2 5 5\nsweep 1\n", "line 3: CLASS\n"),
    ("store 1 4 4 1\nclass 2 5 5\nclose 1\n", "line 3: WORKER\n"),
    (
        "store 1 4 4 1\nclass 2 5 5\nhold 1 a h\n",
        "line 3: WORKER\n",
    ),
    (
        "store 1 4 4 1\nclass 2 5 5\nhold 0 a h\n",
        "line 3: UNBOUND\n",
    ),
    ("store 1 4 4 1\nclass 2 5 5\nhit 1 h\n", "line 3: WORKER\n"),
    ("store 1 4 4 1\nclass 2 5 5\nhit 0 h\n", "line 3: UNBOUND\n"),
    ("store 1 4 4 1\nclass 2 5 5\nread h\n", "line 3: UNBOUND\n"),
    ("store 1 4 4 1\nclass 2 5 5\ndrop h\n", "line 3: UNBOUND\n"),
    (
        "store 1 4 4 1\nclass 2 5 5\nset a 0 7\nhold 0 a h\nhold 0 a h\n",
        "set a 0.1\nhold 0 a h held\nline 5: HELD\n",
    ),
    (
        "store 1 4 4 1\nclass 2 5 5\nset a 0 7\nhold 0 a h\ndrop h\ndrop h\n",
        "set a 0.1\nhold 0 a h held\ndrop h\nline 6: UNBOUND\n",
    ),
    (
        "store 1 4 4 1\nclass 2 5 5\nset a 0 7\nhold 0 a h\ndrop h\nread h\n",
        "set a 0.1\nhold 0 a h held\ndrop h\nline 6: UNBOUND\n",
    ),
    (
        "store 1 4 4 1\nclass 2 5 5\nset a 0 7\nhold 0 a h\nread a\n",
        "set a 0.1\nhold 0 a h held\nline 5: UNBOUND\n",
    ),
    (
        "store 1 4 4 1\nclass 2 5 5\nset a 0 7\nhold 0 a h\nget 0 h\n",
        "set a 0.1\nhold 0 a h held\nline 5: UNBOUND\n",
    ),
    (
        "store 1 4 4 1\nclass 2 5 5\nset a 0 7\nhold 0 a h\ndel h\n",
        "set a 0.1\nhold 0 a h held\nline 5: UNBOUND\n",
    ),
];

/// What may not stand before the store is open, and each line that may not stand behind `par`.
pub(super) const LINE_ORDER: [(&str, &str); 14] = [
    ("par\n", "line 1: ORDER\n"),
    ("store 1 4 4 1\npar\n", "line 2: CLASSES\n"),
    (
        "store 1 4 4 1\nclass 2 5 5\npar\nstore 1 4 4 1\n",
        "line 4: ORDER\n",
    ),
    (
        "store 1 4 4 1\nclass 2 5 5\npar\nclass 2 5 5\n",
        "line 4: ORDER\n",
    ),
    (
        "store 1 4 4 1\nclass 2 5 5\npar\nset a 0 7\n",
        "line 4: ORDER\n",
    ),
    (
        "store 1 4 4 1\nclass 2 5 5\npar\ntemp a 0 7\n",
        "line 4: ORDER\n",
    ),
    (
        "store 1 4 4 1\nclass 2 5 5\npar\nhold 0 a h\n",
        "line 4: ORDER\n",
    ),
    (
        "store 1 4 4 1\nclass 2 5 5\npar\nhit 0 h\n",
        "line 4: ORDER\n",
    ),
    (
        "store 1 4 4 1\nclass 2 5 5\npar\nread h\n",
        "line 4: ORDER\n",
    ),
    (
        "store 1 4 4 1\nclass 2 5 5\npar\ndrop h\n",
        "line 4: ORDER\n",
    ),
    (
        "store 1 4 4 1\nclass 2 5 5\npar\nclose 0\n",
        "line 4: ORDER\n",
    ),
    ("store 1 4 4 1\nclass 2 5 5\npar\nshow\n", "line 4: ORDER\n"),
    (
        "store 1 4 4 1\nclass 2 5 5\npar\nmoves\n",
        "line 4: ORDER\n",
    ),
    ("store 1 4 4 1\nclass 2 5 5\npar\npar\n", "line 4: ORDER\n"),
];

/// Lines with two faults or more: those of a whole line, and of its first word.
pub(super) const PAIRS_OF_WORDS: [(&str, &str); 11] = [
    (
        "store 1 4 4 1\nclass 2 5 5\n################################################################################################################################################################################################################################################################",
        "line 3: LONG\n",
    ),
    (
        "store 1 4 4 1\nclass 2 5 5\nxxxxxxxxxxxxxxxxxxxxxxxxxxxxxxxxxxxxxxxxxxxxxxxxxxxxxxxxxxxxxxxxxxxxxxxxxxxxxxxxxxxxxxxxxxxxxxxxxxxxxxxxxxxxxxxxxxxxxxxxxxxxxxxxxxxxxxxxxxxxxxxxxxxxxxxxxxxxxxxxxxxxxxxxxxxxxxxxxxxxxxxxxxxxxxxxxxxxxxxxxxxxxxxxxxxxxxxxxxxxxxxxxxxxxxxxxxxxxxxxxxxxxxxxxxxxxxxx\n",
        "line 3: LONG\n",
    ),
    ("store 1 4 4 1\nclass 2 5 5\nfly", "line 3: TRUNCATED\n"),
    ("store 1 4 4 1\nclass 2 5 5\nshow 1", "line 3: TRUNCATED\n"),
    ("show", "line 1: TRUNCATED\n"),
    ("store 1 4 4 1\nclass 2 5 5\nfly 07\n", "line 3: COMMAND\n"),
    ("fly\n", "line 1: COMMAND\n"),
    ("store 1 4 4 1\nclass 2 5 5\nget 07\n", "line 3: COUNT\n"),
    ("get 07\n", "line 1: COUNT\n"),
    ("store 1 4 4 1\nclass 2 5 5\nget 07 A\n", "line 3: NUMBER\n"),
    ("store 1 4 4 1\nclass 2 5 5\nset A 07 x\n", "line 3: NAME\n"),
];

/// Lines with two faults or more: those of fields, and where the line stands.
pub(super) const PAIRS_OF_FIELDS: [(&str, &str); 11] = [
    (
        "store 1 4 4 1\nclass 2 5 5\npull 07 tepid\n",
        "line 3: NUMBER\n",
    ),
    (
        "store 1 4 4 1\nclass 2 5 5\nhold x A H\n",
        "line 3: NUMBER\n",
    ),
    ("store 1 4 4 1\nclass 2 5 5\nhold 0 A H\n", "line 3: NAME\n"),
    ("get x a\n", "line 1: NUMBER\n"),
    ("set A 0 7\n", "line 1: NAME\n"),
    ("pull 0 tepid\n", "line 1: SEGMENT\n"),
    (
        "store 1 4 4 1\nclass 2 5 5\npar\nset A 0 7\n",
        "line 4: NAME\n",
    ),
    (
        "store 1 4 4 1\nclass 2 5 5\npar\nset a 1 7\n",
        "line 4: ORDER\n",
    ),
    (
        "store 1 4 4 1\nclass 2 5 5\npar\nhit 1 h\n",
        "line 4: ORDER\n",
    ),
    (
        "store 1 4 4 1\nclass 2 5 5\npar\nclose 1\n",
        "line 4: ORDER\n",
    ),
    (
        "store 1 4 4 1\nclass 2 5 5\nshow 1\nstore 0 4 4 1\n",
        "line 3: COUNT\n",
    ),
];

/// Configurations with two faults or more.
pub(super) const PAIRS_OF_CONFIGS: [(&str, &str); 11] = [
    ("store 0 0 1 0\nshow\n", "line 2: WORKERS\n"),
    ("store 65 0 1 0\nshow\n", "line 2: WORKERS\n"),
    ("store 1 0 1 0\nshow\n", "line 2: CAPACITY\n"),
    ("store 1 65537 1 0\nshow\n", "line 2: CAPACITY\n"),
    ("store 1 4 1 0\nshow\n", "line 2: REFS\n"),
    ("store 1 4 1048576 0\nshow\n", "line 2: REFS\n"),
    ("store 1 4 1048576 1\nclass 1 5 5\nshow\n", "line 3: REFS\n"),
    ("store 1 4 4 0\nshow\n", "line 2: GENERATION\n"),
    (
        "store 1 4 4 1\nclass 0 5 5\nclass 0 5 5\nclass 0 5 5\nclass 0 5 5\nclass 0 5 5\nclass 0 5 5\nclass 0 5 5\nclass 0 5 5\nclass 0 5 5\nclass 0 5 5\nclass 0 5 5\nclass 0 5 5\nclass 0 5 5\nclass 0 5 5\nclass 0 5 5\nclass 0 5 5\nclass 0 5 5\nshow\n",
        "line 19: CLASSES\n",
    ),
    ("store 0 4 4 1\nclass 2 5 5\nget 1 a\n", "line 3: WORKERS\n"),
    (
        "store 1 4 4 1\nclass 0 5 5\nset a 1 7\n",
        "line 3: CHUNKS\n",
    ),
];

/// Lines with two faults or more: of a configuration, a worker and names.
pub(super) const PAIRS_OF_STORES: [(&str, &str); 10] = [
    ("store 0 4 4 1\nclass 2 5 5\nfly\n", "line 3: COMMAND\n"),
    ("store 0 4 4 1\nclass 2 5 5\nget x a\n", "line 3: NUMBER\n"),
    ("store 1 4 4 1\nclass 2 5 5\nget 1 a\n", "line 3: WORKER\n"),
    (
        "store 1 4 4 1\nclass 2 5 5\nhold 1 a h\n",
        "line 3: WORKER\n",
    ),
    ("store 1 4 4 1\nclass 2 5 5\nhit 1 h\n", "line 3: WORKER\n"),
    (
        "store 1 4 4 1\nclass 2 5 5\nset a 0 7\nhold 0 a h\nhold 0 b h\n",
        "set a 0.1\nhold 0 a h held\nline 5: UNBOUND\n",
    ),
    (
        "store 1 4 4 1\nclass 2 5 5\nset a 0 7\nhold 0 a h\nhold 1 a h\n",
        "set a 0.1\nhold 0 a h held\nline 5: WORKER\n",
    ),
    (
        "store 1 4 4 1\nclass 2 5 5\nclose 0\nget 0 b\n",
        "close 0 attempted 0 accepted 0 full 0 busy 0 refs 0 applied 0\nline 4: UNBOUND\n",
    ),
    (
        "store 1 4 4 1\nclass 2 5 5\nclose 0\nhit 0 h\n",
        "close 0 attempted 0 accepted 0 full 0 busy 0 refs 0 applied 0\nline 4: UNBOUND\n",
    ),
    (
        "store 1 4 4 1\nclass 2 5 5\nclose 0\nget 1 a\n",
        "close 0 attempted 0 accepted 0 full 0 busy 0 refs 0 applied 0\nline 4: WORKER\n",
    ),
];

/// What surprises: bytes that an editor may leave in a line, a name that was never bound, and which line a fault of the
/// configuration names.
pub(super) const SURPRISES: [(&str, &str); 7] = [
    ("store 1 4 4 1\r\n", "line 1: NUMBER\n"),
    ("store 1 4 4 1\nclass 2 5 5\nshow\r\n", "line 3: COMMAND\n"),
    ("store 1 4 4 1\n\r\n", "line 2: COMMAND\n"),
    ("\u{feff}store 1 4 4 1\n", "line 1: COMMAND\n"),
    (
        "store 1 4 4 1\nclass 1 5 5\nset a 0 7\nset b 0 8\nget 0 b\n",
        "set a 0.1\nset b full\nline 5: UNBOUND\n",
    ),
    (
        "store 1 4 4 1\nclass 0 5 5\n# a comment\nshow\n",
        "line 4: CHUNKS\n",
    ),
    ("store 1 4 4 1\nclass 0 5 5\n", "line 3: CHUNKS\n"),
];
