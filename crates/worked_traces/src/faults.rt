//! Traces with a fault: each function has the text of a trace, which ends with the fault's line, as its clause, and
//! nothing to do.
#![tactic(auto, unfolding(crate::proofs::WorkedTraces::on_traces))]

ghost use Rattle.std.specs.Prelude.{◌≡◌, true, codes};
ghost use Rattle.bump_trace.specs.Meaning.{verdict_of};

/// Behind `par` stands no `show`.
pub fn show_after_par()
    ensures { verdict_of (codes "store 1 4 4 1\nclass 2 5 5\nset a 0 7\npar\nget 0 a\nshow\n") ≡ record { text = codes "set a 0.1\nget 0 a 7 first\nline 6: ORDER\n"; is_fault = true } }
{}

/// A closed worker is looked at after all faults.
pub fn faults_before_closed()
    ensures { verdict_of (codes "store 1 4 4 1\nclass 1 0 5\nset a 0 7\nhold 0 a h\nclose 0\nhit 0 h\nhold 0 a k\nhold 0 a h\n") ≡ record { text = codes "set a 0.1\nhold 0 a h held\nclose 0 attempted 0 accepted 0 full 0 busy 0 refs 0 applied 0\nhit 0 h closed\nhold 0 a k closed\nline 8: HELD\n"; is_fault = true } }
{}

/// A hold name in use is told after the names of its line.
pub fn held_before_unbound()
    ensures { verdict_of (codes "store 1 4 4 1\nclass 2 5 5\nset a 0 7\nhold 0 a h\nhold 0 b h\n") ≡ record { text = codes "set a 0.1\nhold 0 a h held\nline 5: UNBOUND\n"; is_fault = true } }
{}

/// A hold name in use is kept.
pub fn hold_in_use()
    ensures { verdict_of (codes "store 1 4 4 1\nclass 2 5 5\nset a 0 7\nhold 0 a h\nhold 0 a h\n") ≡ record { text = codes "set a 0.1\nhold 0 a h held\nline 5: HELD\n"; is_fault = true } }
{}

/// Behind `par` no item is stored.
pub fn set_after_par()
    ensures { verdict_of (codes "store 1 4 4 1\nclass 2 5 5\npar\nset a 1 7\n") ≡ record { text = codes "line 4: ORDER\n"; is_fault = true } }
{}

/// Item names and hold names are separate.
pub fn names_apart()
    ensures { verdict_of (codes "store 1 4 4 1\nclass 2 5 5\nset a 0 7\nhold 0 a h\nget 0 h\n") ≡ record { text = codes "set a 0.1\nhold 0 a h held\nline 5: UNBOUND\n"; is_fault = true } }
{}

/// An input without lines.
pub fn no_input()
    ensures { verdict_of (codes "") ≡ record { text = codes "line 1: ORDER\n"; is_fault = true } }
{}

/// No workers.
pub fn no_workers()
    ensures { verdict_of (codes "store 0 4 4 1\nclass 2 5 5\nshow\n") ≡ record { text = codes "line 3: WORKERS\n"; is_fault = true } }
{}

/// A fault of the configuration is found at the end of the input, where there is no command.
pub fn no_capacity()
    ensures { verdict_of (codes "store 1 0 4 1\nclass 2 5 5\n") ≡ record { text = codes "line 3: CAPACITY\n"; is_fault = true } }
{}

/// The input ends inside a line.
pub fn truncated()
    ensures { verdict_of (codes "store 1 4 4 1\nclass 2 5 5\nsho") ≡ record { text = codes "line 3: TRUNCATED\n"; is_fault = true } }
{}

/// The first word is no command.
pub fn no_command()
    ensures { verdict_of (codes "store 1 4 4 1\nclass 2 5 5\nfly 0\n") ≡ record { text = codes "line 3: COMMAND\n"; is_fault = true } }
{}

/// There is no class 1.
pub fn no_class()
    ensures { verdict_of (codes "store 1 4 4 1\nclass 2 5 5\nset a 1 7\n") ≡ record { text = codes "line 3: CLASS\n"; is_fault = true } }
{}

/// There is no worker 1.
pub fn no_worker()
    ensures { verdict_of (codes "store 1 4 4 1\nclass 2 5 5\nget 1 a\n") ≡ record { text = codes "line 3: WORKER\n"; is_fault = true } }
{}

/// The name was never bound.
pub fn unbound()
    ensures { verdict_of (codes "store 1 4 4 1\nclass 2 5 5\nget 0 a\n") ≡ record { text = codes "line 3: UNBOUND\n"; is_fault = true } }
{}

/// A number has no leading zero.
pub fn leading_zero()
    ensures { verdict_of (codes "store 1 4 4 1\nclass 2 5 5\nset a 0 07\n") ≡ record { text = codes "line 3: NUMBER\n"; is_fault = true } }
{}

/// A skipped line is too long, too.
pub fn long_comment()
    ensures { verdict_of (codes "store 1 4 4 1\nclass 2 5 5\n################################################################################################################################################################################################################################################################\n") ≡ record { text = codes "line 3: LONG\n"; is_fault = true } }
{}

/// So is the end of the input, before it is said to be inside a line.
pub fn long_end()
    ensures { verdict_of (codes "store 1 4 4 1\nclass 2 5 5\n################################################################################################################################################################################################################################################################") ≡ record { text = codes "line 3: LONG\n"; is_fault = true } }
{}

/// Two spaces have an empty word between them.
pub fn two_spaces()
    ensures { verdict_of (codes "store 1 4 4 1\nclass 2 5 5\nget 0  a\n") ≡ record { text = codes "line 3: COUNT\n"; is_fault = true } }
{}

/// So has a space at the end of a line.
pub fn space_behind()
    ensures { verdict_of (codes "store 1 4 4 1\nclass 2 5 5\nshow \n") ≡ record { text = codes "line 3: COUNT\n"; is_fault = true } }
{}

/// And a space in front, whose empty word is no command.
pub fn space_in_front()
    ensures { verdict_of (codes "store 1 4 4 1\nclass 2 5 5\n show\n") ≡ record { text = codes "line 3: COMMAND\n"; is_fault = true } }
{}

/// A name has small letters.
pub fn upper_case()
    ensures { verdict_of (codes "store 1 4 4 1\nclass 2 5 5\nset A 0 7\n") ≡ record { text = codes "line 3: NAME\n"; is_fault = true } }
{}

/// A name has at most 32 bytes.
pub fn long_name()
    ensures { verdict_of (codes "store 1 4 4 1\nclass 2 5 5\nset aaaaaaaaaaaaaaaaaaaaaaaaaaaaaaaaa 0 7\n") ≡ record { text = codes "line 3: NAME\n"; is_fault = true } }
{}

/// The number of a worker has 32 bits.
pub fn wide_worker()
    ensures { verdict_of (codes "store 1 4 4 1\nclass 2 5 5\nget 4294967296 a\n") ≡ record { text = codes "line 3: NUMBER\n"; is_fault = true } }
{}

/// A label has 64 bits.
pub fn wide_label()
    ensures { verdict_of (codes "store 1 4 4 1\nclass 2 5 5\nset a 0 18446744073709551616\n") ≡ record { text = codes "line 3: NUMBER\n"; is_fault = true } }
{}

/// There is no such segment.
pub fn no_segment()
    ensures { verdict_of (codes "store 1 4 4 1\nclass 2 5 5\npull 0 temp\n") ≡ record { text = codes "line 3: SEGMENT\n"; is_fault = true } }
{}

/// A second `store`.
pub fn second_store()
    ensures { verdict_of (codes "store 1 4 4 1\nclass 2 5 5\nstore 1 4 4 1\n") ≡ record { text = codes "line 3: ORDER\n"; is_fault = true } }
{}

/// A word that is no command comes before the faults of the configuration.
pub fn command_first()
    ensures { verdict_of (codes "store 0 4 4 1\nclass 2 5 5\nfly 0\n") ≡ record { text = codes "line 3: COMMAND\n"; is_fault = true } }
{}

/// No classes.
pub fn no_classes()
    ensures { verdict_of (codes "store 1 4 4 1\nshow\n") ≡ record { text = codes "line 2: CLASSES\n"; is_fault = true } }
{}

/// Too many chunks.
pub fn many_chunks()
    ensures { verdict_of (codes "store 1 4 4 1\nclass 1000001 5 5\nshow\n") ≡ record { text = codes "line 3: CHUNKS\n"; is_fault = true } }
{}

/// A hold name that is not in use.
pub fn no_hold()
    ensures { verdict_of (codes "store 1 4 4 1\nclass 2 5 5\ndrop h\n") ≡ record { text = codes "line 3: UNBOUND\n"; is_fault = true } }
{}
