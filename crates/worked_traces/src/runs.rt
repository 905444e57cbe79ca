//! Traces that are run to their end: each function has the text of a trace as its clause, and nothing to do.
#![tactic(auto, unfolding(crate::proofs::WorkedTraces::on_traces))]

ghost use Rattle.std.specs.Prelude.{◌≡◌, false, codes};
ghost use Rattle.bump_trace.specs.Meaning.{verdict_of};

/// A new store: all chunks are free, in ascending order.
pub fn nothing_done()
    ensures { verdict_of (codes "store 1 4 4 1\nclass 2 5 5\nshow\n") ≡ record { text = codes "class 0 hot 0\nclass 0 warm 0\nclass 0 cold 0\nclass 0 dying 0\nclass 0 unused 2 0 1\nclass 0 retired 0\nworker 0 attempted 0 accepted 0 full 0 busy 0 refs 0 applied 0\n"; is_fault = false } }
{}

/// The second hit in HOT marks the item, stores the time and queues nothing.
pub fn hits_in_hot()
    ensures { verdict_of (codes "store 1 4 4 1\nclass 2 5 5\nset a 0 7\nget 0 a\nget 0 a\nshow\n") ≡ record { text = codes "set a 0.1\nget 0 a 7 first\nget 0 a 7 marked\nclass 0 hot 1 0.1:1:fa:5\nclass 0 warm 0\nclass 0 cold 0\nclass 0 dying 0\nclass 0 unused 1 1\nclass 0 retired 0\nworker 0 attempted 0 accepted 0 full 0 busy 0 refs 0 applied 0\n"; is_fault = false } }
{}

/// ACTIVE rescues an item even where the limit is 0.
pub fn rescue_from_hot()
    ensures { verdict_of (codes "store 1 4 4 1\nclass 2 0 0\nset a 0 7\nget 0 a\nget 0 a\npull 0 hot\nshow\n") ≡ record { text = codes "set a 0.1\nget 0 a 7 first\nget 0 a 7 marked\npull 0 hot warm 0.1\nclass 0 hot 0\nclass 0 warm 1 0.1:1:f:5\nclass 0 cold 0\nclass 0 dying 0\nclass 0 unused 1 1\nclass 0 retired 0\nworker 0 attempted 0 accepted 0 full 0 busy 0 refs 0 applied 0\n"; is_fault = false } }
{}

/// An item that was not hit goes from HOT to COLD, and stays there.
pub fn pulls_of_unmarked()
    ensures { verdict_of (codes "store 1 4 4 1\nclass 2 0 5\nset a 0 7\npull 0 hot\npull 0 hot\npull 0 cold\n") ≡ record { text = codes "set a 0.1\npull 0 hot cold 0.1\npull 0 hot empty\npull 0 cold stay 0.1\n"; is_fault = false } }
{}

/// A second hit in COLD queues a bump, which moves the item to WARM.
pub fn promotion()
    ensures { verdict_of (codes "store 1 4 4 1\nclass 2 0 5\nset a 0 7\npull 0 hot\nget 0 a\nget 0 a\ndrain\nshow\n") ≡ record { text = codes "set a 0.1\npull 0 hot cold 0.1\nget 0 a 7 first\nget 0 a 7 queued 0\nbump 0 0 0.1 warm\ndrain 1\nclass 0 hot 0\nclass 0 warm 1 0.1:1:f:7\nclass 0 cold 0\nclass 0 dying 0\nclass 0 unused 1 1\nclass 0 retired 0\nworker 0 attempted 1 accepted 1 full 0 busy 0 refs 0 applied 1\n"; is_fault = false } }
{}

/// While its bump waits, a further hit of the item does nothing.
pub fn already_queued()
    ensures { verdict_of (codes "store 1 4 4 1\nclass 2 0 5\nset a 0 7\npull 0 hot\nget 0 a\nget 0 a\nget 0 a\nshow\n") ≡ record { text = codes "set a 0.1\npull 0 hot cold 0.1\nget 0 a 7 first\nget 0 a 7 queued 0\nget 0 a 7 already\nclass 0 hot 0\nclass 0 warm 0\nclass 0 cold 1 0.1:2:fa:3\nclass 0 dying 0\nclass 0 unused 1 1\nclass 0 retired 0\nworker 0 attempted 1 accepted 1 full 0 busy 0 refs 0 applied 0\n"; is_fault = false } }
{}

/// A ring with room for one bump drops the next.
pub fn full_ring()
    ensures { verdict_of (codes "store 1 1 4 1\nclass 2 0 5\nset a 0 7\nset b 0 8\npull 0 hot\npull 0 hot\nget 0 a\nget 0 a\nget 0 b\nget 0 b\nshow\n") ≡ record { text = codes "set a 0.1\nset b 1.1\npull 0 hot cold 0.1\npull 0 hot cold 1.1\nget 0 a 7 first\nget 0 a 7 queued 0\nget 0 b 8 first\nget 0 b 8 dropped full\nclass 0 hot 0\nclass 0 warm 0\nclass 0 cold 2 1.1:1:f:4 0.1:2:fa:3\nclass 0 dying 0\nclass 0 unused 0\nclass 0 retired 0\nworker 0 attempted 2 accepted 1 full 1 busy 0 refs 0 applied 0\n"; is_fault = false } }
{}

/// A drained ring takes bumps again.
pub fn drained_ring()
    ensures { verdict_of (codes "store 1 1 4 1\nclass 2 0 5\nset a 0 7\nset b 0 8\npull 0 hot\npull 0 hot\nget 0 a\nget 0 a\nget 0 b\nget 0 b\ndrain\nget 0 b\n") ≡ record { text = codes "set a 0.1\nset b 1.1\npull 0 hot cold 0.1\npull 0 hot cold 1.1\nget 0 a 7 first\nget 0 a 7 queued 0\nget 0 b 8 first\nget 0 b 8 dropped full\nbump 0 0 0.1 warm\ndrain 1\nget 0 b 8 queued 1\n"; is_fault = false } }
{}

/// An item that a pull rescued is no longer in COLD when its bump is applied: its time is stored.
pub fn rescue_before_the_bump()
    ensures { verdict_of (codes "store 1 4 4 1\nclass 2 0 5\nset a 0 7\npull 0 hot\nget 0 a\nget 0 a\npull 0 cold\ndrain\nshow\n") ≡ record { text = codes "set a 0.1\npull 0 hot cold 0.1\nget 0 a 7 first\nget 0 a 7 queued 0\npull 0 cold warm 0.1\nbump 0 0 0.1 time\ndrain 1\nclass 0 hot 0\nclass 0 warm 1 0.1:1:f:8\nclass 0 cold 0\nclass 0 dying 0\nclass 0 unused 1 1\nclass 0 retired 0\nworker 0 attempted 1 accepted 1 full 0 busy 0 refs 0 applied 1\n"; is_fault = false } }
{}

/// The middle item of three is taken out of its list.
pub fn middle_of_three()
    ensures { verdict_of (codes "store 1 4 4 1\nclass 3 0 5\nset a 0 1\nset b 0 2\nset c 0 3\npull 0 hot\npull 0 hot\npull 0 hot\nget 0 b\nget 0 b\ndrain\nshow\n") ≡ record { text = codes "set a 0.1\nset b 1.1\nset c 2.1\npull 0 hot cold 0.1\npull 0 hot cold 1.1\npull 0 hot cold 2.1\nget 0 b 2 first\nget 0 b 2 queued 0\nbump 0 0 1.1 warm\ndrain 1\nclass 0 hot 0\nclass 0 warm 1 1.1:1:f:11\nclass 0 cold 2 2.1:1:-:5 0.1:1:-:3\nclass 0 dying 0\nclass 0 unused 0\nclass 0 retired 0\nworker 0 attempted 1 accepted 1 full 0 busy 0 refs 0 applied 1\n"; is_fault = false } }
{}

/// Only the ring held the item that was ended: its bump frees the chunk.
pub fn gone_before_the_bump()
    ensures { verdict_of (codes "store 1 4 4 1\nclass 2 0 5\nset a 0 7\npull 0 hot\nget 0 a\nget 0 a\ndel a\ndrain\nshow\n") ≡ record { text = codes "set a 0.1\npull 0 hot cold 0.1\nget 0 a 7 first\nget 0 a 7 queued 0\ndel a deferred\nbump 0 0 0.1 gone freed\ndrain 1\nclass 0 hot 0\nclass 0 warm 0\nclass 0 cold 0\nclass 0 dying 0\nclass 0 unused 2 0 1\nclass 0 retired 0\nworker 0 attempted 1 accepted 1 full 0 busy 0 refs 0 applied 1\n"; is_fault = false } }
{}

/// Two workers queue a bump of one item: the second bump finds it in WARM.
pub fn second_bump_of_a_life()
    ensures { verdict_of (codes "store 2 4 8 1\nclass 2 0 0\nset a 0 7\npull 0 hot\nget 0 a\nget 0 a\npull 0 cold\npull 0 warm\nget 1 a\ndrain\nshow\n") ≡ record { text = codes "set a 0.1\npull 0 hot cold 0.1\nget 0 a 7 first\nget 0 a 7 queued 0\npull 0 cold warm 0.1\npull 0 warm cold 0.1\nget 1 a 7 queued 0\nbump 0 0 0.1 warm\nbump 1 0 0.1 time\ndrain 2\nclass 0 hot 0\nclass 0 warm 1 0.1:1:f:10\nclass 0 cold 0\nclass 0 dying 0\nclass 0 unused 1 1\nclass 0 retired 0\nworker 0 attempted 1 accepted 1 full 0 busy 0 refs 0 applied 1\nworker 1 attempted 1 accepted 1 full 0 busy 0 refs 0 applied 1\n"; is_fault = false } }
{}

/// After the last generation the chunk is retired.
pub fn retired_chunk()
    ensures { verdict_of (codes "store 1 4 4 4294967295\nclass 1 5 5\nset a 0 7\ndel a\nset b 0 8\nshow\n") ≡ record { text = codes "set a 0.4294967295\ndel a freed\nset b full\nclass 0 hot 0\nclass 0 warm 0\nclass 0 cold 0\nclass 0 dying 0\nclass 0 unused 0\nclass 0 retired 1 0\nworker 0 attempted 0 accepted 0 full 0 busy 0 refs 0 applied 0\n"; is_fault = false } }
{}

/// An evict ends the last item of COLD, where there is one.
pub fn evicted()
    ensures { verdict_of (codes "store 1 4 4 1\nclass 2 0 5\npull 0 evict\nset a 0 7\npull 0 hot\npull 0 evict\n") ≡ record { text = codes "pull 0 evict empty\nset a 0.1\npull 0 hot cold 0.1\npull 0 evict freed 0.1\n"; is_fault = false } }
{}

/// ACTIVE keeps an item in WARM once more.
pub fn again_in_warm()
    ensures { verdict_of (codes "store 1 4 4 1\nclass 2 0 1\nset a 0 7\nget 0 a\nget 0 a\npull 0 hot\nget 0 a\npull 0 warm\npull 0 warm\nsweep 0\nshow\n") ≡ record { text = codes "set a 0.1\nget 0 a 7 first\nget 0 a 7 marked\npull 0 hot warm 0.1\nget 0 a 7 marked\npull 0 warm again 0.1\npull 0 warm stay 0.1\nsweep 0 0\nclass 0 hot 0\nclass 0 warm 1 0.1:1:f:7\nclass 0 cold 0\nclass 0 dying 0\nclass 0 unused 1 1\nclass 0 retired 0\nworker 0 attempted 0 accepted 0 full 0 busy 0 refs 0 applied 0\n"; is_fault = false } }
{}

/// An item of TEMP stays there, whatever is pulled; hits mark it and queue nothing.
pub fn hits_in_temp()
    ensures { verdict_of (codes "store 1 4 4 1\nclass 2 0 5\ntemp a 0 7\nget 0 a\nget 0 a\nget 0 a\npull 0 hot\npull 0 evict\nshow\ndel a\n") ≡ record { text = codes "temp a 0.1\nget 0 a 7 first\nget 0 a 7 marked\nget 0 a 7 already\npull 0 hot empty\npull 0 evict empty\nclass 0 hot 0\nclass 0 warm 0\nclass 0 cold 0\nclass 0 temp 1 0.1:1:fa:5\nclass 0 dying 0\nclass 0 unused 1 1\nclass 0 retired 0\nworker 0 attempted 0 accepted 0 full 0 busy 0 refs 0 applied 0\ndel a freed\n"; is_fault = false } }
{}

/// Where no chunk is free none goes to TEMP.
pub fn full_for_temp()
    ensures { verdict_of (codes "store 1 4 4 1\nclass 1 0 5\nset a 0 7\ntemp b 0 8\n") ≡ record { text = codes "set a 0.1\ntemp b full\n"; is_fault = false } }
{}

/// A move for a bump is counted for the worker whose bump it was; the other worker's bump found the item in WARM.
pub fn moves_of_two_workers()
    ensures { verdict_of (codes "store 2 4 8 1\nclass 2 0 0\nset a 0 7\npull 0 hot\nget 0 a\nget 0 a\npull 0 cold\npull 0 warm\nget 1 a\ndrain\nmoves\n") ≡ record { text = codes "set a 0.1\npull 0 hot cold 0.1\nget 0 a 7 first\nget 0 a 7 queued 0\npull 0 cold warm 0.1\npull 0 warm cold 0.1\nget 1 a 7 queued 0\nbump 0 0 0.1 warm\nbump 1 0 0.1 time\ndrain 2\nmoves 0 0 1\nmoves 0 1 0\n"; is_fault = false } }
{}

/// A move by a pull is no move for a bump.
pub fn moves_by_a_pull()
    ensures { verdict_of (codes "store 1 4 4 1\nclass 2 0 5\nset a 0 7\npull 0 hot\nget 0 a\nget 0 a\npull 0 cold\ndrain\nmoves\n") ≡ record { text = codes "set a 0.1\npull 0 hot cold 0.1\nget 0 a 7 first\nget 0 a 7 queued 0\npull 0 cold warm 0.1\nbump 0 0 0.1 time\ndrain 1\nmoves 0 0 0\n"; is_fault = false } }
{}

/// The second class has the chunks behind those of the first.
pub fn two_classes()
    ensures { verdict_of (codes "store 1 4 4 1\nclass 1 5 5\nclass 2 5 5\nset a 1 7\nshow\n") ≡ record { text = codes "set a 1.1\nclass 0 hot 0\nclass 0 warm 0\nclass 0 cold 0\nclass 0 dying 0\nclass 0 unused 1 0\nclass 0 retired 0\nclass 1 hot 1 1.1:1:-:4\nclass 1 warm 0\nclass 1 cold 0\nclass 1 dying 0\nclass 1 unused 1 2\nclass 1 retired 0\nworker 0 attempted 0 accepted 0 full 0 busy 0 refs 0 applied 0\n"; is_fault = false } }
{}

/// A worker that closes has its bumps applied, and takes no more.
pub fn closed_worker()
    ensures { verdict_of (codes "store 1 4 8 1\nclass 2 0 5\nset a 0 7\nset b 0 8\npull 0 hot\npull 0 hot\nget 0 a\nget 0 a\nget 0 b\nget 0 b\nclose 0\nget 0 a\nclose 0\n") ≡ record { text = codes "set a 0.1\nset b 1.1\npull 0 hot cold 0.1\npull 0 hot cold 1.1\nget 0 a 7 first\nget 0 a 7 queued 0\nget 0 b 8 first\nget 0 b 8 queued 1\nbump 0 0 0.1 warm\nbump 0 1 1.1 warm\nclose 0 attempted 2 accepted 2 full 0 busy 0 refs 0 applied 2\nget 0 a closed\nclose 0 closed\n"; is_fault = false } }
{}

/// A kept hold reads the label of its item, whatever is stored in the chunk's place; the old name is stale after that.
pub fn label_of_a_kept_hold()
    ensures { verdict_of (codes "store 1 4 4 1\nclass 1 5 5\nset a 0 7\nhold 0 a h\ndel a\nset b 0 9\nread h\ndrop h\nsweep 0\nset b 0 9\nget 0 a\nhold 0 a k\ndel a\n") ≡ record { text = codes "set a 0.1\nhold 0 a h held\ndel a deferred\nset b full\nread h 7\ndrop h\nsweep 0 1\nset b 0.2\nget 0 a miss\nhold 0 a k miss\ndel a gone\n"; is_fault = false } }
{}

/// At the limit of references no further hold is taken, and a bump is dropped.
pub fn limit_of_references()
    ensures { verdict_of (codes "store 1 4 2 1\nclass 2 0 5\nset a 0 7\nhold 0 a h\nhold 0 a k\nget 0 a\ndrop h\npull 0 hot\nget 0 a\nget 0 a\nshow\n") ≡ record { text = codes "set a 0.1\nhold 0 a h held\nhold 0 a k refs\nget 0 a refs\ndrop h\npull 0 hot cold 0.1\nget 0 a 7 first\nget 0 a 7 dropped refs\nclass 0 hot 0\nclass 0 warm 0\nclass 0 cold 1 0.1:1:f:3\nclass 0 dying 0\nclass 0 unused 1 1\nclass 0 retired 0\nworker 0 attempted 1 accepted 0 full 0 busy 0 refs 1 applied 0\n"; is_fault = false } }
{}

/// An evicted item that is held is freed by the sweep after its hold.
pub fn evicted_while_held()
    ensures { verdict_of (codes "store 1 4 4 1\nclass 2 0 5\npull 0 evict\nset a 0 7\npull 0 hot\nhold 0 a h\npull 0 evict\ndrop h\nsweep 0\n") ≡ record { text = codes "pull 0 evict empty\nset a 0.1\npull 0 hot cold 0.1\nhold 0 a h held\npull 0 evict deferred 0.1\ndrop h\nsweep 0 1\n"; is_fault = false } }
{}

/// An item that was ended while it is held may be hit on; its bump finds it gone.
pub fn hit_after_the_end()
    ensures { verdict_of (codes "store 1 4 4 1\nclass 1 0 5\nset a 0 7\npull 0 hot\nhold 0 a h\ndel a\nhit 0 h\nhit 0 h\ndrain\ndrop h\nsweep 0\n") ≡ record { text = codes "set a 0.1\npull 0 hot cold 0.1\nhold 0 a h held\ndel a deferred\nhit 0 h first\nhit 0 h queued 0\nbump 0 0 0.1 gone deferred\ndrain 1\ndrop h\nsweep 0 1\n"; is_fault = false } }
{}

/// Each hold name has a hold of its own: one is dropped, and the other still reads.
pub fn two_holds_of_one_item()
    ensures { verdict_of (codes "store 1 4 4 1\nclass 1 0 5\nset a 0 7\nhold 0 a h\nhold 0 a k\ndrop h\ndel a\nread k\nhit 0 k\nhold 0 a h\ndrop k\nsweep 0\n") ≡ record { text = codes "set a 0.1\nhold 0 a h held\nhold 0 a k held\ndrop h\ndel a deferred\nread k 7\nhit 0 k first\nhold 0 a h miss\ndrop k\nsweep 0 1\n"; is_fault = false } }
{}

/// A line of 255 bytes is not too long.
pub fn longest_comment()
    ensures { verdict_of (codes "store 1 4 4 1\nclass 2 5 5\n###############################################################################################################################################################################################################################################################\n") ≡ record { text = codes ""; is_fault = false } }
{}

/// The chunk has two lives left, and is retired after the second.
pub fn last_two_lives()
    ensures { verdict_of (codes "store 1 4 4 4294967294\nclass 1 5 5\nset a 0 7\ndel a\nset b 0 8\ndel b\nset c 0 9\nget 0 a\nget 0 b\nsweep 0\n") ≡ record { text = codes "set a 0.4294967294\ndel a freed\nset b 0.4294967295\ndel b freed\nset c full\nget 0 a miss\nget 0 b miss\nsweep 0 0\n"; is_fault = false } }
{}

/// A chunk that is held after its last life is retired by the sweep after its hold.
pub fn retired_after_its_hold()
    ensures { verdict_of (codes "store 1 4 4 4294967295\nclass 1 5 5\nset a 0 7\nhold 0 a h\ndel a\nsweep 0\ndrop h\nsweep 0\nshow\n") ≡ record { text = codes "set a 0.4294967295\nhold 0 a h held\ndel a deferred\nsweep 0 0\ndrop h\nsweep 0 1\nclass 0 hot 0\nclass 0 warm 0\nclass 0 cold 0\nclass 0 dying 0\nclass 0 unused 0\nclass 0 retired 1 0\nworker 0 attempted 0 accepted 0 full 0 busy 0 refs 0 applied 0\n"; is_fault = false } }
{}

/// The numbers of bumps go on, however small the ring is.
pub fn numbers_go_on()
    ensures { verdict_of (codes "store 1 1 4 1\nclass 1 0 0\nset a 0 7\npull 0 hot\nget 0 a\nget 0 a\ndrain\npull 0 warm\nget 0 a\ndrain\npull 0 warm\nget 0 a\ndrain\n") ≡ record { text = codes "set a 0.1\npull 0 hot cold 0.1\nget 0 a 7 first\nget 0 a 7 queued 0\nbump 0 0 0.1 warm\ndrain 1\npull 0 warm cold 0.1\nget 0 a 7 queued 1\nbump 0 1 0.1 warm\ndrain 1\npull 0 warm cold 0.1\nget 0 a 7 queued 2\nbump 0 2 0.1 warm\ndrain 1\n"; is_fault = false } }
{}
