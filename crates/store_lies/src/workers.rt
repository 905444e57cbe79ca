//! A worker and its holds, as a caller calls them.
ghost use Rattle.bump_unlocked.specs.Gets.{Got, GotAny};
ghost use Rattle.bump_unlocked.specs.StepCounts.{MakesAtMost};
ghost use Rattle.bump_unlocked.specs.Touches.{Findings as TheFindings, Touched};
ghost use Rattle.bump_readers.specs.Attempts.{attempts_in};
ghost use Rattle.bump_readers.specs.Taking.{IsTakenBy};
ghost use Rattle.bump_rules.specs.Rings.{most_attempts, IsAccounts};
ghost use Rattle.bump_rules.specs.declared.items.Head.{Head as TheHead};
ghost use Rattle.bump_steps.specs.References.{new_hold, IsRow, words_in, word_of_row};
ghost use Rattle.bump_steps.specs.Rule.{chunks as all_chunks};
ghost use Rattle.std.specs.Prelude.{◌≡◌, ◌<◌, ◌≤◌, List, Err, IfOk, length};
ghost use Rattle.bump_unlocked.specs.declared.refusals.GetAnyRefusal.TheVariants as refused_any;
ghost use Rattle.bump_unlocked.specs.declared.refusals.GetRefusal.TheVariants as refused;
ghost use Rattle.bump_rules.specs.declared.commands.Touch.TheVariants as touch;
ghost use Rattle.bump_rules.specs.declared.hands.Hand.TheVariants as hand;

use bump_store::{
    Accounts, ClosedWorker, GetAnyRefusal, GetRefusal, Head, Hold, ItemId, Name, ReaderHeads,
    RowLaw, Touch, Worker,
};

/// Takes a hold of an item.
pub fn get<N: Name, L: RowLaw>(
    worker: &mut Worker<N>,
    heads: &ReaderHeads<N, L>,
    id: ItemId,
) -> Result<Hold<N>, GetRefusal>
    ensures missing { all_chunks heads.now ≤ id.chunk → (result ≡ Err refused.NoSuchChunk) × (worker.new ≡ worker.old) }
    ensures got { id.chunk < all_chunks heads.now → (first : TheHead) × (more : List TheHead)
        × Got heads.now.refs_limit id worker.old worker.new result first more }
    ensures hold { IfOk result (λ h. h ≡ new_hold id h.row) }
    ensures row { IfOk result (λ h. IsRow N.table.slots h.row) }
    ensures law { IfOk result (λ h. L.law (words_in h.row)) }
    ensures few { MakesAtMost 1 8 0 worker.old.sheet.steps worker.new.sheet.steps }
    ensures sender { worker.new.sender ≡ worker.old.sender }
{
    worker.get(heads, id)
}

/// Takes a hold of whatever item is linked in a chunk.
pub fn get_any<N: Name, L: RowLaw>(
    worker: &mut Worker<N>,
    heads: &ReaderHeads<N, L>,
    chunk: u32,
) -> Result<(Hold<N>, Head), GetAnyRefusal>
    ensures missing { all_chunks heads.now ≤ chunk → (result ≡ Err refused_any.NoSuchChunk) × (worker.new ≡ worker.old) }
    ensures got { chunk < all_chunks heads.now → (first : TheHead) × (more : List TheHead)
        × GotAny heads.now.refs_limit chunk worker.old worker.new result first more }
    ensures chunk { IfOk result (λ told. told.0.life.chunk ≡ chunk) }
    ensures found { IfOk result (λ told. IsTakenBy heads.now.refs_limit told.0.life told.1) }
    ensures hold { IfOk result (λ told. told.0 ≡ new_hold told.0.life told.0.row) }
    ensures row { IfOk result (λ told. IsRow N.table.slots told.0.row) }
    ensures law { IfOk result (λ told. L.law (words_in told.0.row)) }
    ensures few { MakesAtMost 1 8 0 worker.old.sheet.steps worker.new.sheet.steps }
    ensures sender { worker.new.sender ≡ worker.old.sender }
{
    worker.get_any(heads, chunk)
}

/// A hit of the item that is held.
pub fn touch<N: Name, L: RowLaw>(
    worker: &mut Worker<N>,
    heads: &ReaderHeads<N, L>,
    hold: &mut Hold<N>,
    now: u64,
) -> Touch
    ensures exhausted { worker.old.sheet.accounts.attempted ≡ most_attempts → (result ≡ touch.Exhausted)
        × (worker.new ≡ worker.old) }
    ensures touched { worker.old.sheet.accounts.attempted < most_attempts → (found : TheFindings)
        × Touched heads.now.refs_limit hold.old.life now worker.old worker.new result found }
    ensures few { MakesAtMost 1 8 4 worker.old.sheet.steps worker.new.sheet.steps }
    ensures taken { worker.new.sheet.taken ≡ worker.old.sheet.taken }
    ensures hold { hold.new ≡ hold.old }
    ensures ring { worker.new.sender.ring ≡ worker.old.sender.ring }
{
    worker.touch(heads, hold, now)
}

/// A worker's counts.
pub fn counts<N: Name>(worker: &Worker<N>) -> Accounts
    ensures counts { result ≡ worker.now.sheet.accounts }
    ensures add_up { IsAccounts result (length worker.now.sender.sent) hand.Idle }
    ensures attempts { result.attempted ≡ attempts_in worker.now.sheet.steps }
{
    worker.counts()
}

/// A closed worker's counts.
pub fn last_counts<N: Name>(closed: &ClosedWorker<N>) -> Accounts
    ensures counts { result ≡ closed.now.sheet.accounts }
    ensures add_up { IsAccounts result (length closed.now.sender.sent) hand.Idle }
    ensures attempts { result.attempted ≡ attempts_in closed.now.sheet.steps }
{
    closed.counts()
}

/// A further word of it.
pub fn word<N: Name, L: RowLaw>(hold: &mut Hold<N>, heads: &ReaderHeads<N, L>, index: u32) -> u64
    requires index { index < N.table.slots }
    ensures is { result ≡ word_of_row hold.old.row index }
    ensures same { hold.new ≡ hold.old }
{
    hold.word(heads, index)
}
