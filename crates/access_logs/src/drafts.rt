//! A log while it is read.

ghost use Rattle.std.specs.Prelude.{◌≡◌, ◌+◌, ◌-◌, ◌<◌, ◌^◌, ℕ, Bool, List, [], ◌∷◌, ◌++◌, IfErr, OnOk, length};
ghost use Rattle.std.specs.List.{cons_option};
ghost use Rattle.access_logs.specs.Drafts.{IsDraftOf, IsLogOf};
ghost use Rattle.access_logs.specs.Entries.{Said, Taken, Unread, RefusesLog, access_of, said_by};

use crate::entries::{Entry, LogEntry};
use crate::log::{Defect, Log, LogFault, Unreadable};
use crate::numbering::Numbering;
use crate::operations::Operation;
use std::alloc::{AllocError, Global};

/// What was read of a log so far.
#[derive(Drop)]
pub struct Draft {
    numbering: Numbering,
    accesses: Vec<u32>,
    sizes: Vec<u32>,
    times: Vec<u64>,
    operations: Vec<Operation>,
    ttls: Vec<u64>,
    unreadable: u64,
    first_unreadable: Option<Unreadable>,
    strict: bool,
}

// One more in a list, where there is one.
fn push_some<T: Drop>(list: &mut Vec<T>, item: Option<T>) -> Result<(), AllocError>
    ensures { OnOk result (list.new.items ≡ list.old.items ++ cons_option item []) }
{
    if let Some(item) = item {
        list.push(item)?;
    }
    Ok(())
}

impl Draft {
    /// Nothing was read. Where it is strict, nothing that can't be read is taken.
    pub fn new(alloc: Global, strict: bool) -> Draft
        ensures { (first : ℕ) → IsDraftOf strict first [] result }
    {
        Draft {
            numbering: Numbering::new(alloc),
            accesses: Vec::new(alloc),
            sizes: Vec::new(alloc),
            times: Vec::new(alloc),
            operations: Vec::new(alloc),
            ttls: Vec::new(alloc),
            unreadable: 0,
            first_unreadable: None,
            strict,
        }
    }

    /// One more access. `TooManyKeys`, `Memory`.
    pub fn take_entry(&mut self, entry: LogEntry<'_>) -> Result<(), LogFault>
        ensures taken { (strict : Bool) (first : ℕ) (entries : List Said)
            → IsDraftOf strict first entries self.old
            → OnOk result (IsDraftOf strict first (entries ++ Taken (access_of entry.entry) ∷ []) self.new) }
        ensures refusal { (strict : Bool) (first : ℕ) (entries : List Said)
            → IsDraftOf strict first entries self.old
            → IfErr result (RefusesLog strict first (entries ++ Taken (access_of entry.entry) ∷ [])) }
    {
        let number = self.numbering.number_of(entry.key)?;
        if self.accesses.push(number).is_err() {
            return Err(LogFault::Memory);
        }
        if push_some(&mut self.sizes, entry.size).is_err() {
            return Err(LogFault::Memory);
        }
        if push_some(&mut self.times, entry.time).is_err() {
            return Err(LogFault::Memory);
        }
        if push_some(&mut self.operations, entry.operation).is_err() {
            return Err(LogFault::Memory);
        }
        if push_some(&mut self.ttls, entry.ttl).is_err() {
            return Err(LogFault::Memory);
        }
        Ok(())
    }

    /// One more line or record that can't be read, with its number and why. `Unreadable` where the draft is strict.
    pub fn take_unreadable(&mut self, number: u64, defect: Defect) -> Result<(), LogFault>
        requires { self.old.unreadable < 2 ^ 64 - 1 }
        ensures taken { (strict : Bool) (first : ℕ) (entries : List Said)
            → IsDraftOf strict first entries self.old
            → number ≡ first + length entries → OnOk result (IsDraftOf strict first (entries ++ Unread defect ∷ []) self.new) }
        ensures refusal { (strict : Bool) (first : ℕ) (entries : List Said)
            → IsDraftOf strict first entries self.old
            → number ≡ first + length entries → IfErr result (RefusesLog strict first (entries ++ Unread defect ∷ [])) }
    {
        let found = Unreadable { number, defect };
        if self.strict {
            return Err(LogFault::Unreadable(found));
        }
        self.unreadable += 1;
        if self.first_unreadable.is_none() {
            self.first_unreadable = Some(found);
        }
        Ok(())
    }

    /// One more line or record, with its number: what it says.
    pub fn take(&mut self, entry: Entry<'_>, number: u64) -> Result<(), LogFault>
        requires { self.old.unreadable < 2 ^ 64 - 1 }
        ensures taken { (strict : Bool) (first : ℕ) (entries : List Said)
            → IsDraftOf strict first entries self.old
            → number ≡ first + length entries
            → OnOk result (IsDraftOf strict first (entries ++ said_by entry.entry ∷ []) self.new) }
        ensures refusal { (strict : Bool) (first : ℕ) (entries : List Said)
            → IsDraftOf strict first entries self.old
            → number ≡ first + length entries
            → IfErr result (RefusesLog strict first (entries ++ said_by entry.entry ∷ [])) }
    {
        match entry {
            Entry::Access(entry) => self.take_entry(entry),
            Entry::Unreadable(defect) => self.take_unreadable(number, defect),
        }
    }

    /// The log that was read.
    pub fn finish(self) -> Log
        ensures log { (strict : Bool) (first : ℕ) (entries : List Said)
            → IsDraftOf strict first entries self
            → IsLogOf strict first entries result }
    {
        let keys = self.numbering.count();
        let Draft {
            accesses,
            sizes,
            times,
            operations,
            ttls,
            unreadable,
            first_unreadable,
            ..
        } = self;
        Log {
            accesses,
            sizes,
            times,
            operations,
            ttls,
            keys,
            unreadable,
            first_unreadable,
        }
    }
}
