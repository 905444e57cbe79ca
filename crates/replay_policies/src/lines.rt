//! A queue of keys from which any key can be taken out, wherever it stands.
ghost use Rattle.std.specs.Prelude.{◌≡◌, ◌≢◌, ℕ, ◌+◌, ◌-◌, ◌<◌, ◌≤◌, ◌^◌, Some, is_some, IfOk, OnOk, IfSome, IsSome, ◌↔◌};
ghost use Rattle.replay_policies.specs.Lines.{IsKept, entry_at};
ghost use Rattle.replay_policies.specs.Tables.{HasPlace, held, number_of};

use crate::entries::Entry;
use crate::tables::KeyTable;
use bump_links::{Links, NODES_MAX};
use std::alloc::{AllocError, Global};
use std::marker::Model;

// The list of the places that are free.
const FREE: u32 = 0;

// The list of those that have a key, the newest first.
const USED: u32 = 1;

// A queue of keys. It has memory for so many from the start, so that to put one in is never refused. Each of its places
// is a node of two lists, and the table has the node of each key, so that no call looks through the keys.
#[derive(Drop)]
pub(crate) struct Line {
    links: Links,
    entries: Vec<Entry>,
    table: KeyTable,
}

impl Model for Line {
    ghost use Rattle.replay_policies.specs.Lines.{LineView, IsLine, line_view};

    ghost Value = { LineView };

    ghost view = { λ l. line_view l.links l.entries.items l.table };

    ghost invariant = { λ l. IsLine l.links l.entries.items l.table };
}

impl Line {
    // A queue without keys. It is refused only for want of memory.
    pub(crate) fn new(alloc: Global, room: u32) -> Result<Line, AllocError>
        requires some { 1 ≤ room }
        requires few { room ≤ NODES_MAX }
        ensures room { IfOk result (λ line. line.room ≡ room) }
        ensures empty { IfOk result (λ line. line.count ≡ 0) }
        ensures keys { IfOk result (λ line. (k : ℕ) → held line.table k ≡ 0) }
    {
        let none = Entry { key: 0, uses: 0 };
        Ok(Line {
            links: Links::new(alloc, room, 2, FREE)?,
            entries: vec![in alloc; none; room as usize]?,
            table: KeyTable::new(alloc),
        })
    }

    // How many keys are in it.
    pub(crate) fn len(&self) -> usize
        ensures count { result ≡ self.now.count }
        ensures small { result < 2 ^ 32 }
    {
        self.links.len(USED) as usize
    }

    // Whether a key is in it.
    pub(crate) fn has(&self, key: u32) -> bool
        ensures { result ≡ is_some (number_of self.now.table key) }
    {
        self.table.get(key).is_some()
    }

    // Asks for a key, and tells whether it is in the queue. It has one use more then, up to so many.
    pub(crate) fn ask(&mut self, key: u32, most: u32) -> bool
        ensures hit { result ≡ is_some (number_of self.old.table key) }
        ensures count { self.new.count ≡ self.old.count }
        ensures room { self.new.room ≡ self.old.room }
        ensures table { self.new.table ≡ self.old.table }
    {
        let Some(node) = self.table.get(key) else {
            return false;
        };
        let uses = self.entries[node as usize].uses;
        let more = if uses < most { uses + 1 } else { most };
        self.entries[node as usize] = Entry { key, uses: more };
        true
    }

    // Makes a place in the table for a key that is to be put in. It is refused only for want of memory; nothing else
    // changes.
    pub(crate) fn make_place(&mut self, key: u32) -> Result<(), AllocError>
        ensures place { OnOk result (HasPlace self.new.table key) }
        ensures places { (k : ℕ) → HasPlace self.old.table k → HasPlace self.new.table k }
        ensures keys { (k : ℕ) → held self.new.table k ≡ held self.old.table k }
        ensures count { self.new.count ≡ self.old.count }
        ensures room { self.new.room ≡ self.old.room }
    {
        self.table.make_place(key)
    }

    // Takes a key out, wherever it stands: whether it was there.
    pub(crate) fn remove(&mut self, key: u32) -> bool
        ensures count { self.new.count + held self.old.table key ≡ self.old.count }
        ensures uses { (node : ℕ) → number_of self.old.table key ≡ Some node
            → self.new.uses + (entry_at self.old.slots node).uses ≡ self.old.uses }
        ensures gone { held self.new.table key ≡ 0 }
        ensures keys { (k : ℕ) → held self.new.table k ≤ held self.old.table k }
        ensures room { self.new.room ≡ self.old.room }
        ensures places { (k : ℕ) → HasPlace self.old.table k → HasPlace self.new.table k }
    {
        let Some(node) = self.table.get(key) else {
            return false;
        };
        self.table.set(key, None);
        self.links.move_front(node, FREE);
        true
    }

    // The key that came first, where there is one.
    fn oldest(&self) -> Option<Entry>
        ensures kept { IfSome result (λ e. IsKept self.now e) }
        ensures found { IsSome result ↔ (0 < self.now.count) }
    {
        match self.links.back(USED) {
            Some(node) => Some(self.entries[node as usize]),
            None => None,
        }
    }

    // Takes out the key that came first, where there is one.
    pub(crate) fn pop(&mut self) -> Option<Entry>
        ensures found { IsSome result ↔ (0 < self.old.count) }
        ensures count { self.new.count ≡ self.old.count - 1 }
        ensures uses { IfSome result (λ e. self.new.uses + e.uses ≡ self.old.uses) }
        ensures held { IfSome result (λ e. held self.old.table e.key ≡ 1) }
        ensures gone { IfSome result (λ e. held self.new.table e.key ≡ 0) }
        ensures keys { (k : ℕ) → held self.new.table k ≤ held self.old.table k }
        ensures room { self.new.room ≡ self.old.room }
        ensures places { (k : ℕ) → HasPlace self.old.table k → HasPlace self.new.table k }
    {
        let entry = self.oldest()?;
        self.remove(entry.key);
        Some(entry)
    }

    // Puts in a key that isn't there, behind all others. There must be room for it, and a place.
    pub(crate) fn push(&mut self, entry: Entry)
        requires new { held self.old.table entry.key ≡ 0 }
        requires room { self.old.count < self.old.room }
        requires place { HasPlace self.old.table entry.key }
        ensures count { self.new.count ≡ self.old.count + 1 }
        ensures uses { self.new.uses ≡ self.old.uses + entry.uses }
        ensures others { (k : ℕ) → k ≢ entry.key → held self.new.table k ≡ held self.old.table k }
        ensures room { self.new.room ≡ self.old.room }
        ensures places { (k : ℕ) → HasPlace self.old.table k → HasPlace self.new.table k }
    {
        // A place is free: there are as many as there is room for.
        match self.links.front(FREE) {
            Some(node) => {
                self.entries[node as usize] = entry;
                self.table.set(entry.key, Some(node));
                self.links.move_front(node, USED);
            }
            None => unreachable!(),
        }
    }
}
