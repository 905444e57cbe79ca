//! Two queues of keys, each with how often it was asked for.
ghost use Rattle.std.specs.Prelude.{◌≡◌, ◌≢◌, ℕ, ◌<◌, ◌≤◌, ◌+◌, ◌-◌, false, IfOk, OnOk, IfSome, IsSome, ◌↔◌};
ghost use Rattle.replay_policies.specs.Queues.{HasPlaces, IsLeft, held_by};

use crate::entries::Entry;
use crate::lines::Line;
use bump_links::NODES_MAX;
use std::alloc::{AllocError, Global};
use std::marker::Model;
use std::mem;

// Two queues. Each key stands in one of them once, or in none.
#[derive(Drop)]
pub(crate) struct Queues {
    first: Line,
    second: Line,
}

impl Model for Queues {
    ghost use Rattle.replay_policies.specs.Queues.{QueuesView, IsQueues, queues_view};

    ghost Value = { QueuesView };

    ghost view = { λ q. queues_view q.first q.second };

    ghost invariant = { λ q. IsQueues (queues_view q.first q.second) };
}

impl Queues {
    // Queues without keys, which have memory for so many each. It is refused only for want of memory.
    pub(crate) fn new(alloc: Global, first: u32, second: u32) -> Result<Queues, AllocError>
        requires some_first { 1 ≤ first }
        requires few_first { first ≤ NODES_MAX }
        requires some_second { 1 ≤ second }
        requires few_second { second ≤ NODES_MAX }
        ensures first_room { IfOk result (λ q. q.first_room ≡ first) }
        ensures second_room { IfOk result (λ q. q.second_room ≡ second) }
        ensures first_empty { IfOk result (λ q. q.first_count ≡ 0) }
        ensures second_empty { IfOk result (λ q. q.second_count ≡ 0) }
    {
        Ok(Queues {
            first: Line::new(alloc, first)?,
            second: Line::new(alloc, second)?,
        })
    }

    // How many keys are in the first queue.
    pub(crate) fn first_len(&self) -> usize
        ensures { result ≡ self.now.first_count }
    {
        self.first.len()
    }

    // How many keys are in the second queue.
    pub(crate) fn second_len(&self) -> usize
        ensures { result ≡ self.now.second_count }
    {
        self.second.len()
    }

    // How many keys are in both.
    pub(crate) fn len(&self) -> usize
        ensures { result ≡ self.now.first_count + self.now.second_count }
    {
        self.first.len() + self.second.len()
    }

    // Whether a key is in one of them.
    pub(crate) fn has(&self, key: u32) -> bool
        ensures { result ≡ false → held_by self.now key ≡ 0 }
    {
        self.first.has(key) || self.second.has(key)
    }

    // Asks for a key, and tells whether it is in one of them. It has one use more then, up to so many.
    pub(crate) fn ask(&mut self, key: u32, most: u32) -> bool
        ensures absent { result ≡ false → held_by self.new key ≡ 0 }
        ensures first_count { self.new.first_count ≡ self.old.first_count }
        ensures second_count { self.new.second_count ≡ self.old.second_count }
        ensures first_room { self.new.first_room ≡ self.old.first_room }
        ensures second_room { self.new.second_room ≡ self.old.second_room }
    {
        let in_first = self.first.ask(key, most);
        let in_second = self.second.ask(key, most);
        in_first || in_second
    }

    // Takes a key out, wherever it stands: whether it was in one of them.
    pub(crate) fn remove(&mut self, key: u32) -> bool
        ensures first_count { self.new.first_count ≤ self.old.first_count }
        ensures second_count { self.new.second_count ≤ self.old.second_count }
        ensures first_room { self.new.first_room ≡ self.old.first_room }
        ensures second_room { self.new.second_room ≡ self.old.second_room }
    {
        let in_first = self.first.remove(key);
        let in_second = self.second.remove(key);
        in_first || in_second
    }

    // Makes places for a key that is to be put in. It is refused only for want of memory; nothing else changes.
    pub(crate) fn make_place(&mut self, key: u32) -> Result<(), AllocError>
        ensures place { OnOk result (HasPlaces self.new key) }
        ensures keys { (k : ℕ) → held_by self.new k ≡ held_by self.old k }
        ensures first_count { self.new.first_count ≡ self.old.first_count }
        ensures second_count { self.new.second_count ≡ self.old.second_count }
        ensures first_room { self.new.first_room ≡ self.old.first_room }
        ensures second_room { self.new.second_room ≡ self.old.second_room }
    {
        self.first.make_place(key)?;
        self.second.make_place(key)
    }

    // Takes the first key out of the first queue, where there is one.
    pub(crate) fn pop_first(&mut self) -> Option<Entry>
        ensures found { IsSome result ↔ (0 < self.old.first_count) }
        ensures count { self.new.first_count ≡ self.old.first_count - 1 }
        ensures uses { IfSome result (λ e. self.new.first_uses + e.uses ≡ self.old.first_uses) }
        ensures second_count { self.new.second_count ≡ self.old.second_count }
        ensures second_uses { self.new.second_uses ≡ self.old.second_uses }
        ensures first_room { self.new.first_room ≡ self.old.first_room }
        ensures second_room { self.new.second_room ≡ self.old.second_room }
        ensures held { IfSome result (λ e. 0 < held_by self.old e.key) }
        ensures gone { IfSome result (λ e. held_by self.new e.key ≡ 0) }
        ensures left { IsLeft self.old self.new }
        ensures place { IfSome result (λ e. HasPlaces self.new e.key) }
    {
        self.first.pop()
    }

    // The same of the second queue.
    pub(crate) fn pop_second(&mut self) -> Option<Entry>
        ensures found { IsSome result ↔ (0 < self.old.second_count) }
        ensures count { self.new.second_count ≡ self.old.second_count - 1 }
        ensures uses { IfSome result (λ e. self.new.second_uses + e.uses ≡ self.old.second_uses) }
        ensures first_count { self.new.first_count ≡ self.old.first_count }
        ensures first_uses { self.new.first_uses ≡ self.old.first_uses }
        ensures first_room { self.new.first_room ≡ self.old.first_room }
        ensures second_room { self.new.second_room ≡ self.old.second_room }
        ensures held { IfSome result (λ e. 0 < held_by self.old e.key) }
        ensures gone { IfSome result (λ e. held_by self.new e.key ≡ 0) }
        ensures left { IsLeft self.old self.new }
        ensures place { IfSome result (λ e. HasPlaces self.new e.key) }
    {
        self.second.pop()
    }

    // Puts a key that is in neither queue into the first one, behind all others. There must be room for it, and places.
    pub(crate) fn push_first(&mut self, entry: Entry)
        requires new { held_by self.old entry.key ≡ 0 }
        requires room { self.old.first_count < self.old.first_room }
        requires place { HasPlaces self.old entry.key }
        ensures count { self.new.first_count ≡ self.old.first_count + 1 }
        ensures uses { self.new.first_uses ≡ self.old.first_uses + entry.uses }
        ensures second_count { self.new.second_count ≡ self.old.second_count }
        ensures second_uses { self.new.second_uses ≡ self.old.second_uses }
        ensures first_room { self.new.first_room ≡ self.old.first_room }
        ensures second_room { self.new.second_room ≡ self.old.second_room }
        ensures others { (k : ℕ) → k ≢ entry.key → held_by self.new k ≡ held_by self.old k }
        ensures places { (key : ℕ) → HasPlaces self.old key → HasPlaces self.new key }
    {
        self.first.push(entry);
    }

    // The same of the second queue.
    pub(crate) fn push_second(&mut self, entry: Entry)
        requires new { held_by self.old entry.key ≡ 0 }
        requires room { self.old.second_count < self.old.second_room }
        requires place { HasPlaces self.old entry.key }
        ensures count { self.new.second_count ≡ self.old.second_count + 1 }
        ensures uses { self.new.second_uses ≡ self.old.second_uses + entry.uses }
        ensures first_count { self.new.first_count ≡ self.old.first_count }
        ensures first_uses { self.new.first_uses ≡ self.old.first_uses }
        ensures first_room { self.new.first_room ≡ self.old.first_room }
        ensures second_room { self.new.second_room ≡ self.old.second_room }
        ensures others { (k : ℕ) → k ≢ entry.key → held_by self.new k ≡ held_by self.old k }
        ensures places { (key : ℕ) → HasPlaces self.old key → HasPlaces self.new key }
    {
        self.second.push(entry);
    }

    // Makes the first queue the second, and the second the first.
    pub(crate) fn swap(&mut self)
        ensures first_count { self.new.first_count ≡ self.old.second_count }
        ensures second_count { self.new.second_count ≡ self.old.first_count }
        ensures first_uses { self.new.first_uses ≡ self.old.second_uses }
        ensures second_uses { self.new.second_uses ≡ self.old.first_uses }
        ensures first_room { self.new.first_room ≡ self.old.second_room }
        ensures second_room { self.new.second_room ≡ self.old.first_room }
        ensures left { IsLeft self.old self.new }
    {
        mem::swap(&mut self.first, &mut self.second);
    }
}
