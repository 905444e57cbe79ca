//! A trace that is written line by line, each of which is made on a World at once.
ghost use Rattle.std.specs.Prelude.{◌≡◌, ◌<◌, ◌∷◌, ◌++◌, [], true, false, length, codes, IfOk, IfErr, IfSome, OnOk};
ghost use Rattle.bump_trace.specs.Runs.{most_bytes};
ghost use Rattle.bump_rules.specs.declared.places.Tail.TheVariants.{Cold, Evict};
ghost use Rattle.replay_runs.specs.Writing.{with_end, get_instruction, set_instruction, pull_instruction};
ghost use Rattle.replay_runs.specs.Writing.{drain_instruction, sweep_instruction, header, IsPull, Adds, AddsEnd, IsOfCalls};

use crate::faults::ReplayFault;
use crate::plans::Plan;
use bump_core::{Answer, Command, Config, ItemId, Place, Pulled, Refused, Tail, World};
use bump_rules::CACHE_REFS;
use bump_trace::MAX_BYTES;
use cache_shelf::{Bound, PUT_ROUNDS};
use std::alloc::Global;
use std::collections::HashMap;
use std::hash::RandomState;
use trace_lines::put_word;

/// A trace that is written: each line is made on a World, whose answer tells what to write next.
#[derive(Drop)]
pub(crate) struct Scribe {
    world: World,
    text: Vec<u8>,
    // the time of the access whose lines are written
    time: u64,
    // the key of the item that each chunk had last, by chunk
    key_of_chunk: Vec<u32>,
    // the item of each key that has one
    items: HashMap<u32, ItemId, RandomState>,
    ring: u32,
    // so many puts there were since the lists were balanced
    puts: u32,
    ghost class: { 0 < length world.classes },
}

// The first lines of a trace: what the store is.
fn header_of(alloc: Global, plan: &Plan) -> Result<Vec<u8>, ReplayFault>
    ensures text { IfOk result (λ text. text.items ≡ header plan.now) }
    ensures fault { IfErr result IsOfCalls }
{
    let mut text = Vec::new(alloc);
    put_word(&mut text, b"store ", u64::from(plan.config.readers))?;
    put_word(&mut text, b" ", u64::from(plan.config.ring))?;
    put_word(&mut text, b" ", u64::from(CACHE_REFS))?;
    put_word(&mut text, b" 1\nclass ", plan.chunks())?;
    text.extend_from_slice(b" 0 0\n")?;
    Ok(text)
}

// The line of a pull.
fn pull_line(tail: Tail) -> &'static str
    ensures { result.now ≡ pull_instruction tail }
{
    match tail {
        Tail::Hot => "pull 0 hot",
        Tail::Warm => "pull 0 warm",
        Tail::Cold => "pull 0 cold",
        Tail::Evict => "pull 0 evict",
    }
}

impl Scribe {
    /// The first lines of a plan's trace, and its store, which is of this configuration, and in which no key has an item.
    /// The keys that have one are hashed with `hasher`.
    pub(crate) fn new(
        alloc: Global,
        hasher: RandomState,
        plan: &Plan,
        config: &Config,
    ) -> Result<Scribe, ReplayFault>
        requires some { 0 < length config.now.classes }
        ensures text { IfOk result (λ scribe. scribe.text.items ≡ header plan.now) }
        ensures fault { IfErr result IsOfCalls }
    {
        let mut key_of_chunk = Vec::new(alloc);
        key_of_chunk.resize(plan.chunks() as usize, 0)?;
        Ok(Scribe {
            world: World::new(alloc, config)?,
            text: header_of(alloc, plan)?,
            time: 0,
            key_of_chunk,
            items: HashMap::with_hasher(alloc, hasher),
            ring: plan.config.ring,
            puts: 0,
        })
    }

    /// What is written from now on belongs to an access at this time.
    pub(crate) fn set_time(&mut self, time: u64)
        ensures { self.new.text ≡ self.old.text }
    {
        self.time = time;
    }

    /// The trace that was written.
    pub(crate) fn into_text(self) -> Vec<u8>
        ensures { result ≡ self.text }
    {
        let Scribe { text, .. } = self;
        text
    }

    // Makes a command on the World.
    fn make(&mut self, command: Command) -> Result<Answer, ReplayFault>
        ensures text { self.new.text ≡ self.old.text }
        ensures fault { IfErr result IsOfCalls }
    {
        match self.world.command(command) {
            Ok(answer) => Ok(answer),
            Err(Refused::OutOfMemory) => Err(ReplayFault::Memory),
            Err(Refused::NotEnabled) => Err(ReplayFault::Refused),
        }
    }

    /// Whether the text has more bytes than a trace may have.
    pub(crate) fn is_long(&self) -> bool
        ensures { result ≡ true → most_bytes < length self.now.text.items }
    {
        self.text.len() > MAX_BYTES
    }

    // Ends a line.
    fn end_line(&mut self) -> Result<(), ReplayFault>
        ensures text { OnOk result (self.new.text.items ≡ self.old.text.items ++ 10 ∷ []) }
        ensures fault { IfErr result IsOfCalls }
    {
        self.text.push(b'\n')?;
        Ok(())
    }

    // Writes a line.
    fn write(&mut self, line: &str) -> Result<(), ReplayFault>
        ensures text { OnOk result (self.new.text.items ≡ self.old.text.items ++ with_end line.now) }
        ensures fault { IfErr result IsOfCalls }
    {
        self.text.extend_from_slice(line.as_bytes())?;
        self.end_line()
    }

    // Whether the key has an item. It is got by the worker then.
    pub(crate) fn get(&mut self, worker: u32, key: u32) -> Result<bool, ReplayFault>
        ensures got { IfOk result (λ got. got ≡ true
            → self.new.text.items ≡ self.old.text.items ++ with_end (get_instruction worker key)) }
        ensures none { IfOk result (λ got. got ≡ false → self.new.text.items ≡ self.old.text.items) }
        ensures fault { IfErr result IsOfCalls }
    {
        let Some(id) = self.items.get(&key).copied() else {
            return Ok(false);
        };
        put_word(&mut self.text, b"get ", u64::from(worker))?;
        put_word(&mut self.text, b" k", u64::from(key))?;
        self.end_line()?;
        self.hit(worker, id)?;
        Ok(true)
    }

    // What the line of a get does.
    fn hit(&mut self, worker: u32, id: ItemId) -> Result<(), ReplayFault>
        ensures text { OnOk result (self.new.text ≡ self.old.text) }
        ensures fault { IfErr result IsOfCalls }
    {
        if let Answer::Held = self.make(Command::Take { worker, id })? {
            let now = self.time;
            self.make(Command::Touch { worker, id, now })?;
            self.make(Command::Release { id })?;
        }
        Ok(())
    }

    /// Links an item for the key, where a chunk is free.
    pub(crate) fn link(&mut self, key: u32) -> Result<(), ReplayFault>
        ensures text { OnOk result (self.new.text.items ≡ self.old.text.items ++ with_end (set_instruction key)) }
        ensures fault { IfErr result IsOfCalls }
    {
        put_word(&mut self.text, b"set k", u64::from(key))?;
        self.write(" 0 0")?;
        let link = Command::Link {
            class: 0,
            label: 0,
            now: self.time,
        };
        match self.make(link)? {
            Answer::Linked(id) => self.bind(key, id),
            _ => Ok(()),
        }
    }

    // The key has the item.
    fn bind(&mut self, key: u32, id: ItemId) -> Result<(), ReplayFault>
        ensures text { OnOk result (self.new.text ≡ self.old.text) }
        ensures fault { IfErr result IsOfCalls }
    {
        self.items.insert(key, id)?;
        if let Some(last) = self.key_of_chunk.get_mut(id.chunk as usize) {
            *last = key;
        }
        Ok(())
    }

    // The key of an item.
    fn key_of(&self, id: ItemId) -> u32 {
        self.key_of_chunk
            .get(id.chunk as usize)
            .copied()
            .unwrap_or(0)
    }

    // The item ended.
    fn forget(&mut self, id: ItemId)
        ensures { self.new.text ≡ self.old.text }
    {
        let key = self.key_of(id);
        let _ = self.items.remove(&key);
    }

    /// How many items are linked.
    pub(crate) fn linked(&self) -> u64 {
        u64::from(self.world.list_len(0, Place::Hot))
            + u64::from(self.world.list_len(0, Place::Warm))
            + u64::from(self.world.list_len(0, Place::Cold))
            + u64::from(self.world.list_len(0, Place::Temp))
    }

    /// Whether a chunk is free.
    pub(crate) fn has_room(&self) -> bool {
        self.world.list_len(0, Place::Unused) > 0
    }

    /// Whether the next put has its turn: it applies bumps, and balances the lists.
    pub(crate) fn has_turn(&self) -> bool {
        self.puts.saturating_add(1) >= PUT_ROUNDS
    }

    /// Whether the last item of COLD has more references than that of its list: a bump of it waits.
    pub(crate) fn is_cold_end_held(&self) -> bool {
        match self.last(Place::Cold) {
            Some(chunk) => self.world.head(chunk).refs > 1,
            None => false,
        }
    }

    /// Counts one more put; whether it is one of those that balance the lists.
    pub(crate) fn count_put(&mut self) -> bool
        ensures { self.new.text ≡ self.old.text }
    {
        let puts = self.puts.saturating_add(1);
        let balances = puts >= PUT_ROUNDS;
        self.puts = if balances { 0 } else { puts };
        balances
    }

    /// Frees the chunks of ended items that nobody holds.
    pub(crate) fn sweep(&mut self) -> Result<(), ReplayFault>
        ensures text { OnOk result (self.new.text.items ≡ self.old.text.items ++ with_end sweep_instruction) }
        ensures fault { IfErr result IsOfCalls }
    {
        self.write("sweep 0")?;
        self.make(Command::Sweep { class: 0 })?;
        Ok(())
    }

    // Looks at the last item of a list; what came of it.
    fn pull(&mut self, tail: Tail) -> Result<Pulled, ReplayFault>
        ensures text { OnOk result (self.new.text.items ≡ self.old.text.items ++ with_end (pull_instruction tail)) }
        ensures fault { IfErr result IsOfCalls }
    {
        self.write(pull_line(tail))?;
        match self.make(Command::Pull { class: 0, tail })? {
            Answer::Pulled(pulled) => Ok(pulled),
            _ => Ok(Pulled::Empty),
        }
    }

    /// Looks at the last item of COLD, which goes to WARM where it is ACTIVE; whether it went.
    pub(crate) fn rescue_last(&mut self) -> Result<bool, ReplayFault>
        ensures text { OnOk result (self.new.text.items ≡ self.old.text.items ++ with_end (pull_instruction Cold)) }
        ensures fault { IfErr result IsOfCalls }
    {
        let pulled = self.pull(Tail::Cold)?;
        Ok(pulled.to().is_some())
    }

    /// Ends the last item of COLD; whether there was one.
    pub(crate) fn end_last_of_cold(&mut self) -> Result<bool, ReplayFault>
        ensures text { OnOk result (self.new.text.items ≡ self.old.text.items ++ with_end (pull_instruction Evict)) }
        ensures fault { IfErr result IsOfCalls }
    {
        let pulled = self.pull(Tail::Evict)?;
        match pulled.item() {
            Some(id) => {
                self.forget(id);
                Ok(true)
            }
            None => Ok(false),
        }
    }

    /// Looks at the last item of HOT or WARM, and ends it; whether there was one.
    pub(crate) fn end_last_of(&mut self, tail: Tail) -> Result<bool, ReplayFault>
        ensures ended { IfOk result (λ ended. ended ≡ true → AddsEnd tail self.old.text.items self.new.text.items) }
        ensures none { IfOk result (λ ended. ended ≡ false
            → self.new.text.items ≡ self.old.text.items ++ with_end (pull_instruction tail)) }
        ensures fault { IfErr result IsOfCalls }
    {
        let pulled = self.pull(tail)?;
        let Some(id) = pulled.item() else {
            return Ok(false);
        };
        let key = self.key_of(id);
        put_word(&mut self.text, b"del k", u64::from(key))?;
        self.end_line()?;
        self.make(Command::Unlink { id })?;
        self.forget(id);
        Ok(true)
    }

    // How long ago the item of a chunk was used.
    fn idle(&self, chunk: u32) -> u64
        requires { chunk < length self.now.world.chunks }
    {
        self.time.saturating_sub(self.world.time(chunk))
    }

    // The last chunk of a list.
    fn last(&self, place: Place) -> Option<u32>
        ensures { IfSome result (λ chunk. chunk < length self.now.world.chunks) }
    {
        let chunk = self.world.list_back(0, place)?;
        if chunk < self.world.chunks() {
            Some(chunk)
        } else {
            None
        }
    }

    /// How long ago the last item of COLD was used; 0 where there is none.
    pub(crate) fn cold_age(&self) -> u64 {
        match self.last(Place::Cold) {
            Some(chunk) => self.idle(chunk),
            None => 0,
        }
    }

    // Whether the last item of HOT or WARM goes on: it is ACTIVE, or goes to COLD by the bound.
    fn goes_on(&self, tail: Tail, bound: Bound) -> bool {
        let place = tail.segment().place();
        let Some(chunk) = self.last(place) else {
            return false;
        };
        self.world.head(chunk).active
            || self.world.list_len(0, place) > bound.most
            || self.idle(chunk) > bound.idle
    }

    /// Moves the last item of HOT or WARM on, where it is to go; whether it is. A pull that leaves it changes nothing, and
    /// the class of a trace has no limits by which it would be left: so no line is written then.
    pub(crate) fn pull_past(&mut self, tail: Tail, bound: Bound) -> Result<bool, ReplayFault>
        ensures text { OnOk result (Adds (IsPull tail) 1 self.old.text.items self.new.text.items) }
        ensures fault { IfErr result IsOfCalls }
    {
        if !self.goes_on(tail, bound) {
            return Ok(false);
        }
        self.pull(tail)?;
        Ok(true)
    }

    /// Whether more than so many bumps of a worker wait.
    pub(crate) fn has_waiting(&self, most: u32) -> bool {
        for worker in 0..self.world.workers() {
            let received = self.world.received(worker).len();
            let waiting = self.world.sent(worker).len().saturating_sub(received);
            if waiting > most as usize {
                return true;
            }
        }
        false
    }

    /// Applies the bumps that wait, at most a ring's room of each worker.
    pub(crate) fn drain(&mut self) -> Result<(), ReplayFault>
        ensures text { OnOk result (self.new.text.items ≡ self.old.text.items ++ with_end drain_instruction) }
        ensures fault { IfErr result IsOfCalls }
    {
        self.write("drain")?;
        for worker in 0..self.world.workers() {
            self.drain_worker(worker)?;
        }
        Ok(())
    }

    // Applies the bumps of a worker that wait, at most a ring's room.
    fn drain_worker(&mut self, worker: u32) -> Result<(), ReplayFault>
        ensures text { OnOk result (self.new.text ≡ self.old.text) }
        ensures fault { IfErr result IsOfCalls }
    {
        for _ in 0..self.ring {
            let now = self.time;
            if let Answer::Nothing = self.make(Command::Next { worker, now })? {
                return Ok(());
            }
        }
        Ok(())
    }

    /// Tells of the whole store.
    pub(crate) fn show(&mut self) -> Result<(), ReplayFault>
        ensures text { OnOk result (self.new.text.items ≡ self.old.text.items ++ with_end (codes "show")) }
        ensures fault { IfErr result IsOfCalls }
    {
        self.write("show")
    }
}
