//! A model of a cache's lists, for one reader: in which list each item stands, and which one is evicted next.
use bump_cache::CacheConfig;
use std::alloc::{AllocError, Global};
use std::collections::VecDeque;

// A put whose turn it is applies at most so many bumps of a reader.
const PUT_BUMPS: usize = 16;

// An eviction rescues at most so many.
const RESCUES: usize = 8;

// Each so manieth put has its turn: it applies bumps, and looks at the ends of HOT and WARM, in so many rounds at most.
const LOOKS: u32 = 8;

// A tend does in so many.
const TEND_LOOKS: u32 = 100;

// An item.
#[derive(Clone, Copy)]
struct Item {
    // no two items have one number
    number: u64,
    key: u64,
    // when it was used last
    time: u64,
    // when it expires, or 0
    expires: u64,
    fetched: bool,
    active: bool,
}

impl Item {
    // Whether it has expired.
    fn is_over(self, now: u64) -> bool {
        self.expires != 0 && self.expires <= now
    }
}

// A list of items. Its front is the front of the deque.
type Items = VecDeque<Item>;

/// The lists of a cache, and the bumps that wait.
#[derive(Drop)]
pub struct Lists {
    room: usize,
    // how many chunks there are
    chunks: usize,
    ring: usize,
    hot_most: usize,
    warm_most: usize,
    // the last one of HOT, and of WARM, may be so many percent as old as COLD's
    hot_age: Option<u32>,
    warm_age: Option<u32>,
    // what expires within so many ticks is put into TEMP
    temporary: Option<u64>,
    hot: Items,
    warm: Items,
    cold: Items,
    temp: Items,
    // the numbers of the items that are to be bumped
    bumps: VecDeque<u64>,
    // how many items were put
    placed: u64,
    // how many puts there were since the last that had its turn
    puts: u32,
    evicted_active: u64,
}

// Where in a list the item of a key stands.
fn place_of(items: &Items, key: u64) -> Option<usize> {
    items.iter().position(|item| item.key == key)
}

// An item goes to the front of a list, and isn't ACTIVE any more.
fn to_front(items: &mut Items, item: Item) -> Result<(), AllocError> {
    items.push_front(Item {
        active: false,
        ..item
    })?;
    Ok(())
}

// Marks an item as a get does. It tells whether that set ACTIVE.
fn touch(items: &mut Items, at: usize) -> bool {
    let Some(item) = items.get_mut(at) else {
        return false;
    };
    let sets = item.fetched && !item.active;
    item.active = item.active || sets;
    item.fetched = true;
    sets
}

// The item at a place was used.
fn use_at(items: &mut Items, at: usize, now: u64) {
    if let Some(item) = items.get_mut(at) {
        item.time = now;
    }
}

// The place of the item of a key that hasn't expired.
fn live_place_of(items: &Items, key: u64, now: u64) -> Option<usize> {
    items
        .iter()
        .position(|item| item.key == key && !item.is_over(now))
}

// Marks the item of a key, which isn't in COLD. It tells whether there is one.
fn touch_key(items: &mut Items, key: u64, now: u64) -> bool {
    let Some(at) = live_place_of(items, key, now) else {
        return false;
    };
    if touch(items, at) {
        use_at(items, at, now);
    }
    true
}

// The item with a number was used. It tells whether it is here.
fn use_number(items: &mut Items, number: u64, now: u64) -> bool {
    let Some(at) = items.iter().position(|item| item.number == number) else {
        return false;
    };
    use_at(items, at, now);
    true
}

// How old the last item of COLD may make that of another list.
fn longest(percent: Option<u32>, age: u64) -> u64 {
    match percent {
        Some(percent) => age.saturating_mul(u64::from(percent)) / 100,
        None => u64::MAX,
    }
}

// Whether the last item of a list goes on: it is ACTIVE, or one of too many, or used too long ago.
fn goes_on(items: &Items, most: usize, longest: u64, now: u64) -> bool {
    let Some(item) = items.back() else {
        return false;
    };
    item.active || items.len() > most || now.saturating_sub(item.time) > longest
}

// Ends the item of a key. It tells whether there was one.
fn take_from(items: &mut Items, key: u64) -> bool {
    match place_of(items, key) {
        Some(at) => items.remove(at).is_some(),
        None => false,
    }
}

// The item at a place isn't ACTIVE any more.
fn calm(items: &mut Items, at: usize) {
    if let Some(item) = items.get_mut(at) {
        item.active = false;
    }
}

// The shares of HOT and WARM of the first part, in items.
fn shares(config: &CacheConfig) -> (usize, usize) {
    if config.parts == 0 {
        return (0, 0);
    }
    (config.hot_items(0) as usize, config.warm_items(0) as usize)
}

impl Lists {
    /// Those of the first part of a cache of this configuration, without items.
    pub fn new(alloc: Global, config: &CacheConfig) -> Lists {
        let (hot_most, warm_most) = shares(config);
        Lists {
            room: config.items as usize,
            chunks: (config.items as usize).saturating_add(config.spare as usize),
            ring: config.ring as usize,
            hot_most,
            warm_most,
            hot_age: config.hot_age,
            warm_age: config.warm_age,
            temporary: config.temporary,
            hot: VecDeque::new(alloc),
            warm: VecDeque::new(alloc),
            cold: VecDeque::new(alloc),
            temp: VecDeque::new(alloc),
            bumps: VecDeque::new(alloc),
            placed: 0,
            puts: 0,
            evicted_active: 0,
        }
    }

    /// How many of the evicted ones were ACTIVE.
    pub fn evicted_active(&self) -> u64 {
        self.evicted_active
    }

    /// How many items are in HOT, WARM, COLD and TEMP.
    pub fn sizes(&self) -> [usize; 4] {
        [
            self.hot.len(),
            self.warm.len(),
            self.cold.len(),
            self.temp.len(),
        ]
    }

    // Whether a key has an item, one that has expired, too.
    fn is_known(&self, key: u64) -> bool {
        place_of(&self.hot, key).is_some()
            || place_of(&self.warm, key).is_some()
            || place_of(&self.cold, key).is_some()
            || place_of(&self.temp, key).is_some()
    }

    // Whether a key has an item that hasn't expired.
    fn is_live(&self, key: u64, now: u64) -> bool {
        live_place_of(&self.hot, key, now).is_some()
            || live_place_of(&self.warm, key, now).is_some()
            || live_place_of(&self.cold, key, now).is_some()
            || live_place_of(&self.temp, key, now).is_some()
    }

    fn take(&mut self, key: u64) -> bool {
        take_from(&mut self.hot, key)
            || take_from(&mut self.warm, key)
            || take_from(&mut self.cold, key)
            || take_from(&mut self.temp, key)
    }

    /// Ends the item of a key. It tells whether there was one that hadn't expired.
    pub fn remove(&mut self, key: u64, now: u64) -> bool {
        let is_live = self.is_live(key, now);
        self.take(key);
        is_live
    }

    // Ends what has expired.
    fn end_expired(&mut self, now: u64) {
        self.hot.retain(|item| !item.is_over(now));
        self.warm.retain(|item| !item.is_over(now));
        self.cold.retain(|item| !item.is_over(now));
        self.temp.retain(|item| !item.is_over(now));
    }

    /// Ends each item.
    pub fn clear(&mut self) {
        self.hot.clear();
        self.warm.clear();
        self.cold.clear();
        self.temp.clear();
    }

    /// Gets a key, and tells whether it has an item. Where that becomes ACTIVE in COLD its bump waits, if the ring has room.
    pub fn get(&mut self, key: u64, now: u64) -> Result<bool, AllocError> {
        if touch_key(&mut self.hot, key, now)
            || touch_key(&mut self.warm, key, now)
            || touch_key(&mut self.temp, key, now)
        {
            return Ok(true);
        }
        let Some(at) = live_place_of(&self.cold, key, now) else {
            return Ok(false);
        };
        if !touch(&mut self.cold, at) {
            return Ok(true);
        }
        if self.bumps.len() >= self.ring {
            calm(&mut self.cold, at);
        } else if let Some(item) = self.cold.get(at) {
            self.bumps.push_back(item.number)?;
        }
        Ok(true)
    }

    // Applies a bump: its item was used, and goes to the front of WARM where it is ACTIVE in COLD.
    fn bump(&mut self, number: u64, now: u64) -> Result<(), AllocError> {
        if use_number(&mut self.hot, number, now) || use_number(&mut self.warm, number, now) {
            return Ok(());
        }
        use_number(&mut self.cold, number, now);
        let is_it = |item: &Item| item.number == number && item.active;
        let Some(at) = self.cold.iter().position(is_it) else {
            return Ok(());
        };
        if let Some(item) = self.cold.remove(at) {
            to_front(&mut self.warm, item)?;
        }
        Ok(())
    }

    // Applies at most so many of the bumps that wait.
    fn drain(&mut self, most: usize, now: u64) -> Result<(), AllocError> {
        for _ in 0..most {
            let Some(number) = self.bumps.pop_front() else {
                return Ok(());
            };
            self.bump(number, now)?;
        }
        Ok(())
    }

    // An item that was the last of HOT or WARM goes to the front of WARM or COLD.
    fn move_on(&mut self, item: Item) -> Result<(), AllocError> {
        if item.active {
            to_front(&mut self.warm, item)
        } else {
            to_front(&mut self.cold, item)
        }
    }

    // Looks at the last item of HOT, and tells whether it went on.
    fn look_at_hot(&mut self, longest: u64, now: u64) -> Result<bool, AllocError> {
        if !goes_on(&self.hot, self.hot_most, longest, now) {
            return Ok(false);
        }
        if let Some(item) = self.hot.pop_back() {
            self.move_on(item)?;
        }
        Ok(true)
    }

    // Looks at the last item of WARM, and tells whether it went on.
    fn look_at_warm(&mut self, longest: u64, now: u64) -> Result<bool, AllocError> {
        if !goes_on(&self.warm, self.warm_most, longest, now) {
            return Ok(false);
        }
        if let Some(item) = self.warm.pop_back() {
            self.move_on(item)?;
        }
        Ok(true)
    }

    // Looks at the last items of HOT and WARM, in so many rounds at most, until one moves nothing.
    fn balance(&mut self, rounds: u32, now: u64) -> Result<(), AllocError> {
        let age = match self.cold.back() {
            Some(item) => now.saturating_sub(item.time),
            None => 0,
        };
        for _ in 0..rounds {
            let hot = self.look_at_hot(longest(self.hot_age, age), now)?;
            let warm = self.look_at_warm(longest(self.warm_age, age), now)?;
            if !hot && !warm {
                return Ok(());
            }
        }
        Ok(())
    }

    /// Tends the lists.
    pub fn tend(&mut self, now: u64) -> Result<(), AllocError> {
        self.drain(self.ring, now)?;
        self.end_expired(now);
        self.balance(TEND_LOOKS, now)
    }

    // Takes the item whose turn it is.
    fn take_next(&mut self) -> Option<Item> {
        if let Some(item) = self.cold.pop_back() {
            return Some(item);
        }
        if let Some(item) = self.warm.pop_back() {
            return Some(Item {
                active: false,
                ..item
            });
        }
        if let Some(item) = self.hot.pop_back() {
            return Some(Item {
                active: false,
                ..item
            });
        }
        self.temp.pop_back()
    }

    // Rescues items of COLD.
    fn rescue(&mut self, now: u64) -> Result<(), AllocError> {
        for _ in 0..RESCUES {
            match self.cold.back().copied() {
                Some(item) if item.active && !item.is_over(now) => {
                    self.cold.pop_back();
                    to_front(&mut self.warm, item)?;
                }
                _ => return Ok(()),
            }
        }
        Ok(())
    }

    // Evicts an item, and tells its key.
    fn evict(&mut self, now: u64) -> Result<Option<u64>, AllocError> {
        self.rescue(now)?;
        let Some(item) = self.take_next() else {
            return Ok(None);
        };
        if item.active && !item.is_over(now) {
            self.evicted_active = self.evicted_active.saturating_add(1);
        }
        Ok(Some(item.key))
    }

    // Whether what expires then is put into TEMP.
    fn is_temporary(&self, expires: u64, now: u64) -> bool {
        match self.temporary {
            Some(ticks) => expires != 0 && expires <= now.saturating_add(ticks),
            None => false,
        }
    }

    // Whether a bump waits for the last item of COLD.
    fn is_cold_end_held(&self) -> bool {
        match self.cold.back() {
            Some(item) => self.bumps.iter().any(|number| *number == item.number),
            None => false,
        }
    }

    /// Evicts the item whose turn it is, and tells its key; None where there is none. Where a bump waits for COLD's last
    /// one all are applied first.
    pub fn evict_next(&mut self, now: u64) -> Result<Option<u64>, AllocError> {
        if self.is_cold_end_held() {
            self.drain(self.ring, now)?;
        }
        self.evict(now)
    }

    // Evicts an item for a key that has none, where there are as many as there may be, and tells its key.
    fn evict_where_full(&mut self, key: u64, now: u64) -> Result<Option<u64>, AllocError> {
        if self.linked() < self.room || self.is_known(key) {
            return Ok(None);
        }
        self.evict_next(now)
    }

    // How many items there are.
    fn linked(&self) -> usize {
        self.sizes()
            .iter()
            .fold(0usize, |sum, size| sum.saturating_add(*size))
    }

    // Whether the item of this number is linked.
    fn has_number(&self, number: u64) -> bool {
        let is_it = |item: &Item| item.number == number;
        self.hot.iter().any(is_it)
            || self.warm.iter().any(is_it)
            || self.cold.iter().any(is_it)
            || self.temp.iter().any(is_it)
    }

    // Whether no chunk is free: each has an item, or a bump waits for the item that it had.
    fn is_out_of_chunks(&self) -> bool {
        let mut held = 0usize;
        for (place, number) in self.bumps.iter().enumerate() {
            let is_first = !self.bumps.iter().take(place).any(|other| other == number);
            if is_first && !self.has_number(*number) {
                held = held.saturating_add(1);
            }
        }
        self.linked().saturating_add(held) >= self.chunks
    }

    // A new item goes to the front of TEMP or HOT.
    fn link(&mut self, key: u64, expires: u64, now: u64) -> Result<(), AllocError> {
        let item = Item {
            number: self.placed,
            key,
            time: now,
            expires,
            fetched: false,
            active: false,
        };
        if self.is_temporary(expires, now) {
            self.temp.push_front(item)?;
        } else {
            self.hot.push_front(item)?;
        }
        self.placed = self.placed.saturating_add(1);
        Ok(())
    }

    /// Puts a key for which there is a chunk, and which expires then or never (0). It tells which key is evicted.
    pub fn put(&mut self, key: u64, expires: u64, now: u64) -> Result<Option<u64>, AllocError> {
        let has_turn = self.puts.saturating_add(1) == LOOKS;
        if has_turn {
            self.drain(PUT_BUMPS, now)?;
        }
        let evicted = self.evict_where_full(key, now)?;
        if self.is_out_of_chunks() {
            self.drain(self.ring, now)?;
        }
        self.take(key);
        self.link(key, expires, now)?;
        self.puts = self.puts.saturating_add(1);
        if has_turn {
            self.puts = 0;
            self.balance(LOOKS, now)?;
        }
        Ok(evicted)
    }
}
