//! A number for each key, or none. The table is in pages, so that a large key costs memory for its own page alone.
ghost use Rattle.std.specs.Prelude.{◌≡◌, ℕ, ◌<◌, ◌≤◌, ◌/◌, ◌%◌, [], None, nat_eq, length, slice_index_or, slice_set, if◌then◌else◌, IfOk, OnOk};
ghost use Rattle.replay_policies.specs.Tables.{number_of, page_at, HasPlace};

use std::alloc::{AllocError, Global};
use std::marker::Model;

// So many keys a page has.
const PAGE: u32 = 65_536;

// The numbers of the keys of one page, or no place for them.
#[derive(Drop)]
struct Page {
    numbers: Vec<Option<u32>>,
}

impl Model for Page {
    ghost use Rattle.std.specs.Prelude.{ℕ, List, Option};

    ghost Value = { List (Option ℕ) };

    ghost view = { λ p. p.numbers.items };
}

impl Page {
    // A page with no place.
    fn empty(alloc: Global) -> Page
        ensures { result ≡ [] }
    {
        Page {
            numbers: Vec::new(alloc),
        }
    }

    // Makes places, so that there are so many at least. It is refused only for want of memory.
    fn grow(&mut self, places: usize) -> Result<(), AllocError>
        ensures numbers { (place : ℕ) → slice_index_or self.new place None ≡ slice_index_or self.old place None }
        ensures kept { length self.old ≤ length self.new }
        ensures places { OnOk result (places ≤ length self.new) }
    {
        for _ in self.numbers.len()..places {
            self.numbers.push(None)?;
        }
        Ok(())
    }

    fn get(&self, place: usize) -> Option<u32>
        ensures { result ≡ slice_index_or self.now place None }
    {
        match self.numbers.get(place) {
            Some(number) => *number,
            None => None,
        }
    }

    fn set(&mut self, place: usize, number: Option<u32>)
        requires { place < length self.old }
        ensures { self.new ≡ slice_set self.old place number }
    {
        self.numbers[place] = number;
    }
}

// A number for each key, or none.
#[derive(Drop)]
pub(crate) struct KeyTable {
    pages: Vec<Page>,
}

impl Model for KeyTable {
    ghost use Rattle.std.specs.Prelude.{ℕ, List, Option};

    ghost Value = { List (List (Option ℕ)) };

    ghost view = { λ t. t.pages.items };
}

impl KeyTable {
    // No key has a number.
    pub(crate) fn new(alloc: Global) -> KeyTable
        ensures { result ≡ [] }
    {
        KeyTable {
            pages: Vec::new(alloc),
        }
    }

    // The number of a key.
    pub(crate) fn get(&self, key: u32) -> Option<u32>
        ensures { result ≡ number_of self.now key }
    {
        match self.pages.get((key / PAGE) as usize) {
            Some(page) => page.get((key % PAGE) as usize),
            None => None,
        }
    }

    // Gives a key another number, or none.
    pub(crate) fn set(&mut self, key: u32, number: Option<u32>)
        requires place { HasPlace self.old key }
        ensures numbers { (k : ℕ) → number_of self.new k ≡ (if nat_eq k key then number else number_of self.old k) }
        ensures places { (k : ℕ) → HasPlace self.old k → HasPlace self.new k }
    {
        let page = &mut self.pages[(key / PAGE) as usize];
        page.set((key % PAGE) as usize, number);
    }

    // Adds empty pages, so that there are so many at least.
    fn add_pages(&mut self, count: usize) -> Result<(), AllocError>
        ensures pages { (page : ℕ) → page_at self.new page ≡ page_at self.old page }
        ensures count { OnOk result (count ≤ length self.new) }
    {
        let alloc = *self.pages.allocator();
        for _ in self.pages.len()..count {
            self.pages.push(Page::empty(alloc))?;
        }
        Ok(())
    }

    // Makes a place for the number of a key. It is refused only for want of memory.
    #[tactic(auto, using(crate::proofs::TableLemmas::grown_numbers, crate::proofs::TableLemmas::grown_places, crate::proofs::TableLemmas::grown_place))]
    pub(crate) fn make_place(&mut self, key: u32) -> Result<(), AllocError>
        ensures numbers { (k : ℕ) → number_of self.new k ≡ number_of self.old k }
        ensures places { (k : ℕ) → HasPlace self.old k → HasPlace self.new k }
        ensures place { OnOk result (HasPlace self.new key) }
    {
        let at = (key / PAGE) as usize;
        self.add_pages(at + 1)?;
        self.pages[at].grow(PAGE as usize)
    }
}
