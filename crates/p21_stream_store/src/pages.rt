//! Tables from names to numbers, by pages.
//!
//! Tables by name have pages of 4,096 names (`Pages`), and room for no more names than 12 for each that they have, or
//! than 1,048,576; other names stand in a `BTreeMap`, and move into the page of theirs once it is made. So a name costs
//! at most 64 bytes beyond the first five megabytes, however far names lie apart, and names that lie close together are
//! found at once, wherever that is. A table by the largest name would take memory by what whoever writes the file
//! chooses, and a tree alone costs more time where names are shuffled. The price is that names of which fewer than one
//! in 12 came stand in the tree. With room for 262,144 the first 83,000 names of a shuffled file of 1,000,000 stood
//! there at first, and each was moved later; the price of the larger room is 4 MB more for a file whose names lie a
//! page apart. A page is made behind the attempt to use it, so that a name whose page is there costs no further look.
ghost use Rattle.std.specs.Prelude.{◌≡◌, ◌≢◌, ◌↔◌, ◌+◌, ◌*◌, ◌/◌, ◌<◌, ◌≤◌, ◌^◌, ℕ, false, length, max, min, slice_index_or, vec_capacity, vec_len, IfSome, IsNone, IsTrue, MatchBool, Ok, OnErr, OnOk};
ghost use Rattle.p21_stream_store.specs.Pages.{HasPage, most_names, number_in, page_at, rooms};

use crate::room::{reach, wider_count};
use p21_values::NoMemory;
use std::alloc::Global;

/// So many names stand in a page.
const PAGE: usize = 4_096;
/// A table may have room for so many names, however few it has.
const ROOM: usize = 1_048_576;
/// For each name that it has it may have room for so many, where these are more.
const ROOM_FOR_EACH: usize = 12;
/// A table leads to so many pages, however few names it has.
const PAGES: usize = 4_096;
/// For so many names that a table may have room for it leads to a page more, where these are more.
const NAMES_FOR_A_PAGE: usize = 256;

/// A number for each name, in pages of 4,096 names. Few pages are there; a name whose page isn't there has the number of no
/// name, which each call says. So what a table takes depends on how many pages were made, and not on how large names are.
#[derive(Drop)]
pub struct Pages<T> {
    alloc: Global,
    pages: Vec<Vec<T>>,
    // So many pages were made.
    made: usize,
    ghost made_is: { rooms pages.items ≤ 4096 * made },
}

impl<T: Copy + Drop> Pages<T> {
    /// A table without pages. It takes no memory.
    pub fn new(alloc: Global) -> Pages<T>
        ensures { (none : T) → (name : ℕ) → number_in none result.pages.items name ≡ none }
    {
        Pages {
            alloc,
            pages: Vec::new(alloc),
            made: 0,
        }
    }

    /// The number of a name.
    #[inline]
    pub fn get(&self, name: u64, none: T) -> T
        ensures { result ≡ number_in none self.now.pages.items name }
    {
        let number = name as usize / PAGE;
        if number >= self.pages.len() {
            return none;
        }
        let page = &self.pages[number];
        let index = name as usize % PAGE;
        if index >= page.len() {
            return none;
        }
        page[index]
    }

    /// Gives a name this number, if its page is there; says whether it is.
    #[inline]
    pub fn set(&mut self, name: u64, value: T) -> bool
        ensures set { MatchBool result ((none : T) → number_in none self.new.pages.items name ≡ value) (self.new ≡ self.old) }
        ensures absent { result ≡ false → (none : T) → number_in none self.old.pages.items name ≡ none }
        ensures others { (none : T) → (other : ℕ) → other ≢ name
            → number_in none self.new.pages.items other ≡ number_in none self.old.pages.items other }
        ensures room { rooms self.new.pages.items ≡ rooms self.old.pages.items }
        ensures directory { vec_capacity self.new.pages ≡ vec_capacity self.old.pages }
    {
        let number = name as usize / PAGE;
        if number >= self.pages.len() {
            return false;
        }
        let index = name as usize % PAGE;
        if index >= self.pages[number].len() {
            return false;
        }
        self.pages[number][index] = value;
        true
    }

    /// Makes the page of a name, if it isn't there and there may be one more in a table of so many names; says whether it did. No
    /// number changes, and where the page is there, nothing does.
    ///
    /// # Errors
    ///
    /// `NoMemory`.
    pub fn make_page(&mut self, name: u64, count: usize, none: T) -> Result<bool, NoMemory>
        ensures same { (other : ℕ) → number_in none self.new.pages.items other ≡ number_in none self.old.pages.items other }
        ensures there { HasPage self.old.pages.items name → (result ≡ Ok false) × (self.new ≡ self.old) }
        ensures room { rooms self.new.pages.items ≤ max (rooms self.old.pages.items) (most_names count) }
        ensures directory { vec_capacity self.new.pages ≤ max (vec_capacity self.old.pages) (max 4096 (most_names count / 256)) }
    {
        let number = name as usize / PAGE;
        if self.has(number) {
            return Ok(false);
        }
        let most = ROOM.max(count.saturating_mul(ROOM_FOR_EACH));
        let pages = PAGES.max(most / NAMES_FOR_A_PAGE);
        if number >= pages || self.made >= most / PAGE {
            return Ok(false);
        }
        let Ok(()) = add_pages(&mut self.pages, self.alloc, number, pages) else {
            return Err(NoMemory);
        };
        let Ok(()) = open(&mut self.pages, number, none) else {
            return Err(NoMemory);
        };
        self.made += 1;
        Ok(true)
    }

    /// Whether the page of this number is there.
    fn has(&self, number: usize) -> bool
        ensures { IsTrue result ↔ (0 < length (page_at self.now.pages.items number)) }
    {
        number < self.pages.len() && self.pages[number].len() > 0
    }
}

impl Pages<u32> {
    /// The first name from this one on whose number isn't 0, and its number. Where there is none up to a last name, none may be
    /// answered, and no page behind is looked at.
    pub fn next_from(&self, from: u64, last: u64) -> Option<(u64, u32)>
        ensures found { IfSome result (λ found. (from ≤ found.0) × (found.1 ≡ number_in 0 self.now.pages.items found.0) × (found.1 ≡ 0 → ⊥)) }
        ensures between { IfSome result (λ found. (other : ℕ) → from ≤ other → other < found.0 → number_in 0 self.now.pages.items other ≡ 0) }
        ensures none { IsNone result → (other : ℕ) → from ≤ other → other ≤ last → number_in 0 self.now.pages.items other ≡ 0 }
    {
        let mut name = from as usize;
        while name as u64 <= last && name / PAGE < self.pages.len() {
            let first = name - name % PAGE;
            if let Some((index, number)) = next_in(&self.pages[name / PAGE], name % PAGE) {
                return Some(((first + index) as u64, number));
            }
            name = first.checked_add(PAGE)?;
        }
        None
    }
}

/// The first index of a page from this one on at which the number isn't 0, and that number.
fn next_in(page: &[u32], from: usize) -> Option<(usize, u32)>
    ensures found { IfSome result (λ found. (from ≤ found.0) × (found.0 < 4096) × (found.1 ≡ slice_index_or page.now found.0 0)
        × (found.1 ≡ 0 → ⊥)) }
    ensures between { IfSome result (λ found. (i : ℕ) → from ≤ i → i < found.0 → slice_index_or page.now i 0 ≡ 0) }
    ensures none { IsNone result → (i : ℕ) → from ≤ i → i < 4096 → slice_index_or page.now i 0 ≡ 0 }
{
    for index in from..page.len().min(PAGE) {
        if page[index] != 0 {
            return Some((index, page[index]));
        }
    }
    None
}

/// Adds pages that aren't there yet until there is one of this number, and further ones, so that a list grows twofold, up to the most.
fn add_pages<T: Drop>(
    pages: &mut Vec<Vec<T>>,
    alloc: Global,
    number: usize,
    most: usize,
) -> Result<(), NoMemory>
    requires { number < most }
    ensures reached { OnOk result (number < length pages.new.items) }
    ensures twofold { length pages.old.items ≤ number → OnOk result (min most (2 * length pages.old.items) ≤ length pages.new.items) }
    ensures same { (none : T) → (other : ℕ) → number_in none pages.new.items other ≡ number_in none pages.old.items other }
    ensures room { rooms pages.new.items ≡ rooms pages.old.items }
    ensures directory { vec_capacity pages.new ≤ max (vec_capacity pages.old) most }
{
    if number < pages.len() {
        return Ok(());
    }
    let more = wider_count(pages.len(), number, most) - pages.len();
    let Ok(()) = pages.reserve_exact(more) else {
        return Err(NoMemory);
    };
    add_closed(pages, alloc, more);
    Ok(())
}

/// Adds so many pages that aren't there yet, for which there is room.
fn add_closed<T: Drop>(pages: &mut Vec<Vec<T>>, alloc: Global, more: usize)
    requires { vec_len pages.old + more ≤ vec_capacity pages.old }
    ensures count { vec_len pages.new ≡ vec_len pages.old + more }
    ensures same { (none : T) → (other : ℕ) → number_in none pages.new.items other ≡ number_in none pages.old.items other }
    ensures room { rooms pages.new.items ≡ rooms pages.old.items }
    ensures directory { vec_capacity pages.new ≡ vec_capacity pages.old }
{
    for _ in 0..more {
        pages.push_reserved(Vec::new(alloc));
    }
}

/// Makes a page. No number changes.
fn open<T: Copy>(pages: &mut Vec<Vec<T>>, number: usize, none: T) -> Result<(), NoMemory>
    requires { number < length pages.old.items }
    ensures same { (other : ℕ) → number_in none pages.new.items other ≡ number_in none pages.old.items other }
    ensures room { rooms pages.new.items ≤ rooms pages.old.items + 4096 }
    ensures err { OnErr result (rooms pages.new.items ≡ rooms pages.old.items) }
    ensures directory { vec_capacity pages.new ≡ vec_capacity pages.old }
{
    reach(&mut pages[number], PAGE - 1, PAGE, none)
}
