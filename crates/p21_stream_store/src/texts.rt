//! Texts by number. They lie in blocks that don't move when more come.
ghost use Rattle.std.specs.Prelude.{◌≡◌, ◌+◌, ◌*◌, ◌<◌, ◌≤◌, ◌^◌, ℕ, [], ◌∷◌, ◌++◌, length, slice_get, max, vec_capacity, vec_len, IfOk, IsTrue, OnErr, OnOk, Some, true};
ghost use Rattle.p21_stream_store.specs.Blocks.{AreFirsts, block_texts, first_at};
ghost use Rattle.p21_stream_store.specs.Texts.{AreStartsFrom, texts_of};

use crate::room::make_room;
use p21_values::NoMemory;
use std::alloc::Global;
use std::marker::Model;
use std::mem;

/// The bytes of a block, apart from those of a text that is longer and has a block of its own. So 16 bits hold each start.
const BLOCK: usize = 65_536;

/// Makes room for a text of this size and where it starts, in a block that takes it. The first one makes room for a whole block, and
/// where there is room for a further one, nothing is asked for.
///
/// # Errors
///
/// `NoMemory`. Nothing is added.
fn make_place(starts: &mut Vec<u16>, bytes: &mut Vec<u8>, size: usize) -> Result<(), NoMemory>
    ensures starts { starts.new.items ≡ starts.old.items }
    ensures bytes { bytes.new.items ≡ bytes.old.items }
    ensures place { OnOk result (vec_len starts.new < vec_capacity starts.new) }
    ensures room { OnOk result (vec_len bytes.new + size ≤ vec_capacity bytes.new) }
    ensures full { 0 < vec_len starts.old → vec_len bytes.old + size ≤ vec_capacity bytes.old
        → OnErr result (vec_capacity starts.old ≤ vec_len starts.old) }
    ensures kept_starts { vec_len starts.old < vec_capacity starts.old → vec_capacity starts.new ≡ vec_capacity starts.old }
    ensures kept_bytes { 0 < vec_len starts.old → vec_len bytes.old + size ≤ vec_capacity bytes.old
        → vec_capacity bytes.new ≡ vec_capacity bytes.old }
    ensures most_starts { (m : ℕ) → vec_capacity starts.old ≤ m → 32 ≤ m → 2 * vec_len starts.old ≤ m → vec_capacity starts.new ≤ m }
    ensures most_bytes { vec_capacity bytes.new ≤ max (vec_capacity bytes.old) (vec_len bytes.old + max 65536 size) }
{
    bytes.reserve_exact(least_room(starts.len()).max(size))?;
    make_room(starts)
}

/// Behind so many texts of a block, room for so many bytes is made at least: behind none for a whole block.
fn least_room(starts: usize) -> usize
    ensures most { result ≤ 65536 }
    ensures none { 0 < starts → result ≡ 0 }
{
    if starts == 0 { BLOCK } else { 0 }
}

/// Whether a block of so many texts and bytes takes a text of this size: 16 bits hold its start, and the block gets no larger by it
/// than a block is.
fn takes(texts: usize, used: usize, size: usize) -> bool
    requires { texts ≡ 0 → used ≡ 0 }
    ensures low { IsTrue result → used < 65536 }
    ensures first { texts ≡ 0 → result ≡ true }
{
    if texts == 0 {
        return true;
    }
    used < BLOCK && size <= BLOCK - used
}

/// The text of a number among those that start at these positions of the bytes.
fn text_at<'a>(starts: &[u16], bytes: &'a [u8], index: usize) -> &'a [u8]
    requires index { index < length starts.now }
    requires starts { AreStartsFrom starts.now (length bytes.now) }
    ensures { slice_get (texts_of starts.now bytes.now) index ≡ Some result.now }
{
    let start = starts[index] as usize;
    let rest = &bytes[start..];
    if starts.len() - index == 1 {
        return rest;
    }
    let end = starts[index + 1] as usize;
    &rest[..end - start]
}

/// Texts one behind the other: the bytes, and where each text starts.
#[derive(Drop)]
struct Block {
    starts: Vec<u16>,
    bytes: Vec<u8>,
}

impl Model for Block {
    ghost use Rattle.p21_stream_store.specs.Texts.{HeldTexts, room_in, texts_of, AreStarts};

    ghost Value = { HeldTexts };

    ghost view = { λ a. record { texts = texts_of a.starts.items a.bytes.items; room = room_in a.starts a.bytes } };

    ghost invariant = { λ a. AreStarts a.starts.items a.bytes.items };
}

impl Block {
    /// A list without texts. It takes no memory.
    fn new(alloc: Global) -> Block
        ensures { result.texts ≡ [] }
    {
        Block {
            starts: Vec::new(alloc),
            bytes: Vec::new(alloc),
        }
    }

    /// How many texts there are.
    fn len(&self) -> usize
        ensures { result ≡ length self.now.texts }
    {
        self.starts.len()
    }

    /// The text of a number.
    fn get(&self, index: usize) -> &[u8]
        requires { index < length self.now.texts }
        ensures { slice_get self.now.texts index ≡ Some result.now }
    {
        text_at(&self.starts, &self.bytes, index)
    }

    /// Gives back the room for further starts.
    fn close(&mut self)
        ensures { self.new.texts ≡ self.old.texts }
    {
        self.starts.shrink_to_fit();
    }

    /// Makes room for a text of this size, if the block takes it; says whether it does.
    ///
    /// # Errors
    ///
    /// `NoMemory`. No text is added.
    fn reserve(&mut self, size: usize) -> Result<bool, NoMemory>
        ensures same { self.new.texts ≡ self.old.texts }
        ensures room { IfOk result (λ taken. IsTrue taken → size < self.new.room) }
        ensures first { self.old.texts ≡ [] → IfOk result (λ taken. taken ≡ true) }
    {
        if !takes(self.starts.len(), self.bytes.len(), size) {
            return Ok(false);
        }
        let Ok(()) = make_place(&mut self.starts, &mut self.bytes, size) else {
            return Err(NoMemory);
        };
        Ok(true)
    }

    /// Adds a text, for which there is room.
    fn push_reserved(&mut self, text: &[u8])
        requires { length text.now < self.old.room }
        ensures { self.new.texts ≡ self.old.texts ++ text.now ∷ [] }
    {
        self.starts.push_reserved(self.bytes.len() as u16);
        let Ok(()) = self.bytes.extend_from_slice(text) else {
            unreachable!();
        };
    }
}

/// A block to which no more texts are added, and the number of its first text.
#[derive(Drop)]
struct FullBlock {
    first: usize,
    block: Block,
}

/// The text of a number below `end`, which is the number behind these blocks.
fn text_in(full: &[FullBlock], index: usize, end: usize) -> &[u8]
    requires firsts { AreFirsts 0 full.now end }
    requires index { index < end }
    ensures { slice_get (block_texts full.now) index ≡ Some result.now }
{
    let (mut low, mut high) = search_bounds(full, index, end);
    while high - low > 1 {
        let middle = low + (high - low) / 2;
        if full[middle].first <= index {
            low = middle;
        } else {
            high = middle;
        }
    }
    let found = &full[low];
    found.block.get(index - found.first)
}

/// Two indices of blocks: a text stands in the block of the first or behind it, and in front of that of the second. Blocks have
/// about as many texts each, so that mostly the block is guessed.
fn search_bounds(full: &[FullBlock], index: usize, end: usize) -> (usize, usize)
    requires firsts { AreFirsts 0 full.now end }
    requires index { index < end }
    ensures order { result.0 < result.1 }
    ensures within { result.1 ≤ length full.now }
    ensures low { first_at full.now end result.0 ≤ index }
    ensures high { index < first_at full.now end result.1 }
{
    let count = full.len();
    let guess = (index.saturating_mul(count) / end).min(count - 1);
    if full[guess].first > index {
        return (0, guess);
    }
    let next = guess + 1;
    if next < count && full[next].first <= index {
        return (next, count);
    }
    (guess, next)
}

/// Texts by number, in the order in which they came. They don't move when more come.
#[derive(Drop)]
pub struct Texts {
    alloc: Global,
    full: Vec<FullBlock>,
    end: usize,
    last: Block,
}

impl Model for Texts {
    ghost use Rattle.std.specs.Prelude.{◌++◌};
    ghost use Rattle.p21_stream_store.specs.Texts.{HeldTexts};
    ghost use Rattle.p21_stream_store.specs.Blocks.{block_texts, AreFirsts};

    ghost Value = { HeldTexts };

    ghost view = { λ a. record { texts = block_texts a.full.items ++ a.last.texts; room = a.last.room } };

    ghost invariant = { λ a. AreFirsts 0 a.full.items a.end };
}

impl Texts {
    /// A list without texts. It takes no memory.
    pub fn new(alloc: Global) -> Texts
        ensures { result.texts ≡ [] }
    {
        Texts {
            alloc,
            full: Vec::new(alloc),
            end: 0,
            last: Block::new(alloc),
        }
    }

    /// The text of a number.
    pub fn get(&self, index: usize) -> &[u8]
        requires { index < length self.now.texts }
        ensures { slice_get self.now.texts index ≡ Some result.now }
    {
        if index < self.end {
            return text_in(&self.full, index, self.end);
        }
        self.last.get(index - self.end)
    }

    /// Makes room for a text of this size. If the last block doesn't take it, a new one follows.
    ///
    /// # Errors
    ///
    /// `NoMemory`. No text is added.
    pub fn reserve(&mut self, size: usize) -> Result<(), NoMemory>
        requires { length self.old.texts < 2 ^ 64 }
        ensures same { self.new.texts ≡ self.old.texts }
        ensures ok { OnOk result (size < self.new.room) }
    {
        match self.last.reserve(size) {
            Ok(true) => return Ok(()),
            Ok(false) => {}
            Err(fault) => return Err(fault),
        }
        let mut block = Block::new(self.alloc);
        match block.reserve(size) {
            Ok(true) => {}
            Ok(false) => unreachable!(),
            Err(fault) => return Err(fault),
        }
        make_room(&mut self.full)?;
        let count = self.last.len();
        self.last.close();
        self.full.push_reserved(FullBlock {
            first: self.end,
            block: mem::replace(&mut self.last, block),
        });
        self.end += count;
        Ok(())
    }

    /// Adds a text, for which there is room.
    pub fn push_reserved(&mut self, text: &[u8])
        requires { length text.now < self.old.room }
        ensures { self.new.texts ≡ self.old.texts ++ text.now ∷ [] }
    {
        self.last.push_reserved(text);
    }
}
