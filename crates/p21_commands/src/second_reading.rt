//! What a second reading of a file finds of its refusals: where references stand that no instance serves, and in which part
//! of an instance a refusal stands that is of no attribute.
//!
//! That no instance serves a reference is known at the end of the file alone, and no place is kept of each reference till
//! then; and of a refusal its place is kept, and not the keyword in front of it. So the file is read a second time. It is
//! known by then to be an exchange structure as far as its refusals stand, but for the statements that were passed over, which
//! are passed over here too: strings, remarks, names and keywords are told apart by their signs (ISO 10303-21, 6 and 7). Where
//! an instance refers to a target more than once, its refusals stand at the first of these references at whose attributes the
//! instance is wanted that isn't served, one at each.
//!
//! A statement is read all the same as far as a part is looked for in it: an instance that is refused, in a string of which a
//! statement seems to begin. Behind the part it is passed over.

use crate::wants::could_want;
use crate::way::Way;
use p21_schema::Schema;
use p21_stream::{At, Fault, Located, LocatedSurvey, Need, PassedOver, Place};
use p21_tokens_automaton::{Action, Mode, TextMode, advance};
use p21_values::{Name, NoMemory};
use std::alloc::Global;

/// What is looked for.
#[derive(Clone, Copy)]
enum Sought {
    /// A reference in the instance of this name.
    Reference { holder: u64, need: Need },
    /// The part at this byte.
    Part { byte: u64 },
}

/// A refusal of which something is looked for.
#[derive(Clone, Copy)]
struct Wanted {
    // Its number in the list of refusals.
    number: usize,
    sought: Sought,
    found: Option<Found>,
}

/// Where a refusal was met. What is kept of its keyword and its steps lies between two numbers each.
#[derive(Clone, Copy)]
struct Found {
    byte: u64,
    is_alone: bool,
    keyword: (usize, usize),
    steps: (usize, usize),
}

/// What was met of a refusal.
#[derive(Clone, Copy)]
pub struct Met<'r> {
    /// The place of the refusal, or of its reference.
    pub place: Place,
    /// The keyword of the part of the instance in which it stands.
    pub keyword: &'r [u8],
    /// Whether this is all of the instance, as in the internal mapping.
    pub is_alone: bool,
    /// Of a reference the number of its value in the part, then the way in this value through lists and typed parameters, each
    /// from 1 on.
    pub steps: &'r [u32],
}

/// What stands in front of the next byte.
#[derive(Clone, Copy, PartialEq, Eq)]
enum Inside {
    Statement,
    /// A name, of which this is read, and which began with this byte.
    Name { number: u64, start: u64 },
    /// A string, by the rules of the reader of tokens: an apostrophe behind `\S\` doesn't end it.
    String(TextMode),
    /// A slash, with which a remark may begin.
    Slash,
    Remark,
    /// A star in a remark, with which its end may begin.
    Star,
}

/// The refusals of a list of which something is looked for, and what was met of them in the bytes that were taken.
#[derive(Drop)]
pub struct SecondReading {
    // In the order of the list: parts, then references.
    wanted: Vec<Wanted>,
    // The first of the parts that wasn't passed, and where it stands; and the first of the references.
    next_part: usize,
    part_byte: u64,
    next: usize,
    // The statements that were passed over, and the number of the next one.
    passed_over: Vec<PassedOver>,
    next_passed: usize,
    // The part whose keyword is behind the bytes that were taken.
    pending: Option<usize>,
    taken: u64,
    inside: Inside,
    // The instance whose statement is open, behind its name.
    holder: Option<u64>,
    way: Way,
    // What is kept of all that was met.
    keywords: Vec<u8>,
    steps: Vec<u32>,
    // Where memory was refused, nothing more is met.
    is_over: bool,
}

impl SecondReading {
    /// Nothing is looked for. It takes no memory.
    pub fn none(alloc: Global) -> SecondReading {
        SecondReading {
            wanted: Vec::new(alloc),
            next_part: 0,
            part_byte: u64::MAX,
            next: 0,
            passed_over: Vec::new(alloc),
            next_passed: 0,
            pending: None,
            taken: 0,
            inside: Inside::Statement,
            holder: None,
            way: Way::new(alloc),
            keywords: Vec::new(alloc),
            steps: Vec::new(alloc),
            is_over: false,
        }
    }

    /// What is looked for of the refusals of a survey, whose bytes are to be taken once more.
    ///
    /// # Errors
    ///
    /// `NoMemory`.
    pub fn of(alloc: Global, found: &LocatedSurvey) -> Result<SecondReading, NoMemory> {
        let mut reading = SecondReading::none(alloc);
        for number in 0..usize::MAX {
            let Some(located) = found.located(number) else {
                break;
            };
            reading.want(number, &located, found.need(number))?;
        }
        for number in 0..usize::MAX {
            let Some(statement) = found.passed_over(number) else {
                break;
            };
            reading.passed_over.push(statement)?;
        }
        reading.begin();
        Ok(reading)
    }

    /// What is looked for of the first refusal of a file, unless it is one of a reference.
    ///
    /// # Errors
    ///
    /// `NoMemory`.
    pub fn of_first(alloc: Global, located: &Located) -> Result<SecondReading, NoMemory> {
        let mut reading = SecondReading::none(alloc);
        reading.want(0, located, None)?;
        reading.begin();
        Ok(reading)
    }

    /// Has a refusal looked for that is the next one of its list: by its reference, if this is wanted there, or by its part.
    fn want(
        &mut self,
        number: usize,
        located: &Located,
        need: Option<Need>,
    ) -> Result<(), NoMemory> {
        let Some(sought) = sought_of(located, need) else {
            return Ok(());
        };
        self.wanted.push(Wanted {
            number,
            sought,
            found: None,
        })?;
        Ok(())
    }

    /// Looks for the first part and the first reference.
    fn begin(&mut self) {
        self.part_byte = self.byte_of_part(0);
        self.next = self.wanted.len();
        for index in 0..self.wanted.len() {
            if self.byte_of_part(index) == u64::MAX {
                self.next = index;
                return;
            }
        }
    }

    /// Where the part of this number stands; behind all bytes where there is none.
    fn byte_of_part(&self, index: usize) -> u64 {
        match self.wanted.get(index) {
            Some(wanted) => match wanted.sought {
                Sought::Part { byte } => byte,
                Sought::Reference { .. } => u64::MAX,
            },
            None => u64::MAX,
        }
    }

    /// Whether nothing is looked for.
    pub fn is_empty(&self) -> bool {
        self.wanted.is_empty()
    }

    /// What was met of the refusal of this number.
    pub fn met(&self, number: usize) -> Option<Met<'_>> {
        let found = self.found(number)?;
        Some(Met {
            place: Place { byte: found.byte },
            keyword: self.keywords.get(found.keyword.0..found.keyword.1)?,
            is_alone: found.is_alone,
            steps: self.steps.get(found.steps.0..found.steps.1)?,
        })
    }

    /// Where the refusal of this number was met.
    fn found(&self, number: usize) -> Option<Found> {
        let mut front: usize = 0;
        let mut left = self.wanted.len();
        // Each round halves what is left.
        for _ in 0..64 {
            let half = left / 2;
            let middle = front.saturating_add(half);
            let wanted = self.wanted.get(middle)?;
            if wanted.number == number {
                return wanted.found;
            }
            if left == 0 {
                return None;
            }
            if wanted.number < number {
                front = middle.saturating_add(1);
                left = left.saturating_sub(half).saturating_sub(1);
            } else {
                left = half;
            }
        }
        None
    }

    /// Takes bytes of the file, whose schema this is.
    pub(crate) fn take(&mut self, schema: &Schema, bytes: &[u8]) {
        for byte in bytes {
            if self.is_over {
                return;
            }
            if !self.is_passed() {
                if self.taken == self.part_byte {
                    self.reach(*byte);
                }
                self.inside = self.behind(schema, *byte);
            }
            self.taken = self.taken.saturating_add(1);
        }
    }

    /// Whether the next byte is one of a statement that was passed over, and no part is looked for in it.
    fn is_passed(&mut self) -> bool {
        self.leave_passed();
        match self.passed_over.get(self.next_passed) {
            Some(PassedOver { begins, ends }) => {
                self.taken >= *begins && self.part_byte >= *ends && self.pending.is_none()
            }
            None => false,
        }
    }

    /// Stands between statements again where the next byte is the first one behind a statement that was passed over.
    fn leave_passed(&mut self) {
        let Some(PassedOver { ends, .. }) = self.passed_over.get(self.next_passed) else {
            return;
        };
        if self.taken < *ends {
            return;
        }
        self.next_passed = self.next_passed.saturating_add(1);
        self.inside = Inside::Statement;
        self.pending = None;
        self.holder = None;
        self.way.begin();
    }

    /// Stands in front of a part that is looked for, and of this byte.
    fn reach(&mut self, byte: u8) {
        let index = self.next_part;
        self.next_part = index.saturating_add(1);
        self.part_byte = self.byte_of_part(self.next_part);
        if self.way.is_in_part() {
            self.keep(index, self.taken, false);
        } else if byte != b'#' {
            self.pending = Some(index);
        }
    }

    /// Where the next byte stands behind this one.
    fn behind(&mut self, schema: &Schema, byte: u8) -> Inside {
        match self.inside {
            Inside::Statement => self.in_statement(byte),
            Inside::Name { number, start } => {
                if byte.is_ascii_digit() {
                    let digit = byte.saturating_sub(b'0') as u64;
                    let number = number.saturating_mul(10).saturating_add(digit);
                    return Inside::Name { number, start };
                }
                self.meet(schema, number, start);
                self.in_statement(byte)
            }
            Inside::String(mode) => self.in_string(mode, byte),
            Inside::Slash if byte == b'*' => Inside::Remark,
            Inside::Slash => self.in_statement(byte),
            Inside::Remark | Inside::Star if byte == b'*' => Inside::Star,
            Inside::Star if byte == b'/' => Inside::Statement,
            Inside::Remark | Inside::Star => Inside::Remark,
        }
    }

    /// The same of a byte between tokens, or of a token that is no text and no name.
    fn in_statement(&mut self, byte: u8) -> Inside {
        match byte {
            b'#' => Inside::Name {
                number: 0,
                start: self.taken,
            },
            b'\'' => Inside::String(TextMode::Inside),
            b'/' => Inside::Slash,
            b';' => {
                self.leave();
                Inside::Statement
            }
            _ => {
                self.go_on(byte);
                Inside::Statement
            }
        }
    }

    /// The same of a byte behind those of a string. Where the string is refused, nothing more is met.
    fn in_string(&mut self, mode: TextMode, byte: u8) -> Inside {
        match advance(Mode::Text(mode), byte) {
            Action::Skip(Mode::Text(behind)) => Inside::String(behind),
            Action::Put(Mode::Text(behind), _) => Inside::String(behind),
            Action::End => self.in_statement(byte),
            _ => {
                self.is_over = true;
                Inside::Statement
            }
        }
    }

    /// Takes a byte of a keyword or a sign of the statement of an instance. Behind the keyword of a part that is looked for, it is met.
    fn go_on(&mut self, byte: u8) {
        if self.holder.is_none() {
            return;
        }
        if self.way.take(byte).is_err() {
            self.is_over = true;
            return;
        }
        if let Some(index) = self.pending {
            if self.way.is_in_part() {
                self.pending = None;
                self.keep(index, self.byte_of_part(index), false);
            }
        }
    }

    /// Takes a name: that of an instance, or a reference in it.
    fn meet(&mut self, schema: &Schema, name: u64, start: u64) {
        let Some(holder) = self.holder else {
            self.holder = Some(name);
            self.way.begin();
            return;
        };
        if self.is_next(schema, holder, name) {
            self.keep(self.next, start, true);
            self.next = self.next.saturating_add(1);
        }
    }

    /// What is wanted at the next reference that is looked for, if it is one in this instance.
    fn next_need(&self, in_holder: u64) -> Option<Need> {
        match self.wanted.get(self.next)?.sought {
            Sought::Reference { holder, need } if holder == in_holder => Some(need),
            _ => None,
        }
    }

    /// Whether a reference of an instance to this name is the next one that is looked for.
    fn is_next(&self, schema: &Schema, holder: u64, name: u64) -> bool {
        match self.next_need(holder) {
            Some(need) => need.target.0 == name && could_want(schema, &self.way, need.wanted),
            None => false,
        }
    }

    /// Keeps that a refusal was met at a byte, with the keyword of the part, and of a reference the way in it. Where memory is refused
    /// nothing more is met.
    fn keep(&mut self, index: usize, byte: u64, is_reference: bool) {
        let (from, first) = (self.keywords.len(), self.steps.len());
        let has_steps = !is_reference || self.keep_steps();
        if !has_steps || self.keywords.extend_from_slice(self.way.keyword()).is_err() {
            self.is_over = true;
            return;
        }
        let found = Found {
            byte,
            is_alone: self.way.is_alone(),
            keyword: (from, self.keywords.len()),
            steps: (first, self.steps.len()),
        };
        if let Some(wanted) = self.wanted.get_mut(index) {
            wanted.found = Some(found);
        }
    }

    /// Keeps the way in a reference, and says whether memory was there for it.
    fn keep_steps(&mut self) -> bool {
        self.steps.extend_from_slice(self.way.steps()).is_ok()
    }

    /// Leaves a statement, and what wasn't met in it.
    fn leave(&mut self) {
        self.pending = None;
        let Some(holder) = self.holder else {
            return;
        };
        self.holder = None;
        self.way.begin();
        for _ in 0..self.wanted.len() {
            if self.next_need(holder).is_none() {
                return;
            }
            self.next = self.next.saturating_add(1);
        }
    }
}

/// What is looked for of a refusal: its reference, at which this is wanted, or the part in which a record is refused and no attribute of it.
fn sought_of(located: &Located, need: Option<Need>) -> Option<Sought> {
    let At::Instance(Name(holder)) = located.refusal.at else {
        return None;
    };
    if let Some(need) = need {
        return Some(Sought::Reference { holder, need });
    }
    if located.attribute.is_some() {
        return None;
    }
    match located.refusal.fault {
        Fault::Check(_) => {
            let Place { byte } = located.place?;
            Some(Sought::Part { byte })
        }
        _ => None,
    }
}
