ghost use Rattle.std.specs.Prelude.{◌≡◌, ◌≤◌, ◌-◌, ◌++◌, [], IfErr, IfOk, IfSome, IsTrue, List, OnOk, length, ℕ};
ghost use Rattle.p21_spec_survey.specs.Rules.{Rules};
ghost use Rattle.p21_stream_log.specs.Broken.{BeginsIn, BreaksOff, HasSize, IsFrontOf, TellsRefused};
ghost use Rattle.p21_stream_log.specs.Ending.{EndGives};
ghost use Rattle.p21_stream_log.specs.Endless.{BeginsUnendedIn};
ghost use Rattle.p21_stream_log.specs.Going.{BeginsAnew, GoOnGives, TellsData};
ghost use Rattle.p21_stream_log.specs.Log.{BeginSo, BeginsBehind, Closes, Keeps, Known, LeaveOutGives, Logs, PassGives, StepGives, StepKeeps, TakeGives, at_start};
ghost use Rattle.p21_stream_log.specs.Passage.{FurtherGives, GoesOnAt, PassToGives, PassageGives};
ghost use Rattle.p21_stream_resume.specs.Standing.{EndsNoRemark};
ghost use Rattle.p21_stream_statements.specs.Place.{place_behind};
ghost use Rattle.p21_stream_statements.specs.Source.{IsOfBytes};

use crate::front::{front_of, refused_place};
use crate::offering::offered;
use crate::passage::{Passage, front_size, is_file_mark, signpost_inside, too_far};
use p21_grammar::Event;
use p21_shorter_tokens::behind_separators;
use p21_spec_survey::{signpost_laws, whole_laws};
use p21_stream_resume::{
    Seeker, Signpost, is_opened_behind, signpost_in_string, signpost_in_unended,
};
use p21_stream_statements::{Expected, Fault, Places, StatementReader, reader_laws};
use p21_values::{Limits, NoMemory};
use std::alloc::{AllocError, Global};
use std::marker::Model;

/// A reader of statements, with the bytes of the statement that is open.
#[derive(Drop)]
pub struct Log {
    reader: StatementReader,
    // How many bytes of the file stand in front of the buffer: those of all statements that ended, and of those that are passed over.
    start: u64,
    // The bytes behind them that the reader has taken.
    buffer: Vec<u8>,
    // Whether a `;`, a `)` or the end of a line stands in front of the buffer, blanks apart.
    opened: bool,
}

impl Model for Log {
    ghost use Rattle.p21_stream_log.specs.Log.{Held};

    ghost Value = { Held };

    ghost view = { λ log. record { reader = log.reader; start = log.start; buffer = log.buffer.items; opened = log.opened } };
}

impl Log {
    /// A log of a file of which nothing is read. It takes no memory.
    pub fn new(alloc: Global, limits: Limits) -> Log
        ensures logs { (s : Rules) (known : Known) (ahead : List ℕ) → BeginSo known ahead → Logs s limits known result (at_start ahead) }
        ensures begins { BeginsAnew 0 result }
    {
        Log {
            reader: StatementReader::new(alloc, limits),
            start: 0,
            buffer: Vec::new(alloc),
            opened: false,
        }
    }

    /// Takes the bytes of one token, or some in which none is whole, and says how many; with the `;` of a statement, which is the last of
    /// them, the statement. The byte behind a token may have been looked at: it has to be offered next.
    ///
    /// # Errors
    ///
    /// The reader's, and `NoMemory`.
    pub fn step(&mut self, piece: &[u8]) -> Result<(usize, Option<Event>), Fault>
        ensures takes { IfOk result (λ taken. taken.0 ≤ length piece.now) }
        ensures gives { StepGives self.old piece.now result self.new }
        ensures keeps { StepKeeps self.old piece.now result self.new }
        ensures kind { IfErr result (λ fault. IsOfBytes fault) }
    {
        whole_laws();
        let bytes = offered(piece);
        let answer = match self.reader.step(bytes) {
            Ok(answer) => answer,
            Err(fault) => return Err(fault),
        };
        let Some((count, event)) = answer else {
            return match self.keep(bytes) {
                Ok(()) => Ok((bytes.len(), None)),
                Err(NoMemory) => Err(Fault::NoMemory),
            };
        };
        match self.keep(&bytes[..count]) {
            Ok(()) => Ok((count, event)),
            Err(NoMemory) => Err(Fault::NoMemory),
        }
    }

    /// Passes over the bytes of a whole instance that is read elsewhere, with separators around its tokens, as if they had been taken; says
    /// whether it did. It does between instances of a data section, where the limits allow as many bytes.
    ///
    /// # Errors
    ///
    /// `NoMemory`.
    pub fn pass_over(&mut self, instance: &[u8]) -> Result<bool, NoMemory>
        ensures gives { IfOk result (λ passed. PassGives self.old instance.now passed self.new) }
        ensures keeps { IfOk result (λ passed. IsTrue passed → Keeps self.old instance.now self.new) }
    {
        if !self.reader.pass_over(instance.len()) {
            return Ok(false);
        }
        match self.keep(instance) {
            Ok(()) => Ok(true),
            Err(NoMemory) => Err(NoMemory),
        }
    }

    /// Takes the statement that ended last. It takes no memory.
    pub fn take(&mut self)
        ensures gives { TakeGives self.old self.new }
        ensures closes { Closes self.old self.new }
    {
        whole_laws();
        self.close();
    }

    /// Leaves out the instance that ended last, which is refused, and says where it begins: how many bytes of the file stand in front of it.
    /// `None` where a signpost stands in a string of it: then nothing changes. It takes no memory.
    pub fn leave_out(&mut self) -> Option<u64>
        ensures gives { LeaveOutGives self.old result self.new }
        ensures closes { IfSome result (λ begins. Closes self.old self.new) }
    {
        whole_laws();
        if let Some(_) = signpost_in_string(&self.buffer) {
            return None;
        }
        let begins = self.begins();
        self.close();
        Some(begins)
    }

    /// Passes over what stands behind the last statement that was taken or left out, up to this place in the file, where a landmark begins;
    /// says whether it does. It does where the file may have as many bytes. A refusal is forgotten, and the bytes from the place on are to
    /// be offered next. It takes no memory.
    pub fn go_on(&mut self, place: u64) -> bool
        ensures gives { GoOnGives self.old place result self.new }
        ensures begins { IsTrue result → BeginsAnew place self.new }
    {
        whole_laws();
        if !self.reader.reopen(place) {
            return false;
        }
        self.start = place;
        self.buffer.clear();
        self.opened = true;
        true
    }

    /// Passes over a statement by its bytes up to what is refused, and by those from there on, up to where the reading goes on: at the
    /// first signpost in a string of the statement, else at the first one behind it. Where no bytes are given from there on, the statement
    /// ends in no remark, or the file ends with it: then a signpost in the remark counts as one in a string. Where it doesn't go on, nothing
    /// has changed.
    ///
    /// # Errors
    ///
    /// `NoMemory`.
    pub fn pass(
        &mut self,
        alloc: Global,
        statement: &[u8],
        behind: &[u8],
    ) -> Result<Passage, NoMemory>
        ensures gives { IfOk result (λ passage. PassageGives self.old statement.now behind.now passage self.new) }
        ensures begins { IfOk result (λ passage. GoesOnAt self.old passage self.new) }
    {
        signpost_laws();
        if let Some((count, signpost)) = signpost_inside(statement, behind) {
            return Ok(self.pass_to(count, signpost));
        }
        let mut seeker = Seeker::new(alloc, is_opened_behind(self.opened, statement));
        match seeker.seek(behind) {
            Ok(Some((last, signpost))) => {
                let size = seeker.signpost_bytes().len();
                let count = (statement.len() + (last + 1)).saturating_sub(size);
                Ok(self.pass_to(count, signpost))
            }
            Ok(None) => Ok(Passage::Sought(seeker)),
            Err(AllocError) => Err(NoMemory),
        }
    }

    /// Passes over a statement by all its bytes, with which the file ends in a remark, and in which no remark ends. It reads them no further than
    /// to where the reading goes on. Its reader need not have taken them all. It takes no memory.
    pub fn pass_unended(&mut self, alloc: Global, statement: &[u8]) -> Passage
        requires { EndsNoRemark statement.now }
        ensures gives { PassageGives self.old statement.now [] result self.new }
        ensures begins { GoesOnAt self.old result self.new }
    {
        signpost_laws();
        match signpost_in_unended(statement) {
            Some((count, signpost)) => self.pass_to(count, signpost),
            None => Passage::Sought(Seeker::new(alloc, is_opened_behind(self.opened, statement))),
        }
    }

    /// Looks for where the reading goes on in the next piece, where a seeker has taken what stands behind a statement, with the statement
    /// so many bytes. Where it goes on, or ends, a signpost ends behind so many bytes of the piece: the bytes that the seeker holds are to
    /// be offered next, and then the rest of the piece. Else the seeker has taken the piece.
    ///
    /// # Errors
    ///
    /// `NoMemory`.
    pub fn pass_on(
        &mut self,
        seeker: &mut Seeker,
        taken: usize,
        piece: &[u8],
    ) -> Result<Option<(usize, Passage)>, NoMemory>
        ensures within { IfOk result (λ found. IfSome found (λ f. f.0 ≤ length piece.now)) }
        ensures gives { IfOk result (λ found. FurtherGives self.old seeker.old taken piece.now found self.new seeker.new) }
        ensures begins { IfOk result (λ found. IfSome found (λ f. GoesOnAt self.old f.1 self.new)) }
    {
        signpost_laws();
        match seeker.seek(piece) {
            Ok(None) => Ok(None),
            Ok(Some((last, signpost))) => {
                let count = last + 1;
                let size = seeker.signpost_bytes().len();
                let Some(passed) = front_size(taken, count, size) else {
                    return Ok(Some((count, too_far(signpost))));
                };
                Ok(Some((count, self.pass_to(passed, signpost))))
            }
            Err(AllocError) => Err(NoMemory),
        }
    }

    /// Goes on at a signpost that stands behind so many bytes, unless it is that of a file.
    fn pass_to(&mut self, count: usize, signpost: Signpost) -> Passage
        ensures gives { PassToGives self.old count signpost result self.new }
        ensures begins { GoesOnAt self.old result self.new }
    {
        if is_file_mark(signpost) {
            return Passage::AtFileMark;
        }
        match self.start.checked_add(count as u64) {
            None => Passage::TooLong,
            Some(place) => {
                if self.go_on(place) {
                    Passage::GoesOn(count)
                } else {
                    Passage::TooLong
                }
            }
        }
    }

    /// Whether the kept bytes, with those behind the last statement that ended, are a file. A byte that was looked at has to be offered
    /// first.
    ///
    /// # Errors
    ///
    /// The reader's.
    pub fn finish(self) -> Result<(), Fault>
        ensures gives { EndGives self result }
        ensures kind { IfErr result (λ fault. IsOfBytes fault) }
    {
        whole_laws();
        let Log { reader, .. } = self;
        reader.finish()
    }

    /// The bytes behind the last statement that ended, with those of a piece behind them.
    ///
    /// # Errors
    ///
    /// `NoMemory`.
    pub fn bytes_with(&self, alloc: Global, piece: &[u8]) -> Result<Vec<u8>, NoMemory>
        ensures { IfOk result (λ bytes. bytes.items ≡ self.now.buffer ++ piece.now) }
    {
        let mut bytes = Vec::new(alloc);
        let Ok(()) = bytes.extend_from_slice(&self.buffer) else {
            return Err(NoMemory);
        };
        let Ok(()) = bytes.extend_from_slice(piece) else {
            return Err(NoMemory);
        };
        Ok(bytes)
    }

    /// Where in the file the bytes begin that are held: those behind the last statement that ended. It takes no memory.
    pub fn start(&self) -> u64
        ensures { result ≡ self.now.start }
    {
        self.start
    }

    /// Where its reader stands in the file. It takes no memory.
    pub fn places(&self) -> Places
        ensures { result.byte ≡ place_behind self.now.reader }
    {
        self.reader.places()
    }

    /// Whether it stands between two instances of a data section: then `pass_over` may pass over one. It takes no memory.
    pub fn is_between_instances(&self) -> bool {
        self.reader.is_between_instances()
    }

    /// What its reader could have taken in place of the token that it refused with this fault. It takes no memory.
    pub fn expected(&self, fault: Fault) -> Expected {
        Expected::of(fault, &self.reader)
    }

    /// Whether it stands in a data section, also where a step was refused. It takes no memory.
    pub fn is_in_data(&self) -> bool
        ensures { TellsData self.now result }
    {
        reader_laws();
        self.reader.is_in_data()
    }

    /// How many bytes of the file stand in front of what a step refused with this fault: of a byte, or of a token by its first byte, and of
    /// a string by its last one. The bytes are those of `bytes_with` the piece. It takes no memory.
    pub fn refused_at(&self, fault: Fault, bytes: &[u8]) -> u64
        ensures { TellsRefused self.now fault bytes.now result }
    {
        refused_place(fault, self.reader.places(), self.start, bytes)
    }

    /// Of the bytes behind the last statement that ended, with those of the piece of which a step refused some, the ones that stand in front
    /// of this place in the file: where a statement begins so, and bytes stand behind them. Else none. `refused_at` tells the place.
    ///
    /// # Errors
    ///
    /// `NoMemory`.
    pub fn broken_front<'a>(
        &self,
        alloc: Global,
        limits: Limits,
        bytes: &'a [u8],
        place: u64,
    ) -> Result<&'a [u8], NoMemory>
        ensures front { IfOk result (λ front. IsFrontOf bytes.now front.now) }
        ensures size { IfOk result (λ front. HasSize bytes.now (place - self.now.start) front.now) }
        ensures breaks_off { IfOk result (λ front. (piece : List ℕ) → bytes.now ≡ self.now.buffer ++ piece
            → BreaksOff self.now piece front.now) }
    {
        whole_laws();
        match front_of(alloc, limits, bytes, place.saturating_sub(self.start)) {
            Ok(front) => Ok(front),
            Err(NoMemory) => Err(NoMemory),
        }
    }

    /// How many bytes of the file stand in front of the statement that begins with these bytes behind the last one that ended, separators
    /// apart. It takes no memory.
    pub fn begins_in(&self, bytes: &[u8]) -> u64
        ensures begins { BeginsIn self.now bytes.now result }
        ensures unended { BeginsUnendedIn self.now bytes.now result }
    {
        let statement = behind_separators(bytes);
        let gap = bytes.len().saturating_sub(statement.len());
        self.start.saturating_add(gap as u64)
    }

    /// How many bytes of the file stand in front of the open statement.
    fn begins(&self) -> u64
        ensures { BeginsBehind self.now result }
    {
        let statement = behind_separators(&self.buffer);
        self.reader
            .places()
            .byte
            .saturating_sub(statement.len() as u64)
    }

    /// Takes bytes behind those of the buffer.
    fn keep(&mut self, bytes: &[u8]) -> Result<(), NoMemory>
        ensures { OnOk result (self.new ≡ record self.old { buffer = self.old.buffer ++ bytes.now }) }
    {
        match self.buffer.extend_from_slice(bytes) {
            Ok(()) => Ok(()),
            Err(AllocError) => Err(NoMemory),
        }
    }

    /// Has the buffer begin anew behind the statement that ended last.
    fn close(&mut self)
        ensures { Closes self.old self.new }
    {
        self.opened = true;
        self.start = self.reader.places().byte;
        self.buffer.clear();
    }
}
