//! `pending` after a refusal is what was open in front of the refused byte. So a session can say how long the record
//! was, and the limit holds there too.
//!
//! `keep_run`, `put_run` and `put_utf8_run` are three functions: each keeps bytes by a different call, and then counts
//! them twice. A common function would have to take that call as a closure.
//!
//! `Lexer::new` takes the allocator. It allocates nothing by itself.
//!
//! The lexer never says `OpenString` or `OpenComment` before the end. Inside a string or a comment, more bytes can
//! always follow.
//!
//! A call of `next` answers at most one token, and how many bytes it took. The caller offers the rest again. So nothing
//! is queued, and a piece of any size needs no memory of its size.
ghost use Rattle.std.specs.Prelude.{◌≡◌, ◌≢◌, ◌+◌, ◌<◌, ◌≤◌, [], ◌∷◌, ◌++◌, length, take, true, false, Option, None, Some, OnOk, OnErr, IfOk, IfErr};
ghost use Rattle.std.specs.Str.{IsUtf8, chars};
ghost use Rattle.p21_spec_exchange.specs.Laying.{count_behind};
ghost use Rattle.p21_tokens_automaton.specs.Reading.{closed_token, ended_token, single_token, start};
ghost use Rattle.p21_tokens_automaton.specs.declared.mode.Mode.TheVariants.{Between, Name};
ghost use Rattle.p21_tokens_automaton.specs.declared.mode.NameMode.TheVariants.{Digits};
ghost use Rattle.p21_tokens.specs.Fault.{IsOfTokens};
ghost use Rattle.p21_tokens.specs.Prefix.{TakesLeadingToken};
ghost use Rattle.p21_tokens.specs.Held.{file_limit_of, pending_of, place_of, record_limit_of, refusal_of, state_of};
ghost use Rattle.p21_tokens_automaton.specs.Step.{advance};
ghost use Rattle.p21_spec_basics.specs.History.{empty};
ghost use Rattle.p21_tokens.specs.declared.fault.TokenFault.{TokenFault};
ghost use Rattle.p21_tokens.specs.Histories.{FinishGives, FinishNamesFault, IsPendingBehind, KeepsLimits, NeedsNoMemory, NextGives, RefusesAgain, Stands, TakesNoMore, TakesWithinPiece, TokenHistory};
ghost use Rattle.p21_tokens.specs.Passing.{IsResting};
ghost use Rattle.p21_tokens.specs.Reopening.{RestsBehindSemicolon};
ghost use Rattle.p21_tokens.specs.Steps.{ClosesToken, EndsToken, LacksMemory, Runs, Scans, Steps, Walks, behind_token, is_token_byte, with_characters, with_pending_bytes};
ghost use Rattle.p21_tokens.specs.Token.{meant};

mod passing;
mod reopening;

use crate::fault::{TokenFault, fault_of};
use crate::places::{Places, Starts, bytes_of_character};
use crate::prefix::{LeadingToken, leading_token};
use crate::read_token::{
    marker_of, read_closed_token, read_ended_token, read_last_token, single_token,
};
use crate::step::{Outcome, is_token_byte};
use crate::token::Token;
use crate::within::{at_most, whole_characters};
use p21_tokens_automaton::{Action, Mode, NameMode, Run, Single, advance, blanks, run_of};
use p21_values::{Limits, Text};
use std::alloc::Global;
use std::fmt;
use std::marker::Model;

/// Reads tokens from bytes that come in pieces of any size.
pub struct Lexer {
    // The allocator of what the tokens keep.
    alloc: Global,
    // Where the states stand.
    mode: Mode,
    // Of the open token: its bytes, where it is a number, a word or a binary; its characters, where it is a string; and
    // how many bytes of it are taken.
    pending_bytes: Vec<u8>,
    text: Text,
    size: u64,
    // The token bytes behind the last `;`, without those of the open token.
    statement: u64,
    // All bytes taken.
    file: u64,
    // Where the token and the statement begin that are open, or else the last ones. No clause rests on it.
    starts: Starts,
    // The most of both.
    statement_limit: u64,
    file_limit: u64,
    // The fault that was answered, and is answered again.
    refused: Option<TokenFault>,
}

// Written out: crates above call it, where they would prove a derived one field by field.
impl Drop for Lexer {
    fn drop(self) {
        let Lexer {
            alloc: _,
            mode: _,
            pending_bytes: _,
            text: _,
            size: _,
            statement: _,
            file: _,
            starts: _,
            statement_limit: _,
            file_limit: _,
            refused: _,
        } = self;
    }
}

impl fmt::Debug for Lexer {
    fn fmt<W: fmt::Write>(&self, f: &mut fmt::Formatter<W>) -> fmt::Result {
        let pending = self.pending();
        write!(f, "Lexer {{ pending: {pending} }}")
    }
}

impl Model for Lexer {
    ghost use Rattle.std.specs.Prelude.{◌+◌, ◌≤◌};
    ghost use Rattle.p21_tokens.specs.Fault.{IsRefusalOfTokens};
    ghost use Rattle.p21_tokens.specs.Held.{Held, IsEmptyAtSizeZero};

    ghost Value = { Held };

    ghost view = { λ lexer. record {
      mode = lexer.mode;
      pending_bytes = lexer.pending_bytes.items;
      characters = lexer.text;
      size = lexer.size;
      statement = lexer.statement;
      file = lexer.file;
      statement_limit = lexer.statement_limit;
      file_limit = lexer.file_limit;
      refused = lexer.refused;
    } };

    ghost invariant = { λ lexer. (lexer.statement + lexer.size ≤ lexer.statement_limit) × (lexer.file ≤ lexer.file_limit) × IsEmptyAtSizeZero lexer.size lexer.pending_bytes.items lexer.text × IsRefusalOfTokens lexer.refused };
}

impl Lexer {
    /// A byte between tokens.
    fn pass(&mut self, mode: Mode)
        requires { self.old.file < self.old.file_limit }
        ensures { self.new ≡ record self.old { mode = mode; file = self.old.file + 1 } }
    {
        self.file += 1;
        self.mode = mode;
    }

    /// A byte of a token, of which nothing is pending.
    fn skip(&mut self, mode: Mode)
        requires file { self.old.file < self.old.file_limit }
        requires statement { pending_of self.old < self.old.statement_limit }
        ensures { self.new ≡ record self.old { mode = mode; size = self.old.size + 1; file = self.old.file + 1 } }
    {
        self.file += 1;
        self.size += 1;
        self.mode = mode;
    }

    /// A byte of a token that becomes pending.
    fn keep(&mut self, mode: Mode, byte: u8) -> Result<(), TokenFault>
        requires file { self.old.file < self.old.file_limit }
        requires statement { pending_of self.old < self.old.statement_limit }
        ensures ok { OnOk result (self.new ≡ with_pending_bytes self.old mode (byte ∷ []) 1) }
        ensures err { LacksMemory self.old result self.new }
    {
        self.pending_bytes.push(byte)?;
        self.file += 1;
        self.size += 1;
        self.mode = mode;
        Ok(())
    }

    /// A byte with which a character of a string is known.
    fn put(&mut self, mode: Mode, character: char) -> Result<(), TokenFault>
        requires file { self.old.file < self.old.file_limit }
        requires statement { pending_of self.old < self.old.statement_limit }
        ensures ok { OnOk result (self.new ≡ with_characters self.old mode (character ∷ []) 1) }
        ensures err { LacksMemory self.old result self.new }
    {
        self.text.push(character)?;
        self.file += 1;
        self.size += 1;
        self.mode = mode;
        Ok(())
    }

    /// A byte that is a token.
    fn give(&mut self, single: Single) -> Token
        requires file { self.old.file < self.old.file_limit }
        requires statement { pending_of self.old < self.old.statement_limit }
        ensures token { meant result ≡ single_token single }
        ensures held { self.new ≡ behind_token self.old (count_behind self.old.statement (record { token = single_token single; size = 1 })) (self.old.file + 1) }
    {
        self.mode = Mode::Between;
        self.pending_bytes.clear();
        self.text = Text::new(self.alloc);
        self.file += 1;
        self.size = 0;
        if let Single::Semicolon = single {
            self.statement = 0;
        } else {
            self.statement += 1;
        }
        single_token(single)
    }

    /// A byte that is kept and ends the token.
    fn close(&mut self, byte: u8) -> Result<Token, TokenFault>
        requires file { self.old.file < self.old.file_limit }
        requires statement { pending_of self.old < self.old.statement_limit }
        ensures { ClosesToken self.old byte result self.new }
    {
        self.pending_bytes.push(byte)?;
        let token = read_closed_token(self.alloc, self.mode, &self.pending_bytes);
        // Of a token of no bytes nothing may be pending.
        self.pending_bytes.clear();
        let token = token?;
        self.mode = Mode::Between;
        self.text = Text::new(self.alloc);
        self.file += 1;
        self.statement += self.size + 1;
        self.size = 0;
        Ok(token)
    }

    /// The token that a byte behind it ends.
    fn hand_token(&mut self) -> Result<Token, TokenFault>
        ensures { EndsToken self.old result self.new }
    {
        let token = read_ended_token(self.alloc, self.mode, &self.pending_bytes, &mut self.text)?;
        self.mode = Mode::Between;
        self.pending_bytes.clear();
        self.text = Text::new(self.alloc);
        self.statement += self.size;
        self.size = 0;
        Ok(token)
    }

    /// A byte that the limits allow and that doesn't stand behind an ended token.
    fn take(&mut self, action: Action, byte: u8) -> Result<Outcome, TokenFault>
        requires action { action ≡ advance self.old.mode byte }
        requires not_end { action ≢ Action.End }
        requires file { self.old.file < self.old.file_limit }
        requires statement { is_token_byte self.old.mode action ≡ true → pending_of self.old < self.old.statement_limit }
        ensures { Steps self.old byte result self.new }
    {
        match action {
            Action::Pass(mode) => {
                self.pass(mode);
                Ok(Outcome::Took)
            }
            Action::Skip(mode) => {
                self.skip(mode);
                Ok(Outcome::Took)
            }
            Action::Keep(mode) => match self.keep(mode, byte) {
                Ok(()) => Ok(Outcome::Took),
                Err(fault) => Err(fault),
            },
            Action::Put(mode, character) => match self.put(mode, character) {
                Ok(()) => Ok(Outcome::Took),
                Err(fault) => Err(fault),
            },
            Action::Give(single) => Ok(Outcome::Gave(self.give(single))),
            Action::Close => match self.close(byte) {
                Ok(token) => Ok(Outcome::Gave(token)),
                Err(fault) => Err(fault),
            },
            Action::Dash => self.take_dash(byte),
            Action::Refuse(wrong) => Err(fault_of(wrong)),
            Action::End => Err(TokenFault::BadByte),
        }
    }

    /// The `-` of the first or the last token of a file.
    fn take_dash(&mut self, byte: u8) -> Result<Outcome, TokenFault>
        requires action { advance self.old.mode byte ≡ Action.Dash }
        requires file { self.old.file < self.old.file_limit }
        requires statement { pending_of self.old < self.old.statement_limit }
        ensures { Steps self.old byte result self.new }
    {
        let Some(mode) = marker_of(&self.pending_bytes) else {
            return Err(TokenFault::BadByte);
        };
        match self.keep(mode, byte) {
            Ok(()) => Ok(Outcome::Took),
            Err(fault) => Err(fault),
        }
    }

    /// Takes a byte, or the token that it ends.
    fn step(&mut self, byte: u8) -> Result<Outcome, TokenFault>
        ensures { Steps self.old byte result self.new }
    {
        let action = advance(self.mode, byte);
        if let Action::End = action {
            return match self.hand_token() {
                Ok(token) => Ok(Outcome::Handed(token)),
                Err(fault) => Err(fault),
            };
        }
        self.starts = self.starts.at(self.mode, self.statement, self.file);
        if self.file >= self.file_limit {
            return Err(TokenFault::FileTooLong);
        }
        let full = self.statement + self.size >= self.statement_limit;
        if full && is_token_byte(self.mode, action) {
            return Err(TokenFault::RecordTooLong);
        }
        self.take(action, byte)
    }

    /// How many more bytes of a token both limits allow.
    fn room(&self) -> u64
        ensures file { self.now.file + result ≤ self.now.file_limit }
        ensures statement { pending_of self.now + result ≤ self.now.statement_limit }
    {
        let file = self.file_limit - self.file;
        let statement = self.statement_limit - self.statement - self.size;
        file.min(statement)
    }

    /// Bytes between tokens, as many as the limit allows.
    fn pass_run(&mut self, count: usize) -> usize
        ensures within { result ≤ count }
        ensures held { self.new ≡ record self.old { file = self.old.file + result } }
    {
        let count = at_most(count, self.file_limit - self.file);
        self.file += count as u64;
        count
    }

    /// Bytes of a token that become pending, as many as the limits allow.
    fn keep_run(&mut self, run: &[u8]) -> Result<usize, TokenFault>
        ensures within { IfOk result (λ count. count ≤ length run.now) }
        ensures ok { IfOk result (λ count. self.new ≡ with_pending_bytes self.old self.old.mode (take count run.now) count) }
        ensures err { LacksMemory self.old result self.new }
    {
        let run = &run[..at_most(run.len(), self.room())];
        self.pending_bytes.extend_from_slice(run)?;
        self.file += run.len() as u64;
        self.size += run.len() as u64;
        Ok(run.len())
    }

    /// Characters of a string, as many as the limits allow.
    fn put_run(&mut self, run: &[u8]) -> Result<usize, TokenFault>
        ensures within { IfOk result (λ count. count ≤ length run.now) }
        ensures ok { IfOk result (λ count. self.new ≡ with_characters self.old self.old.mode (take count run.now) count) }
        ensures err { LacksMemory self.old result self.new }
    {
        let run = &run[..at_most(run.len(), self.room())];
        self.text.push_latin1(run)?;
        self.file += run.len() as u64;
        self.size += run.len() as u64;
        Ok(run.len())
    }

    /// Characters of a string in UTF-8, as many as are whole and the limits allow.
    fn put_utf8_run(&mut self, run: &[u8]) -> Result<usize, TokenFault>
        ensures within { IfOk result (λ count. count ≤ length run.now) }
        ensures utf8 { IfOk result (λ count. IsUtf8 (take count run.now)) }
        ensures ok { IfOk result (λ count. self.new ≡ with_characters self.old self.old.mode (chars (take count run.now)) count) }
        ensures err { LacksMemory self.old result self.new }
    {
        let text = whole_characters(&run[..at_most(run.len(), self.room())]);
        if text.is_empty() {
            return Ok(0);
        }
        self.text.push_str(text)?;
        self.file += text.len() as u64;
        self.size += text.len() as u64;
        Ok(text.len())
    }

    /// Digits of an instance name, if the limits allow them all.
    fn name_run(&mut self, count: usize, value: u64) -> bool
        ensures taken { result ≡ true → self.new ≡ record self.old { mode = Name (Digits value); size = self.old.size + count; file = self.old.file + count } }
        ensures left { result ≡ false → self.new ≡ self.old }
    {
        let count = count as u64;
        if self.room() < count {
            return false;
        }
        self.mode = Mode::Name(NameMode::Digits(value));
        self.file += count;
        self.size += count;
        true
    }

    /// Takes bytes at the front that leave the mode as it is, as many as the limits allow: none, if the first one doesn't.
    fn take_run(&mut self, piece: &[u8]) -> Result<usize, TokenFault>
        ensures { Runs self.old piece.now result self.new }
    {
        match run_of(self.mode, piece) {
            Run::Passed(count) => Ok(self.pass_run(count)),
            Run::PendingBytes(count) => {
                if count == 0 {
                    return Ok(0);
                }
                self.keep_run(&piece[..count])
            }
            Run::Characters(count) => {
                if count == 0 {
                    return Ok(0);
                }
                self.put_run(&piece[..count])
            }
            Run::Utf8(count) => {
                if count == 0 {
                    return Ok(0);
                }
                self.put_utf8_run(&piece[..count])
            }
            Run::Named(count, value) => {
                if self.name_run(count, value) {
                    Ok(count)
                } else {
                    Ok(0)
                }
            }
        }
    }

    /// Whether nothing of a token is pending.
    fn is_at_start(&self) -> bool
        ensures { result ≡ true → state_of self.now ≡ start }
    {
        let Mode::Between = self.mode else {
            return false;
        };
        self.size == 0
    }

    /// Takes a token that stands whole at the front of bytes, if the limits allow it.
    fn take_leading_token(&mut self, bytes: &[u8]) -> LeadingToken
        ensures { TakesLeadingToken self.old bytes.now result self.new }
    {
        if !self.is_at_start() {
            return None;
        }
        let (count, token) = match leading_token(self.alloc, bytes)? {
            Ok(front) => front,
            Err(fault) => return Some(Err(fault)),
        };
        let size = count as u64;
        if self.file_limit - self.file < size || self.statement_limit - self.statement < size {
            return None;
        }
        self.starts = self.starts.at(self.mode, self.statement, self.file);
        self.file += size;
        self.statement = match token {
            Token::Semicolon => 0,
            _ => self.statement + size,
        };
        Some(Ok((count, token)))
    }

    /// Takes blanks between tokens, as many as the limit allows.
    fn take_blanks(&mut self, bytes: &[u8]) -> usize
        ensures { Runs self.old bytes.now (Ok result) self.new }
    {
        let Mode::Between = self.mode else {
            return 0;
        };
        self.pass_run(blanks(bytes))
    }

    /// Takes a run of bytes, or one byte, or the token that it ends. Not inlined, so that the loop around it stays small.
    #[inline(never)]
    fn walk(&mut self, bytes: &[u8]) -> Result<(usize, Option<Token>), TokenFault>
        requires { 0 < length bytes.now }
        ensures { Walks self.old bytes.now result self.new }
    {
        match self.take_run(bytes) {
            Ok(0) => match self.step(bytes[0]) {
                Ok(Outcome::Took) => Ok((1, None)),
                Ok(Outcome::Gave(token)) => Ok((1, Some(token))),
                Ok(Outcome::Handed(token)) => Ok((0, Some(token))),
                Err(fault) => Err(fault),
            },
            Ok(run) => Ok((run, None)),
            Err(fault) => Err(fault),
        }
    }

    /// As `walk`. Inlined, so that room for its answer is made only where it is asked.
    #[inline(always)]
    fn walk_on(&mut self, bytes: &[u8]) -> Result<(usize, Option<Token>), TokenFault>
        requires { 0 < length bytes.now }
        ensures { Walks self.old bytes.now result self.new }
    {
        self.walk(bytes)
    }

    /// Takes bytes up to the end of a token or of the piece.
    fn scan(&mut self, piece: &[u8]) -> Result<(usize, Option<Token>), TokenFault>
        ensures { Scans self.old piece.now result self.new }
    {
        let mut taken = 0;
        while taken < piece.len() {
            match self.take_leading_token(&piece[taken..]) {
                Some(Ok((count, token))) => return Ok((taken + count, Some(token))),
                Some(Err(_no_memory)) => return Err(TokenFault::NoMemory),
                None => {}
            }
            let blanks = self.take_blanks(&piece[taken..]);
            if blanks > 0 {
                taken += blanks;
                continue;
            }
            match self.walk_on(&piece[taken..]) {
                Ok((count, None)) => taken += count,
                Ok((count, Some(token))) => return Ok((taken + count, Some(token))),
                Err(fault) => return Err(fault),
            }
        }
        Ok((taken, None))
    }

    /// A lexer that has taken nothing. It takes no memory.
    pub fn new(alloc: Global, limits: Limits) -> Lexer
        ensures stands { Stands result empty }
        ensures statement_limit { record_limit_of result ≡ limits.record_source }
        ensures file_limit { file_limit_of result ≡ limits.file_source }
        ensures rests { IsResting result }
    {
        Lexer {
            alloc,
            mode: Mode::Between,
            pending_bytes: Vec::new(alloc),
            text: Text::new(alloc),
            size: 0,
            statement: 0,
            file: 0,
            starts: Starts::new(),
            statement_limit: limits.record_source(),
            file_limit: limits.file_source(),
            refused: None,
        }
    }

    /// Takes bytes up to the end of one token or of the piece, and says how many. A keyword, user-defined keyword,
    /// number, name, string, `Begin` or `Finish` is given when the byte behind it is seen, and that byte isn't taken:
    /// the caller offers it first in the next call. Each other token is given with its last byte.
    ///
    /// # Errors
    ///
    /// The fault of the first byte that the limits or the standard refuse, or `NoMemory`; each later call answers the
    /// same.
    pub fn next(&mut self, piece: &[u8]) -> Result<(usize, Option<Token>), TokenFault>
        ensures whole { TakesWithinPiece piece.now result }
        ensures history { NextGives self.old piece.now result self.new }
        ensures at_once { TakesNoMore self.old piece.now result }
        ensures again { RefusesAgain self.old result self.new }
        ensures refused { IfErr result (λ fault. refusal_of self.new ≡ Some fault) }
        ensures kind { IfErr result IsOfTokens }
        ensures no_memory { NeedsNoMemory self.old piece.now result }
        ensures limits { KeepsLimits self.old self.new }
        ensures rests { RestsBehindSemicolon result self.new }
    {
        if let Some(fault) = self.refused {
            return Err(fault);
        }
        match self.scan(piece) {
            Ok(answer) => {
                // Looked at, so that the proof knows what holds of each lexer.
                let _mode = self.mode;
                Ok(answer)
            }
            Err(fault) => {
                self.refused = Some(fault);
                Err(fault)
            }
        }
    }

    /// A last token that waited for its next byte.
    ///
    /// # Errors
    ///
    /// `OpenString` inside a string, `OpenComment` inside a comment, `NumberRange` for a last real out of range,
    /// `EndsEarly` inside any other token or behind a lone `/`, `NoMemory`; the refusal of an earlier call.
    pub fn finish(self) -> Result<Option<Token>, TokenFault>
        ensures history { FinishGives self result }
        ensures names { FinishNamesFault self result }
        ensures kind { IfErr result IsOfTokens }
        ensures again { (fault : TokenFault) → refusal_of self ≡ Some fault → result ≡ Err fault }
    {
        if let Some(fault) = self.refused {
            return Err(fault);
        }
        let Lexer {
            alloc,
            mode,
            pending_bytes,
            mut text,
            size: _,
            statement: _,
            file: _,
            starts: _,
            statement_limit: _,
            file_limit: _,
            refused: _,
        } = self;
        read_last_token(alloc, mode, &pending_bytes, &mut text)
    }

    /// The token bytes behind the last `;`, with those of a token that isn't whole yet; a lone `/` doesn't count. After
    /// a refusal, those in front of the refused byte. It takes no memory.
    pub fn pending(&self) -> u64
        ensures value { result ≡ pending_of self.now }
        ensures within { result ≤ record_limit_of self.now }
        ensures pending { (history : TokenHistory) → Stands self.now history → IsPendingBehind history result }
    {
        // Looked at, so that the proof knows what holds of each lexer.
        let _limit = self.statement_limit;
        self.statement + self.size
    }

    /// Where it stands in the file. It takes no memory.
    pub fn places(&self) -> Places
        ensures byte { result.byte ≡ place_of self.now }
    {
        Places {
            byte: self.file,
            token: self.starts.token,
            statement: self.starts.statement,
            character: self.file.saturating_sub(bytes_of_character(self.mode)),
        }
    }

    /// Notes that the statement that ended last has so many bytes. It takes no memory.
    pub fn note_statement(&mut self, count: u64)
        ensures { self.new ≡ self.old }
    {
        self.starts.statement = self.file.saturating_sub(count);
    }
}
