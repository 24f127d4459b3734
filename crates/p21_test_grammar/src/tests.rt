mod files;
mod places;
mod reopened;
mod spelled;

use p21_grammar::{
    Absent, Canonical, Event, GrammarFault, KINDS, Key, Lexer, Limits, Line, NoMemory, Param,
    Params, Parser, Part, Record, Token, Word,
};
use spelled::{put, spell_event};
use std::alloc::Global;
use std::process::Abort;

/// The statements up to the end of the header, as every file here begins.
const HEAD: &str =
    "ISO-10303-21;HEADER;FILE_DESCRIPTION((''),'2;1');FILE_NAME('','',(''),(''),'','','');FILE_SCHEMA(('DEMO'));ENDSEC;";

/// What a header stands in.
const HEADER: &str = "ISO-10303-21;HEADER;";

/// A sign for each kind of token, in their order: of `ISO-10303-21`, HEADER, DATA, ENDSEC and `END-ISO-10303-21`, of other keywords, user
/// keywords, names, integers, reals, texts, items and binaries, and the signs as they are.
const SIGNS: &[u8; 20] = b"BHDEFkunwrtib$*(),=;";

/// Texts, with the statements of each and then the refusal, in front of which the signs of the tokens stand that were expected, `end` and the refusal of the end, or nothing.
type Rows = &'static [(&'static str, &'static str)];

/// A lexer and a parser, and the statements that were given.
#[derive(Drop)]
struct Reader {
    lexer: Lexer,
    parser: Parser,
    given: Vec<u8>,
    refused: Option<GrammarFault>,
    // Whether the lexer refused a text, or memory ran out.
    is_lost: bool,
}

impl Reader {
    fn new(rt: &HostRuntime) -> Reader {
        Reader {
            lexer: Lexer::new(rt.alloc(), Limits::usual()),
            parser: Parser::new(rt.alloc()),
            given: Vec::new(rt.alloc()),
            refused: None,
            is_lost: false,
        }
    }

    /// A reader that has taken two texts.
    fn behind(rt: &HostRuntime, first: &str, second: &str) -> Reader {
        let mut reader = Reader::new(rt);
        reader.feed(first);
        reader.feed(second);
        reader
    }

    fn feed(&mut self, text: &str) {
        self.feed_bytes(text.as_bytes());
    }

    /// Takes a text up to its end or to a refusal.
    fn feed_bytes(&mut self, text: &[u8]) {
        let mut rest = text;
        for _ in 0..u64::MAX {
            if rest.is_empty() || self.refused.is_some() || self.is_lost {
                break;
            }
            rest = self.take_front(rest);
        }
    }

    /// Takes the next token, and answers what is left behind it.
    fn take_front<'a>(&mut self, text: &'a [u8]) -> &'a [u8] {
        match self.lexer.next(text) {
            Ok((taken, token)) => {
                if let Some(token) = token {
                    self.take(token);
                }
                &text[taken..]
            }
            Err(_) => {
                self.is_lost = true;
                text
            }
        }
    }

    fn take(&mut self, token: Token) {
        match self.parser.take(token) {
            Ok(Some(event)) => {
                if spell_event(&event, &mut self.given).is_err() {
                    self.is_lost = true;
                }
            }
            Ok(None) => {}
            Err(fault) => self.refused = Some(fault),
        }
    }

    /// Takes a text so many times.
    fn repeat(&mut self, text: &str, count: u32) {
        for _ in 0..count {
            self.feed(text);
        }
    }

    /// Appends the signs of the kinds of token that could stand in place of one that was unexpected.
    fn put_expected(&mut self) {
        if self.refused != Some(GrammarFault::Unexpected) {
            return;
        }
        for at in 0..KINDS.len() {
            if self.parser.could_take(KINDS[at]) {
                self.put_sign(SIGNS[at]);
            }
        }
        self.put_sign(b' ');
    }

    fn put_sign(&mut self, sign: u8) {
        if self.given.push(sign).is_err() {
            self.is_lost = true;
        }
    }

    /// Whether nothing was lost, and a refusal is answered again.
    fn is_steady(&mut self) -> bool {
        match self.refused {
            Some(fault) => repeats(&mut self.parser, fault),
            None => !self.is_lost,
        }
    }
}

/// Whether each of these tokens behind a refusal is answered by that refusal, and the depth is kept.
fn repeats(parser: &mut Parser, fault: GrammarFault) -> bool {
    let depth = parser.depth();
    let tokens = [
        Token::Semicolon,
        Token::Left,
        Token::Right,
        Token::Begin,
        Token::Finish,
    ];
    for token in tokens {
        if parser.take(token).err() != Some(fault) {
            return false;
        }
    }
    parser.depth() == depth
}

/// Appends the refusal, `end` and that of `finish`, or nothing.
fn put_ending(
    out: &mut Vec<u8>,
    refused: Option<GrammarFault>,
    ended: Option<GrammarFault>,
) -> Result<(), NoMemory> {
    match (refused, ended) {
        (None, None) => Ok(()),
        (None, Some(last)) => {
            put(out, "end ")?;
            put(out, last.name())
        }
        (Some(fault), None) => {
            put(out, "not at the end ")?;
            put(out, fault.name())
        }
        (Some(fault), Some(last)) => {
            if fault != last {
                put(out, "otherwise at the end ")?;
            }
            put(out, fault.name())
        }
    }
}

/// Whether the statements of a further text are these, and then the refusal, `end` and that of `finish`, or nothing.
fn comes_to(reader: Reader, text: &str, expected: &str) -> bool {
    let mut reader = reader;
    reader.given.clear();
    reader.feed(text);
    reader.put_expected();
    if !reader.is_steady() {
        return false;
    }
    let ended = reader.parser.finish().err();
    put_ending(&mut reader.given, reader.refused, ended).is_ok()
        && reader.given.as_slice() == expected.as_bytes()
}

/// Whether the token that begins a file gives no statement, and the semicolon behind it gives the first.
fn begins_with_semicolon(alloc: Global) -> bool {
    let mut parser = Parser::new(alloc);
    let first = matches!(parser.take(Token::Begin), Ok(None));
    let second = parser.take(Token::Semicolon);
    first && matches!(second, Ok(Some(Event::Section(Line::Begin))))
}

#[test]
fn begins_alone(rt: HostRuntime) {
    assert!(rt; begins_with_semicolon(rt.alloc()));
}

/// Fails where a row is wrong, which this names.
fn passes(rt: &impl Abort, wrong: &str) {
    assert_eq!(*rt; wrong, "none");
}

/// Fails where the row at this place is wrong.
fn passes_at(rt: &impl Abort, wrong: Option<usize>) {
    assert_eq!(*rt; wrong, None);
}
