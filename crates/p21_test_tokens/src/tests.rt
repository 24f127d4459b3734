mod actions;
mod behind;
mod file;
mod limits;
mod param;
mod places;
mod reopened;
mod runs;
mod shorter_way;
mod texts;

use p21_tokens::{Absent, Canonical, Lexer, Limits, Token, TokenFault};
use std::alloc::Global;

/// What a lexer gave: its tokens as text, with a space between two, and then the name of a refusal. A text that finds no
/// memory is left out, so that the answers are wrong.
#[derive(Drop)]
struct Reader {
    lexer: Lexer,
    answers: Vec<u8>,
    refused: Option<TokenFault>,
}

impl Reader {
    fn new(alloc: Global, limits: Limits) -> Reader {
        Reader {
            lexer: Lexer::new(alloc, limits),
            answers: Vec::new(alloc),
            refused: None,
        }
    }

    /// Offers a piece until it is taken whole or refused.
    fn feed(&mut self, piece: &[u8]) {
        let mut rest = piece;
        for _ in 0..u64::MAX {
            if rest.is_empty() {
                break;
            }
            rest = self.take(rest);
        }
    }

    /// Offers bytes once, and gives those that weren't taken: none, where they are refused.
    fn take<'a>(&mut self, bytes: &'a [u8]) -> &'a [u8] {
        match self.lexer.next(bytes) {
            Ok((taken, None)) => &bytes[taken..],
            Ok((taken, Some(token))) => {
                self.give(&token);
                &bytes[taken..]
            }
            Err(fault) => {
                self.refuse(fault);
                &[]
            }
        }
    }

    /// Notes a token.
    fn give(&mut self, token: &Token) {
        self.space();
        let _ = token.write_canonical(&mut self.answers);
    }

    /// Notes a first refusal, and looks that each later one is the same.
    fn refuse(&mut self, fault: TokenFault) {
        match self.refused {
            Some(before) => {
                if before != fault {
                    self.write(" and then ");
                    self.write(fault.name());
                }
            }
            None => {
                self.space();
                self.write(fault.name());
                self.refused = Some(fault);
            }
        }
    }

    fn write(&mut self, text: &str) {
        let _ = self.answers.extend_from_slice(text.as_bytes());
    }

    fn space(&mut self) {
        if !self.answers.is_empty() {
            self.write(" ");
        }
    }

    /// The answers, with that of `finish`: a refusal that comes first there stands behind `end`.
    fn end(self) -> Vec<u8> {
        let mut answers = self.answers;
        add_end(&mut answers, self.lexer.finish(), self.refused);
        answers
    }
}

/// Adds the answer at the end of the bytes to those before it.
fn add_end(
    answers: &mut Vec<u8>,
    last: Result<Option<Token>, TokenFault>,
    refused: Option<TokenFault>,
) {
    let space = if answers.is_empty() || refused.is_some() {
        ""
    } else {
        " "
    };
    match last {
        Ok(Some(token)) => {
            let _ = answers.extend_from_slice(space.as_bytes());
            let _ = token.write_canonical(answers);
        }
        Ok(None) => {
            if refused.is_some() {
                let _ = answers.extend_from_slice(b" and not at the end");
            }
        }
        Err(fault) => add_fault(answers, fault, space, refused),
    }
}

/// Adds the fault at the end of the bytes: one that was answered before stands there already.
fn add_fault(answers: &mut Vec<u8>, fault: TokenFault, space: &str, refused: Option<TokenFault>) {
    if refused.is_none() {
        let _ = answers.extend_from_slice(space.as_bytes());
        let _ = answers.extend_from_slice(b"end ");
        let _ = answers.extend_from_slice(fault.name().as_bytes());
    } else if refused != Some(fault) {
        let _ = answers.extend_from_slice(b" and not at the end");
    }
}

/// The answers for two pieces.
fn read_cut(alloc: Global, limits: Limits, first: &[u8], second: &[u8]) -> Vec<u8> {
    let mut reader = Reader::new(alloc, limits);
    reader.feed(first);
    reader.feed(second);
    reader.end()
}

/// The answers for pieces of one byte.
fn read_bytes(alloc: Global, limits: Limits, bytes: &[u8]) -> Vec<u8> {
    let mut reader = Reader::new(alloc, limits);
    for byte in bytes {
        reader.feed(&[*byte]);
    }
    reader.end()
}

/// Whether bytes give these answers whole, in two pieces cut anywhere, and byte by byte.
fn gives(alloc: Global, limits: Limits, bytes: &[u8], answers: &str) -> bool {
    for cut in 0..=bytes.len() {
        let (first, second) = bytes.split_at(cut);
        if read_cut(alloc, limits, first, second).as_slice() != answers.as_bytes() {
            return false;
        }
    }
    read_bytes(alloc, limits, bytes).as_slice() == answers.as_bytes()
}

/// Whether bytes are refused at their last one, whatever stands behind it, and not before it.
fn is_refused_at_the_last(alloc: Global, limits: Limits, bytes: &[u8], answers: &str) -> bool {
    gives(alloc, limits, bytes, answers)
        && read_cut(alloc, limits, bytes, b"1;").as_slice() == answers.as_bytes()
        && is_open(alloc, limits, bytes)
}

/// Whether nothing is refused in front of the last byte.
fn is_open(alloc: Global, limits: Limits, bytes: &[u8]) -> bool {
    let Some((_last, before)) = bytes.split_last() else {
        return false;
    };
    let mut reader = Reader::new(alloc, limits);
    reader.feed(before);
    reader.refused.is_none()
}

/// Pieces of one file, with how many bytes of each are taken, and what is given with them.
type Pieces = &'static [(&'static str, usize, &'static str)];

/// Whether so many bytes of a piece are taken, and this is given with them.
fn is_given(lexer: &mut Lexer, alloc: Global, piece: &str, taken: usize, given: &str) -> bool {
    match lexer.next(piece.as_bytes()) {
        Ok((count, None)) => count == taken && given.is_empty(),
        Ok((count, Some(token))) => count == taken && is_spelled(alloc, &token, given),
        Err(_) => false,
    }
}

/// Whether this is the canonical spelling of a token.
fn is_spelled(alloc: Global, token: &Token, spelling: &str) -> bool {
    let mut out = Vec::new(alloc);
    token.write_canonical(&mut out).is_ok() && out.as_slice() == spelling.as_bytes()
}

/// The first piece of which another number of bytes is taken, or with which something else is given.
fn first_otherwise_given(lexer: &mut Lexer, alloc: Global, pieces: Pieces) -> &'static str {
    for (piece, taken, given) in pieces {
        if !is_given(lexer, alloc, piece, *taken, given) {
            return piece;
        }
    }
    "none"
}

const REAL_BY_PIECES: Pieces = &[("1.E", 3, ""), ("2)", 1, "1.E2"), (")", 1, ")")];

#[test]
fn reads_a_real_by_pieces(rt: HostRuntime) {
    let mut lexer = Lexer::new(rt.alloc(), Limits::usual());
    assert_eq!(rt;
        first_otherwise_given(&mut lexer, rt.alloc(), REAL_BY_PIECES),
        "none"
    );
    assert!(rt; matches!(lexer.finish(), Ok(None)));
}

#[test]
fn gives_a_last_number_at_the_end(rt: HostRuntime) {
    let mut lexer = Lexer::new(rt.alloc(), Limits::usual());
    assert_eq!(rt;
        first_otherwise_given(&mut lexer, rt.alloc(), &[("12", 2, "")]),
        "none"
    );
    let is_twelve = match lexer.finish() {
        Ok(Some(last)) => matches!(last, Token::Whole(_)) && is_spelled(rt.alloc(), &last, "12"),
        _ => false,
    };
    assert!(rt; is_twelve);
}

/// Pieces, and what is pending behind each.
const PENDING: &[(&[u8], u64)] = &[
    (b"", 0),
    (b"#", 1),
    (b"1", 2),
    (b" ", 2),
    (b"=", 3),
    (b"/", 3),
    (b"*c", 3),
    (b"*", 3),
    (b"/", 3),
    (b"A", 4),
    (b"(", 5),
    (b"'a", 7),
    (b"\n", 8),
    (b"'", 9),
    (b")", 10),
    (b";", 0),
    (b"!A%", 2),
];

/// The place of the first piece behind which another number of bytes is pending.
fn first_otherwise_pending(reader: &mut Reader) -> Option<usize> {
    for (place, (piece, pending)) in PENDING.iter().enumerate() {
        reader.feed(piece);
        if reader.lexer.pending() != *pending {
            return Some(place);
        }
    }
    None
}

#[test]
fn counts_pending_bytes(rt: HostRuntime) {
    let mut reader = Reader::new(rt.alloc(), Limits::usual());
    assert_eq!(rt; first_otherwise_pending(&mut reader), None);
    assert_eq!(rt; reader.refused, Some(TokenFault::BadByte));
}

const FAULTS: &[(TokenFault, u8, &str)] = &[
    (TokenFault::BadByte, 1, "BadByte"),
    (TokenFault::OpenString, 2, "OpenString"),
    (TokenFault::OpenComment, 3, "OpenComment"),
    (TokenFault::BadDirective, 4, "BadDirective"),
    (TokenFault::BadCodePoint, 5, "BadCodePoint"),
    (TokenFault::NotUtf8, 6, "NotUtf8"),
    (TokenFault::BadNumber, 7, "BadNumber"),
    (TokenFault::NumberRange, 8, "NumberRange"),
    (TokenFault::BadBinary, 9, "BadBinary"),
    (TokenFault::NameRange, 10, "NameRange"),
    (TokenFault::BadName, 11, "BadName"),
    (TokenFault::NotOneParameter, 12, "NotOneParameter"),
    (TokenFault::RecordTooLong, 22, "RecordTooLong"),
    (TokenFault::FileTooLong, 23, "FileTooLong"),
    (TokenFault::EndsEarly, 24, "EndsEarly"),
    (TokenFault::LeftOut(Absent::Scope), 26, "LeftOut(Scope)"),
    (TokenFault::NoMemory, 90, "NoMemory"),
];

fn first_otherwise_named() -> &'static str {
    for (fault, number, name) in FAULTS {
        if fault.number() != *number || fault.name() != *name {
            return name;
        }
    }
    "none"
}

#[test]
fn names_faults(rt: HostRuntime) {
    assert_eq!(rt; first_otherwise_named(), "none");
}

const TOKENS_OF_ONE_BYTE: Pieces = &[(" ( )", 2, "("), (" .T. ", 4, ".T."), (" )", 2, ")")];

#[test]
fn stops_behind_a_token_of_one_byte(rt: HostRuntime) {
    let mut lexer = Lexer::new(rt.alloc(), Limits::usual());
    assert_eq!(rt;
        first_otherwise_given(&mut lexer, rt.alloc(), TOKENS_OF_ONE_BYTE),
        "none"
    );
}

/// The limit on a statement, bytes, what is pending where they are refused, and the fault.
const PENDING_AT_A_REFUSAL: &[(u64, &str, u64, TokenFault)] = &[
    (9, "A=%", 2, TokenFault::BadByte),
    (9, "A='b\\Z", 5, TokenFault::BadDirective),
    (4, "12345678", 4, TokenFault::RecordTooLong),
    (9, "1;2 \"4\"", 2, TokenFault::BadBinary),
];

fn first_otherwise_kept(alloc: Global) -> &'static str {
    for (record, text, pending, fault) in PENDING_AT_A_REFUSAL {
        let Some(limits) = Limits::new(*record, *record, 99, 99) else {
            return "no limits";
        };
        let mut reader = Reader::new(alloc, limits);
        reader.feed(text.as_bytes());
        if reader.refused != Some(*fault) || reader.lexer.pending() != *pending {
            return text;
        }
    }
    "none"
}

#[test]
fn keeps_what_is_pending_at_a_refusal(rt: HostRuntime) {
    assert_eq!(rt; first_otherwise_kept(rt.alloc()), "none");
}

/// Bytes, and how the first token of them is shown.
const SHOWN: &[(&str, &str)] = &[
    ("#7;", "Name(Name(7))"),
    ("-7;", "Whole(Whole { negative: true, digits: [55] })"),
    (
        "2.5;",
        "Real(Decimal { negative: false, exponent: 0, digits: [50, 53] })",
    ),
];

fn is_shown(alloc: Global, bytes: &str, text: &str) -> bool {
    let Ok((_taken, Some(token))) = Lexer::new(alloc, Limits::usual()).next(bytes.as_bytes()) else {
        return false;
    };
    match format!(in alloc; "{token:?}") {
        Ok(shown) => shown.as_str() == text,
        Err(_) => false,
    }
}

fn first_otherwise_shown(alloc: Global) -> &'static str {
    for (bytes, text) in SHOWN {
        if !is_shown(alloc, bytes, text) {
            return bytes;
        }
    }
    "none"
}

#[test]
fn shows_tokens(rt: HostRuntime) {
    assert_eq!(rt; first_otherwise_shown(rt.alloc()), "none");
}

#[test]
fn shows_faults(rt: HostRuntime) {
    let is_sentence = match format!(in rt.alloc(); "{}", TokenFault::NumberRange) {
        Ok(shown) => shown.as_str() == "a real whose exponent is out of range",
        Err(_) => false,
    };
    assert!(rt; is_sentence);
}
