//! Faults, and where they are named.
use super::passes;
use super::refusals::SAID;
use p21_express_lexemes::SyntaxFault;
use p21_express_outline::SchemaFault;
use p21_grammar::{GrammarFault, Name, TokenFault};
use p21_grammar_tree::CheckFault;
use p21_stream_io::{ReadFault, WriteFault};
use p21_stream_statements::{At, Fault, Refusal};
use p21_values::{NoMemory, ValueFault};
use std::alloc::Global;
use std::fmt::Display;

/// A fault of any type.
#[derive(Clone, Copy)]
pub(super) enum Any {
    Value(ValueFault),
    Token(TokenFault),
    Grammar(GrammarFault),
    Check(CheckFault),
    File(Fault),
    Syntax(SyntaxFault),
    Schema(SchemaFault),
    Memory(NoMemory),
    Reading(ReadFault),
    Writing(WriteFault),
}

impl Any {
    fn number(self) -> u8 {
        match self {
            Any::Value(fault) => fault.number(),
            Any::Token(fault) => fault.number(),
            Any::Grammar(fault) => fault.number(),
            Any::Check(fault) => fault.number(),
            Any::File(fault) => fault.number(),
            Any::Syntax(fault) => fault.number(),
            Any::Schema(fault) => fault.number(),
            Any::Memory(fault) => fault.number(),
            Any::Reading(fault) => fault.number(),
            Any::Writing(fault) => fault.number(),
        }
    }

    fn name(self) -> &'static str {
        match self {
            Any::Value(fault) => fault.name(),
            Any::Token(fault) => fault.name(),
            Any::Grammar(fault) => fault.name(),
            Any::Check(fault) => fault.name(),
            Any::File(fault) => fault.name(),
            Any::Syntax(fault) => fault.name(),
            Any::Schema(fault) => fault.name(),
            Any::Memory(fault) => fault.name(),
            Any::Reading(fault) => fault.name(),
            Any::Writing(fault) => fault.name(),
        }
    }

    /// Whether it prints this sentence.
    fn says(self, alloc: Global, sentence: &str) -> bool {
        match self {
            Any::Value(fault) => prints(alloc, &fault, sentence),
            Any::Token(fault) => prints(alloc, &fault, sentence),
            Any::Grammar(fault) => prints(alloc, &fault, sentence),
            Any::Check(fault) => prints(alloc, &fault, sentence),
            Any::File(fault) => prints(alloc, &fault, sentence),
            Any::Syntax(fault) => prints(alloc, &fault, sentence),
            Any::Schema(fault) => prints(alloc, &fault, sentence),
            Any::Memory(fault) => prints(alloc, &fault, sentence),
            Any::Reading(fault) => prints(alloc, &fault, sentence),
            Any::Writing(fault) => prints(alloc, &fault, sentence),
        }
    }

    /// What a session makes of it.
    fn lifted(self) -> Option<Fault> {
        match self {
            Any::Token(fault) => Some(Fault::from(fault)),
            Any::Grammar(fault) => Some(Fault::from(fault)),
            Any::Check(fault) => Some(Fault::from(fault)),
            Any::Memory(fault) => Some(Fault::from(fault)),
            Any::File(fault) => Some(fault),
            _ => None,
        }
    }
}

fn prints(alloc: Global, fault: &impl Display, sentence: &str) -> bool {
    match format!(in alloc; "{fault}") {
        Ok(text) => text.as_str() == sentence,
        Err(_) => false,
    }
}

fn is_told(alloc: Global, fault: Any, number: u8, name: &str, sentence: &str) -> bool {
    fault.number() == number && fault.name() == name && fault.says(alloc, sentence)
}

/// Whether a refusal by what a session makes of the fault has this number, name and sentence.
fn is_told_of_files(alloc: Global, fault: Any, number: u8, name: &str, sentence: &str) -> bool {
    let Some(fault) = fault.lifted() else {
        return true;
    };
    let refusal = Refusal {
        fault,
        at: At::Statement(1),
    };
    refusal.number() == number && refusal.name() == name && prints(alloc, &fault, sentence)
}

/// The name of the first fault that is told otherwise than docs/FAULTS.md says.
fn first_told_otherwise(alloc: Global) -> &'static str {
    for (fault, number, name, sentence) in SAID {
        if !is_told(alloc, *fault, *number, name, sentence)
            || !is_told_of_files(alloc, *fault, *number, name, sentence)
        {
            return name;
        }
    }
    "none"
}

/// A fault of a layer below.
#[derive(Clone, Copy)]
enum Below {
    Token(TokenFault),
    Grammar(GrammarFault),
    Check(CheckFault),
    Memory(NoMemory),
}

impl Below {
    fn lifted(self) -> Fault {
        match self {
            Below::Token(fault) => Fault::from(fault),
            Below::Grammar(fault) => Fault::from(fault),
            Below::Check(fault) => Fault::from(fault),
            Below::Memory(fault) => Fault::from(fault),
        }
    }
}

/// By its name: a fault of a layer below, and the fault of a file that comes of it.
const LIFTED: &[(&str, Below, Fault)] = &[
    (
        "memory of tokens",
        Below::Token(TokenFault::NoMemory),
        Fault::NoMemory,
    ),
    (
        "memory of statements",
        Below::Grammar(GrammarFault::NoMemory),
        Fault::NoMemory,
    ),
    (
        "memory of checks",
        Below::Check(CheckFault::NoMemory),
        Fault::NoMemory,
    ),
    ("memory", Below::Memory(NoMemory), Fault::NoMemory),
    (
        "another fault",
        Below::Check(CheckFault::Width),
        Fault::Check(CheckFault::Width),
    ),
];

fn first_lifted_otherwise() -> &'static str {
    for (name, below, fault) in LIFTED {
        if below.lifted() != *fault {
            return name;
        }
    }
    "none"
}

/// Faults, each with whether it names the instance, or else the statement.
const PLACED: &[(Fault, bool)] = &[
    (Fault::Check(CheckFault::NumberRange), true),
    (Fault::DuplicateName, true),
    (Fault::Dangling, true),
    (Fault::WrongTarget, true),
    (Fault::Token(TokenFault::NumberRange), false),
    (Fault::CanonicalTooLong, false),
    (Fault::NoMemory, false),
];

fn is_placed(fault: Fault, at_instance: bool) -> bool {
    let wanted = if at_instance {
        At::Instance(Name(7))
    } else {
        At::Statement(3)
    };
    At::of(fault, Name(7), 3) == wanted
}

fn first_misplaced() -> &'static str {
    for (fault, at_instance) in PLACED {
        if !is_placed(*fault, *at_instance) {
            return fault.name();
        }
    }
    "none"
}

/// Faults, each with whether the number is that of an instance, or else of a statement, and what the refusal prints.
const PRINTED: &[(Fault, bool, u64, &str)] = &[
    (
        Fault::DuplicateName,
        true,
        18_446_744_073_709_551_615,
        "an instance of a name that another one has in #18446744073709551615",
    ),
    (
        Fault::SchemaName,
        false,
        5,
        "not the name of the schema at statement 5",
    ),
];

fn first_printed_otherwise(alloc: Global) -> &'static str {
    for (fault, at_instance, number, text) in PRINTED {
        let at = if *at_instance {
            At::Instance(Name(*number))
        } else {
            At::Statement(*number)
        };
        if !prints(alloc, &Refusal { fault: *fault, at }, text) {
            return text;
        }
    }
    "none"
}

#[test]
fn has_numbers_names_and_sentences(rt: HostRuntime) {
    passes(&rt, first_told_otherwise(rt.alloc()));
    passes(&rt, first_lifted_otherwise());
    passes(&rt, first_misplaced());
    passes(&rt, first_printed_otherwise(rt.alloc()));
}
