//! What the command line may say, and what its help says.
//!
//! The number behind `--name` has digits alone. `clap` reads `+2` too; the program answers it as it answers `#2`, with
//! the words that `clap` has for a mistake. A last line says how the number is written, since these words don't.
ghost use Rattle.std.specs.Prelude.{◌≡◌, IfOk, codes, false};
ghost use Rattle.clap.specs.Words.{app_of, rule_of};
ghost use Rattle.clap.specs.declared.builder.command.Command.TheViews.{out-Command as fields_of};
ghost use Rattle.clap.specs.declared.builder.value_parser.ValueParser.{ValueParser};
ghost use Rattle.p21_command_line.specs.CommandLine.{AreForms, Forms, HaveForms, all_rule, app_without_commands, canon_app, check_app};
ghost use Rattle.p21_command_line.specs.CommandLine.{data_rule, diff_app, faults_app, files_rule, format_rule, given_rule, most_rule};
ghost use Rattle.p21_command_line.specs.CommandLine.{name_rule, names_rule, ignore_rule, optional_rule, pairs_rule, param_app};
ghost use Rattle.p21_command_line.specs.CommandLine.{progress_rule};
ghost use Rattle.p21_command_line.specs.CommandLine.{count_rule, header_rule, program_app, same_app, schema_app, show_app, syntax_app};
ghost use Rattle.p21_command_line.specs.CommandLine.{tolerance_rule, where_rule};

use crate::{help, refusals};
use clap::{Arg, ArgAction, Command, value_parser};
use std::alloc::{AllocError, Global};

/// The words that may stand behind `--format`.
const FORMS: &[&str] = &["text", "jsonl"];

/// The program with its commands.
pub fn command_line<'a>(alloc: Global) -> Result<Command<'a>, AllocError>
    ensures { IfOk result (λ command. (forms : Forms) × HaveForms forms × (app_of command ≡ program_app forms)) }
{
    program(alloc)
        .subcommand(param(alloc)?)?
        .subcommand(syntax(alloc)?)?
        .subcommand(schema(alloc)?)?
        .subcommand(check(alloc)?)?
        .subcommand(canon(alloc)?)?
        .subcommand(show(alloc)?)?
        .subcommand(same(alloc)?)?
        .subcommand(diff(alloc)?)?
        .subcommand(faults(alloc)?)
}

/// The program, before its commands are added.
fn program<'a>(alloc: Global) -> Command<'a>
    ensures { app_of result ≡ app_without_commands }
{
    Command::new(alloc, "p21")
        .about(
            "Reads, checks and rewrites the clear text encoding of exchange structures (ISO 10303-21)",
        )
        .version(help::VERSION)
        .after_help(help::PROGRAM)
        .subcommand_required(true)
}

/// `param FILE`.
fn param<'a>(alloc: Global) -> Result<Command<'a>, AllocError>
    ensures app { IfOk result (λ command. app_of command ≡ param_app) }
    ensures local { IfOk result (λ command. (fields_of command).has_globals ≡ false) }
{
    Command::new(alloc, "param")
        .about("Prints the canonical spelling of one parameter")
        .after_help(help::PARAM)
        .arg(given(
            alloc,
            "FILE",
            "Holds one scalar parameter, with separators around it or none",
        ))
}

/// `schema S`.
fn schema<'a>(alloc: Global) -> Result<Command<'a>, AllocError>
    ensures app { IfOk result (λ command. app_of command ≡ schema_app) }
    ensures local { IfOk result (λ command. (fields_of command).has_globals ≡ false) }
{
    Command::new(alloc, "schema")
        .about("Prints the entities of a schema with their attributes")
        .after_help(help::SCHEMA)
        .arg(schema_path(alloc))
}

/// `syntax FILE.. [--header] [--count] [--all] [--most N] [--where] [--format FORM] [--progress]`.
fn syntax<'a>(alloc: Global) -> Result<Command<'a>, AllocError>
    ensures app { IfOk result (λ command. (forms : ValueParser) × AreForms forms × (app_of command ≡ syntax_app forms)) }
    ensures local { IfOk result (λ command. (fields_of command).has_globals ≡ false) }
{
    Command::new(alloc, "syntax")
        .about("Says whether files are well formed, without a schema")
        .after_help(help::SYNTAX)
        .arg(file_paths(alloc))?
        .arg(header(alloc))?
        .arg(count(alloc))?
        .arg(all(alloc))?
        .arg(most(alloc))?
        .arg(place(alloc))?
        .arg(format(
            alloc,
            "With jsonl gives refusals with their places as JSON, an object a line",
        ))?
        .arg(progress(alloc))
}

/// `check S FILE.. [--all] [--most N] [--where] [--names] [--format FORM] [--progress]`.
fn check<'a>(alloc: Global) -> Result<Command<'a>, AllocError>
    ensures app { IfOk result (λ command. (forms : ValueParser) × AreForms forms × (app_of command ≡ check_app forms)) }
    ensures local { IfOk result (λ command. (fields_of command).has_globals ≡ false) }
{
    Command::new(alloc, "check")
        .about("Checks files against a schema")
        .after_help(help::CHECK)
        .arg(schema_path(alloc))?
        .arg(file_paths(alloc))?
        .arg(all(alloc))?
        .arg(most(alloc))?
        .arg(place(alloc))?
        .arg(names(
            alloc,
            "Says too whether the model tells the instances of each file apart",
        ))?
        .arg(format(
            alloc,
            "With jsonl gives refusals with their places as JSON, an object a line",
        ))?
        .arg(progress(alloc))
}

/// `canon S FILE [--names] [--progress]`.
fn canon<'a>(alloc: Global) -> Result<Command<'a>, AllocError>
    ensures app { IfOk result (λ command. app_of command ≡ canon_app) }
    ensures local { IfOk result (λ command. (fields_of command).has_globals ≡ false) }
{
    Command::new(alloc, "canon")
        .about("Prints the canonical file of a file")
        .after_help(help::CANON)
        .arg(schema_path(alloc))?
        .arg(file_path(alloc))?
        .arg(names(
            alloc,
            "Gives instances the numbers from 1 on by which the model itself tells them apart",
        ))?
        .arg(progress(alloc))
}

/// `show S FILE --name N`.
fn show<'a>(alloc: Global) -> Result<Command<'a>, AllocError>
    ensures app { IfOk result (λ command. app_of command ≡ show_app) }
    ensures local { IfOk result (λ command. (fields_of command).has_globals ≡ false) }
{
    Command::new(alloc, "show")
        .about("Prints the canonical statement of one instance of a file")
        .after_help(help::SHOW)
        .arg(schema_path(alloc))?
        .arg(file_path(alloc))?
        .arg(name(alloc))
}

/// `same S A B [--names] [--progress]`.
fn same<'a>(alloc: Global) -> Result<Command<'a>, AllocError>
    ensures app { IfOk result (λ command. app_of command ≡ same_app) }
    ensures local { IfOk result (λ command. (fields_of command).has_globals ≡ false) }
{
    Command::new(alloc, "same")
        .about("Says whether two files mean the same")
        .after_help(help::SAME)
        .arg(schema_path(alloc))?
        .arg(given(alloc, "A", "The first file"))?
        .arg(given(alloc, "B", "The second file"))?
        .arg(names(
            alloc,
            "Says whether they mean the same but for the names of their instances",
        ))?
        .arg(progress(alloc))
}

/// `diff S A B [--names] [--pairs] [--data] [--ignore ENTITY.ATTRIBUTE].. [--tolerance X] [--format FORM] [--progress]`.
fn diff<'a>(alloc: Global) -> Result<Command<'a>, AllocError>
    ensures app { IfOk result (λ command. (forms : ValueParser) × AreForms forms × (app_of command ≡ diff_app forms)) }
    ensures local { IfOk result (λ command. (fields_of command).has_globals ≡ false) }
{
    Command::new(alloc, "diff")
        .about("Lists what differs in the meaning of two files")
        .after_help(help::DIFF)
        .arg(schema_path(alloc))?
        .arg(given(alloc, "A", "The earlier file"))?
        .arg(given(alloc, "B", "The later file"))?
        .arg(names(
            alloc,
            "Pairs instances by what they say and what is around them, whatever their names are",
        ))?
        .arg(pairs(alloc))?
        .arg(data(alloc))?
        .arg(ignore(alloc))?
        .arg(tolerance(alloc))?
        .arg(format(
            alloc,
            "With jsonl gives differences as JSON, an object a line",
        ))?
        .arg(progress(alloc))
}

/// `faults [N]`.
fn faults<'a>(alloc: Global) -> Result<Command<'a>, AllocError>
    ensures app { IfOk result (λ command. app_of command ≡ faults_app) }
    ensures local { IfOk result (λ command. (fields_of command).has_globals ≡ false) }
{
    Command::new(alloc, "faults")
        .about("Lists the refusals with their numbers and names, or explains one")
        .after_help(refusals::LIST)
        .arg(refusal(alloc))
}

/// The path of a schema.
fn schema_path<'a>(alloc: Global) -> Arg<'a>
    ensures rule { rule_of result ≡ given_rule (codes "S") }
    ensures local { result.global ≡ false }
{
    given(
        alloc,
        "S",
        "Holds the schema, one in EXPRESS (ISO 10303-11)",
    )
}

/// The path of a file of a schema.
fn file_path<'a>(alloc: Global) -> Arg<'a>
    ensures rule { rule_of result ≡ given_rule (codes "FILE") }
    ensures local { result.global ≡ false }
{
    given(alloc, "FILE", "Holds the exchange structure")
}

/// The paths of files of a schema.
fn file_paths<'a>(alloc: Global) -> Arg<'a>
    ensures rule { rule_of result ≡ files_rule }
    ensures local { result.global ≡ false }
{
    given(
        alloc,
        "FILE",
        "Holds the exchange structure; @LIST stands for the files of a text with a path a line",
    )
    .num_args(1..)
    .action(ArgAction::Append)
}

/// `--name N`.
fn name<'a>(alloc: Global) -> Arg<'a>
    ensures rule { rule_of result ≡ name_rule }
    ensures local { result.global ≡ false }
{
    given(alloc, "name", "The number of the instance, without #")
        .long("name")
        .value_name("N")
        .value_parser(value_parser!(u64))
}

/// `--all`.
fn all<'a>(alloc: Global) -> Arg<'a>
    ensures rule { rule_of result ≡ all_rule }
    ensures local { result.global ≡ false }
{
    Arg::new(alloc, "all")
        .help("Lists the first refusal of each statement and those of references, and counts them")
        .long("all")
        .action(ArgAction::SetTrue)
}

/// `--most N`.
fn most<'a>(alloc: Global) -> Arg<'a>
    ensures rule { rule_of result ≡ most_rule }
    ensures local { result.global ≡ false }
{
    Arg::new(alloc, "most")
        .help("Lists refusals as --all does, and ends after N of them")
        .long("most")
        .value_name("N")
        .value_parser(value_parser!(u64).range(1..))
        .action(ArgAction::Set)
}

/// `--where`.
fn place<'a>(alloc: Global) -> Arg<'a>
    ensures rule { rule_of result ≡ where_rule }
    ensures local { result.global ≡ false }
{
    Arg::new(alloc, "where")
        .help(
            "Says of each refusal in which line and column it stands, and of a value its attribute",
        )
        .long("where")
        .action(ArgAction::SetTrue)
}

/// `--names`.
fn names<'a>(alloc: Global, help: &'a str) -> Arg<'a>
    ensures rule { rule_of result ≡ names_rule }
    ensures local { result.global ≡ false }
{
    Arg::new(alloc, "names")
        .help(help)
        .long("names")
        .action(ArgAction::SetTrue)
}

/// `--pairs`.
fn pairs<'a>(alloc: Global) -> Arg<'a>
    ensures rule { rule_of result ≡ pairs_rule }
    ensures local { result.global ≡ false }
{
    Arg::new(alloc, "pairs")
        .help("Pairs instances as --names does, and lists all pairs in front of what differs")
        .long("pairs")
        .action(ArgAction::SetTrue)
}

/// `--data`.
fn data<'a>(alloc: Global) -> Arg<'a>
    ensures rule { rule_of result ≡ data_rule }
    ensures local { result.global ≡ false }
{
    Arg::new(alloc, "data")
        .help("Leaves the header out")
        .long("data")
        .action(ArgAction::SetTrue)
}

/// `--ignore ENTITY.ATTRIBUTE`.
fn ignore<'a>(alloc: Global) -> Arg<'a>
    ensures rule { rule_of result ≡ ignore_rule }
    ensures local { result.global ≡ false }
{
    Arg::new(alloc, "ignore")
        .help("Leaves an attribute out of instances of the entity; may be given several times")
        .long("ignore")
        .value_name("ENTITY.ATTRIBUTE")
        .action(ArgAction::Append)
}

/// `--tolerance X`.
fn tolerance<'a>(alloc: Global) -> Arg<'a>
    ensures rule { rule_of result ≡ tolerance_rule }
    ensures local { result.global ≡ false }
{
    Arg::new(alloc, "tolerance")
        .help("Leaves out values with reals that are within X, or within X times the greater one")
        .long("tolerance")
        .value_name("X")
        .action(ArgAction::Set)
}

/// `--format FORM`.
fn format<'a>(alloc: Global, help: &'a str) -> Arg<'a>
    ensures rule { (forms : ValueParser) × AreForms forms × (rule_of result ≡ format_rule forms) }
    ensures local { result.global ≡ false }
{
    Arg::new(alloc, "format")
        .help(help)
        .long("format")
        .value_name("FORM")
        .value_parser(FORMS)
        .action(ArgAction::Set)
}

/// `--header`.
fn header<'a>(alloc: Global) -> Arg<'a>
    ensures rule { rule_of result ≡ header_rule }
    ensures local { result.global ≡ false }
{
    Arg::new(alloc, "header")
        .help("Says what the header says, a line for each text of it")
        .long("header")
        .action(ArgAction::SetTrue)
}

/// `--count`.
fn count<'a>(alloc: Global) -> Arg<'a>
    ensures rule { rule_of result ≡ count_rule }
    ensures local { result.global ≡ false }
{
    Arg::new(alloc, "count")
        .help("Says which keywords the instances have, and how often, a line for each keyword")
        .long("count")
        .action(ArgAction::SetTrue)
}

/// `--progress`.
fn progress<'a>(alloc: Global) -> Arg<'a>
    ensures rule { rule_of result ≡ progress_rule }
    ensures local { result.global ≡ false }
{
    Arg::new(alloc, "progress")
        .help("Says on a terminal how much of a file is read, a line for each 64 MiB")
        .long("progress")
        .action(ArgAction::SetTrue)
}

/// The number or the name of a refusal.
fn refusal<'a>(alloc: Global) -> Arg<'a>
    ensures rule { rule_of result ≡ optional_rule (codes "N") }
    ensures local { result.global ≡ false }
{
    Arg::new(alloc, "N")
        .help("Explains the refusal of this number, as 20 or S6, or of this name")
        .action(ArgAction::Set)
}

/// What has to be given, as one word.
fn given<'a>(alloc: Global, id: &'a str, help: &'a str) -> Arg<'a>
    ensures rule { rule_of result ≡ given_rule id.now }
    ensures local { result.global ≡ false }
{
    Arg::new(alloc, id)
        .help(help)
        .required(true)
        .action(ArgAction::Set)
}
