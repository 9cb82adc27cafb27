//! The words of a line as `clap` reads them: one simple command without subcommands.
ghost use Rattle.std.specs.Prelude.{◌≡◌, [], ◌∷◌, true, false, map, string_bytes, codes, option_map, slice_index_or, is_some, Some, IfOk, IfErr, OnOk};
ghost use Rattle.clap.specs.Words.{app_of, first_of, found_of, new_app, rows_of, rule_of, with_rule};
ghost use Rattle.command_line.specs.Tables.{option_words};
ghost use Rattle.command_line.specs.Parsing.{line_app, two_words, valued, wanted, faults_of, rows_of_line};
ghost use Rattle.command_line.specs.Line.{IsFaultOf};

use crate::fault::LineFault;
use crate::options::{NUMBER_COUNT, option_at};
use clap::error::ErrorKind;
use clap::{Arg, ArgAction, ArgMatches, Command};
use std::alloc::{AllocError, Global};

/// What the words give: the value of each option that is given, and the two words.
pub(crate) fn parse<'a>(alloc: Global, words: &'a [String]) -> Result<ArgMatches<'a>, LineFault>
    ensures taken { OnOk result (faults_of (map string_bytes words.entry.now) ≡ []) }
    ensures found { IfOk result
        (λ m. rows_of (found_of m) ≡ rows_of_line (map string_bytes words.entry.now)) }
    ensures fault { IfErr result (IsFaultOf (map string_bytes words.entry.now)) }
{
    let Ok(command) = line_command(alloc) else {
        return Err(LineFault::Memory);
    };
    match command.try_get_matches_from(words) {
        Ok(matches) => Ok(matches),
        Err(fault) => match fault.kind() {
            ErrorKind::OutOfMemory => Err(LineFault::Memory),
            _ => Err(LineFault::Words),
        },
    }
}

/// The command of a line, with all options.
fn line_command<'a>(alloc: Global) -> Result<Command<'a>, AllocError>
    ensures { IfOk result (λ c. app_of c ≡ line_app) }
{
    let mut command = words_command(alloc)?;
    for place in 0..NUMBER_COUNT {
        command = with_valued(alloc, command, option_at(place).word)?;
    }
    Ok(command)
}

/// The command with the two words that must be given, and no option.
fn words_command<'a>(alloc: Global) -> Result<Command<'a>, AllocError>
    ensures { IfOk result (λ c. app_of c ≡ two_words) }
{
    let command = Command::new(alloc, "synmon").no_binary_name(true);
    let command = command.arg(wanted_arg(alloc, "command"))?;
    let command = command.arg(wanted_arg(alloc, "operand"))?;
    Ok(command)
}

/// The command with one option more.
fn with_valued<'a>(
    alloc: Global,
    command: Command<'a>,
    word: &'a str,
) -> Result<Command<'a>, AllocError>
    ensures { IfOk result
        (λ c. app_of c ≡ with_rule (app_of command.entry) (valued word.entry.now)) }
{
    command.arg(valued_arg(alloc, word))
}

/// An option that takes one value.
fn valued_arg<'a>(alloc: Global, word: &'a str) -> Arg<'a>
    ensures rule { rule_of result ≡ valued word.entry.now }
    ensures local { result.global ≡ false }
{
    Arg::new(alloc, word).long(word).action(ArgAction::Set)
}

/// A word that must be given.
fn wanted_arg<'a>(alloc: Global, name: &'a str) -> Arg<'a>
    ensures rule { rule_of result ≡ wanted name.entry.now }
    ensures local { result.global ≡ false }
{
    Arg::new(alloc, name).required(true).action(ArgAction::Set)
}

/// The value of a name that the words give. Condition: they give one.
pub(crate) fn given<'a>(matches: &ArgMatches<'a>, name: &str) -> &'a str
    requires { is_some (first_of name.now (rows_of (found_of matches.now))) ≡ true }
    ensures { first_of name.now (rows_of (found_of matches.now)) ≡ Some result.now }
{
    value_of(matches, name).unwrap()
}

/// The value of a name in what the words give.
pub(crate) fn value_of<'a>(matches: &ArgMatches<'a>, name: &str) -> Option<&'a str>
    ensures { option_map (λ s. s.now) result ≡ first_of name.now (rows_of (found_of matches.now)) }
{
    matches.get_str(name)
}
