//! Reading a line.
ghost use Rattle.std.specs.Prelude.{◌≡◌, ◌≤◌, ◌∷◌, ℕ, [], map, decimal, string_bytes, IfOk, IfErr, IfSome, IsNone};
ghost use Rattle.clap.specs.Words.{found_of, rows_of};
ghost use Rattle.command_line.specs.Tables.{row, option_at};
ghost use Rattle.command_line.specs.Line.{IsLine, IsSize, IsSizeFor, IsNumberIn, AreNumbersIn, IsFirstBad, IsFaultOf, IsInRange};

use crate::commands::{Command, command_of};
use crate::fault::LineFault;
use crate::options::{NUMBER_COUNT, NumberOption, option_at};
use crate::parsing::{given, parse, value_of};
use crate::request::{Name, Request};
use clap::ArgMatches;
use std::alloc::Global;

/// The least size of a generated file.
const LEAST_SIZE: u32 = 2;

/// The greatest size of a generated file.
const MOST_SIZE: u32 = 1_000;

/// What the words after the program's name ask for. A fault comes exactly where the words have it, and none that stands
/// before it in `LineFault`.
pub fn read_line<'a>(alloc: Global, words: &'a [String]) -> Result<Request<'a>, LineFault>
    ensures line { IfOk result (λ request. IsLine (map string_bytes words.now) request) }
    ensures range { IfOk result IsInRange }
    ensures fault { IfErr result (IsFaultOf (map string_bytes words.now)) }
{
    let matches = parse(alloc, words)?;
    let word = given(&matches, "command");
    let operand = given(&matches, "operand");
    let Some(command) = command_of(word) else {
        return Err(LineFault::Command);
    };
    let numbers = read_numbers(&matches)?;
    let size = size_for(command, operand)?;
    let operand = Name::of(operand);
    let [subsets, elements, table, nodes, level, pairs, workers] = numbers;
    Ok(Request {
        command,
        operand,
        size,
        subsets,
        elements,
        table,
        nodes,
        level,
        pairs,
        workers,
    })
}

/// The number of each option, in the order of their table.
fn read_numbers(matches: &ArgMatches<'_>) -> Result<[u32; NUMBER_COUNT], LineFault>
    ensures numbers { IfOk result
        (λ numbers. AreNumbersIn (rows_of (found_of matches.now)) numbers) }
    ensures number { IfErr result (λ fault. (place : ℕ) × (fault ≡ LineFault.Number place)
        × IsFirstBad (rows_of (found_of matches.now)) place) }
{
    let mut numbers = [0; NUMBER_COUNT];
    for place in 0..NUMBER_COUNT {
        match read_option(matches, option_at(place)) {
            Some(number) => numbers[place] = number,
            None => return Err(LineFault::Number {
                option: place as u8,
            }),
        }
    }
    Ok(numbers)
}

/// The number of an option. Condition: its usual number is in its range.
fn read_option(matches: &ArgMatches<'_>, option: NumberOption) -> Option<u32>
    requires least { option.least ≤ option.usual }
    requires most { option.usual ≤ option.most }
    ensures some { IfSome result (λ n. IsNumberIn (rows_of (found_of matches.now))
        (row option.word.now option.least option.usual option.most) n) }
    ensures none { IsNone result → (n : ℕ) → ¬ IsNumberIn (rows_of (found_of matches.now))
        (row option.word.now option.least option.usual option.most) n }
{
    match value_of(matches, option.word) {
        Some(text) => read_number(text, option.least, option.most),
        None => Some(option.usual),
    }
}

/// The size of a request of the command: for `generate` that of its operand, and 0 for each other command.
fn size_for(command: Command, operand: &str) -> Result<u32, LineFault>
    ensures size { IfOk result (IsSizeFor command operand.now) }
    ensures fault { IfErr result (λ fault. (fault ≡ LineFault.Size) × (command ≡ Command.Generate)
        × ((n : ℕ) → ¬ IsSize operand.now n)) }
{
    match command {
        Command::Generate => match read_size(operand) {
            Some(size) => Ok(size),
            None => Err(LineFault::Size),
        },
        _ => Ok(0),
    }
}

/// The size of a generated file that a text is.
fn read_size(text: &str) -> Option<u32>
    ensures some { IfSome result (IsSize text.now) }
    ensures none { IsNone result → (n : ℕ) → ¬ IsSize text.now n }
{
    read_number(text, LEAST_SIZE, MOST_SIZE)
}

/// The number from `least` to `most` that a text is in decimal digits, without a leading zero.
fn read_number(text: &str, least: u32, most: u32) -> Option<u32>
    ensures some { IfSome result (λ n. text.now ≡ decimal n) }
    ensures within { IfSome result (λ n. (least ≤ n) × (n ≤ most)) }
    ensures none { IsNone result → (n : ℕ) → text.now ≡ decimal n → least ≤ n → ¬ (n ≤ most) }
{
    let number = text.parse::<u32>().ok()?;
    let mut digits = itoa::Buffer::new();
    if digits.format(number) != text || number < least || most < number {
        return None;
    }
    Some(number)
}
