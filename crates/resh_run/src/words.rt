//! The words of the command line, read by `clap` as one simple command.

ghost use Rattle.std.specs.Prelude.{◌≡◌, ◌≢◌, ◌⊎◌, true, [], None, Ok, map, option_map, string_bytes, IfErr, IfOk};
ghost use Rattle.std.specs.Char.{is_ascii_digit};
ghost use Rattle.std.specs.List.{list_all};
ghost use Rattle.std.specs.Str.Parse.{digits_value};
ghost use Rattle.clap.specs.Words.{app_of, fault_of, found_of, kind_of, matches_of, rows_of};
ghost use Rattle.resh_value.specs.Names.{same_name};
ghost use Rattle.resh_run.specs.Words.{asked_by, asked_in, bare, form, generate_form, is_number, is_set, number_within};
ghost use Rattle.resh_run.specs.Words.{reshard, run_form, texts_of};

use clap::error::ErrorKind;
use clap::{Arg, ArgAction, ArgMatches, Command, Error};
use resh_value::NoMemory;
use std::alloc::{AllocError, Global};

/// A decimal number has so many digits at most.
const MOST_DIGITS: usize = 10;

/// The most workers that may be asked for.
const MOST_WORKERS: u32 = 16;

/// What the words ask: the rows of the table of forms.
#[derive(Debug, Drop, Clone, Copy, PartialEq, Eq)]
pub(crate) enum Asked {
    Plain,
    Check,
    Run { workers: u32 },
    Generate { number: u32, print: bool },
}

/// What the words ask, or `None` where their reading is no row of the table.
pub(crate) fn read_words(alloc: Global, words: &[String]) -> Result<Option<Asked>, NoMemory>
    ensures read { IfOk result (λ asked. asked ≡ asked_by words.now) }
    ensures none { words.now ≡ [] → result ≡ Ok None }
{
    if words.is_empty() {
        return Ok(None);
    }
    match parsed(alloc, words) {
        Ok(matches) => Ok(asked_in(&matches)),
        Err(error) => match error.kind() {
            ErrorKind::OutOfMemory => Err(NoMemory),
            _ => Ok(None),
        },
    }
}

/// What `clap` makes of the words.
fn parsed<'a>(alloc: Global, words: &'a [String]) -> Result<ArgMatches<'a>, Error>
    ensures read { IfOk result (λ m. rows_of (found_of m) ≡ matches_of reshard (texts_of words.entry.now)) }
    ensures free { IfOk result (λ m. fault_of reshard (texts_of words.entry.now) ≡ []) }
    ensures refused { IfErr result (λ e. (kind_of e ≡ ErrorKind.OutOfMemory)
        ⊎ (fault_of reshard (texts_of words.entry.now) ≢ [])) }
{
    let command = command(alloc)?;
    command.try_get_matches_from(words)
}

/// A mode, a number, `--workers` with a value and the flag `--print`.
fn command<'a>(alloc: Global) -> Result<Command<'a>, AllocError>
    ensures { IfOk result (λ command. app_of command ≡ reshard) }
{
    let mode = Arg::new(alloc, "mode").required(true);
    let number = Arg::new(alloc, "number");
    let workers = Arg::new(alloc, "workers").long("workers");
    let print = Arg::new(alloc, "print")
        .long("print")
        .action(ArgAction::SetTrue);
    let named = Command::new(alloc, "reshard").no_binary_name(true);
    let command = named.arg(mode)?.arg(number)?.arg(workers)?.arg(print)?;
    Ok(command)
}

fn asked_in(matches: &ArgMatches<'_>) -> Option<Asked>
    ensures { result ≡ asked_in (rows_of (found_of matches.now)) }
{
    let number = matches.get_str("number");
    let workers = matches.get_str("workers");
    let print = is_set(matches.get_str("print"));
    match matches.get_str("mode") {
        Some(mode) => form(mode, number, workers, print),
        None => None,
    }
}

/// Whether a flag was given: its text is `true` then.
fn is_set(text: Option<&str>) -> bool
    ensures { result ≡ is_set (option_map (λ t. t.now) text.entry) }
{
    match text {
        Some(text) => is_same(text, "true"),
        None => false,
    }
}

/// The row of these words, if there is one.
fn form(mode: &str, number: Option<&str>, workers: Option<&str>, print: bool) -> Option<Asked>
    ensures { result ≡ form mode.now (option_map (λ t. t.now) number.entry)
        (option_map (λ t. t.now) workers.entry) print }
{
    if is_same(mode, "plain") {
        return bare(Asked::Plain, number, workers, print);
    }
    if is_same(mode, "check") {
        return bare(Asked::Check, number, workers, print);
    }
    if is_same(mode, "run") {
        return run_form(number, workers, print);
    }
    if is_same(mode, "generate") {
        return generate_form(number, workers, print);
    }
    None
}

/// A mode that stands alone.
fn bare(asked: Asked, number: Option<&str>, workers: Option<&str>, print: bool) -> Option<Asked>
    ensures { result ≡ bare asked (option_map (λ t. t.now) number.entry) (option_map (λ t. t.now) workers.entry) print }
{
    match (number, workers, print) {
        (None, None, false) => Some(asked),
        _ => None,
    }
}

/// `run --workers N`.
fn run_form(number: Option<&str>, workers: Option<&str>, print: bool) -> Option<Asked>
    ensures { result ≡ run_form (option_map (λ t. t.now) number.entry) (option_map (λ t. t.now) workers.entry) print }
{
    match (number, workers, print) {
        (None, Some(text), false) => {
            let workers = number_within(1, MOST_WORKERS, text)?;
            Some(Asked::Run { workers })
        }
        _ => None,
    }
}

/// `generate N`, and `--print`.
fn generate_form(number: Option<&str>, workers: Option<&str>, print: bool) -> Option<Asked>
    ensures { result ≡ generate_form (option_map (λ t. t.now) number.entry)
        (option_map (λ t. t.now) workers.entry) print }
{
    match (number, workers) {
        (Some(text), None) => {
            let number = number_within(0, u32::MAX, text)?;
            Some(Asked::Generate { number, print })
        }
        _ => None,
    }
}

/// A number of 1 to 10 digits without a leading zero but in `0`, where it lies within these bounds.
fn number_within(least: u32, most: u32, text: &str) -> Option<u32>
    ensures { result ≡ number_within least most text.now }
{
    if !is_number(text) {
        return None;
    }
    let number = value_of(text);
    if number < least as u64 || number > most as u64 {
        return None;
    }
    Some(number as u32)
}

fn is_number(text: &str) -> bool
    ensures { result ≡ is_number text.now }
{
    let digits = text.as_bytes();
    !digits.is_empty()
        && digits.len() <= MOST_DIGITS
        && are_digits(digits)
        && (digits[0] != b'0' || digits.len() == 1)
}

fn are_digits(bytes: &[u8]) -> bool
    ensures { result ≡ list_all is_ascii_digit bytes.now }
{
    bytes.iter().all(|b| b.is_ascii_digit())
}

fn value_of(text: &str) -> u64
    requires { is_number text.now ≡ true }
    ensures { result ≡ digits_value 10 text.now }
{
    match text.parse::<u64>() {
        Ok(number) => number,
        Err(_) => unreachable!(),
    }
}

fn is_same(a: &str, b: &str) -> bool
    ensures { result ≡ same_name a.now b.now }
{
    a.as_bytes() == b.as_bytes()
}
