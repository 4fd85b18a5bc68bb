ghost use Rattle.std.specs.Prelude.{◌≡◌, [], Some, None, false, map, codes, option_map, unwrap_or, string_bytes, IfOk, IfErr};
ghost use Rattle.clap.specs.Walk.{rule_of, rows_of, first_of, all_of, is_empty};
ghost use Rattle.clap.specs.Simple.{app_of, matches_of};
ghost use Rattle.clap.specs.Faults.{fault_of};
ghost use Rattle.clap.specs.Matches.{found_of};
ghost use Rattle.tb_words.specs.Readings.{flag_rule, value_rule, root_rule, with_flags, with_values, tsb_app, given_by, is_given, seen, reading_of};
ghost use Rattle.tb_words.specs.Answers.{GivesReading, refusal_of};

use crate::WordsFault;
use clap::error::ErrorKind;
use clap::{Arg, ArgAction, ArgMatches};
use std::alloc::{AllocError, Global};
use tb_text::UsageFault;

/// The words as they were read, before any check.
#[derive(Debug, Drop)]
pub struct Words<'a> {
    pub force: bool,
    pub clean: bool,
    pub dry: bool,
    pub watch: bool,
    pub verbose: bool,
    pub workers: Option<&'a str>,
    pub turns: Option<&'a str>,
    pub gen_number: Option<&'a str>,
    pub roots: Vec<&'a str>,
}

/// What the words give. They have no reading exactly where `clap` refuses them.
#[tactic(none)]
pub fn words_of<'a>(alloc: Global, words: &'a [String]) -> Result<Words<'a>, WordsFault>
    ensures { GivesReading (reading_of (map (λ word. string_bytes word) words.entry.now)) result }
{
    match command(alloc)?.try_get_matches_from(words) {
        Ok(matches) => {
            let words = kept(alloc, &matches)?;
            Ok(words)
        }
        Err(error) => Err(refusal(error.kind())),
    }
}

fn refusal(kind: ErrorKind) -> WordsFault
    ensures { result ≡ refusal_of kind }
{
    match kind {
        ErrorKind::OutOfMemory => WordsFault::NoMemory,
        _ => WordsFault::Usage(UsageFault::Unread),
    }
}

/// What is kept of the matches.
fn kept<'a>(alloc: Global, matches: &ArgMatches<'a>) -> Result<Words<'a>, AllocError>
    ensures { IfOk result (λ words. seen words ≡ given_by (rows_of (found_of matches.now))) }
{
    let roots = given_roots(alloc, matches)?;
    Ok(Words {
        force: is_given(matches, "force"),
        clean: is_given(matches, "clean"),
        dry: is_given(matches, "dry"),
        watch: is_given(matches, "watch"),
        verbose: is_given(matches, "verbose"),
        workers: given_text(matches, "workers"),
        turns: given_text(matches, "turns"),
        gen_number: given_text(matches, "gen"),
        roots,
    })
}

fn given_roots<'a>(alloc: Global, matches: &ArgMatches<'a>) -> Result<Vec<&'a str>, AllocError>
    ensures { IfOk result (λ roots. map (λ text. text.now) roots.items ≡ unwrap_or (all_of (codes "root") (rows_of (found_of matches.now))) []) }
{
    match matches.get_strs("root") {
        Some(roots) => roots.to_vec(alloc),
        None => Ok(Vec::new(alloc)),
    }
}

fn given_text<'a>(matches: &ArgMatches<'a>, name: &str) -> Option<&'a str>
    ensures { option_map (λ text. text.now) result ≡ first_of name.now (rows_of (found_of matches.now)) }
{
    matches.get_str(name)
}

fn is_given(matches: &ArgMatches, name: &str) -> bool
    ensures { result ≡ is_given name.now (rows_of (found_of matches.now)) }
{
    matches.get_count(name) > 0
}

/// The one simple command. A flag is counted, so that it may be given twice.
fn command<'a>(alloc: Global) -> Result<clap::Command<'a>, AllocError>
    ensures { IfOk result (λ command. app_of command ≡ tsb_app) }
{
    let command = clap::Command::new(alloc, "tsb")
        .no_binary_name(true)
        .disable_help_flag(true);
    let command = with_flags(alloc, command)?;
    let command = with_values(alloc, command)?;
    Ok(command)
}

fn with_flags<'a>(
    alloc: Global,
    command: clap::Command<'a>,
) -> Result<clap::Command<'a>, AllocError>
    ensures { IfOk result (λ whole. app_of whole ≡ with_flags (app_of command.entry)) }
{
    let command = command.arg(short_flag(alloc, "build", 'b'))?;
    let command = command.arg(short_flag(alloc, "force", 'f'))?;
    let command = command.arg(flag(alloc, "clean"))?;
    let command = command.arg(short_flag(alloc, "dry", 'd'))?;
    let command = command.arg(short_flag(alloc, "watch", 'w'))?;
    let command = command.arg(short_flag(alloc, "verbose", 'v'))?;
    Ok(command)
}

fn with_values<'a>(
    alloc: Global,
    command: clap::Command<'a>,
) -> Result<clap::Command<'a>, AllocError>
    ensures { IfOk result (λ whole. app_of whole ≡ with_values (app_of command.entry)) }
{
    let command = command.arg(value(alloc, "workers"))?;
    let command = command.arg(value(alloc, "turns"))?;
    let command = command.arg(value(alloc, "gen"))?;
    let command = command.arg(root(alloc))?;
    Ok(command)
}

fn flag<'a>(alloc: Global, name: &'a str) -> Arg<'a>
    ensures rule { rule_of result ≡ flag_rule name.entry.now None }
    ensures local { result.global ≡ false }
{
    Arg::new(alloc, name).long(name).action(ArgAction::Count)
}

fn short_flag<'a>(alloc: Global, name: &'a str, short: char) -> Arg<'a>
    ensures rule { rule_of result ≡ flag_rule name.entry.now (Some short) }
    ensures local { result.global ≡ false }
{
    Arg::new(alloc, name)
        .long(name)
        .short(short)
        .action(ArgAction::Count)
}

fn value<'a>(alloc: Global, name: &'a str) -> Arg<'a>
    ensures rule { rule_of result ≡ value_rule name.entry.now }
    ensures local { result.global ≡ false }
{
    Arg::new(alloc, name).long(name).action(ArgAction::Set)
}

fn root<'a>(alloc: Global) -> Arg<'a>
    ensures rule { rule_of result ≡ root_rule }
    ensures local { result.global ≡ false }
{
    Arg::new(alloc, "root").action(ArgAction::Append)
}
