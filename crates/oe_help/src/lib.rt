#![tactic(auto)]
//! The help of the command line, and why words ask for no task. What it prints is for a person: no
//! contract speaks of its texts.
ghost use Rattle.std.specs.Prelude.{◌≡◌, ◌≢◌, MatchOption};
ghost use Rattle.oe_help.specs.Verbs.{verb_name};
ghost use Rattle.oe_help.specs.declared.Verb.{Verb};

mod arguments;
mod texts;

use arguments::{
    Argument, of_audit, of_drive, of_following, of_load, of_scale, of_script, of_serial, of_turns,
};
use clap::error::ErrorKind;
use clap::{Command, Error};
use std::alloc::Global;
use std::convert::AsStr;
use texts::{
    ABOUT, AUDIT, AUDIT_WORDS, DRIVE, DRIVE_WORDS, FORMS, LOAD, LOAD_WORDS, NO_FILE, SCRIPT,
    SCRIPT_WORDS, SERIAL, SERIAL_WORDS, USAGE, VERSION,
};

/// What a command line asks to be done.
#[derive(Clone, Copy)]
pub enum Verb {
    Script,
    Serial,
    Drive,
    Audit,
    Load,
}

/// Says why the words ask for no task; or gives the help or the version, where they ask for it, or
/// a want of memory.
pub fn refusal<S: AsStr>(alloc: Global, words: &[S]) -> Error {
    match explained(alloc, words) {
        Ok(error) => error,
        Err(error) => error,
    }
}

/// Says why the words ask for no task, or that memory was refused.
fn explained<S: AsStr>(alloc: Global, words: &[S]) -> Result<Error, Error> {
    let mut command = grammar(alloc, words)?;
    let said = match command.try_get_matches_from_mut(words) {
        Ok(matches) => {
            drop(matches);
            command.error(ErrorKind::ValueValidation, what_else(words))
        }
        Err(error) => Ok(error),
    };
    drop(command);
    Ok(said?)
}

/// Finds the verb of that name.
pub fn verb_of(name: &str) -> Option<Verb>
    ensures { MatchOption result
        ((verb : Verb) → name.now ≢ verb_name verb)
        (λ verb. name.now ≡ verb_name verb) }
{
    if name == "script" {
        return Some(Verb::Script);
    }
    if name == "serial" {
        return Some(Verb::Serial);
    }
    if name == "drive" {
        return Some(Verb::Drive);
    }
    if name == "audit" {
        return Some(Verb::Audit);
    }
    if name == "load" {
        return Some(Verb::Load);
    }
    None
}

/// Says what is wrong with words that the command line's grammar has.
fn what_else<S: AsStr>(words: &[S]) -> &'static str {
    if words.len() < 2 {
        return NO_FILE;
    }
    match verb_of(words[1].as_str()) {
        Some(Verb::Drive) => DRIVE_WORDS,
        Some(Verb::Load) => LOAD_WORDS,
        Some(Verb::Audit) => AUDIT_WORDS,
        Some(Verb::Script) if words.len() > 3 => SCRIPT_WORDS,
        Some(Verb::Serial) if words.len() > 3 => SERIAL_WORDS,
        _ => NO_FILE,
    }
}

/// Makes the grammar of these words' command line.
fn grammar<'a, S: AsStr>(alloc: Global, words: &[S]) -> Result<Command<'a>, Error> {
    let script = with(alloc, command(alloc, "script", SCRIPT), &of_script());
    let whole = joined(Ok(program(alloc)), script);
    let serial = with(alloc, command(alloc, "serial", SERIAL), &of_serial());
    let whole = joined(whole, serial);
    let whole = joined(whole, drive_grammar(alloc));
    let audit = with(alloc, command(alloc, "audit", AUDIT), &of_audit());
    let whole = joined(whole, audit);
    joined(whole, load_grammar(alloc, words))
}

/// Makes the program's command, without the commands of its verbs.
fn program<'a>(alloc: Global) -> Command<'a> {
    Command::new(alloc, "oe_server")
        .about(ABOUT)
        .version(VERSION)
        .override_usage(USAGE)
        .after_help(FORMS)
        .subcommand_required(true)
}

/// Adds a verb's command to the program's, or gives the first error. It takes results, so that its
/// caller has no way out that drops a command.
fn joined<'a>(
    whole: Result<Command<'a>, Error>,
    verb: Result<Command<'a>, Error>,
) -> Result<Command<'a>, Error> {
    match (whole, verb) {
        (Ok(whole), Ok(verb)) => Ok(whole.subcommand(verb)?),
        (Err(error), verb) => {
            drop(verb);
            Err(error)
        }
        (Ok(whole), Err(error)) => {
            drop(whole);
            Err(error)
        }
    }
}

/// Adds arguments to a command, in their order.
fn with<'a>(
    alloc: Global,
    command: Command<'a>,
    arguments: &[Argument],
) -> Result<Command<'a>, Error> {
    let mut command = command;
    for argument in arguments {
        command = command.arg(argument.made(alloc))?;
    }
    Ok(command)
}

/// Makes the grammar of a drive.
fn drive_grammar<'a>(alloc: Global) -> Result<Command<'a>, Error> {
    let scaled = with(alloc, command(alloc, "drive", DRIVE), &of_scale())?;
    let turns = of_turns(1_000, "Requests of each terminal, 1 to 1000");
    with(alloc, with(alloc, scaled, &turns)?, &of_drive())
}

/// Tells whether words ask for a load on tables that are there.
fn is_following<S: AsStr>(words: &[S]) -> bool {
    words.len() > 2 && words[2].as_str() == "--from"
}

/// Makes the grammar of a load; on tables that are there it has no scale.
fn load_grammar<'a, S: AsStr>(alloc: Global, words: &[S]) -> Result<Command<'a>, Error> {
    let begun = with(alloc, command(alloc, "load", LOAD), &of_following())?;
    if is_following(words) {
        return with_load_options(alloc, begun);
    }
    with_load_options(alloc, with(alloc, begun, &of_scale())?)
}

/// Adds the four numbers of a load and its options to a command.
fn with_load_options<'a>(alloc: Global, command: Command<'a>) -> Result<Command<'a>, Error> {
    let turns = of_turns(1_000_000_000, "Requests of each terminal, 1 to 1000000000");
    with(alloc, with(alloc, command, &turns)?, &of_load())
}

/// Makes a command without arguments, with what it does, and the usage and the forms of all.
fn command<'a>(alloc: Global, name: &'a str, about: &'a str) -> Command<'a> {
    Command::new(alloc, name)
        .about(about)
        .override_usage(USAGE)
        .after_help(FORMS)
}
