//! What clap matches of a command's words.
ghost use Rattle.std.specs.Prelude.{◌≡◌, ◌≢◌, Some, true, IfOk, IfErr, map};
ghost use Rattle.std.specs.Option.{option_copied};
ghost use Rattle.clap.specs.Words.{app_of, first_of, is_simple_and_free, kind_of};
ghost use Rattle.command_line.specs.Words.{matched, files_in};
ghost use Rattle.command_line.specs.Answers.{Refuses, rows_in};

use crate::error::{CommandError, UsageKind};
use clap::error::ErrorKind;
use clap::{ArgMatches, Command, Error};
use std::alloc::{AllocError, Global};
use std::convert::AsStr;

/// What a command matches of its words, the first of which is its own.
pub(crate) fn matched<'a, S: AsStr>(
    command: Command<'a>,
    words: &'a [S],
) -> Result<ArgMatches<'a>, CommandError>
    requires { is_simple_and_free (app_of command) ≡ true }
    ensures read { IfOk result (λ matches. matched (app_of command.entry) (map S.text words.entry.now) ≡ Some (rows_in matches)) }
    ensures refused { IfErr result (Refuses (matched (app_of command.entry) (map S.text words.entry.now))) }
{
    match command.try_get_matches_from(words) {
        Ok(matches) => Ok(matches),
        Err(error) => Err(refusal_of(&error)),
    }
}

/// Why words aren't matched.
fn refusal_of(error: &Error) -> CommandError
    ensures memory { kind_of error.now ≡ ErrorKind.OutOfMemory → result ≡ CommandError.NoMemory }
    ensures words { kind_of error.now ≢ ErrorKind.OutOfMemory → result ≡ CommandError.Usage UsageKind.BadWords }
{
    match error.kind() {
        ErrorKind::OutOfMemory => CommandError::NoMemory,
        _ => CommandError::Usage(UsageKind::BadWords),
    }
}

/// The value of an argument.
pub(crate) fn value_of<'a>(matches: &ArgMatches<'a>, name: &str) -> Option<&'a str>
    ensures { option_copied result ≡ first_of name.now (rows_in matches.now) }
{
    matches.get_str(name)
}

/// The FILE words.
pub(crate) fn files_of<'a>(
    alloc: Global,
    matches: &ArgMatches<'a>,
) -> Result<Vec<&'a str>, AllocError>
    ensures { IfOk result (λ files. map (λ file. file.now) files.items ≡ files_in (rows_in matches.now)) }
{
    match matches.get_strs("files") {
        Some(files) => files.to_vec(alloc),
        None => Ok(Vec::new(alloc)),
    }
}
