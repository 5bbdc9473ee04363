//! What clap is to match of each command.
ghost use Rattle.std.specs.Prelude.{◌≡◌, IfOk, true, false};
ghost use Rattle.clap.specs.Words.{app_of, is_simple_and_free, rule_of};
ghost use Rattle.command_line.specs.Words.{files_rule, word_rule, option_rule, run_app, session_app, assembly_app, generation_app};

use clap::{Arg, ArgAction, Command};
use std::alloc::{AllocError, Global};

/// FILE words, as many as there are.
fn files<'a>(alloc: Global) -> Arg<'a>
    ensures rule { rule_of result ≡ files_rule }
    ensures local { result.global ≡ false }
{
    Arg::new(alloc, "files").action(ArgAction::Append)
}

/// One word.
fn word<'a>(alloc: Global, name: &'a str) -> Arg<'a>
    ensures rule { rule_of result ≡ word_rule name.entry.now }
    ensures local { result.global ≡ false }
{
    Arg::new(alloc, name).required(true).action(ArgAction::Set)
}

/// An option with a value.
fn option<'a>(alloc: Global, name: &'a str) -> Arg<'a>
    ensures rule { rule_of result ≡ option_rule name.entry.now }
    ensures local { result.global ≡ false }
{
    Arg::new(alloc, name).long(name).action(ArgAction::Set)
}

/// `run FILE.. [--entry NAME] [--fuel N] [--workers N]`.
pub(crate) fn run_syntax<'a>(alloc: Global) -> Result<Command<'a>, AllocError>
    ensures is { IfOk result (λ command. app_of command ≡ run_app) }
    ensures simple { IfOk result (λ command. is_simple_and_free (app_of command) ≡ true) }
{
    Command::new(alloc, "run")
        .disable_help_flag(true)
        .arg(files(alloc))?
        .arg(option(alloc, "entry"))?
        .arg(option(alloc, "fuel"))?
        .arg(option(alloc, "workers"))
}

/// `session [--workers N]`.
pub(crate) fn session_syntax<'a>(alloc: Global) -> Result<Command<'a>, AllocError>
    ensures is { IfOk result (λ command. app_of command ≡ session_app) }
    ensures simple { IfOk result (λ command. is_simple_and_free (app_of command) ≡ true) }
{
    Command::new(alloc, "session")
        .disable_help_flag(true)
        .arg(option(alloc, "workers"))
}

/// `as FILE`.
pub(crate) fn assembly_syntax<'a>(alloc: Global) -> Result<Command<'a>, AllocError>
    ensures is { IfOk result (λ command. app_of command ≡ assembly_app) }
    ensures simple { IfOk result (λ command. is_simple_and_free (app_of command) ≡ true) }
{
    Command::new(alloc, "as")
        .disable_help_flag(true)
        .arg(word(alloc, "file"))
}

/// `gen N`.
pub(crate) fn generation_syntax<'a>(alloc: Global) -> Result<Command<'a>, AllocError>
    ensures is { IfOk result (λ command. app_of command ≡ generation_app) }
    ensures simple { IfOk result (λ command. is_simple_and_free (app_of command) ≡ true) }
{
    Command::new(alloc, "gen")
        .disable_help_flag(true)
        .arg(word(alloc, "objects"))
}
