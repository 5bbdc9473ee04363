ghost use Rattle.std.specs.Prelude.{◌≡◌, Some, Ok, IfOk, IfErr, map};
ghost use Rattle.command_line.specs.Words.{texts, asked_by, own_command, named_command, files_in, workers_in, run_by, run_of, session_of, assembly_of, generation_of, generation_with, objects_of, asked_of, Explains, KeepsLimits};
ghost use Rattle.command_line.specs.Answers.{asked_or, rows_in};

use crate::error::{CommandError, UsageKind};
use crate::limits::{FILES_LIMIT, FUEL_LIMIT, NAME_LIMIT, OBJECTS_LIMIT, WORKER_LIMIT};
use crate::matching::{files_of, matched, value_of};
use crate::name::CommandName;
use crate::number::{number_from_one, number_or};
use crate::syntax::{assembly_syntax, generation_syntax, run_syntax, session_syntax};
use clap::ArgMatches;
use std::alloc::Global;
use std::rc::RcStr;

/// The entry, the fuel and the workers where no option gives them.
const USUAL_ENTRY: &str = "main";

const USUAL_FUEL: u64 = 1_000_000;

const USUAL_WORKERS: u64 = 0;

/// What the words of a command line ask for.
#[derive(Debug, Drop)]
pub enum Command<'a> {
    Run(RunWords<'a>),
    Session(SessionWords),
    Assembly(AssemblyWords<'a>),
    Generation(GenerationWords),
}

/// `run FILE.. [--entry NAME] [--fuel N] [--workers N]` links the objects in the files with N workers, and
/// runs them from the symbol of that name for at most N instructions.
#[derive(Debug, Drop)]
pub struct RunWords<'a> {
    pub files: Vec<&'a str>,
    pub entry: &'a str,
    pub fuel: u64,
    pub workers: u32,
}

/// `session [--workers N]` makes the calls of a script on one session, with N workers.
#[derive(Clone, Copy, Debug)]
pub struct SessionWords {
    pub workers: u32,
}

/// `as FILE` assembles the text in the file.
#[derive(Clone, Copy, Debug)]
pub struct AssemblyWords<'a> {
    pub file: &'a str,
}

/// `gen N` makes the calls of a session of N generated objects.
#[derive(Clone, Copy, Debug)]
pub struct GenerationWords {
    pub objects: u32,
}

/// The command of a command line: word 0 is the program's name, word 1 the command.
pub fn read_command(alloc: Global, words: &[RcStr]) -> Result<Command<'_>, CommandError>
    ensures read { IfOk result (λ command. asked_by words.now ≡ Ok (asked_of command)) }
    ensures refused { IfErr result (Explains (asked_by words.now)) }
    ensures limits { IfOk result (λ command. KeepsLimits (asked_of command)) }
{
    match words {
        [_, words @ ..] => read_words(alloc, words),
        [] => Err(CommandError::Usage(UsageKind::NoCommand)),
    }
}

/// The words after the program's name.
fn read_words(alloc: Global, words: &[RcStr]) -> Result<Command<'_>, CommandError>
    ensures read { IfOk result (λ command. own_command (texts words.now) ≡ Ok (asked_of command)) }
    ensures refused { IfErr result (Explains (own_command (texts words.now))) }
    ensures limits { IfOk result (λ command. KeepsLimits (asked_of command)) }
{
    match words {
        [name, ..] => read_named(alloc, CommandName::named(name.as_str()), words),
        [] => Err(CommandError::Usage(UsageKind::NoCommand)),
    }
}

/// The words of the command of this name, the first of which is its own.
fn read_named(
    alloc: Global,
    name: Option<CommandName>,
    words: &[RcStr],
) -> Result<Command<'_>, CommandError>
    ensures read { IfOk result (λ command. named_command name (texts words.now) ≡ Ok (asked_of command)) }
    ensures refused { IfErr result (Explains (named_command name (texts words.now))) }
    ensures limits { IfOk result (λ command. KeepsLimits (asked_of command)) }
{
    match name {
        Some(CommandName::Run) => read_run(alloc, words),
        Some(CommandName::Session) => read_session(alloc, words),
        Some(CommandName::As) => read_assembly(alloc, words),
        Some(CommandName::Gen) => read_generation(alloc, words),
        None => Err(CommandError::Usage(UsageKind::UnknownCommand)),
    }
}

/// The words of a run.
fn read_run(alloc: Global, words: &[RcStr]) -> Result<Command<'_>, CommandError>
    ensures read { IfOk result (λ run. run_of (texts words.now) ≡ Ok (asked_of run)) }
    ensures refused { IfErr result (Explains (run_of (texts words.now))) }
{
    let matches = matched(run_syntax(alloc)?, words)?;
    let files = files_of(alloc, &matches)?;
    Ok(run_words(&matches, files)?)
}

/// The run that words ask for, which give these files.
fn run_words<'a>(matches: &ArgMatches<'a>, files: Vec<&'a str>) -> Result<Command<'a>, UsageKind>
    requires { map (λ file. file.now) files.items ≡ files_in (rows_in matches.now) }
    ensures { asked_or result ≡ run_by (Some (rows_in matches.now)) }
{
    let entry = value_of(matches, "entry").unwrap_or(USUAL_ENTRY);
    if files.is_empty()
        || files.len() > FILES_LIMIT
        || entry.is_empty()
        || entry.len() > NAME_LIMIT
    {
        return Err(UsageKind::BadWords);
    }
    let fuel = number_or(USUAL_FUEL, FUEL_LIMIT, value_of(matches, "fuel"));
    match (fuel, workers_of(matches)) {
        (Some(fuel), Some(workers)) => Ok(Command::Run(RunWords {
            files,
            entry,
            fuel,
            workers,
        })),
        _ => Err(UsageKind::BadNumber),
    }
}

/// The words of a session.
fn read_session(alloc: Global, words: &[RcStr]) -> Result<Command<'_>, CommandError>
    ensures read { IfOk result (λ session. session_of (texts words.now) ≡ Ok (asked_of session)) }
    ensures refused { IfErr result (Explains (session_of (texts words.now))) }
{
    let matches = matched(session_syntax(alloc)?, words)?;
    match workers_of(&matches) {
        Some(workers) => Ok(Command::Session(SessionWords { workers })),
        None => Err(CommandError::Usage(UsageKind::BadNumber)),
    }
}

/// The words of an assembly.
fn read_assembly(alloc: Global, words: &[RcStr]) -> Result<Command<'_>, CommandError>
    ensures read { IfOk result (λ assembly. assembly_of (texts words.now) ≡ Ok (asked_of assembly)) }
    ensures refused { IfErr result (Explains (assembly_of (texts words.now))) }
{
    let matches = matched(assembly_syntax(alloc)?, words)?;
    match value_of(&matches, "file") {
        Some(file) => Ok(Command::Assembly(AssemblyWords { file })),
        None => Err(CommandError::Usage(UsageKind::BadWords)),
    }
}

/// The words of a generated session.
fn read_generation(alloc: Global, words: &[RcStr]) -> Result<Command<'_>, CommandError>
    ensures read { IfOk result (λ generation. generation_of (texts words.now) ≡ Ok (asked_of generation)) }
    ensures refused { IfErr result (Explains (generation_of (texts words.now))) }
{
    let matches = matched(generation_syntax(alloc)?, words)?;
    match value_of(&matches, "objects") {
        Some(number) => Ok(generation_words(number)?),
        None => Err(CommandError::Usage(UsageKind::BadWords)),
    }
}

/// The generated session that a number asks for.
fn generation_words<'a>(number: &str) -> Result<Command<'a>, UsageKind>
    ensures { asked_or result ≡ generation_with (objects_of number.now) }
{
    match number_from_one(number, u64::from(OBJECTS_LIMIT)) {
        Some(objects) => Ok(Command::Generation(GenerationWords {
            objects: objects as u32,
        })),
        None => Err(UsageKind::BadNumber),
    }
}

/// The workers that words ask for, if they may.
fn workers_of(matches: &ArgMatches<'_>) -> Option<u32>
    ensures { result ≡ workers_in (rows_in matches.now) }
{
    let most = u64::from(WORKER_LIMIT);
    let workers = number_or(USUAL_WORKERS, most, value_of(matches, "workers"))?;
    Some(workers as u32)
}
