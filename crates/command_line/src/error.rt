ghost use Rattle.std.specs.Prelude.{◌≡◌};
ghost use Rattle.command_line.specs.declared.error.CommandError.TheVariants.{Usage, NoMemory};

use std::alloc::AllocError;

/// Why words are no command line.
#[derive(Clone, Copy, Debug, PartialEq, Eq)]
pub enum UsageKind {
    /// There is no word after the program's name.
    NoCommand,
    /// The word after the program's name is no command.
    UnknownCommand,
    /// The words after the command don't fit it.
    BadWords,
    /// The words fit, and a number among them is malformed or out of range.
    BadNumber,
}

/// Why a command line wasn't read.
#[derive(Clone, Copy, Debug, PartialEq, Eq)]
pub enum CommandError {
    /// The words are no command line.
    Usage(UsageKind),
    /// Memory ran out.
    NoMemory,
}

impl From<UsageKind> for CommandError {
    ghost from_gives = { λ kind e. e ≡ Usage kind };

    fn from(kind: UsageKind) -> CommandError {
        CommandError::Usage(kind)
    }
}

impl From<AllocError> for CommandError {
    ghost from_gives = { λ _ e. e ≡ NoMemory };

    fn from(_e: AllocError) -> CommandError {
        CommandError::NoMemory
    }
}
