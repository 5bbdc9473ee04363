//! The names of the commands.
ghost use Rattle.std.specs.Prelude.{◌≡◌};

/// A command, by its name.
#[derive(Clone, Copy)]
pub enum CommandName {
    Run,
    Session,
    As,
    Gen,
}

impl CommandName {
    ghost use Rattle.command_line.specs.Words.{command_named};

    /// The command of a name.
    pub(crate) fn named(name: &str) -> Option<CommandName>
        ensures { result ≡ command_named name.now }
    {
        match name {
            "run" => Some(CommandName::Run),
            "session" => Some(CommandName::Session),
            "as" => Some(CommandName::As),
            "gen" => Some(CommandName::Gen),
            _ => None,
        }
    }
}
