//! The names that a script's session says.

ghost use Rattle.session_command.specs.NameLaws.{SessionSaysItsNames};

/// Each name that the session of a script says, and each that its lines' ends say, is one of its table.
pub fn session_says_its_names()
    ensures { SessionSaysItsNames }
{}
