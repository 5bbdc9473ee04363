//! The names that a script says.

ghost use Rattle.known_names.specs.ScriptLaws.{ScriptSaysItsNames};

/// Each name that a script says which was read is one of its table.
pub fn script_says_its_names()
    ensures { ScriptSaysItsNames }
{}
