//! The names of a session are those of its objects.

ghost use Rattle.memory_laws.specs.NameLaws.{NamesAreDefined, NamesStay, AskComesFirst};

/// Each object is a unit of its own that keeps the names which it defines, and a name's row is that of
/// its definition.
pub fn names_are_defined()
    ensures { NamesAreDefined }
{}

/// What a program's history begins with, once its objects are defined, is a program's history.
pub fn names_stay()
    ensures { NamesStay }
{}

/// Until names are asked for, no instance is searched, no unit is claimed or held, and there is no job
/// and no query.
pub fn ask_comes_first()
    ensures { AskComesFirst }
{}
