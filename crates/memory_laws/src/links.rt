//! What memory holds of a program.

ghost use Rattle.memory_laws.specs.LinkLaws.{MemoryHoldsProgram, ProgramIsLinkedByNames, ReadyNameHasProgram};

/// A session of the objects binds each name to its definition, and what a ready instance reaches is there.
pub fn program_is_linked_by_names()
    ensures { ProgramIsLinkedByNames }
{}

/// Memory has the statically linked program of an entry that is ready, at every address that it maps.
pub fn memory_holds_program()
    ensures { MemoryHoldsProgram }
{}

/// An entry that is ready has a statically linked program.
pub fn ready_name_has_program()
    ensures { ReadyNameHasProgram }
{}
