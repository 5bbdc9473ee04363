//! The law.
ghost use Rattle.script_model.specs.Promises.{ScriptKeepsPromises};

/// Every history of a script's session keeps the promises to its clients.
pub fn script_keeps_promises()
    ensures { ScriptKeepsPromises }
{}
