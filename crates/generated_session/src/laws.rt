//! How long the history of a session of generated objects is.
ghost use Rattle.generated_session.specs.Laws.{IsNeverFull, IsShort};

/// It has at most twenty entries for each object, and eight.
pub fn generated_run_is_short()
    ensures { IsShort }
{}

/// So a journal that has a few more places is never full.
pub fn journal_is_never_full()
    ensures { IsNeverFull }
{}
