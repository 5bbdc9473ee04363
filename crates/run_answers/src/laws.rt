//! That a call which found its answer and wrote it keeps the promise.
ghost use Rattle.run_answers.specs.Laws.{AnswersAreKept, NeverFull};

/// What was found and written is what the top call promises.
pub fn answers_are_kept()
    ensures { AnswersAreKept }
{}

/// A journal with as many places as one can have is never full after a run.
pub fn never_full()
    ensures { NeverFull }
{}
