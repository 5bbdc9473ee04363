//! The law.
ghost use Rattle.as_command.specs.Laws.{AsAnswersAreKept};

/// A call of `orc as` that found its answer so and wrote it keeps the promise.
pub fn as_answers_are_kept()
    ensures { AsAnswersAreKept }
{}
