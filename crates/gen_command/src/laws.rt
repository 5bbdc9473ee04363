//! The law.
ghost use Rattle.gen_command.specs.Laws.{GenAnswersAreKept};

/// A call of `orc gen` that found its answer so and wrote it keeps the promise.
pub fn gen_answers_are_kept()
    ensures { GenAnswersAreKept }
{}
