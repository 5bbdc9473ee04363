//! The law.
ghost use Rattle.session_command.specs.Laws.{SessionAnswersAreKept};

/// A call of `orc session` that found its answer so and wrote it keeps the promise.
pub fn session_answers_are_kept<N>()
    ensures { SessionAnswersAreKept N }
{}
