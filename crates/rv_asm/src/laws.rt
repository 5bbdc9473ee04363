//! The law.
ghost use Rattle.rv_asm.specs.Objects.{HaveOneObject};

/// A text has one object at most, so that the definition of an object that is assembled leaves no choice.
pub fn have_one_object()
    ensures { HaveOneObject }
{}
