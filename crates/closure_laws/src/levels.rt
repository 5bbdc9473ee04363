//! Instances that came to a level, and instances that are lost.

ghost use Rattle.closure_laws.specs.Levels.{LevelsStay, LossesStay};

/// An instance at a level stays at it, or it is lost.
pub fn levels_stay()
    ensures { LevelsStay }
{}

/// An instance that failed or is gone stays so.
pub fn losses_stay()
    ensures { LossesStay }
{}
