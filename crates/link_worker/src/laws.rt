//! What leaves a pass without a unit.
ghost use Rattle.link_worker.specs.Laws.{FreeLooks, FreeReads, FreeStays};

use session_model::UnitKind;

/// A pass that holds no unit is given one by a take alone.
pub fn free_stays<U: UnitKind>()
    ensures { FreeStays U.meaning }
{}

/// Seeing the history again gives it none.
pub fn free_looks<U: UnitKind>()
    ensures { FreeLooks U.meaning }
{}

/// Reading a post gives it none.
pub fn free_reads<U: UnitKind>()
    ensures { FreeReads U.meaning }
{}
