ghost use Rattle.std.specs.Prelude.{◌≡◌, length, IfOk};

use orc_ids::{Groups, InstId, Place};
use session_model::UnitKind;
use std::alloc::{AllocError, Global};

/// A unit that can compute what an emit of it has to hand in, and what refuses it.
pub trait Sample: UnitKind {
    /// Its dependence groups, by its live names, its base, its bindings, and its instances in the
    /// order of its live names.
    fn groups(
        &self,
        alloc: Global,
        live: &[bool],
        base: u64,
        bound: &[Option<(InstId, u64)>],
        own: &[InstId],
    ) -> Result<Groups, AllocError>
        requires { length live.now ≡ length (Self.meaning self.now).offers }
        ensures { IfOk result (λ groups. groups ≡ (Self.meaning self.now).groups live.now base bound.now own.now) };

    /// The place, kind and value of its first edge that is out of range, if one is.
    fn refusal(
        &self,
        live: &[bool],
        base: u64,
        bound: &[Option<(InstId, u64)>],
    ) -> Option<(Place, u32, i64)>
        requires { length live.now ≡ length (Self.meaning self.now).offers }
        ensures { result ≡ (Self.meaning self.now).refusal live.now base bound.now };
}
