ghost use Rattle.std.specs.Prelude.{◌≡◌, ℕ, ◌<◌, length, slice_get, Option, IfOk, IsTrue, IsSome, false};
ghost use Rattle.session_model.specs.Meaning.{Meaning, IsLawful};
ghost use Rattle.session_model.specs.Plain.{Plain, failed_at, has_dylib};
ghost use Rattle.session_model.specs.Match.{row_of, offered_by};
ghost use Rattle.session_model.specs.Query.{Stand};

use crate::rows::Row;
use orc_ids::{DylibId, GenId, InstId, NameId, Scope, Shape, SymFlags, UnitName, Wanted};
use std::alloc::{AllocError, Global};

/// A unit: symbols that are materialized together (ORC: `MaterializationUnit`). `live` has a flag
/// for each offered name: whether the unit's definition of it was kept.
pub trait UnitKind: Drop {
    /// What the unit is, as functions of what a session decides.
    ghost meaning: { Self → Meaning };

    /// The facts that hold of every unit.
    fn known(&self)
        ensures { IsLawful (meaning self.now) };

    /// How many names it offers.
    fn count(&self) -> u32
        ensures { result ≡ length (meaning self.now).offers };

    /// The name that it offers at `k`, and its flags.
    fn offer(&self, k: u32) -> (NameId, SymFlags)
        requires { k < length (meaning self.now).offers }
        ensures { slice_get (meaning self.now).offers k ≡ Some result };

    /// Another handle to the same unit.
    fn share(&self, alloc: Global) -> Result<Self, AllocError>
        ensures { IfOk result (λ other. meaning other ≡ meaning self.now) };

    /// The dylib in which an alias looks its target up; none of any other unit.
    fn source(&self) -> Option<DylibId>
        ensures { result ≡ (meaning self.now).source };

    /// What the journal calls the unit.
    fn name(&self) -> UnitName
        ensures { result ≡ (meaning self.now).name };

    /// The memory that it needs, in bytes; none where it needs none.
    fn shape(&self, live: &[bool]) -> Option<Shape>
        requires { length live.now ≡ length (meaning self.now).offers }
        ensures { result ≡ (meaning self.now).shape live.now };

    /// The address of the name offered at `k`, with the unit at this base.
    fn address(&self, k: u32, base: u64) -> u64
        requires { k < length (meaning self.now).offers }
        ensures { result ≡ (meaning self.now).address k base };

    /// What it looks up: the names that it doesn't define and the offered ones that aren't live, where
    /// a relocation refers to them, in symbol order.
    fn externals(&self, alloc: Global, live: &[bool]) -> Result<Vec<Wanted>, AllocError>
        requires { length live.now ≡ length (meaning self.now).offers }
        ensures { IfOk result (λ wanted. wanted.items ≡ (meaning self.now).externals live.now) };
}

/// The rows that matching sees.
pub trait RowSource {
    /// The session whose rows they are.
    ghost source: { Self → Plain };

    /// Whether the dylib exists.
    fn known(&self, d: DylibId) -> bool
        ensures { result ≡ has_dylib (source self.now) d.0 };

    /// The present row of the name in the dylib.
    fn row(&self, d: DylibId, name: NameId) -> Option<Row>
        ensures { result ≡ row_of (source self.now).rows d.0 name.0 };

    /// The first unspent generator of the dylib, in order of attachment, that offers a definition
    /// of the name which the scope sees.
    fn offered(&self, d: DylibId, name: NameId, scope: Scope) -> Option<GenId>
        ensures { result ≡ offered_by (source self.now).generators d.0 name.0 scope };

    /// Whether the instance failed.
    fn failed(&self, i: InstId) -> bool
        ensures { result ≡ failed_at (source self.now).rows i.0 };
}

/// How instances stand, for the settling of queries.
pub trait Standing {
    /// How the instance of this number stands.
    ghost stand: { Self → ℕ → Stand };

    fn failed(&self, i: InstId) -> bool
        ensures { result ≡ (stand self.now i.0).failed };

    fn present(&self, i: InstId) -> bool
        ensures { result ≡ (stand self.now i.0).present };

    fn address(&self, i: InstId) -> Option<u64>
        ensures { result ≡ (stand self.now i.0).address };

    /// A ready instance has an address and hasn't failed.
    fn ready(&self, i: InstId) -> bool
        ensures exact { result ≡ (stand self.now i.0).ready }
        ensures addressed { IsTrue result → IsSome (stand self.now i.0).address }
        ensures sound { IsTrue result → (stand self.now i.0).failed ≡ false };
}
