//! The functions of a session: where each is defined, what its unit is, and which of them the client's lines are of.
ghost use Rattle.std.specs.Prelude.{◌≡◌, ◌<◌, ◌^◌, IfOk};
ghost use Rattle.std.specs.List.{range_with_len};
ghost use Rattle.session_units.specs.Units.{meaning_of};
ghost use Rattle.generated_session.specs.Runs.{IsUnit};
ghost use Rattle.generated_session.specs.Scripts.{heads, home, removals, tracker_of};

use crate::{is_head, is_removed};
use generated_objects::{DYLIBS, graph_of_function};
use orc_ids::{DylibId, TrackId, UnitName};
use session_units::ObjectUnit;
use std::alloc::{AllocError, Global};

/// The dylib of function `k`.
pub(crate) fn home(k: u32) -> DylibId
    ensures { result ≡ home k }
{
    DylibId(k % DYLIBS)
}

/// The tracker of function `k`.
pub(crate) fn tracker_of(k: u32) -> TrackId
    ensures { result ≡ tracker_of k }
{
    TrackId(k)
}

/// The unit of function `k` of `n`.
pub(crate) fn unit_of(alloc: Global, n: u32, k: u32) -> Result<ObjectUnit, AllocError>
    requires below { k < n }
    requires few { n < 2 ^ 31 }
    ensures { IfOk result (λ unit. IsUnit n k (meaning_of unit)) }
{
    let graph = graph_of_function(alloc, n, k)?;
    ObjectUnit::of_graph(alloc, UnitName::Object(k), graph)
}

/// The functions that are run.
pub(crate) fn heads(alloc: Global, n: u32) -> Result<Vec<u32>, AllocError>
    ensures { IfOk result (λ ks. ks.items ≡ heads n) }
{
    (0..n).filter(|k| is_head(*k)).collect(alloc)
}

/// The functions whose trackers are removed.
pub(crate) fn removals(alloc: Global, n: u32) -> Result<Vec<u32>, AllocError>
    ensures { IfOk result (λ ks. ks.items ≡ removals n) }
{
    (0..n).filter(|k| is_removed(*k)).collect(alloc)
}

/// All functions.
pub(crate) fn functions(alloc: Global, n: u32) -> Result<Vec<u32>, AllocError>
    ensures { IfOk result (λ ks. ks.items ≡ range_with_len 0 n) }
{
    (0..n).collect(alloc)
}
