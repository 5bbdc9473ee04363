//! The calls of the set-up.
ghost use Rattle.std.specs.Prelude.{◌≡◌, ◌<◌, ◌^◌, ◌==◌, ◌++◌, ◌∷◌, [], map, not, IfOk, OnOk};
ghost use Rattle.std.specs.List.{filter};
ghost use Rattle.script_model.specs.Plans.{event_of};
ghost use Rattle.session_units.specs.Units.{meaning_of};
ghost use Rattle.generated_session.specs.Scripts.{exported_from};
ghost use Rattle.generated_session.specs.Plans.{Defines, IsOneMore, IsSetUp, defined, made, ordered};

use crate::definitions::{home, tracker_of, unit_of};
use orc_ids::{DylibId, Items, NameId, OrderItem, Scope};
use script_model::SetUpCall;
use session_units::ObjectUnit;
use std::alloc::{AllocError, Global};

/// The dylibs, which are numbered and named alike.
const DYLIB_NUMBERS: [u32; 4] = [0, 1, 2, 3];

/// The exported names of a dylib.
fn exported_from(dylib: u32) -> OrderItem
    ensures { result ≡ exported_from dylib }
{
    OrderItem {
        dylib: DylibId(dylib),
        scope: Scope::Exported,
    }
}

/// Those of a list that aren't this dylib.
fn others(alloc: Global, dylibs: &[u32], dylib: u32) -> Result<Items<OrderItem>, AllocError>
    ensures { IfOk result (λ order. order ≡ map exported_from (filter (λ d. not (d == dylib)) dylibs.now)) }
{
    let mut order = Vec::new(alloc);
    for other in dylibs {
        if *other != dylib {
            order.push(exported_from(*other))?;
        }
    }
    Ok(Items::from_vec(order))
}

/// These dylibs are made.
fn put_dylibs(calls: &mut Vec<SetUpCall<ObjectUnit>>, dylibs: &[u32]) -> Result<(), AllocError>
    ensures { OnOk result (map (event_of meaning_of) calls.new.items ≡ map (event_of meaning_of) calls.old.items ++ made dylibs.now) }
{
    for dylib in dylibs {
        calls.push(SetUpCall::Dylib(NameId(*dylib)))?;
    }
    Ok(())
}

/// Each of these dylibs links against those of a list that aren't it.
fn put_orders(
    alloc: Global,
    calls: &mut Vec<SetUpCall<ObjectUnit>>,
    all: &[u32],
    dylibs: &[u32],
) -> Result<(), AllocError>
    ensures { OnOk result (map (event_of meaning_of) calls.new.items ≡ map (event_of meaning_of) calls.old.items ++ ordered all.now dylibs.now) }
{
    for dylib in dylibs {
        let order = others(alloc, all, *dylib)?;
        calls.push(SetUpCall::Order(DylibId(*dylib), order))?;
    }
    Ok(())
}

/// Function `k` gets a tracker, and is defined there.
fn put_unit(
    calls: &mut Vec<SetUpCall<ObjectUnit>>,
    k: u32,
    unit: ObjectUnit,
) -> Result<(), AllocError>
    ensures { OnOk result (map (event_of meaning_of) calls.new.items ≡ map (event_of meaning_of) calls.old.items ++ defined k (meaning_of unit)) }
{
    calls.push(SetUpCall::Tracker(home(k)))?;
    calls.push(SetUpCall::Define(home(k), tracker_of(k), unit))?;
    Ok(())
}

/// Function `k` of `n` is defined.
fn put_definition(
    alloc: Global,
    calls: &mut Vec<SetUpCall<ObjectUnit>>,
    n: u32,
    k: u32,
) -> Result<(), AllocError>
    requires below { k < n }
    requires few { n < 2 ^ 31 }
    ensures { OnOk result (IsOneMore n k (map (event_of meaning_of) calls.old.items) (map (event_of meaning_of) calls.new.items)) }
{
    let unit = unit_of(alloc, n, k)?;
    put_unit(calls, k, unit)?;
    Ok(())
}

/// All functions are defined.
fn put_definitions(
    alloc: Global,
    calls: &mut Vec<SetUpCall<ObjectUnit>>,
    n: u32,
) -> Result<(), AllocError>
    requires few { n < 2 ^ 31 }
    ensures { OnOk result (Defines n n (map (event_of meaning_of) calls.old.items) (map (event_of meaning_of) calls.new.items)) }
{
    for k in 0..n {
        put_definition(alloc, calls, n, k)?;
    }
    Ok(())
}

/// The whole set-up of `n` objects.
pub(crate) fn set_up_calls(alloc: Global, n: u32) -> Result<Vec<SetUpCall<ObjectUnit>>, AllocError>
    requires few { n < 2 ^ 31 }
    ensures { IfOk result (λ calls. IsSetUp n (map (event_of meaning_of) calls.items)) }
{
    let mut calls = Vec::new(alloc);
    put_dylibs(&mut calls, &DYLIB_NUMBERS)?;
    put_orders(alloc, &mut calls, &DYLIB_NUMBERS, &DYLIB_NUMBERS)?;
    put_definitions(alloc, &mut calls, n)?;
    Ok(calls)
}
