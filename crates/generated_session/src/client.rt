//! The calls of the client.
ghost use Rattle.std.specs.Prelude.{◌≡◌, ◌<◌, ◌^◌, ◌++◌, ◌∷◌, [], All, map, IfOk, OnOk};
ghost use Rattle.script_model.specs.Asking.{LookUp, Run};
ghost use Rattle.script_model.specs.Plans.{line_of};
ghost use Rattle.session_units.specs.Units.{meaning_of};
ghost use Rattle.generated_session.specs.Scripts.{client_lines, function, lookup_of, runs};
ghost use Rattle.generated_session.specs.Plans.{looked_up, removed};

use crate::definitions::{functions, heads, home, removals, tracker_of};
use generated_objects::function_name;
use orc_ids::{Items, Level, OrderItem, Scope, Wanted};
use orc_io::Notify;
use script_model::{ClientCall, Lookup};
use session_units::ObjectUnit;
use std::alloc::{AllocError, Global};

/// What a function is run with: its argument, and its fuel.
const ARGUMENT: u64 = 10;

const FUEL: u64 = 1000;

/// Function `k` is looked up at Ready, among all names of its dylib.
fn lookup_of<N: Notify>(alloc: Global, k: u32) -> Result<ClientCall<ObjectUnit, N>, AllocError>
    requires { k < 2 ^ 31 }
    ensures { IfOk result (λ call. line_of meaning_of call ≡ LookUp (lookup_of k)) }
{
    let mut order = Vec::with_capacity(alloc, 1)?;
    order.push(OrderItem {
        dylib: home(k),
        scope: Scope::All,
    })?;
    let mut wanted = Vec::with_capacity(alloc, 1)?;
    wanted.push(Wanted {
        name: function_name(k),
        weak: false,
    })?;
    let names = Lookup {
        order: Items::from_vec(order),
        wanted: Items::from_vec(wanted),
        level: Level::Ready,
    };
    Ok(ClientCall::LookUp(names, None))
}

/// Function `k` is run.
fn run_of<N: Notify>(alloc: Global, k: u32) -> Result<ClientCall<ObjectUnit, N>, AllocError>
    requires { k < 2 ^ 31 }
    ensures { IfOk result (λ call. line_of meaning_of call ≡ Run (function k) 1000 (10 ∷ [])) }
{
    let mut arguments = Vec::with_capacity(alloc, 1)?;
    arguments.push(ARGUMENT)?;
    Ok(ClientCall::Run(function_name(k), FUEL, Items::from_vec(arguments)))
}

/// Each of these functions is looked up and run.
fn put_runs<N: Notify>(
    alloc: Global,
    calls: &mut Vec<ClientCall<ObjectUnit, N>>,
    functions: &[u32],
) -> Result<(), AllocError>
    requires { All (λ k. k < 2 ^ 31) functions.now }
    ensures { OnOk result (map (line_of meaning_of) calls.new.items ≡ map (line_of meaning_of) calls.old.items ++ runs functions.now) }
{
    for k in functions {
        calls.push(lookup_of(alloc, *k)?)?;
        calls.push(run_of(alloc, *k)?)?;
    }
    Ok(())
}

/// The tracker of each of these functions is removed.
fn put_removals<N: Notify>(
    calls: &mut Vec<ClientCall<ObjectUnit, N>>,
    functions: &[u32],
) -> Result<(), AllocError>
    ensures { OnOk result (map (line_of meaning_of) calls.new.items ≡ map (line_of meaning_of) calls.old.items ++ removed functions.now) }
{
    for k in functions {
        calls.push(ClientCall::Remove(tracker_of(*k)))?;
    }
    Ok(())
}

/// Each of these functions is looked up.
fn put_lookups<N: Notify>(
    alloc: Global,
    calls: &mut Vec<ClientCall<ObjectUnit, N>>,
    functions: &[u32],
) -> Result<(), AllocError>
    requires { All (λ k. k < 2 ^ 31) functions.now }
    ensures { OnOk result (map (line_of meaning_of) calls.new.items ≡ map (line_of meaning_of) calls.old.items ++ looked_up functions.now) }
{
    for k in functions {
        calls.push(lookup_of(alloc, *k)?)?;
    }
    Ok(())
}

/// All lines of the client of `n` objects.
pub(crate) fn client_calls<N: Notify>(
    alloc: Global,
    n: u32,
) -> Result<Vec<ClientCall<ObjectUnit, N>>, AllocError>
    requires { n < 2 ^ 31 }
    ensures { IfOk result (λ calls. map (line_of meaning_of) calls.items ≡ client_lines n) }
{
    let heads = heads(alloc, n)?;
    let removals = removals(alloc, n)?;
    let functions = functions(alloc, n)?;
    let mut calls = Vec::new(alloc);
    put_runs(alloc, &mut calls, heads.as_slice())?;
    put_removals(&mut calls, removals.as_slice())?;
    put_lookups(alloc, &mut calls, functions.as_slice())?;
    Ok(calls)
}
