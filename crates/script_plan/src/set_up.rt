//! The calls of the set-up.
ghost use Rattle.std.specs.Prelude.{◌≡◌, All, length, map, OnOk, IfOk};
ghost use Rattle.script_model.specs.Plans.{event_of};
ghost use Rattle.session_units.specs.Units.{meaning_of};
ghost use Rattle.script_plan.specs.Asked.{asked_event, asked_events};
ghost use Rattle.script_plan.specs.Counts.{with_line};
ghost use Rattle.session_script.specs.WellFormed.{IsSetupLine};

use crate::parts::{copy_of, unit_of_file, unit_of_symbols};
use crate::unit_counts::UnitCounts;
use script_model::SetUpCall;
use session_script::SetupLine;
use session_units::ObjectUnit;
use std::alloc::{AllocError, Global};

/// The calls that the lines of the set-up ask for.
pub(crate) fn plan_set_up(
    alloc: Global,
    units: &[ObjectUnit],
    lines: &[SetupLine],
) -> Result<Vec<SetUpCall<ObjectUnit>>, AllocError>
    requires { All (IsSetupLine (length units.now)) lines.now }
    ensures { IfOk result (λ calls.
        map (event_of meaning_of) calls.items ≡ asked_events (map meaning_of units.now) lines.now) }
{
    let mut calls = Vec::new(alloc);
    let mut counts = UnitCounts::new();
    for line in lines {
        calls.push(set_up_call(alloc, units, &mut counts, line)?)?;
    }
    Ok(calls)
}

/// The call of a line, before which so many lines have a unit of their own.
fn set_up_call(
    alloc: Global,
    units: &[ObjectUnit],
    counts: &mut UnitCounts,
    line: &SetupLine,
) -> Result<SetUpCall<ObjectUnit>, AllocError>
    requires { IsSetupLine (length units.now) line.now }
    ensures asked { IfOk result (λ call.
        event_of meaning_of call ≡ asked_event (map meaning_of units.now) counts.old line.now) }
    ensures counted { OnOk result (counts.new ≡ with_line line.now counts.old) }
{
    match line {
        SetupLine::Dylib(name) => Ok(SetUpCall::Dylib(*name)),
        SetupLine::Order(dylib, order) => Ok(SetUpCall::Order(*dylib, copy_of(alloc, order)?)),
        SetupLine::Tracker(dylib, _) => Ok(SetUpCall::Tracker(*dylib)),
        SetupLine::Object(dylib, tracker, file) => {
            let unit = unit_of_file(alloc, units, *file)?;
            Ok(SetUpCall::Define(*dylib, *tracker, unit))
        }
        SetupLine::Absolute(dylib, tracker, symbols) => {
            let name = counts.next_absolute()?;
            let unit = unit_of_symbols(alloc, name, symbols.as_slice())?;
            Ok(SetUpCall::Define(*dylib, *tracker, unit))
        }
        SetupLine::Generator(dylib, tracker, file) => {
            let unit = unit_of_file(alloc, units, *file)?;
            Ok(SetUpCall::Attach(*dylib, *tracker, unit))
        }
        SetupLine::Alias(alias) => {
            let name = counts.next_alias()?;
            let unit = ObjectUnit::of_alias(name, alias.name, alias.source, alias.target);
            Ok(SetUpCall::Define(alias.dylib, alias.tracker, unit))
        }
    }
}
