//! Where a session was stopped.
ghost use Rattle.std.specs.Prelude.{◌≡◌};
ghost use Rattle.gen_command.specs.Ends.{first_stop, stop_in, stop_of};

use orc_ids::Stop;
use script_model::LineEnd;

/// The stop of a line, if it was stopped.
fn stop_of(end: &LineEnd) -> Option<Stop>
    ensures { result ≡ stop_of end.now }
{
    match end {
        LineEnd::Stopped(stop) => Some(*stop),
        _ => None,
    }
}

/// The stop of the first line that was stopped.
fn first_stop(ends: &[LineEnd]) -> Option<Stop>
    ensures { result ≡ first_stop ends.now }
{
    for end in ends {
        if let Some(stop) = stop_of(end) {
            return Some(stop);
        }
    }
    None
}

/// The stop of the set-up, or of the first line that was stopped.
pub(crate) fn stop_in(set_up: Option<Stop>, ends: &[LineEnd]) -> Option<Stop>
    ensures { result ≡ stop_in set_up ends.now }
{
    match set_up {
        Some(stop) => Some(stop),
        None => first_stop(ends),
    }
}
