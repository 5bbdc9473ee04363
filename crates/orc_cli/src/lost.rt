//! Why an entry could not be made ready, by the journal.
ghost use Rattle.std.specs.Prelude.{◌≡◌};
ghost use Rattle.session_model.specs.State.{plain_event, plain_history};
ghost use Rattle.run_answers.specs.Lost.{lost_answer, made_in, refusal_in, refusal_of, refused_by, unit_of};

use answers::{Answer, wanted_memory};
use orc_ids::{InstId, Place, UnitId};
use session_model::{Entry, Event, Reply, UnitKind, Why};

/// The unit of a definition that made the instance.
fn made_in(instance: InstId, reply: &Reply) -> Option<UnitId>
    ensures { result ≡ made_in instance.0 reply.now }
{
    match reply {
        Reply::Defined(unit, first, count) => {
            let (from, number) = (u64::from(first.0), u64::from(instance.0));
            (from <= number && number < from + u64::from(*count)).then_some(*unit)
        }
        _ => None,
    }
}

/// The unit whose definition made the instance.
fn unit_of<U: UnitKind>(journal: &[Entry<U>], instance: InstId) -> Option<UnitId>
    ensures { result ≡ unit_of (plain_history U.meaning journal.now) instance }
{
    for entry in journal {
        if let Some(unit) = made_in(instance, &entry.reply) {
            return Some(unit);
        }
    }
    None
}

fn refused_by(why: &Why) -> Option<(Place, u32, i64)>
    ensures { result ≡ refused_by why.now }
{
    match why {
        Why::Refused(place, kind, v) => Some((*place, *kind, *v)),
        _ => None,
    }
}

/// The edge out of range for which the unit is given up.
fn refusal_in<U: UnitKind>(unit: UnitId, event: &Event<U>) -> Option<(Place, u32, i64)>
    ensures { result ≡ refusal_in unit (plain_event U.meaning event.now) }
{
    match event {
        Event::Fail(failed, why) if failed.0 == unit.0 => refused_by(why),
        _ => None,
    }
}

/// The edge out of range for which the unit was given up.
fn refusal_of<U: UnitKind>(journal: &[Entry<U>], unit: UnitId) -> Option<(Place, u32, i64)>
    ensures { result ≡ refusal_of (plain_history U.meaning journal.now) unit }
{
    for entry in journal {
        if let Some(refusal) = refusal_in(unit, &entry.event) {
            return Some(refusal);
        }
    }
    None
}

/// What a program answers whose lookup was lost by an instance.
pub(crate) fn lost_answer<U: UnitKind>(journal: &[Entry<U>], instance: InstId) -> Answer
    ensures { result ≡ lost_answer (plain_history U.meaning journal.now) instance }
{
    if wanted_memory(journal) {
        return Answer::NoMemory;
    }
    let refusal = match unit_of(journal, instance) {
        Some(unit) => refusal_of(journal, unit),
        None => None,
    };
    match refusal {
        Some((place, kind, v)) => Answer::LinkRefused(place, kind, v),
        None => Answer::DepFailed(instance),
    }
}
