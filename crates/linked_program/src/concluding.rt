//! How a run ended, by what its client's lookup came to.
ghost use Rattle.linked_program.specs.Ends.{Concludes, ConcludesClient, IsFoundAs, IsFoundOne, IsPossible, IsPossibleClient};

use crate::client::ClientEnd;
use code_memory::Image;
use orc_ids::Stop;
use run_laws::Linked;
use session_model::{LookEnd, Matches};

/// What was done with a program: the set-up went no further, or the client worked.
#[derive(Drop)]
pub(crate) enum Outcome {
    Refused(usize),
    Stopped(Stop),
    Client(ClientEnd),
}

/// The entry was found at its address.
fn found(matches: Matches, memory: Option<Image>) -> Linked
    requires { IsFoundOne matches memory }
    ensures { IsFoundAs matches memory result }
{
    match (matches.as_slice(), memory) {
        ([Some((_, address))], Some(image)) => Linked::Found(*address, image),
        _ => unreachable!(),
    }
}

/// How the run ended that the client's lookup ended.
fn conclude_client(client: ClientEnd) -> Linked
    requires { IsPossibleClient client }
    ensures { ConcludesClient client result }
{
    let ClientEnd { end, memory } = client;
    match end {
        LookEnd::Found(matches) => found(matches, memory),
        LookEnd::Failed(i) => Linked::Failed(i),
        LookEnd::Missing(_) => Linked::Missing,
        LookEnd::JournalFull(len) => Linked::Stopped(Stop::JournalFull(len)),
        LookEnd::NoMemory => Linked::Stopped(Stop::NoMemory),
        LookEnd::InError(_) => unreachable!(),
        LookEnd::NoDylib(_) => unreachable!(),
    }
}

/// How the run ended.
pub(crate) fn conclude(outcome: Outcome) -> Linked
    requires { IsPossible outcome }
    ensures { Concludes outcome result }
{
    match outcome {
        Outcome::Refused(unit) => Linked::Refused(unit),
        Outcome::Stopped(stop) => Linked::Stopped(stop),
        Outcome::Client(client) => conclude_client(client),
    }
}
