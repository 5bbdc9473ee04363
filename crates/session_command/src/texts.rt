//! The text of a script's session.
ghost use Rattle.std.specs.Prelude.{◌≡◌, map, IfOk};
ghost use Rattle.session_model.specs.State.{plain_history};
ghost use Rattle.session_units.specs.Units.{meaning_of};
ghost use Rattle.journal_text.specs.Journal.{AreKnown, text_of_history};
ghost use Rattle.result_text.specs.Known.{AreKnownEnds};
ghost use Rattle.result_text.specs.Results.{text_of_ends};
ghost use Rattle.session_command.specs.Texts.{wanted_by};
ghost use Rattle.std.specs.Prelude.{◌++◌};

use journal_text::text_of;
use orc_ids::{Bytes, Items, Wanted};
use orc_names::Names;
use result_text::text_of_results;
use script_model::LineEnd;
use session_model::Entry;
use session_script::ClientLine;
use session_units::ObjectUnit;
use std::alloc::{AllocError, Global};

/// The names that a line looks up; none where it is no lookup.
fn wanted_by(alloc: Global, line: &ClientLine) -> Result<Items<Wanted>, AllocError>
    ensures { IfOk result (λ wanted. wanted ≡ wanted_by line.now) }
{
    match line {
        ClientLine::Lookup(names) | ClientLine::Watch(_, names) => {
            Ok(Items::from_vec(names.wanted.as_slice().to_vec(alloc)?))
        }
        _ => Ok(Items::new(alloc)),
    }
}

/// The names that each line of a client looks up.
fn wanted_by_lines(alloc: Global, lines: &[ClientLine]) -> Result<Items<Items<Wanted>>, AllocError>
    ensures { IfOk result (λ wanted. wanted ≡ map wanted_by lines.now) }
{
    let mut client = Vec::new(alloc);
    for line in lines {
        client.push(wanted_by(alloc, line)?)?;
    }
    Ok(Items::from_vec(client))
}

/// The names that each line of each client looks up.
pub(crate) fn wanted_by_all(
    alloc: Global,
    clients: &[Items<ClientLine>],
) -> Result<Vec<Items<Items<Wanted>>>, AllocError>
    ensures { IfOk result (λ wanted. wanted.items ≡ map (map wanted_by) clients.now) }
{
    let mut all = Vec::new(alloc);
    for lines in clients {
        all.push(wanted_by_lines(alloc, lines.as_slice())?)?;
    }
    Ok(all)
}

/// The text of a journal whose names the table gave, and then a line for each line of the clients.
pub(crate) fn session_text(
    alloc: Global,
    journal: &[Entry<ObjectUnit>],
    names: &Names,
    wanted: &[Items<Items<Wanted>>],
    ends: &[Vec<LineEnd>],
) -> Result<Bytes, AllocError>
    requires known { AreKnown names.now (plain_history meaning_of journal.now) }
    requires ends { AreKnownEnds names.now wanted.now (map (λ c. c.items) ends.now) }
    ensures { IfOk result (λ text. text ≡ text_of_history names.now (plain_history meaning_of journal.now)
        ++ text_of_ends names.now wanted.now (map (λ c. c.items) ends.now)) }
{
    let mut text = text_of(alloc, journal, names)?.into_vec();
    text.extend_from_slice(text_of_results(alloc, names, wanted, ends)?.as_slice())?;
    Ok(Bytes::from_vec(text))
}
