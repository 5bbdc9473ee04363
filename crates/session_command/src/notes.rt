//! The notifiers of a script, as they come back.
ghost use Rattle.std.specs.Prelude.{◌≡◌, ◌≤◌, ◌<◌, ◌+◌, ◌^◌, All, None, IfOk, length, flat_map};
ghost use Rattle.std.specs.Option.{option_to_list};
ghost use Rattle.notifiers.specs.Heard.{AllHaveHeard, AreInOrder};
ghost use Rattle.orc_io.specs.Numbers.{AreNumberedFrom};
ghost use Rattle.query_book.specs.Rows.{first_armed};
ghost use Rattle.script_session.specs.Clients.{AreUnheard};
ghost use Rattle.session_command.specs.Places.{ArePut, NoneHasHeard, put_told, put_all_told};

use execution_session::Session;
use notifiers::{FiredList, NotePlaces, Noted, Notes};
use orc_io::Notify;
use script_session::Notified;
use session_model::UnitKind;
use std::alloc::{AllocError, Global};

/// One that nothing was told.
fn put_unheard<N: Notify>(places: &mut NotePlaces<N>, number: usize, what: N)
    requires unheard { N.heard what ≡ None }
    requires number { N.number what ≡ number }
    requires places { NoneHasHeard N.heard places.old }
    ensures places { NoneHasHeard N.heard places.new }
    ensures count { length places.new ≡ length places.old }
{
    places.put(number, Noted::Unfired(what));
}

/// Those that no query had.
fn put_unlodged<N: Notify>(places: &mut NotePlaces<N>, notes: Vec<(u32, N)>)
    requires notes { AreUnheard N.heard N.number notes.items }
    requires places { NoneHasHeard N.heard places.old }
    ensures places { NoneHasHeard N.heard places.new }
    ensures count { length places.new ≡ length places.old }
{
    for (note, what) in notes {
        put_unheard(places, note as usize, what);
    }
}

/// Those that no query of any client had.
fn put_all_unlodged<N: Notify>(places: &mut NotePlaces<N>, unlodged: Vec<Vec<(u32, N)>>)
    requires notes { All (λ notes. AreUnheard N.heard N.number notes.items) unlodged.items }
    requires places { NoneHasHeard N.heard places.old }
    ensures places { NoneHasHeard N.heard places.new }
    ensures count { length places.new ≡ length places.old }
{
    for notes in unlodged {
        put_unlodged(places, notes);
    }
}

/// Those that open queries have.
fn put_armed<U: UnitKind, N: Notify, const JMAX: usize>(
    places: &mut NotePlaces<N>,
    session: &mut Session<U, N, JMAX>,
)
    requires places { NoneHasHeard N.heard places.old }
    ensures places { NoneHasHeard N.heard places.new }
    ensures count { length places.new ≡ length places.old }
    ensures armed { first_armed session.new.armed ≡ None }
{
    while let Some(armed) = session.give_back() {
        put_unheard(places, armed.note() as usize, armed.back());
    }
}

/// Those that no line takes, which have the last numbers.
fn put_unused<N: Notify>(places: &mut NotePlaces<N>, first: usize, unused: Vec<N>)
    requires notes { All (λ n. N.heard n ≡ None) unused.items }
    requires numbered { AreNumberedFrom N.number first unused.items }
    requires few { first + length unused.items < 2 ^ 64 }
    requires places { NoneHasHeard N.heard places.old }
    ensures places { NoneHasHeard N.heard places.new }
    ensures count { length places.new ≡ length places.old }
{
    let mut number = first;
    for what in unused {
        put_unheard(places, number, what);
        number += 1;
    }
}

/// Those that were told at a seat's calls.
fn put_told<N: Notify>(places: &mut NotePlaces<N>, told: FiredList<N>)
    ensures { places.new ≡ put_told told places.old }
{
    let mut told = told;
    while let Some((note, fired)) = told.pop() {
        places.put(note as usize, Noted::Fired(fired.object()));
    }
}

/// Those that were told at the calls of any seat.
fn put_all_told<N: Notify>(places: &mut NotePlaces<N>, told: Vec<FiredList<N>>)
    ensures { places.new ≡ put_all_told told.items places.old }
{
    for told in told {
        put_told(places, told);
    }
}

/// Puts the notifiers in the order in which they were handed in, and rids the session of those that it has yet.
pub(crate) fn put_in_order<U: UnitKind, N: Notify, const JMAX: usize>(
    alloc: Global,
    places: NotePlaces<N>,
    session: &mut Session<U, N, JMAX>,
    notified: Notified<N>,
    first_unused: usize,
    unused: Vec<N>,
) -> Result<Notes<N>, AllocError>
    requires places { NoneHasHeard N.heard places }
    requires unlodged { All (λ notes. AreUnheard N.heard N.number notes.items) notified.unlodged.items }
    requires unused { All (λ n. N.heard n ≡ None) unused.items }
    requires numbered { AreNumberedFrom N.number first_unused unused.items }
    requires few { first_unused + length unused.items < 2 ^ 64 }
    ensures back { IfOk result (ArePut N.heard (length places) notified.told.items) }
    ensures heard { IfOk result (AllHaveHeard N.heard) }
    ensures in_order { IfOk result (λ notes. length notes ≡ length places → AreInOrder N.number notes) }
    ensures armed { first_armed session.new.armed ≡ None }
{
    let mut places = places;
    let Notified { told, unlodged } = notified;
    put_all_unlodged(&mut places, unlodged);
    put_armed(&mut places, session);
    put_unused(&mut places, first_unused, unused);
    put_all_told(&mut places, told);
    places.into_notes(alloc)
}
