ghost use Rattle.std.specs.Prelude.{◌≡◌, Some, None, length, replicate, slice_set, IfOk};
ghost use Rattle.std.specs.List.{flat_map};
ghost use Rattle.std.specs.Option.{option_to_list};
ghost use Rattle.notifiers.specs.Heard.{AllHaveHeard, AreInOrder, HasHeard, object};

use crate::notes::{Noted, Notes};
use orc_io::Notify;
use std::alloc::{AllocError, Global};
use std::marker::Model;

/// A place for each notifier that was handed in, by its number. Those that came back have heard what they say, and
/// stand in the places of their numbers.
#[derive(Drop)]
pub struct NotePlaces<N: Notify> {
    places: Vec<Option<Noted<N>>>,
}

impl<N: Notify> Model for NotePlaces<N> {
    ghost use Rattle.std.specs.Prelude.{All, IfSome, List, Option};
    ghost use Rattle.notifiers.specs.Heard.{ArePlaced, HasHeard};
    ghost use Rattle.notifiers.specs.declared.notes.Noted.{Noted};

    ghost Value = { List (Option (Noted N)) };

    ghost view = { λ p. p.places.items };

    ghost invariant = { λ p. All (λ o. IfSome o (HasHeard N.heard)) p.places.items × ArePlaced N.number p.places.items };
}

impl<N: Notify> NotePlaces<N> {
    /// Empty places for so many notifiers.
    pub fn new(alloc: Global, count: usize) -> Result<NotePlaces<N>, AllocError>
        ensures { IfOk result (λ places. places ≡ replicate count None) }
    {
        let mut places = Vec::new(alloc);
        places.reserve(count)?;
        for _place in 0..count {
            places.push(None)?;
        }
        Ok(NotePlaces { places })
    }

    /// The notifier of this number came back.
    pub fn put(&mut self, number: usize, noted: Noted<N>)
        requires heard { HasHeard N.heard noted }
        requires number { N.number (object noted) ≡ number }
        ensures { self.new ≡ slice_set self.old number (Some noted) }
    {
        fill(&mut self.places, number, noted);
    }

    /// Those that came back, in the order of their numbers.
    pub fn into_notes(self, alloc: Global) -> Result<Notes<N>, AllocError>
        ensures back { IfOk result (λ notes. notes ≡ flat_map option_to_list self) }
        ensures heard { IfOk result (AllHaveHeard N.heard) }
        ensures in_order { IfOk result (λ notes. length notes ≡ length self → AreInOrder N.number notes) }
    {
        Ok(Notes::from_vec(those_back(alloc, self.places)?))
    }
}

/// The place of this number, if there is one, holds this.
fn fill<N: Notify>(places: &mut Vec<Option<Noted<N>>>, number: usize, noted: Noted<N>)
    ensures { places.new.items ≡ slice_set places.old.items number (Some noted) }
{
    if let Some(place) = places.get_mut(number) {
        *place = Some(noted);
    }
}

/// What the places hold, in order.
fn those_back<N: Notify>(
    alloc: Global,
    places: Vec<Option<Noted<N>>>,
) -> Result<Vec<Noted<N>>, AllocError>
    ensures { IfOk result (λ notes. notes.items ≡ flat_map option_to_list places.items) }
{
    let mut notes = Vec::new(alloc);
    notes.reserve(places.len())?;
    for place in places {
        if let Some(noted) = place {
            notes.push(noted)?;
        }
    }
    Ok(notes)
}
