ghost use Rattle.std.specs.Prelude.{◌≡◌, [], length, map, IfOk};
ghost use Rattle.notifiers.specs.Kept.{notes_in};

use orc_io::Notify;
use std::alloc::{AllocError, Global};
use std::marker::Model;

/// A notifier as it comes back: it was told how its lookup ended, or was told nothing.
#[derive(Drop)]
pub enum Noted<N: Notify> {
    Fired(N),
    Unfired(N),
}

/// How the notifiers are kept: as they were handed in, all untold, so that no memory is needed to hand them back;
/// or as they came back.
#[derive(Drop)]
pub(crate) enum Kept<N: Notify> {
    Untold(Vec<N>),
    Back(Vec<Noted<N>>),
}

/// The notifiers that were handed in, in their order. Contracts see the list.
#[derive(Drop)]
pub struct Notes<N: Notify> {
    kept: Kept<N>,
}

impl<N: Notify> Model for Notes<N> {
    ghost use Rattle.std.specs.Prelude.{List};
    ghost use Rattle.notifiers.specs.Kept.{notes_in};
    ghost use Rattle.notifiers.specs.declared.notes.Noted.{Noted};

    ghost Value = { List (Noted N) };

    ghost view = { λ n. notes_in n.kept };
}

impl<N: Notify> Notes<N> {
    /// No notifiers; takes no memory.
    pub fn new(alloc: Global) -> Notes<N>
        ensures { result ≡ [] }
    {
        Notes {
            kept: Kept::Back(Vec::new(alloc)),
        }
    }

    /// Notifiers that nothing was told; takes no memory.
    pub fn unfired(notes: Vec<N>) -> Notes<N>
        ensures { result ≡ map Noted.Unfired notes.items }
    {
        Notes {
            kept: Kept::Untold(notes),
        }
    }

    /// Those of a list; takes no memory.
    pub fn from_vec(items: Vec<Noted<N>>) -> Notes<N>
        ensures { result ≡ items.items }
    {
        Notes {
            kept: Kept::Back(items),
        }
    }

    /// How many there are.
    pub fn len(&self) -> usize
        ensures { result ≡ length self.now }
    {
        match &self.kept {
            Kept::Untold(notes) => notes.len(),
            Kept::Back(items) => items.len(),
        }
    }

    /// The list as a `Vec`.
    pub fn into_vec(self, alloc: Global) -> Result<Vec<Noted<N>>, AllocError>
        ensures { IfOk result (λ list. list.items ≡ self) }
    {
        match self.kept {
            Kept::Untold(notes) => untold(alloc, notes),
            Kept::Back(items) => Ok(items),
        }
    }
}

/// Notifiers that nothing was told, as they come back.
fn untold<N: Notify>(alloc: Global, notes: Vec<N>) -> Result<Vec<Noted<N>>, AllocError>
    ensures { IfOk result (λ list. list.items ≡ map Noted.Unfired notes.items) }
{
    let mut items = Vec::new(alloc);
    items.reserve(notes.len())?;
    for note in notes {
        items.push(Noted::Unfired(note))?;
    }
    Ok(items)
}
