//! What the lines of clients ask for, as it is kept for the judge.

use crate::clients::Line;
use orc_ids::{DylibId, Level, NameId, OrderItem, TrackId, Wanted};
use script_model::{ClientCall, Lookup};
use std::alloc::{AllocError, Global};

/// What is looked up, with the number of the note.
#[derive(Drop)]
pub struct Sought {
    pub order: Vec<OrderItem>,
    pub wanted: Vec<Wanted>,
    pub level: Level,
    pub note: Option<u32>,
}

/// What a line asks for.
#[derive(Drop)]
pub enum Asked {
    Define(DylibId, TrackId),
    LookUp(Sought),
    Move(TrackId, TrackId),
    Remove(TrackId),
    /// From this name, with this first argument.
    Run(NameId, u64),
    Peek(NameId),
}

fn sought_by(alloc: Global, names: &Lookup, note: Option<u32>) -> Result<Sought, AllocError> {
    Ok(Sought {
        order: names.order.as_slice().to_vec(alloc)?,
        wanted: names.wanted.as_slice().to_vec(alloc)?,
        level: names.level,
        note,
    })
}

fn asked_by(alloc: Global, line: &Line) -> Result<Asked, AllocError> {
    match line {
        ClientCall::Define(d, t, _) => Ok(Asked::Define(*d, *t)),
        ClientCall::LookUp(names, watch) => {
            let note = watch.as_ref().map(|w| w.0);
            Ok(Asked::LookUp(sought_by(alloc, names, note)?))
        }
        ClientCall::Move(t, to) => Ok(Asked::Move(*t, *to)),
        ClientCall::Remove(t) => Ok(Asked::Remove(*t)),
        ClientCall::Run(name, _, args) => {
            let first = args.as_slice().first().copied().unwrap_or(0);
            Ok(Asked::Run(*name, first))
        }
        ClientCall::Peek(name) => Ok(Asked::Peek(*name)),
    }
}

fn asked_by_client(alloc: Global, lines: &[Line]) -> Result<Vec<Asked>, AllocError> {
    let mut asked = Vec::new(alloc);
    for line in lines {
        asked.push(asked_by(alloc, line)?)?;
    }
    Ok(asked)
}

/// What the lines of each client ask for.
pub fn asked_by_all(alloc: Global, clients: &[Vec<Line>]) -> Result<Vec<Vec<Asked>>, AllocError> {
    let mut asked = Vec::new(alloc);
    for lines in clients {
        asked.push(asked_by_client(alloc, lines.as_slice())?)?;
    }
    Ok(asked)
}
