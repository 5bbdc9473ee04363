//! Where the checker says that a session goes wrong, beside where it does.

use super::entries::history_of;
use super::{Lie, Line, PLACES};
use session_check::{first_wrong, is_legal};
use std::alloc::Global;
use std::process::Abort;
use std::test::Fail;

/// Where the history goes wrong, with another entry in the place of one of them where there is a lie.
fn wrong_at(
    alloc: Global,
    places: u64,
    lines: &[Line],
    lie: Option<&Lie>,
) -> Result<Option<usize>, Fail> {
    let history = history_of(alloc, lines, lie)?;
    if history.len() > u32::MAX as usize {
        return Err(Fail::from("too long"));
    }
    Ok(first_wrong(alloc, places, &history)?)
}

/// Whether the history is legal.
pub(super) fn legal(alloc: Global, lines: &[Line]) -> Result<bool, Fail> {
    let history = history_of(alloc, lines, None)?;
    if history.len() > u32::MAX as usize {
        return Err(Fail::from("too long"));
    }
    Ok(is_legal(alloc, PLACES, &history)?)
}

/// The first of the lies, counted from 1, that isn't found just where it was told; 0 where the session
/// itself isn't found to be legal.
fn misjudged(alloc: Global, lines: &[Line], lies: &[Lie]) -> Result<Option<usize>, Fail> {
    if wrong_at(alloc, PLACES, lines, None)?.is_some() {
        return Ok(Some(0));
    }
    for (k, lie) in lies.iter().enumerate() {
        if wrong_at(alloc, PLACES, lines, Some(lie))? != Some(lie.0) {
            return Ok(Some(k + 1));
        }
    }
    Ok(None)
}

/// The first number of places in which the session doesn't go wrong just there.
fn misplaced(
    alloc: Global,
    lines: &[Line],
    rows: &[(u64, Option<usize>)],
) -> Result<Option<u64>, Fail> {
    for (places, wrong) in rows {
        if wrong_at(alloc, *places, lines, None)? != *wrong {
            return Ok(Some(*places));
        }
    }
    Ok(None)
}

/// The session is legal, and goes wrong just where each of the lies about it is told.
pub(super) fn check(
    rt: &impl Abort,
    alloc: Global,
    lines: &[Line],
    lies: &[Lie],
) -> Result<(), Fail> {
    assert_eq!(rt; misjudged(alloc, lines, lies)?, None);
    Ok(())
}

/// In a journal of so many places the session goes wrong just there.
pub(super) fn check_places(
    rt: &impl Abort,
    alloc: Global,
    lines: &[Line],
    rows: &[(u64, Option<usize>)],
) -> Result<(), Fail> {
    assert_eq!(rt; misplaced(alloc, lines, rows)?, None);
    Ok(())
}
