ghost use Rattle.std.specs.Prelude.{◌≡◌, ℕ, ◌++◌, ◌∷◌, [], List, Option, option_map, unwrap_or, OnOk, IfOk};
ghost use Rattle.session_model.specs.Lists.{numbered};
ghost use Rattle.session_model.specs.Meaning.{Meaning};
ghost use Rattle.session_model.specs.Plain.{address_at};
ghost use Rattle.session_model.specs.Query.{addresses, ending};
ghost use Rattle.session_model.specs.State.{state};
ghost use Rattle.session_model.specs.declared.entry.Entry.{Entry};
ghost use Rattle.session_past.specs.Ends.{AreEnds, next_end, end_now, with_room, ends_now};
ghost use Rattle.session_plain.specs.Marks.{MarksUnready};
ghost use Rattle.session_plain.specs.Meant.{meant};

use orc_ids::{InstId, Items};
use session_model::{Ending, InstRow, Query, UnitKind};
use session_plain::{PlainSession, lost_match, query_met, row_address, unready};
use std::alloc::{AllocError, Global};

/// How a query ended, and the number of the entry at which it did.
#[derive(Drop)]
pub struct Settled {
    pub at: u64,
    pub end: Ending,
}

/// For each query of a session its end, or none while it is open.
pub type Ends = Vec<Option<Settled>>;

/// The matched instance with its address.
fn address_found(rows: &[InstRow], found: Option<InstId>) -> Option<(InstId, u64)>
    ensures { result ≡ option_map (λ i. (i, unwrap_or (address_at rows.now i.0) 0)) found }
{
    match found {
        Some(i) => Some((i, row_address(rows, i).unwrap_or(0))),
        None => None,
    }
}

fn addresses_found(
    alloc: Global,
    rows: &[InstRow],
    matched: &[Option<InstId>],
) -> Result<Vec<Option<(InstId, u64)>>, AllocError>
    ensures { IfOk result (λ all. all.items ≡ addresses rows.now matched.now) }
{
    let mut all = Vec::new(alloc);
    for found in matched {
        all.push(address_found(rows, *found))?;
    }
    Ok(all)
}

/// The end that these rows decide for a query.
fn ending_now(alloc: Global, rows: &[InstRow], q: &Query) -> Result<Ending, AllocError>
    ensures { IfOk result (λ end. end ≡ ending rows.now q.now) }
{
    match lost_match(rows, q.matched.as_slice()) {
        Some(i) => Ok(Ending::Lost(i)),
        None => Ok(Ending::Found(Items::from_vec(addresses_found(
            alloc,
            rows,
            q.matched.as_slice(),
        )?))),
    }
}

/// The query's end, if it has none and is met now.
fn end_query(
    alloc: Global,
    rows: &[InstRow],
    marks: &[bool],
    at: u64,
    q: &Query,
    end: &mut Option<Settled>,
) -> Result<(), AllocError>
    requires { MarksUnready rows.now marks.now }
    ensures { OnOk result (end.new ≡ next_end at rows.now q.now end.old) }
{
    if end.is_none() && query_met(rows, marks, q) {
        let how = ending_now(alloc, rows, q)?;
        *end = Some(Settled { at, end: how });
    }
    Ok(())
}

fn end_at<U: UnitKind>(
    alloc: Global,
    s: &PlainSession<U>,
    marks: &[bool],
    k: usize,
    end: &mut Option<Settled>,
) -> Result<(), AllocError>
    requires { MarksUnready s.now.rows.items marks.now }
    ensures { OnOk result (end.new ≡ end_now (meant U.meaning s.now) k end.old) }
{
    match s.queries.get(k) {
        None => Ok(()),
        Some(q) => end_query(alloc, &s.rows, marks, s.entries, q, end),
    }
}

fn end_all<U: UnitKind>(
    alloc: Global,
    s: &PlainSession<U>,
    marks: &[bool],
    ends: &mut [Option<Settled>],
) -> Result<(), AllocError>
    requires { MarksUnready s.now.rows.items marks.now }
    ensures { OnOk result (ends.new ≡ numbered (end_now (meant U.meaning s.now)) 0 ends.old) }
{
    for (k, end) in ends.iter_mut().enumerate() {
        end_at(alloc, s, marks, k, end)?;
    }
    Ok(())
}

fn make_room(ends: &mut Ends, count: usize) -> Result<(), AllocError>
    ensures { OnOk result (ends.new.items ≡ with_room count ends.old.items) }
{
    if ends.len() < count {
        ends.push(None)?;
    }
    Ok(())
}

fn end_queries<U: UnitKind>(
    alloc: Global,
    s: &PlainSession<U>,
    ends: &mut Ends,
) -> Result<(), AllocError>
    ensures { OnOk result (ends.new.items ≡ ends_now (meant U.meaning s.now) ends.old.items) }
{
    let marks = unready(alloc, &s.rows)?;
    make_room(ends, s.queries.len())?;
    end_all(alloc, s, &marks, ends)
}

/// After an entry, the ends as they are now. After an error they are part way there.
pub fn update_ends<U: UnitKind>(
    alloc: Global,
    s: &PlainSession<U>,
    ends: &mut Ends,
) -> Result<(), AllocError>
    ensures { OnOk result ((past : List (Entry Meaning)) (e : Entry Meaning) → meant U.meaning s.now ≡ state (past ++ e ∷ []) → AreEnds past (state past) ends.old.items → AreEnds (past ++ e ∷ []) (meant U.meaning s.now) ends.new.items) }
{
    end_queries(alloc, s, ends)?;
    Ok(())
}
