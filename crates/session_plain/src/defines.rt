ghost use Rattle.std.specs.Prelude.{◌≡◌, ◌<◌, ◌≤◌, ◌^◌, length, map, slice_get, IfOk, Bool, option_and_then, count_by};
ghost use Rattle.session_model.specs.Change.{is_strong, verdict, verdict_on, verdicts, is_kept, kept_names};
ghost use Rattle.session_model.specs.Answer.{answer_unit, answer_define, answer_generate};
ghost use Rattle.session_plain.specs.Meant.{meant, IsSmall};
ghost use Rattle.session_plain.specs.Defines.{clash_of, first_clash};

use crate::answers::{dylib_known, tracker_of};
use crate::find::find_row;
use crate::plain::PlainSession;
use crate::query::row_unsearched;
use orc_ids::{
    DylibId, GenId, INSTANCE_LIMIT, InstId, Items, NameId, SymFlags, TrackId, UNIT_LIMIT, UnitId,
};
use session_model::{InstRow, Reply, Row, UnitKind, Verdict, Verdicts};
use std::alloc::{AllocError, Global};

fn strong(flags: SymFlags) -> bool
    ensures { result ≡ is_strong flags }
{
    !(flags.weak || flags.common)
}

fn judged_on(rows: &[InstRow], flags: SymFlags, old: Row) -> Verdict
    ensures { result ≡ verdict_on rows.now flags old }
{
    if !strong(flags) {
        Verdict::Discarded
    } else if strong(old.flags) || !row_unsearched(rows, old.inst) {
        Verdict::Clashes(old.inst)
    } else {
        Verdict::Replaces(old.inst)
    }
}

/// What becomes of a name that is offered in a dylib.
fn judged(rows: &[InstRow], d: DylibId, offer: (NameId, SymFlags)) -> Verdict
    requires { length rows.now < 2 ^ 32 }
    ensures { result ≡ verdict rows.now d.0 offer }
{
    match find_row(rows, d, offer.0) {
        Some(old) => judged_on(rows, offer.1, old),
        None => Verdict::Kept,
    }
}

/// What becomes of each name that the unit offers in the dylib.
#[tactic(auto, using(crate::proofs::ListLemmas::map_rest))]
pub fn unit_verdicts<U: UnitKind>(
    alloc: Global,
    rows: &[InstRow],
    d: DylibId,
    unit: &U,
) -> Result<Verdicts, AllocError>
    requires { length rows.now < 2 ^ 32 }
    ensures { IfOk result (λ found. found ≡ verdicts rows.now d.0 (U.meaning unit.now).offers) }
{
    let mut found = Vec::new(alloc);
    for k in 0..unit.count() {
        found.push(judged(rows, d, unit.offer(k)))?;
    }
    Ok(Items::from_vec(found))
}

/// The answer Duplicate for the name offered at `k`, if it clashes.
fn clash_at<U: UnitKind>(rows: &[InstRow], d: DylibId, unit: &U, k: u32) -> Option<Reply>
    requires small { length rows.now < 2 ^ 32 }
    requires offered { k < length (U.meaning unit.now).offers }
    ensures { result ≡ option_and_then (clash_of rows.now d.0) (slice_get (U.meaning unit.now).offers k) }
{
    let offer = unit.offer(k);
    match judged(rows, d, offer) {
        Verdict::Clashes(i) => Some(Reply::Duplicate(offer.0, i)),
        _ => None,
    }
}

/// The answer Duplicate for the first offered name that clashes.
#[tactic(auto, using(crate::proofs::ListLemmas::first_rest))]
fn clash_reply<U: UnitKind>(rows: &[InstRow], d: DylibId, unit: &U) -> Option<Reply>
    requires { length rows.now < 2 ^ 32 }
    ensures { result ≡ first_clash rows.now d.0 (U.meaning unit.now) }
{
    for k in 0..unit.count() {
        let clash = clash_at(rows, d, unit, k);
        if clash.is_some() {
            return clash;
        }
    }
    None
}

/// Whether the name gets an instance.
pub fn keeps(verdict: Verdict) -> bool
    ensures { result ≡ is_kept verdict }
{
    matches!(verdict, Verdict::Kept | Verdict::Replaces(_))
}

/// For each offered name whether the unit keeps it.
pub fn kept_flags(alloc: Global, found: &[Verdict]) -> Result<Vec<bool>, AllocError>
    ensures { IfOk result (λ flags. flags.items ≡ kept_names found.now) }
{
    let mut flags = Vec::new(alloc);
    for verdict in found {
        flags.push(keeps(*verdict))?;
    }
    Ok(flags)
}

fn set_count(flags: &[bool]) -> usize
    ensures count { result ≡ count_by (λ (b : Bool). b) flags.now }
    ensures within { result ≤ length flags.now }
{
    flags.iter().filter(|flag| **flag).count()
}

/// How many of the names get an instance.
fn kept_count(alloc: Global, found: &[Verdict]) -> Result<usize, AllocError>
    ensures count { IfOk result (λ n. n ≡ count_by (λ (b : Bool). b) (kept_names found.now)) }
    ensures within { IfOk result (λ n. n ≤ length found.now) }
{
    let flags = kept_flags(alloc, found)?;
    Ok(set_count(&flags))
}

/// What defining a unit in a dylib is answered.
fn reply_unit<U: UnitKind>(
    alloc: Global,
    s: &PlainSession<U>,
    d: DylibId,
    unit: &U,
) -> Result<Reply, AllocError>
    requires { IsSmall s.now }
    ensures { IfOk result (λ reply. reply ≡ answer_unit (meant U.meaning s.now) d.0 (U.meaning unit.now)) }
{
    let offers = unit.count() as usize;
    if s.units.len() >= UNIT_LIMIT || s.rows.len() + offers > INSTANCE_LIMIT {
        return Ok(Reply::TooMany);
    }
    if let Some(reply) = clash_reply(&s.rows, d, unit) {
        return Ok(reply);
    }
    let found = unit_verdicts(alloc, &s.rows, d, unit)?;
    let count = kept_count(alloc, found.as_slice())?;
    Ok(Reply::Defined(
        UnitId(s.units.len() as u32),
        InstId(s.rows.len() as u32),
        count as u32,
    ))
}

/// What defining a unit is answered.
pub fn reply_define<U: UnitKind>(
    alloc: Global,
    s: &PlainSession<U>,
    d: DylibId,
    t: TrackId,
    unit: &U,
) -> Result<Reply, AllocError>
    requires { IsSmall s.now }
    ensures { IfOk result (λ reply. reply ≡ answer_define (meant U.meaning s.now) d t (U.meaning unit.now)) }
{
    if !dylib_known(s, d) {
        return Ok(Reply::NoDylib(d));
    }
    if !tracker_of(s, d, t) {
        return Ok(Reply::TrackerGone(t));
    }
    reply_unit(alloc, s, d, unit)
}

/// What defining a generator's unit is answered.
pub fn reply_generate<U: UnitKind>(
    alloc: Global,
    s: &PlainSession<U>,
    g: GenId,
) -> Result<Reply, AllocError>
    requires { IsSmall s.now }
    ensures { IfOk result (λ reply. reply ≡ answer_generate (meant U.meaning s.now) g) }
{
    match s.generators.get(g.0 as usize) {
        None => Ok(Reply::NoGen(g)),
        Some(x) => {
            if x.spent {
                Ok(Reply::Spent(g))
            } else {
                reply_unit(alloc, s, DylibId(x.dylib), &x.unit)
            }
        }
    }
}
