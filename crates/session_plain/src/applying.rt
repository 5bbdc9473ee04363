ghost use Rattle.std.specs.Prelude.{◌≡◌, ◌<◌, ◌+◌, ◌^◌, map, OnOk, IfOk, slice_get, option_map};
ghost use Rattle.session_model.specs.Change.{changed, ordered_dylib, spent, spent_generator, placed, let_go};
ghost use Rattle.session_model.specs.Lists.{changed_at};
ghost use Rattle.session_plain.specs.Changing.{plain_change};
ghost use Rattle.session_plain.specs.Meant.{meant, gen_row, IsSmall, OffersFit};

use crate::defining::define;
use crate::emits::{emit, resolve};
use crate::fails::{fail, move_tracker, remove};
use crate::jobs::{take_finish, take_start};
use crate::linking::order_from;
use crate::lodging::{link, lodge};
use crate::plain::{PlainGenerator, PlainSession};
use crate::units::{Step, step_in};
use orc_ids::{DylibId, GenId, Items, NameId, OrderItem, SeatNo, TrackId, UnitId};
use session_model::{Change, Dylib, Order, Track, UnitKind, Verdict};
use std::alloc::{AllocError, Global};

/// There is a dylib of this name.
fn make_dylib<U: UnitKind>(
    alloc: Global,
    s: &mut PlainSession<U>,
    name: NameId,
) -> Result<(), AllocError>
    requires { IsSmall s.old }
    ensures { OnOk result (meant U.meaning s.new ≡ changed (Change.MakeDylib name) (meant U.meaning s.old)) }
{
    let order = order_from(alloc, DylibId(s.dylibs.len() as u32), &[])?;
    s.dylibs.push(Dylib {
        name: name.0,
        order: Items::from_vec(order),
    })?;
    Ok(())
}

/// There is a tracker of the dylib.
fn make_tracker<U: UnitKind>(s: &mut PlainSession<U>, d: DylibId) -> Result<(), AllocError>
    ensures { OnOk result (meant U.meaning s.new ≡ changed (Change.MakeTracker d) (meant U.meaning s.old)) }
{
    s.trackers.push(Track {
        dylib: d.0,
        gone: false,
    })?;
    Ok(())
}

fn replace_order(d: &mut Dylib, order: Order)
    ensures { d.new ≡ record d.old { order = order } }
{
    d.order = order;
}

#[tactic(auto, using(session_model::proofs::Changes::set_changed, session_model::proofs::Changes::changed_past))]
fn order_in(
    alloc: Global,
    dylibs: &mut Vec<Dylib>,
    d: DylibId,
    order: &[OrderItem],
) -> Result<(), AllocError>
    ensures { OnOk result (dylibs.new.items ≡ changed_at d.0 (ordered_dylib d.0 order.now) dylibs.old.items) }
{
    let all = order_from(alloc, d, order)?;
    if (d.0 as usize) < dylibs.len() {
        replace_order(&mut dylibs[d.0 as usize], Items::from_vec(all));
    }
    Ok(())
}

/// The dylib's link order is itself, and then these.
fn set_order<U: UnitKind>(
    alloc: Global,
    s: &mut PlainSession<U>,
    d: DylibId,
    order: &[OrderItem],
) -> Result<(), AllocError>
    ensures { OnOk result (meant U.meaning s.new ≡ changed (Change.SetOrder d order.now) (meant U.meaning s.old)) }
{
    order_in(alloc, &mut s.dylibs, d, order)
}

/// There is a generator of the unit.
fn attach<U: UnitKind>(
    s: &mut PlainSession<U>,
    d: DylibId,
    t: TrackId,
    unit: U,
) -> Result<(), AllocError>
    ensures { OnOk result (meant U.meaning s.new ≡ changed (Change.Attach d t (U.meaning unit)) (meant U.meaning s.old)) }
{
    s.generators.push(PlainGenerator {
        dylib: d.0,
        tracker: t.0,
        unit,
        spent: false,
    })?;
    Ok(())
}

fn set_spent<U: UnitKind>(g: &mut PlainGenerator<U>)
    ensures { gen_row U.meaning g.new ≡ spent_generator (gen_row U.meaning g.old) }
{
    g.spent = true;
}

#[tactic(auto, using(crate::proofs::ListLemmas::map_set, crate::proofs::ListLemmas::map_past))]
fn spend_in<U: UnitKind>(generators: &mut Vec<PlainGenerator<U>>, g: GenId)
    ensures { map (gen_row U.meaning) generators.new.items ≡ changed_at g.0 spent_generator (map (gen_row U.meaning) generators.old.items) }
{
    if (g.0 as usize) < generators.as_slice().len() {
        set_spent(&mut generators[g.0 as usize]);
    }
}

/// The generator is spent.
fn spend<U: UnitKind>(s: &mut PlainSession<U>, g: GenId)
    ensures { meant U.meaning s.new ≡ spent g.0 (meant U.meaning s.old) }
{
    spend_in(&mut s.generators, g);
}

/// The dylib, the tracker and a share of the unit of a generator.
fn parts_of<U: UnitKind>(
    alloc: Global,
    g: &PlainGenerator<U>,
) -> Result<(DylibId, TrackId, U), AllocError>
    ensures dylib { IfOk result (λ parts. parts.0.0 ≡ g.now.dylib) }
    ensures tracker { IfOk result (λ parts. parts.1.0 ≡ g.now.tracker) }
    ensures unit { IfOk result (λ parts. U.meaning parts.2 ≡ U.meaning g.now.unit) }
{
    Ok((DylibId(g.dylib), TrackId(g.tracker), g.unit.share(alloc)?))
}

/// There is the generator's unit, and the generator is spent.
fn generate<U: UnitKind>(
    alloc: Global,
    s: &mut PlainSession<U>,
    g: GenId,
    found: &[Verdict],
) -> Result<(), AllocError>
    requires { IsSmall s.old }
    ensures { OnOk result (meant U.meaning s.new ≡ changed (Change.Generate g found.now) (meant U.meaning s.old)) }
{
    let (d, t, unit) = match s.generators.get(g.0 as usize) {
        None => return Ok(()),
        Some(x) => parts_of(alloc, x)?,
    };
    define(alloc, s, d, t, unit, found)?;
    spend(s, g);
    Ok(())
}

/// The unit has this base.
fn place<U: UnitKind>(s: &mut PlainSession<U>, u: UnitId, base: u64)
    ensures { meant U.meaning s.new ≡ placed u.0 base (meant U.meaning s.old) }
{
    step_in(&mut s.units, u, Step::Place(base));
}

/// The seat no longer holds the unit.
fn release<U: UnitKind>(s: &mut PlainSession<U>, seat: SeatNo, u: UnitId)
    ensures { meant U.meaning s.new ≡ let_go seat.0 u.0 (meant U.meaning s.old) }
{
    step_in(&mut s.units, u, Step::LetGo(seat));
}

/// The change is done. After an error the session is part way there.
pub fn apply<U: UnitKind>(
    alloc: Global,
    s: &mut PlainSession<U>,
    change: Change<U>,
) -> Result<(), AllocError>
    requires small { IsSmall s.old }
    requires offers { OffersFit U.meaning s.old.units.items s.old.rows.items }
    requires numbered { s.old.entries + 1 < 2 ^ 64 }
    ensures { OnOk result (meant U.meaning s.new ≡ changed (plain_change U.meaning change) (meant U.meaning s.old)) }
{
    match change {
        Change::Nothing => {}
        Change::MakeDylib(name) => make_dylib(alloc, s, name)?,
        Change::MakeTracker(d) => make_tracker(s, d)?,
        Change::SetOrder(d, order) => set_order(alloc, s, d, order.as_slice())?,
        Change::Attach(d, t, unit) => attach(s, d, t, unit)?,
        Change::Define(d, t, unit, found) => define(alloc, s, d, t, unit, found.as_slice())?,
        Change::Generate(g, found) => generate(alloc, s, g, found.as_slice())?,
        Change::Spend(g) => spend(s, g),
        Change::Ask(found, level, note) => lodge(s, found, level, None, note)?,
        Change::Start(seat, u) => take_start(s, seat, u),
        Change::Finish(seat, u, how) => take_finish(s, seat, u, how),
        Change::Place(u, base) => place(s, u, base),
        Change::Resolve(u) => resolve(s, u),
        Change::Link(u, found) => link(s, u, found)?,
        Change::Emit(u, groups) => emit(alloc, s, u, groups.as_slice())?,
        Change::Fail(u) => fail(alloc, s, u)?,
        Change::Move(t, to) => move_tracker(s, t, to),
        Change::Remove(t) => remove(alloc, s, t)?,
        Change::LetGo(seat, u) => release(s, seat, u),
    }
    Ok(())
}
