ghost use Rattle.std.specs.Prelude.{◌≡◌, ◌+◌, ◌≤◌, ◌<◌, ◌++◌, ◌∷◌, ◌==◌, [], None, length, nat_lt, option_map, slice_get, IfSome, IfOk, OnOk, IfErr, OnErr};
ghost use Rattle.std.specs.List.{position_from};
ghost use Rattle.std.specs.Option.{option_map_or};
ghost use Rattle.orc_ids.specs.declared.limits.TheConstants.{DYLIB_LIMIT, INSTANCE_LIMIT};
ghost use Rattle.session_model.specs.Change.{itself_then, kept_names, new_dylib, ordered_dylib};
ghost use Rattle.session_model.specs.Lists.{changed_at};
ghost use Rattle.jit_dylib.specs.Rows.{row_at, verdicts_at, first_clash, replaced_instances, fresh_rows, IsRefusedBy, AreAdded, AreLeft, NamesDiffer};
ghost use Rattle.jit_dylib.specs.Shelf.{table_of, ChangesOnlyTable};

use crate::defined::Defined;
use crate::error::DefineError;
use crate::table::Table;
use orc_ids::{DylibId, InstId, Items, NameId, OrderItem, Scope, SymFlags};
use session_model::{Dylib, InstRow, Order, Row};
use std::alloc::{AllocError, Global};
use std::marker::Model;

/// The dylibs of a session, each with its name, its link order and its table.
#[derive(Drop)]
pub struct Dylibs {
    alloc: Global,
    dylibs: Vec<Dylib>,
    tables: Vec<Table>,
}

impl Model for Dylibs {
    ghost use Rattle.std.specs.Prelude.{◌≡◌, ◌≤◌, length};
    ghost use Rattle.orc_ids.specs.declared.limits.TheConstants.{DYLIB_LIMIT};
    ghost use Rattle.jit_dylib.specs.Shelf.{Shelf};

    ghost Value = { Shelf };

    ghost view = { λ s. record { dylibs = s.dylibs.items; tables = s.tables.items } };

    ghost invariant = { λ s. (length s.tables.items ≡ length s.dylibs.items) × (length s.dylibs.items ≤ DYLIB_LIMIT) };
}

/// The link order of a dylib: itself with all its names, and then these.
fn itself_then(alloc: Global, d: DylibId, order: &[OrderItem]) -> Result<Order, AllocError>
    ensures { IfOk result (λ all. all ≡ itself_then d.0 order.now) }
{
    let mut all = Vec::new(alloc);
    all.push(OrderItem {
        dylib: d,
        scope: Scope::All,
    })?;
    all.extend_from_slice(order)?;
    Ok(Items::from_vec(all))
}

fn replace_order(dylib: &mut Dylib, order: Order)
    ensures { dylib.new ≡ record dylib.old { order = order } }
{
    dylib.order = order;
}

/// The number of the first dylib of this name.
fn position_of(dylibs: &[Dylib], name: NameId) -> Option<usize>
    ensures first { result ≡ position_from (λ x. x.name == name.0) 0 dylibs.now }
    ensures within { IfSome result (λ k. k < length dylibs.now) }
{
    for (k, dylib) in dylibs.iter().enumerate() {
        if dylib.name == name.0 {
            return Some(k);
        }
    }
    None
}

impl Dylibs {
    /// No dylibs; takes no memory.
    pub fn new(alloc: Global) -> Dylibs
        ensures dylibs { result.dylibs ≡ [] }
        ensures tables { result.tables ≡ [] }
    {
        Dylibs {
            alloc,
            dylibs: Vec::new(alloc),
            tables: Vec::new(alloc),
        }
    }

    /// How many dylibs there are.
    pub fn len(&self) -> usize
        ensures count { result ≡ length self.now.dylibs }
        ensures tables { length self.now.tables ≡ length self.now.dylibs }
        ensures few { length self.now.dylibs ≤ DYLIB_LIMIT }
    {
        self.dylibs.len()
    }

    /// Whether the dylib exists.
    pub fn has(&self, d: DylibId) -> bool
        ensures { result ≡ nat_lt d.0 (length self.now.dylibs) }
    {
        (d.0 as usize) < self.dylibs.len()
    }

    /// The first dylib of this name. It goes over the dylibs, which are few.
    pub fn find(&self, name: NameId) -> Option<DylibId>
        ensures { result ≡ option_map (λ d. record { 0 = d }) (position_from (λ x. x.name == name.0) 0 self.now.dylibs) }
    {
        let at = position_of(&self.dylibs, name)?;
        Some(DylibId(at as u32))
    }

    /// Makes one more dylib, which has no names and looks in itself alone.
    pub fn make(&mut self, name: NameId) -> Result<(), AllocError>
        requires { length self.old.dylibs < DYLIB_LIMIT }
        ensures dylibs { OnOk result (self.new.dylibs ≡ self.old.dylibs ++ new_dylib (length self.old.dylibs) name.0 ∷ []) }
        ensures tables { OnOk result (self.new.tables ≡ self.old.tables ++ [] ∷ []) }
        ensures err { OnErr result (self.new ≡ self.old) }
    {
        let order = itself_then(self.alloc, DylibId(self.dylibs.len() as u32), &[])?;
        self.dylibs.reserve(1)?;
        self.tables.reserve(1)?;
        self.dylibs.push_reserved(Dylib {
            name: name.0,
            order,
        });
        self.tables.push_reserved(Table::new(self.alloc));
        Ok(())
    }

    #[tactic(auto, using(session_model::proofs::Changes::set_changed))]
    /// Gives the dylib a link order: itself with all its names, and then these.
    pub fn set_order(&mut self, d: DylibId, order: &[OrderItem]) -> Result<(), AllocError>
        requires { d.0 < length self.old.dylibs }
        ensures dylibs { OnOk result (self.new.dylibs ≡ changed_at d.0 (ordered_dylib d.0 order.now) self.old.dylibs) }
        ensures tables { self.new.tables ≡ self.old.tables }
        ensures err { OnErr result (self.new ≡ self.old) }
    {
        let all = itself_then(self.alloc, d, order)?;
        replace_order(&mut self.dylibs[d.0 as usize], all);
        Ok(())
    }

    /// The link order of the dylib.
    pub fn order(&self, d: DylibId) -> &[OrderItem]
        ensures { result.now ≡ option_map_or (λ x. x.order) (slice_get self.now.dylibs d.0) [] }
    {
        match self.dylibs.get(d.0 as usize) {
            Some(dylib) => dylib.order.as_slice(),
            None => &[],
        }
    }

    /// The present row of the name in the dylib.
    pub fn row(&self, d: DylibId, name: NameId) -> Option<Row>
        ensures { result ≡ row_at (table_of self.now d.0) name.0 }
    {
        self.tables.get(d.0 as usize)?.row(name)
    }

    /// Defines the names that a unit offers in the dylib, as `Table::define`.
    pub fn define(
        &mut self,
        d: DylibId,
        offers: &[(NameId, SymFlags)],
        first: InstId,
        rows: &[InstRow],
    ) -> Result<Defined, DefineError>
        requires there { d.0 < length self.old.dylibs }
        requires differ { NamesDiffer offers.now }
        requires numbers { first.0 + length offers.now ≤ INSTANCE_LIMIT }
        ensures live { IfOk result (λ x. x.live ≡ kept_names (verdicts_at rows.now (table_of self.old d.0) offers.now)) }
        ensures replaced { IfOk result (λ x. x.replaced ≡ replaced_instances (verdicts_at rows.now (table_of self.old d.0) offers.now)) }
        ensures rows { IfOk result (λ x. AreAdded (fresh_rows first.0 offers.now x.live) (table_of self.old d.0) (table_of self.new d.0)) }
        ensures rest { ChangesOnlyTable d.0 self.old self.new }
        ensures accepted { OnOk result (first_clash rows.now (table_of self.old d.0) offers.now ≡ None) }
        ensures refused { IfErr result (IsRefusedBy (first_clash rows.now (table_of self.old d.0) offers.now)) }
        ensures err { OnErr result (self.new ≡ self.old) }
    {
        self.tables[d.0 as usize].define(offers, first, rows)
    }

    /// Takes out of the dylib's table the rows of the instances that go, as `Table::drop_rows`. Takes no
    /// memory.
    pub fn drop_rows(&mut self, d: DylibId, gone: &[(NameId, InstId)])
        requires { d.0 < length self.old.dylibs }
        ensures rows { AreLeft gone.now (table_of self.old d.0) (table_of self.new d.0) }
        ensures rest { ChangesOnlyTable d.0 self.old self.new }
    {
        self.tables[d.0 as usize].drop_rows(gone);
    }
}
