ghost use Rattle.std.specs.Prelude.{◌≡◌, ◌<◌, ◌≤◌, ◌^◌, ◌&&◌, not, ◌++◌, ℕ, ◌∷◌, [], false, length, slice_get, option_copied, OnOk};
ghost use Rattle.std.specs.List.{position_from};
ghost use Rattle.orc_ids.specs.declared.limits.TheConstants.{GENERATOR_LIMIT};
ghost use Rattle.session_model.specs.Lists.{changed_at};
ghost use Rattle.generators.specs.Kept.{HavePassed};
ghost use Rattle.generators.specs.Lines.{queue_at};
ghost use Rattle.generators.specs.Rows.{first_offer, offers_in, spent_row};

use crate::generator::Generator;
use crate::lines::Lines;
use crate::offers::{join_names, pass_names};
use orc_ids::{DylibId, GenId, NameId, Scope};
use session_model::UnitKind;
use std::alloc::{AllocError, Global};
use std::marker::Model;

/// The generators of a session, by number.
#[derive(Drop)]
pub struct Generators<U: UnitKind> {
    rows: Vec<Generator<U>>,
    all: Lines,
    exported: Lines,
}

impl<U: UnitKind> Model for Generators<U> {
    ghost use Rattle.std.specs.Prelude.{◌-◌, vec_len, vec_capacity};
    ghost use Rattle.generators.specs.Rows.{Stock};
    ghost use Rattle.generators.specs.Kept.{AreKept, room_in};

    ghost Value = { Stock U };

    ghost view = { λ s. record { rows = s.rows.items; room = room_in s.all s.exported; places = vec_capacity s.rows - vec_len s.rows } };

    ghost invariant = { λ s. AreKept U.meaning s.rows.items s.all s.exported };
}

fn spend_row<U>(row: &mut Generator<U>)
    ensures { row.new ≡ spent_row row.old }
{
    row.spent = true;
}

/// The generator of this number is spent, if there is one.
#[tactic(auto, using(session_model::proofs::Changes::set_changed, session_model::proofs::Changes::changed_past))]
fn spend_at<U>(rows: &mut Vec<Generator<U>>, at: usize)
    ensures { rows.new.items ≡ changed_at at spent_row rows.old.items }
{
    if at < rows.as_slice().len() {
        spend_row(&mut rows[at]);
    }
}

/// The spent ones at the head of the line of each name that the generator offers leave it.
fn leave_lines<U: UnitKind>(lines: &mut Lines, rows: &[Generator<U>], at: usize)
    requires { (d n : ℕ) → (queue_at lines.old d n).joined < 2 ^ 32 }
    ensures { HavePassed U.meaning rows.now at lines.old lines.new }
{
    if let Some(row) = rows.get(at) {
        pass_names(lines, rows, row.dylib, &row.unit);
    }
}

impl<U: UnitKind> Generators<U> {
    /// No generators; takes no memory.
    pub fn new(alloc: Global) -> Generators<U>
        ensures { result.rows ≡ [] }
    {
        Generators {
            rows: Vec::new(alloc),
            all: Lines::new(alloc),
            exported: Lines::new(alloc),
        }
    }

    /// How many generators there are.
    pub fn len(&self) -> usize
        ensures count { result ≡ length self.now.rows }
        ensures few { length self.now.rows ≤ GENERATOR_LIMIT }
    {
        self.rows.len()
    }

    pub fn get(&self, g: GenId) -> Option<&Generator<U>>
        ensures { option_copied result ≡ slice_get self.now.rows g.0 }
    {
        self.rows.get(g.0 as usize)
    }

    /// Makes the room for one more generator, which offers so many names.
    pub fn room(&mut self, count: u32) -> Result<(), AllocError>
        ensures rows { self.new.rows ≡ self.old.rows }
        ensures room { OnOk result (count ≤ self.new.room) }
        ensures place { OnOk result (0 < self.new.places) }
    {
        self.all.room(count as usize)?;
        self.exported.room(count as usize)?;
        self.rows.reserve(1)
    }

    /// Adds the next generator, which is unspent; takes no memory, in the time of the names that its
    /// unit offers.
    pub fn attach(&mut self, d: DylibId, unit: U) -> GenId
        requires room { length (U.meaning unit).offers ≤ self.old.room }
        requires place { 0 < self.old.places }
        requires few { length self.old.rows < GENERATOR_LIMIT }
        ensures number { result.0 ≡ length self.old.rows }
        ensures rows { self.new.rows ≡ self.old.rows ++ record { unit = unit; dylib = d; spent = false } ∷ [] }
    {
        let g = self.rows.len() as u32;
        join_names(&mut self.all, Scope::All, d, &unit, g);
        join_names(&mut self.exported, Scope::Exported, d, &unit, g);
        self.rows.push_reserved(Generator {
            unit,
            dylib: d,
            spent: false,
        });
        GenId(g)
    }

    /// The generator is spent; takes no memory, in the time of the names that its unit offers and of
    /// those that are spent ahead of others.
    pub fn spend(&mut self, g: GenId)
        ensures { self.new.rows ≡ changed_at g.0 spent_row self.old.rows }
    {
        let at = g.0 as usize;
        spend_at(&mut self.rows, at);
        leave_lines(&mut self.all, &self.rows, at);
        leave_lines(&mut self.exported, &self.rows, at);
    }

    /// Who waits longest in the line of the name.
    fn first(&self, d: DylibId, name: NameId, scope: Scope) -> Option<u32>
        ensures { result ≡ position_from (λ x. not x.spent && offers_in U.meaning scope d.0 name.0 x) 0 self.now.rows }
    {
        match scope {
            Scope::All => self.all.first(d, name),
            Scope::Exported => self.exported.first(d, name),
        }
    }

    /// The first unspent generator of the dylib, in the order of their numbers, that offers a definition
    /// of the name which the scope sees. One look at each of two hash tables.
    pub fn offered(&self, d: DylibId, name: NameId, scope: Scope) -> Option<GenId>
        ensures { result ≡ first_offer U.meaning self.now.rows d.0 name.0 scope }
    {
        let g = self.first(d, name, scope)?;
        Some(GenId(g))
    }
}
