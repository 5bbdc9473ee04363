ghost use Rattle.std.specs.Prelude.{◌≡◌, ◌+◌, ◌≤◌, [], None, length, IfOk, OnOk, IfErr, OnErr};
ghost use Rattle.orc_ids.specs.declared.limits.TheConstants.{INSTANCE_LIMIT};
ghost use Rattle.session_model.specs.Change.{kept_names};
ghost use Rattle.jit_dylib.specs.Rows.{row_at, verdicts_at, first_clash, replaced_instances, fresh_rows, IsRefusedBy, AreAdded, AreLeft, NamesDiffer};

use crate::defined::Defined;
use crate::error::DefineError;
use crate::rows::{RowMap, drop_rows, put_rows};
use crate::verdicts::judge_all;
use orc_ids::{InstId, NameId, SymFlags};
use session_model::{InstRow, Row};
use std::alloc::Global;
use std::collections::HashMap;
use std::marker::Model;

/// The names of a dylib, each with its present row.
#[derive(Drop)]
pub struct Table {
    alloc: Global,
    present: RowMap,
}

impl Model for Table {
    ghost use Rattle.jit_dylib.specs.Rows.{Rows};

    ghost Value = { Rows };

    ghost view = { λ t. t.present.entries };
}

impl Table {
    /// No names; takes no memory.
    pub fn new(alloc: Global) -> Table
        ensures { result ≡ [] }
    {
        Table {
            alloc,
            present: HashMap::new(alloc),
        }
    }

    /// The present row of the name.
    pub fn row(&self, name: NameId) -> Option<Row>
        ensures { result ≡ row_at self.now name.0 }
    {
        self.present.get(&name.0).copied()
    }

    /// Defines the names that a unit offers, `rows` being the instances of the session: those that
    /// stay get the numbers from `first` on, in order. Where one of them has a definition that it
    /// can't replace, the first such name is told and nothing is defined. Takes its room first.
    pub fn define(
        &mut self,
        offers: &[(NameId, SymFlags)],
        first: InstId,
        rows: &[InstRow],
    ) -> Result<Defined, DefineError>
        requires differ { NamesDiffer offers.now }
        requires numbers { first.0 + length offers.now ≤ INSTANCE_LIMIT }
        ensures live { IfOk result (λ d. d.live ≡ kept_names (verdicts_at rows.now self.old offers.now)) }
        ensures replaced { IfOk result (λ d. d.replaced ≡ replaced_instances (verdicts_at rows.now self.old offers.now)) }
        ensures rows { IfOk result (λ d. AreAdded (fresh_rows first.0 offers.now d.live) self.old self.new) }
        ensures accepted { OnOk result (first_clash rows.now self.old offers.now ≡ None) }
        ensures refused { IfErr result (IsRefusedBy (first_clash rows.now self.old offers.now)) }
        ensures err { OnErr result (self.new ≡ self.old) }
    {
        let found = judge_all(self.alloc, &self.present, rows, offers)?;
        let defined = Defined::of(self.alloc, &found)?;
        self.present.reserve(offers.len())?;
        put_rows(&mut self.present, offers, defined.live.as_slice(), first);
        Ok(defined)
    }

    /// Takes out the rows of the instances that go, each by the name that it was defined under: a
    /// row stays where its name stands for another instance. Takes no memory, in the time of what
    /// goes.
    pub fn drop_rows(&mut self, gone: &[(NameId, InstId)])
        ensures { AreLeft gone.now self.old self.new }
    {
        drop_rows(&mut self.present, gone);
    }
}
