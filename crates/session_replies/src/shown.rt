//! The parts of a session as matching sees them.

ghost use Rattle.std.specs.Prelude.{◌≡◌};
ghost use Rattle.session_model.specs.Plain.{Plain};
ghost use Rattle.session_parts.specs.Parts.{AreParts};
ghost use Rattle.session_replies.specs.Shown.{sight_of};

use generators::Generators;
use instances::InstanceGraph;
use jit_dylib::Dylibs;
use orc_ids::{DylibId, GenId, InstId, NameId, Scope};
use orc_io::Notify;
use session_model::{Row, RowSource, Standing, UnitKind};
use session_parts::Parts;
use std::marker::Model;

/// The dylibs, the instances and the generators; trackers play no part in matching.
#[derive(Drop)]
pub(crate) struct Shown<'a, U: UnitKind> {
    dylibs: &'a Dylibs,
    graph: &'a InstanceGraph,
    generators: &'a Generators<U>,
}

impl<'a, U: UnitKind> Model for Shown<'a, U> {
    ghost use Rattle.session_parts.specs.Tied.{AreDylibs};
    ghost use Rattle.session_replies.specs.Shown.{Sight};

    ghost Value = { Sight U };

    ghost view = { λ s. record { shelf = s.dylibs.now; rows = s.graph.now.rows; generators = s.generators.now.rows } };

    ghost invariant = { λ s. AreDylibs s.dylibs.now s.dylibs.now.dylibs s.graph.now.rows };
}

impl<'a, U: UnitKind> Shown<'a, U> {
    pub(crate) fn of<N: Notify>(parts: &'a Parts<U, N>) -> Shown<'a, U>
        requires { (m : Plain) × AreParts U.meaning parts.now m }
        ensures { result ≡ sight_of parts.now }
    {
        Shown {
            dylibs: &parts.dylibs,
            graph: &parts.graph,
            generators: &parts.generators,
        }
    }
}

impl<'a, U: UnitKind> RowSource for Shown<'a, U> {
    ghost use Rattle.session_replies.specs.Shown.{shown};

    ghost source = { λ s. shown U.meaning s };

    fn known(&self, d: DylibId) -> bool {
        self.dylibs.has(d)
    }

    fn row(&self, d: DylibId, name: NameId) -> Option<Row> {
        self.dylibs.row(d, name)
    }

    fn offered(&self, d: DylibId, name: NameId, scope: Scope) -> Option<GenId> {
        self.generators.offered(d, name, scope)
    }

    fn failed(&self, i: InstId) -> bool {
        self.graph.failed(i)
    }
}
