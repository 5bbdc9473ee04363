ghost use Rattle.std.specs.Prelude.{◌≡◌, [], None};
ghost use Rattle.session_model.specs.Plain.{empty};
ghost use Rattle.query_book.specs.Ledger.{nobody};
ghost use Rattle.query_book.specs.Rows.{first_armed};
ghost use Rattle.session_parts.specs.Parts.{AreParts};

use code_memory::Space;
use generators::Generators;
use instances::InstanceGraph;
use jit_dylib::Dylibs;
use mat_unit::Units;
use orc_io::Notify;
use query_book::Book;
use session_model::UnitKind;
use std::alloc::Global;
use tracker::Trackers;

/// What a session keeps; it must be spent, for its notifiers.
pub struct Parts<U: UnitKind, N: Notify> {
    pub alloc: Global,
    pub dylibs: Dylibs,
    pub graph: InstanceGraph,
    pub units: Units<U>,
    pub generators: Generators<U>,
    pub trackers: Trackers,
    pub space: Space,
    pub book: Book<N>,
}

impl<U: UnitKind, N: Notify> Parts<U, N> {
    /// The parts of a session before its first entry; takes no memory.
    pub fn new(alloc: Global) -> Parts<U, N>
        ensures parts { AreParts U.meaning result empty }
        ensures book { result.book ≡ nobody }
        ensures changed { result.graph.changed ≡ [] }
    {
        Parts {
            alloc,
            dylibs: Dylibs::new(alloc),
            graph: InstanceGraph::new(alloc),
            units: Units::new(alloc),
            generators: Generators::new(alloc),
            trackers: Trackers::new(alloc),
            space: Space::new(alloc),
            book: Book::new(alloc),
        }
    }

    /// Gives up the parts.
    pub fn end(self)
        requires { first_armed self.book.armed ≡ None }
    {
        let Parts {
            alloc: _alloc,
            dylibs: _dylibs,
            graph: _graph,
            units: _units,
            generators: _generators,
            trackers: _trackers,
            space: _space,
            book,
        } = self;
        book.end();
    }
}
