ghost use Rattle.std.specs.Prelude.{◌≡◌, ◌≢◌, ◌+◌, ◌^◌, ◌<◌, None, length, slice_get, option_map, OnOk, OnErr, IfOk, IfSome, IfNone};
ghost use Rattle.query_book.specs.Ends.{collected_of};
ghost use Rattle.query_book.specs.Ledger.{nobody, account, lodged, settled, fires_of, IsSeen, IsCurrent, IsTold, without_due, without_first_of};
ghost use Rattle.query_book.specs.Rows.{first_armed, armed_count};

use crate::board::Board;
use crate::ends::Collected;
use crate::rows::Rows;
use notifiers::{Armed, Fires};
use orc_ids::{InstId, QueryId, UnitId};
use orc_io::Notify;
use session_model::{Query, Standing};
use std::alloc::{AllocError, Global};
use std::marker::Model;

/// The queries of a session, with their ends and notifiers; it must be spent.
pub struct Book<N: Notify> {
    rows: Rows<N>,
    board: Board,
}

impl<N: Notify> Model for Book<N> {
    ghost use Rattle.query_book.specs.Ledger.{Ledger};

    ghost Value = { Ledger N };

    ghost use Rattle.query_book.specs.Kept.{ledger, IsKept};

    ghost view = { λ b. ledger b.rows b.board };

    ghost invariant = { λ b. IsKept b.rows b.board };
}

impl<N: Notify> Book<N> {
    /// No queries; takes no memory.
    pub fn new(alloc: Global) -> Book<N>
        ensures { result ≡ nobody }
    {
        Book {
            rows: Rows::new(alloc),
            board: Board::new(alloc),
        }
    }

    /// How many queries there are.
    pub fn len(&self) -> usize
        ensures { result ≡ length self.now.queries }
    {
        self.rows.len()
    }

    /// The query of this number, if there is one.
    pub fn query(&self, q: QueryId) -> Option<&Query>
        ensures { option_map (λ x. x.now) result ≡ slice_get self.now.queries q.0 }
    {
        self.rows.get(q.0 as usize)
    }

    /// Lodges a query, with its notifier if there is one; a refused lodge leaves the notifier where
    /// it was. It makes the room for the query's addresses.
    pub fn lodge<T: Standing>(
        &mut self,
        q: Query,
        standing: &T,
        then: &mut Option<Armed<N>>,
    ) -> Result<(), AllocError>
        requires { length self.old.queries + 1 < 2 ^ 32 }
        ensures ok { OnOk result (self.new ≡ lodged (T.stand standing.now) q then.old self.old) }
        ensures current { OnOk result (IsCurrent (T.stand standing.now) self.old → IsCurrent (T.stand standing.now) self.new) }
        ensures taken { OnOk result (then.new ≡ None) }
        ensures err { OnErr result (self.new ≡ self.old) }
        ensures kept { OnErr result (then.new ≡ then.old) }
    {
        let query = self.rows.len();
        self.board.room(q.matched.as_slice())?;
        self.rows.add(q, then)?;
        self.board
            .watch(query as u32, self.rows.query(query), standing);
        Ok(())
    }

    /// Settles the open queries that are met now, and answers the notifiers that are to be told, in
    /// rising query number. Only the queries of the instances that changed are looked at; takes no
    /// memory.
    pub fn settle<T: Standing>(&mut self, at: u64, changed: &[InstId], standing: &T) -> Fires<N>
        requires { IsTold (T.stand standing.now) changed.now self.old }
        ensures settled { account self.new ≡ settled at (T.stand standing.now) self.old }
        ensures seen { IsSeen (T.stand standing.now) self.new }
        ensures fires { result ≡ fires_of at (T.stand standing.now) self.old }
    {
        let mut fires = Fires::new();
        self.board.tell_all(changed, standing);
        self.board.marks.sort();
        self.rows
            .end_all(self.board.marks.met(), at, standing, &mut fires);
        self.board.marks.clear();
        fires
    }

    /// Hands out the next unit of the queries that have settled, in the order in which they did.
    pub fn next_unit(&mut self) -> Option<UnitId>
        ensures unit { result ≡ slice_get self.old.due 0 }
        ensures rest { self.new ≡ without_due self.old }
    {
        self.rows.next_unit()
    }

    /// What is known of a query's end. Only that of one that has ended takes memory.
    pub fn collect(&self, q: QueryId) -> Result<Collected, AllocError>
        ensures collected { IfOk result (λ c. c ≡ collected_of (slice_get self.now.ends q.0)) }
        ensures ended { OnErr result (slice_get self.now.ends q.0 ≢ Some None) }
    {
        self.rows.collect(q)
    }

    /// Hands out the notifier of the lowest open query that has one.
    pub fn give_back(&mut self) -> Option<Armed<N>>
        ensures first { result ≡ first_armed self.old.armed }
        ensures rest { self.new ≡ without_first_of self.old }
        ensures none { IfNone result (first_armed self.new.armed ≡ None) }
        ensures fewer { IfSome result (λ armed. armed_count self.new.armed + 1 ≡ armed_count self.old.armed) }
    {
        self.rows.give_back()
    }

    /// Gives up the book.
    pub fn end(self)
        requires { first_armed self.armed ≡ None }
    {
        let Book {
            rows,
            board: _board,
        } = self;
        rows.end();
    }
}
