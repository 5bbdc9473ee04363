ghost use Rattle.std.specs.Prelude.{◌≡◌, is_some, true, false};
ghost use Rattle.query_book.specs.Ledger.{IsCurrent};
ghost use Rattle.readiness_tests.specs.First.{stand_of};

use notifiers::{Armed, FiredList, Fires};
use orc_ids::{InstId, Items, Level, Outcome, QueryId, UnitId};
use orc_io::Note;
use query_book::{Book, Collected};
use session_model::{Query, Standing};
use std::alloc::Global;
use std::process::Abort;

/// Each instance has address 64; the first may have failed, or be ready.
#[derive(Drop)]
pub(super) struct First {
    pub(super) failed: bool,
    pub(super) ready: bool,
}

impl Standing for First {
    ghost use Rattle.readiness_tests.specs.First.{stand_of};

    ghost stand = { λ s. stand_of s.failed s.ready };

    fn failed(&self, i: InstId) -> bool {
        self.failed && i.0 == 0
    }

    fn present(&self, _i: InstId) -> bool {
        true
    }

    fn address(&self, _i: InstId) -> Option<u64> {
        Some(64)
    }

    fn ready(&self, i: InstId) -> bool {
        self.ready && !self.failed && i.0 == 0
    }
}

/// A lookup, which is lodged by entry 4.
#[derive(Drop)]
pub(super) struct Lookup<'a> {
    pub(super) matched: &'a [Option<InstId>],
    pub(super) level: Level,
    pub(super) unit: Option<u32>,
    /// The note of who is told of its end, if anybody is.
    pub(super) note: Option<u32>,
}

/// What is known of a lookup.
#[derive(Drop)]
pub(super) enum Known<'a> {
    /// It was never lodged.
    Nothing,
    /// It has not ended.
    Open,
    /// It failed by this entry, with this instance.
    Failed(u64, InstId),
    /// It was found by this entry, with these addresses.
    Found(u64, &'a [Option<(InstId, u64)>]),
}

/// What a book is asked, or those that it told, and what is answered.
#[derive(Drop)]
pub(super) enum Step<'a> {
    /// This is known of the lookup of this number.
    Lookup(u32, Known<'a>),
    /// This unit is handed out, or none.
    Unit(Option<UnitId>),
    /// Whether a notifier is given back.
    GivenBack(bool),
    /// Who has this note is the next that was told, and heard this.
    Told(u32, Outcome),
    /// Nobody else was told.
    NobodyTold,
}

/// The notifier of a lookup that has one.
fn notifier(rt: &impl Abort, alloc: Global, note: Option<u32>) -> Option<Armed<Note>> {
    match note {
        Some(note) => Some(Armed::new(alloc, note, Note::new(note)).expect(rt, "memory")),
        None => None,
    }
}

/// Gives up what is there of a notifier.
fn give_up(then: Option<Armed<Note>>) -> bool
    ensures { result ≡ is_some then }
{
    match then {
        Some(armed) => {
            let _object = armed.back();
            true
        }
        None => false,
    }
}

/// A book with this lookup, which is open.
fn book_of(rt: &impl Abort, alloc: Global, lookup: &Lookup) -> Book<Note>
    ensures { IsCurrent (stand_of false false) result }
{
    let mut book = Book::new(alloc);
    let query = Query {
        asked: 4,
        matched: Items::from_vec(lookup.matched.to_vec(alloc).expect(rt, "memory")),
        level: lookup.level,
        unit: lookup.unit,
        note: lookup.note,
    };
    let waits = First {
        failed: false,
        ready: false,
    };
    let mut then = notifier(rt, alloc, lookup.note);
    book.lodge(query, &waits, &mut then).expect(rt, "memory");
    assert!(rt; !give_up(then));
    book
}

/// Settles, by entry 5, where the first instance came to stand so.
fn settle(book: &mut Book<Note>, first: &First) -> Fires<Note>
    requires { IsCurrent (stand_of false false) book.old }
{
    book.settle(5, &[InstId(0)], first)
}

/// Gives up a book, and tells whether it had a notifier left.
fn end(rt: &impl Abort, book: Book<Note>) -> bool {
    let mut book = book;
    let left = give_up(book.give_back());
    assert!(rt; !give_up(book.give_back()));
    book.end();
    left
}

/// Whether the lookup failed so.
fn is_failed(collected: &Collected, at: u64, i: InstId) -> bool {
    matches!(collected, Collected::Failed(by, lost) if *by == at && *lost == i)
}

/// Whether the lookup was found so.
fn is_found(collected: &Collected, at: u64, addresses: &[Option<(InstId, u64)>]) -> bool {
    matches!(collected, Collected::Found(by, found) if *by == at && found.as_slice() == addresses)
}

/// Whether that is known of the lookup.
fn is_so(collected: &Collected, known: &Known) -> bool {
    match known {
        Known::Nothing => matches!(collected, Collected::Unknown),
        Known::Open => matches!(collected, Collected::Open),
        Known::Failed(at, i) => is_failed(collected, *at, *i),
        Known::Found(at, addresses) => is_found(collected, *at, addresses),
    }
}

/// Whether that is known of the lookup of this number.
fn is_known(book: &Book<Note>, number: u32, known: &Known) -> bool {
    match book.collect(QueryId(number)) {
        Ok(collected) => is_so(&collected, known),
        Err(_) => false,
    }
}

/// The note of the next who was told, the number of the object, and what it has heard.
fn told(done: &mut FiredList<Note>) -> Option<(u32, u32, Option<Outcome>)> {
    let (note, fired) = done.pop()?;
    let object = fired.object();
    Some((note, object.number, object.outcome))
}

/// Whether the step is answered as it says.
fn is_answered(book: &mut Book<Note>, done: &mut FiredList<Note>, step: &Step) -> bool {
    match step {
        Step::Lookup(number, known) => is_known(book, *number, known),
        Step::Unit(unit) => book.next_unit() == *unit,
        Step::GivenBack(there) => give_up(book.give_back()) == *there,
        Step::Told(note, outcome) => told(done) == Some((*note, *note, Some(*outcome))),
        Step::NobodyTold => told(done).is_none(),
    }
}

/// The first step that isn't answered as it says.
fn first_wrong(book: &mut Book<Note>, done: &mut FiredList<Note>, steps: &[Step]) -> Option<usize> {
    for (k, step) in steps.iter().enumerate() {
        if !is_answered(book, done, step) {
            return Some(k);
        }
    }
    None
}

/// Settles where the first instance came to stand so, and tells who is to be told.
fn tell(book: &mut Book<Note>, became: Option<&First>, done: &mut FiredList<Note>)
    requires { IsCurrent (stand_of false false) book.old }
{
    if let Some(first) = became {
        settle(book, first).fire_all(done);
    }
}

/// Plays the steps on a book with this lookup, after the first instance came to stand so, if it
/// did. Each step is answered as it says, and no notifier is left.
pub(super) fn play(
    rt: &impl Abort,
    alloc: Global,
    lookup: &Lookup,
    became: Option<&First>,
    steps: &[Step],
) {
    let mut done = FiredList::new();
    let mut book = book_of(rt, alloc, lookup);
    tell(&mut book, became, &mut done);
    let wrong = first_wrong(&mut book, &mut done, steps);
    let left = end(rt, book);
    assert_eq!(rt; (wrong, left), (None, false));
}
