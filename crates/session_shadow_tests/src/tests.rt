//! Lists of calls, and the journals that they are to make.

mod causes;
mod clashes;
mod playing;
mod rows;
mod said;
mod turns;

use orc_ids::NameId;
use said::Said;

/// A seat, its call, and how that is answered.
type Row<'a> = (u32, Said, Says<'a>);

/// What comes of a call.
#[derive(Clone, Copy)]
enum Says<'a> {
    /// The journal gets this line.
    Entry(&'a str),
    /// This answer, and the journal gets no entry.
    NoEntry(&'a str),
}

const MAIN: NameId = NameId(0);

const F: NameId = NameId(1);

const H: NameId = NameId(2);

const K: NameId = NameId(3);

const NOSUCH: NameId = NameId(4);
