//! Lines that were written by hand from the journal's grammar.

mod aliases;
mod cycle;
mod events;
mod hello;
mod named;
mod reading;
mod replies;
mod said;
mod told;

use orc_ids::{DylibId, InstId, NameId, OrderItem, Scope, Wanted};
use said::Said;
use told::Told;

/// The seat, the event and the reply of an entry, and its line.
type Row<'a> = (u32, Said<'a>, Told<'a>, &'a str);

const MAIN: NameId = NameId(0);

const F: NameId = NameId(1);

const NOSUCH: NameId = NameId(2);

const VERSIONED: NameId = NameId(3);

/// All of the first dylib.
const FIRST_ALL: OrderItem = OrderItem {
    dylib: DylibId(0),
    scope: Scope::All,
};

/// A name that has to be there.
const STRONG_MAIN: Wanted = Wanted {
    name: MAIN,
    weak: false,
};

/// Where code memory begins.
const CODE: u64 = 0x1000_0000;

const I0: InstId = InstId(0);

const I1: InstId = InstId(1);

const I2: InstId = InstId(2);
