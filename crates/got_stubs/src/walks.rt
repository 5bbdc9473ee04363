ghost use Rattle.std.specs.Prelude.{◌≡◌, ◌≤◌, length};
ghost use Rattle.got_stubs.specs.Marks.{symbols_with};

use crate::marks::Mark;
use crate::owners::{offer_behind, owns};
use crate::parts::{Part, takes_part};
use link_model::GSym;

/// How many symbols have the part.
pub(crate) fn count_with(part: Part, marks: &[Mark], symbols: &[GSym], live: &[bool]) -> usize
    requires few { length symbols.now ≤ 65536 }
    requires whole { length marks.now ≡ length symbols.now }
    ensures exact { result ≡ length (symbols_with part marks.now symbols.now live.now) }
    ensures few { result ≤ length symbols.now }
{
    let mut count: usize = 0;
    let mut offer: usize = 0;
    for (s, symbol) in symbols.iter().enumerate() {
        if takes_part(part, owns(symbol, live, offer), marks[s]) {
            count += 1;
        }
        offer = offer_behind(symbol, offer);
    }
    count
}
