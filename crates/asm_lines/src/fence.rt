ghost use Rattle.std.specs.Prelude.{◌≡◌, ◌<◌, ◌≤◌, IfSome};
ghost use Rattle.asm_lines.specs.Instructions as want;
ghost use Rattle.asm_lines.specs.Pieces.{pieces_of};

use crate::operands::ended;
use crate::pieces::Pieces;

/// A set of `i`, `o`, `r` and `w`, in this order, as four bits.
#[tactic(auto, unfolding(crate::specs::Instructions::set_of))]
fn set_of(text: &[u8]) -> Option<u32>
    ensures exact { result ≡ want.set_of text.now }
    ensures set { IfSome result (λ s. s < 16) }
{
    match text {
        b"w" => Some(1),
        b"r" => Some(2),
        b"rw" => Some(3),
        b"o" => Some(4),
        b"ow" => Some(5),
        b"or" => Some(6),
        b"orw" => Some(7),
        b"i" => Some(8),
        b"iw" => Some(9),
        b"ir" => Some(10),
        b"irw" => Some(11),
        b"io" => Some(12),
        b"iow" => Some(13),
        b"ior" => Some(14),
        b"iorw" => Some(15),
        _ => None,
    }
}

/// What a fence orders before what: all before all where there are no operands.
#[tactic(auto, unfolding(crate::specs::Instructions::fence_operands))]
pub(crate) fn fence_operands(text: &[u8]) -> Option<(u32, u32)>
    ensures exact { result ≡ want.fence_operands (pieces_of text.now) }
    ensures sets { IfSome result (λ p. (p.0 < 16) × (p.1 < 16)) }
{
    let mut pieces = Pieces::new(text);
    let Some(first) = pieces.next() else {
        return Some((15, 15));
    };
    let before = set_of(first)?;
    let after = set_of(pieces.next()?)?;
    ended(pieces, (before, after))
}
