//! Which functions the lines of the client are of.
ghost use Rattle.std.specs.Prelude.{◌≡◌};
ghost use Rattle.generated_session.specs.Scripts.{is_head, is_removed};

use generated_objects::RING;

/// Function `k` is the first of a ring of odd number.
pub fn is_head(k: u32) -> bool
    ensures { result ≡ is_head k }
{
    k % RING == 0 && k / RING % 2 == 1
}

/// The tracker of function `k` is removed.
pub fn is_removed(k: u32) -> bool
    ensures { result ≡ is_removed k }
{
    k % 3 == 0
}
