//! Functions in rings.
ghost use Rattle.std.specs.Prelude.{◌≡◌, ◌<◌};
ghost use Rattle.generated_objects.specs.Rings.{next};

/// How many functions a ring has; the last ring may have fewer.
pub const RING: u32 = 7;

/// The function after number k, of n: the next number, or the first of the ring after its last.
pub fn next(n: u32, k: u32) -> u32
    requires { k < n }
    ensures exact { result ≡ next n k }
    ensures below { result < n }
{
    let after = k + 1;
    if after % RING == 0 || after == n {
        k - k % RING
    } else {
        after
    }
}
