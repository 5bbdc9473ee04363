ghost use Rattle.std.specs.Prelude.{◌≡◌, IsSome};
ghost use Rattle.link_model.specs.Kinds.{row_of, rule_of, value_of};

use crate::table::rule;
use link_model::Formula;

/// The value of a relocation: what its formula gives of the symbol's address `s` (its cell's or its
/// stub's, where the kind goes through one), the addend `a` and the place's address `p`, modulo 2^64.
/// Of the marks and of the low part of a pair it is 0: that part takes the value of its upper part.
pub fn value(kind: u32, s: u64, a: i64, p: u64) -> i64
    requires { IsSome (row_of kind) }
    ensures { result ≡ value_of (rule_of kind).formula s a p }
{
    match rule(kind).formula {
        Formula::Zero | Formula::Paired => 0,
        Formula::Absolute => absolute(s, a),
        Formula::Relative => relative(s, a, p),
    }
}

fn absolute(s: u64, a: i64) -> i64
    ensures { result ≡ value_of Formula.Absolute s a 0 }
{
    s.wrapping_add(a.cast_unsigned()).cast_signed()
}

fn relative(s: u64, a: i64, p: u64) -> i64
    ensures { result ≡ value_of Formula.Relative s a p }
{
    s.wrapping_add(a.cast_unsigned())
        .wrapping_sub(p)
        .cast_signed()
}
