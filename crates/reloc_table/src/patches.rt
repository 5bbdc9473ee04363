ghost use Rattle.std.specs.Prelude.{◌≡◌, ℕ, ◌+◌, ◌*◌, ◌%◌, ◌^◌, ◌<◌, ◌≤◌, ◌⊎◌, length, slice_index, true, false, IsSome, IfErr, OnOk};
ghost use Rattle.std.specs.Int.{bit_at};
ghost use Rattle.orc_words.specs.Bits.{with_bits};
ghost use Rattle.orc_words.specs.Numbers.{number_at, with_number};
ghost use Rattle.link_model.specs.Kinds.{row_of, rule_of, in_span, new_number, edited, ReadsBack, Outside};
ghost use Rattle.reloc_table.specs.Rows.{IsWidth, HasWidth, HasReach};

use crate::parts::{low_bits, upper_part};
use crate::table::rule;
use link_model::{Form, Rule, Span};
use orc_words::{Field, fits_signed, get_le, put_le, with_b, with_i, with_j, with_s, with_u};

/// A value that its relocation kind doesn't take.
#[derive(Clone, Copy)]
pub struct OutOfRange {
    pub kind: u32,
    pub v: i64,
}

/// Writes the value of a relocation at the start of `bytes`. The values of the low part of a pair are
/// those of its upper part.
pub fn patch(kind: u32, bytes: &mut [u8], v: i64) -> Result<(), OutOfRange>
    requires known { IsSome (row_of kind) }
    requires room { (rule_of kind).width ≤ length bytes.old }
    ensures done { OnOk result ((in_span (rule_of kind).span v ≡ true) × (slice_index bytes.new ≡ edited (rule_of kind) 0 v (slice_index bytes.old))) }
    ensures refused { IfErr result (λ e. (in_span (rule_of kind).span v ≡ false) × (e ≡ record { kind = kind; v = v }) × (bytes.new ≡ bytes.old)) }
    ensures reads_back { OnOk result (ReadsBack (rule_of kind).form (number_at (rule_of kind).width (slice_index bytes.new) 0) v) }
    ensures others { OnOk result ((i : ℕ) → Outside (rule_of kind).form i → bit_at (number_at (rule_of kind).width (slice_index bytes.new) 0) i ≡ bit_at (number_at (rule_of kind).width (slice_index bytes.old) 0) i) }
{
    patch_at(kind, bytes, 0, v)
}

/// Writes the value of a relocation from place `at` of `bytes`.
pub fn patch_at(kind: u32, bytes: &mut [u8], at: usize, v: i64) -> Result<(), OutOfRange>
    requires known { IsSome (row_of kind) }
    requires room { at + (rule_of kind).width ≤ length bytes.old }
    ensures done { OnOk result ((in_span (rule_of kind).span v ≡ true) × (slice_index bytes.new ≡ edited (rule_of kind) at v (slice_index bytes.old))) }
    ensures refused { IfErr result (λ e. (in_span (rule_of kind).span v ≡ false) × (e ≡ record { kind = kind; v = v }) × (bytes.new ≡ bytes.old)) }
    ensures reads_back { OnOk result (ReadsBack (rule_of kind).form (number_at (rule_of kind).width (slice_index bytes.new) at) v) }
    ensures others { OnOk result ((i : ℕ) → Outside (rule_of kind).form i → bit_at (number_at (rule_of kind).width (slice_index bytes.new) at) i ≡ bit_at (number_at (rule_of kind).width (slice_index bytes.old) at) i) }
{
    let rule = rule(kind);
    if !in_span(rule.span, v) {
        return Err(OutOfRange { kind, v });
    }
    write(rule, bytes, at, v);
    Ok(())
}

fn in_span(span: Span, v: i64) -> bool
    ensures { result ≡ in_span span v }
{
    match span {
        Span::Any => true,
        Span::Word => -0x8000_0000 <= v && v <= 0xffff_ffff,
        Span::SignedWord => fits_signed::<32>(v as i128),
        Span::Branch => fits_signed::<13>(v as i128) && low_bits::<1>(v) == 0,
        Span::Jump => fits_signed::<21>(v as i128) && low_bits::<1>(v) == 0,
        Span::Split => fits_signed::<32>(v as i128 + 0x800),
    }
}

fn write(rule: Rule, bytes: &mut [u8], at: usize, v: i64)
    requires width { HasWidth rule.form rule.width }
    requires reach { HasReach rule.form rule.span }
    requires inside { in_span rule.span v ≡ true }
    requires room { at + rule.width ≤ length bytes.old }
    ensures exact { slice_index bytes.new ≡ edited rule at v (slice_index bytes.old) }
    ensures reads_back { ReadsBack rule.form (number_at rule.width (slice_index bytes.new) at) v }
    ensures others { (i : ℕ) → Outside rule.form i → bit_at (number_at rule.width (slice_index bytes.new) at) i ≡ bit_at (number_at rule.width (slice_index bytes.old) at) i }
{
    let old = number(bytes, at, rule.width);
    set_number(
        bytes,
        at,
        rule.width,
        new_number(rule.form, rule.width, old, v),
    );
}

/// The number in `width` bytes, which may be none.
fn number(bytes: &[u8], at: usize, width: usize) -> u64
    requires width { (width ≡ 0) ⊎ IsWidth width }
    requires room { at + width ≤ length bytes.now }
    ensures exact { result ≡ number_at width (slice_index bytes.now) at }
    ensures bound { result < 2 ^ (8 * width) }
{
    if width == 0 {
        0
    } else {
        get_le(bytes, at, width)
    }
}

/// Writes a number to `width` bytes, which may be none.
fn set_number(bytes: &mut [u8], at: usize, width: usize, n: u64)
    requires width { (width ≡ 0) ⊎ IsWidth width }
    requires room { at + width ≤ length bytes.old }
    ensures { slice_index bytes.new ≡ with_number width at n (slice_index bytes.old) }
{
    if width != 0 {
        put_le(bytes, at, width, n);
    }
}

fn new_number(form: Form, width: usize, old: u64, v: i64) -> u64
    requires width { HasWidth form width }
    requires old { old < 2 ^ (8 * width) }
    ensures { result % 2 ^ (8 * width) ≡ new_number form (8 * width) old v }
{
    let bits = v.cast_unsigned();
    match form {
        Form::Unwritten => old,
        Form::Number => bits,
        Form::Sum => old.wrapping_add(bits),
        Form::Difference => old.wrapping_sub(bits),
        Form::LowSix => with_low_six(old, bits),
        Form::LowSixDifference => with_low_six(old, old.wrapping_sub(bits)),
        Form::FormatB => with_b(old as u32, low_bits::<13>(v)) as u64,
        Form::FormatJ => with_j(old as u32, low_bits::<21>(v)) as u64,
        Form::FormatU => with_u(old as u32, upper_part(v)) as u64,
        Form::FormatI => with_i(old as u32, low_bits::<12>(v)) as u64,
        Form::FormatS => with_s(old as u32, low_bits::<12>(v)) as u64,
        Form::Call => call(old, v),
    }
}

/// A byte with its low six bits replaced by those of `bits`.
fn with_low_six(old: u64, bits: u64) -> u64
    requires { old < 2 ^ 8 }
    ensures exact { result ≡ with_bits 0 6 old (bits % 2 ^ 6) }
    ensures bound { result < 2 ^ 8 }
{
    Field::<5, 0>::put(old as u32, (bits & 0x3f) as u32) as u64
}

/// Two words, `auipc` and `jalr`, as one number.
fn call(old: u64, v: i64) -> u64
    ensures { result ≡ new_number Form.Call 64 old v }
{
    let first = with_u((old & 0xffff_ffff) as u32, upper_part(v));
    let second = with_i((old >> 32) as u32, low_bits::<12>(v));
    first as u64 + second as u64 * 0x1_0000_0000
}
