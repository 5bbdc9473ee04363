ghost use Rattle.std.specs.Prelude.{◌≡◌, ◌+◌, ◌<◌, ◌≤◌, length, take, drop, vec_len, IfOk, IfSome, IfErr, OnOk, OnErr, IsErrOf};
ghost use Rattle.std.specs.Io.KnownBytes.{Appends, Consumes, IsAtEnd};
ghost use Rattle.orc_io.specs.Causes.{Rose};
ghost use Rattle.orc_io.specs.Texts.{AppendsPartOf, HasLongerFront, HasNoFront};

use crate::errors::{Failed, ReadError};
use crate::sink::Sink;
use crate::source::Source;
use orc_ids::Bytes;
use std::alloc::{AllocError, Global};

/// How many bytes a source is expected to have where nothing is known of it.
const EXPECTED: usize = 65_535;

/// All that a source has left, if it is at most `limit` bytes. `TooLong` has the first bytes of a
/// longer source, one more than the limit.
pub fn read_source<S: Source>(
    alloc: Global,
    source: &mut S,
    limit: usize,
) -> Result<Bytes, ReadError>
    ensures whole { IfOk result (λ bytes. IfSome (S.left source.old) (λ left. bytes ≡ left)) }
    ensures end { OnOk result (IsAtEnd (S.left source.new)) }
    ensures within { IfOk result (λ bytes. length bytes ≤ limit) }
    ensures too_long { IfErr result (HasLongerFront limit (S.left source.old) (S.left source.new)) }
    ensures failed { IsErrOf result ReadError.Failed → Rose (S.faults source.old) (S.faults source.new) }
    ensures counted { S.faults source.old ≤ S.faults source.new }
    ensures once { S.faults source.new ≤ S.faults source.old + 1 }
    ensures passed { (IsErrOf result ReadError.Failed → ⊥) → S.faults source.new ≡ S.faults source.old }
{
    read_expected(alloc, source, limit, EXPECTED)
}

/// `read_source` of a source that is expected to have so many bytes: if it has no more, they are read
/// into one buffer that doesn't grow.
pub fn read_expected<S: Source>(
    alloc: Global,
    source: &mut S,
    limit: usize,
    expected: usize,
) -> Result<Bytes, ReadError>
    ensures whole { IfOk result (λ bytes. IfSome (S.left source.old) (λ left. bytes ≡ left)) }
    ensures end { OnOk result (IsAtEnd (S.left source.new)) }
    ensures within { IfOk result (λ bytes. length bytes ≤ limit) }
    ensures too_long { IfErr result (HasLongerFront limit (S.left source.old) (S.left source.new)) }
    ensures failed { IsErrOf result ReadError.Failed → Rose (S.faults source.old) (S.faults source.new) }
    ensures counted { S.faults source.old ≤ S.faults source.new }
    ensures once { S.faults source.new ≤ S.faults source.old + 1 }
    ensures passed { (IsErrOf result ReadError.Failed → ⊥) → S.faults source.new ≡ S.faults source.old }
{
    let mut buffer = Vec::new(alloc);
    buffer.resize(expected.min(limit).saturating_add(1), 0)?;
    let mut filled = 0;
    while filled <= limit {
        let taken = read_behind(source, &mut buffer, filled, limit)?;
        if taken == 0 {
            buffer.truncate(filled);
            return Ok(Bytes::from_vec(buffer));
        }
        filled += taken;
    }
    buffer.truncate(filled);
    Err(ReadError::TooLong(Bytes::from_vec(buffer)))
}

/// Doubles a full buffer, up to one byte more than the limit.
fn lengthen(buffer: &mut Vec<u8>, limit: usize) -> Result<(), AllocError>
    requires some { 0 < vec_len buffer.old }
    requires below { vec_len buffer.old ≤ limit }
    ensures longer { OnOk result (vec_len buffer.old < vec_len buffer.new) }
    ensures within { OnOk result (vec_len buffer.new ≤ limit + 1) }
    ensures same { OnOk result (take (vec_len buffer.old) buffer.new.items ≡ buffer.old.items) }
{
    let len = buffer.len();
    buffer.resize(len.saturating_mul(2).min(limit.saturating_add(1)), 0)
}

/// Reads once into what is behind the first `filled` bytes of a buffer, which is lengthened first if
/// they fill it, and answers how many bytes were read.
fn read_behind<S: Source>(
    source: &mut S,
    buffer: &mut Vec<u8>,
    filled: usize,
    limit: usize,
) -> Result<usize, ReadError>
    requires some { 0 < vec_len buffer.old }
    requires within { filled ≤ vec_len buffer.old }
    requires more { filled ≤ limit }
    requires longest { vec_len buffer.old ≤ limit + 1 }
    ensures longest { OnOk result (vec_len buffer.new ≤ limit + 1) }
    ensures bound { IfOk result (λ taken. filled + taken ≤ vec_len buffer.new) }
    ensures front { OnOk result (take filled buffer.new.items ≡ take filled buffer.old.items) }
    ensures taken { IfOk result (λ taken. Consumes (S.left source.old) (S.left source.new)
        (take taken (drop filled buffer.new.items))) }
    ensures end { IfOk result (λ taken. taken ≡ 0 → IsAtEnd (S.left source.new)) }
    ensures not_long { IfErr result HasNoFront }
    ensures failed { IsErrOf result ReadError.Failed → Rose (S.faults source.old) (S.faults source.new) }
    ensures counted { S.faults source.old ≤ S.faults source.new }
    ensures once { S.faults source.new ≤ S.faults source.old + 1 }
    ensures passed { (IsErrOf result ReadError.Failed → ⊥) → S.faults source.new ≡ S.faults source.old }
{
    if filled == buffer.len() {
        lengthen(buffer, limit)?;
    }
    Ok(source.read(&mut buffer[filled..])?)
}

/// Writes the whole text, in as many writes as the sink takes for it.
pub fn write_all<K: Sink>(sink: &mut K, text: &[u8]) -> Result<(), Failed>
    ensures whole { OnOk result (Appends (K.held sink.old) (K.held sink.new) text.now) }
    ensures part { OnErr result (AppendsPartOf (K.held sink.old) (K.held sink.new) text.now) }
    ensures failed { OnErr result (Rose (K.faults sink.old) (K.faults sink.new)) }
    ensures counted { K.faults sink.old ≤ K.faults sink.new }
    ensures once { K.faults sink.new ≤ K.faults sink.old + 1 }
    ensures passed { OnOk result (K.faults sink.new ≡ K.faults sink.old) }
{
    let mut done = 0;
    while done < text.len() {
        done += sink.write(&text[done..])?;
    }
    Ok(())
}
