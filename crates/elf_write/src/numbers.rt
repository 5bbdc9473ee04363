ghost use Rattle.std.specs.Prelude.{◌≡◌, ◌≤◌, ◌++◌, OnOk};
ghost use Rattle.elf_write.specs.Bytes as want;

use std::alloc::AllocError;

/// The lowest bytes of a number, the lowest first.
pub(crate) fn put_number(out: &mut Vec<u8>, width: u8, n: u64) -> Result<(), AllocError>
    ensures { OnOk result (out.new.items ≡ out.old.items ++ want.number_bytes width n) }
{
    let mut rest = n;
    for k in 0..width {
        out.push((rest % 256) as u8)?;
        rest /= 256;
    }
    Ok(())
}

pub(crate) fn put_zeros(out: &mut Vec<u8>, n: usize) -> Result<(), AllocError>
    requires { n ≤ 64 }
    ensures { OnOk result (out.new.items ≡ out.old.items ++ want.zeros n) }
{
    out.resize(out.len() + n, 0)
}

/// Zeros up to the next multiple of eight.
pub(crate) fn fill(out: &mut Vec<u8>) -> Result<(), AllocError>
    ensures { OnOk result (out.new.items ≡ want.filled out.old.items) }
{
    let n = (8 - out.len() % 8) % 8;
    put_zeros(out, n)
}

/// Where a name stands that is put at the end of a string table.
pub(crate) fn string_place(name: &[u8], strings: &[u8]) -> u64
    ensures { result ≡ want.string_place name.now strings.now }
{
    if name.is_empty() {
        0
    } else {
        strings.len() as u64
    }
}

/// Puts a name at the end of a string table.
pub(crate) fn put_string(strings: &mut Vec<u8>, name: &[u8]) -> Result<(), AllocError>
    ensures { OnOk result (strings.new.items ≡ want.with_string name.now strings.old.items) }
{
    if name.is_empty() {
        return Ok(());
    }
    strings.extend_from_slice(name)?;
    strings.push(0)?;
    Ok(())
}
