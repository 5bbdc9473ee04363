ghost use Rattle.std.specs.Prelude.{◌≡◌, ◌++◌, ◌<◌, ◌^◌, IfOk, OnOk};
ghost use Rattle.elf_write.specs.Files as want;
ghost use Rattle.elf_write.specs.Parts.{strings_part};

use crate::numbers::{fill, put_number, put_string, put_zeros, string_place};
use crate::part::Header;
use std::alloc::{AllocError, Global};
use std::marker::Model;

const ET_REL: u64 = 1;

const EM_RISCV: u64 = 243;

/// What is written so far. Contracts see the record `Written`.
#[derive(Drop)]
pub(crate) struct Writer {
    bytes: Vec<u8>,
    headers: Vec<u8>,
    names: Vec<u8>,
    alloc: Global,
}

impl Model for Writer {
    ghost use Rattle.elf_write.specs.Files.{Written};

    ghost Value = { Written };

    ghost view = { λ w. record { bytes = w.bytes.items; headers = w.headers.items; names = w.names.items } };
}

/// An entry of the section table.
fn put_header(out: &mut Vec<u8>, name: u64, offset: u64, header: &Header) -> Result<(), AllocError>
    ensures { OnOk result (out.new.items ≡ out.old.items ++ want.header_bytes name offset header.now) }
{
    put_number(out, 4, name)?;
    put_number(out, 4, header.kind as u64)?;
    put_number(out, 8, header.flags)?;
    put_number(out, 8, 0)?;
    put_number(out, 8, offset)?;
    put_number(out, 8, header.size)?;
    put_number(out, 4, header.link)?;
    put_number(out, 4, header.info)?;
    put_number(out, 8, header.align)?;
    put_number(out, 8, header.entry_size)
}

/// What the file is.
fn put_kind(out: &mut Vec<u8>) -> Result<(), AllocError>
    ensures { OnOk result (out.new.items ≡ out.old.items ++ want.kind_bytes) }
{
    out.extend_from_slice(&[0x7f, 0x45, 0x4c, 0x46, 2, 1, 1, 0])?;
    put_number(out, 8, 0)?;
    put_number(out, 2, ET_REL)?;
    put_number(out, 2, EM_RISCV)?;
    put_number(out, 4, 1)?;
    put_number(out, 8, 0)?;
    put_number(out, 8, 0)
}

/// Where the section table is, and how many entries it has.
fn put_table(out: &mut Vec<u8>, table: u64, last: u64) -> Result<(), AllocError>
    requires { last < 2 ^ 63 }
    ensures { OnOk result (out.new.items ≡ out.old.items ++ want.table_bytes table last) }
{
    put_number(out, 8, table)?;
    put_number(out, 4, 0)?;
    put_number(out, 2, 64)?;
    put_number(out, 2, 0)?;
    put_number(out, 2, 0)?;
    put_number(out, 2, 64)?;
    put_number(out, 2, last + 1)?;
    put_number(out, 2, last)
}

/// The file header. `table` is the place of the section table, `last` the number of its last entry.
fn put_file_header(out: &mut Vec<u8>, table: u64, last: u64) -> Result<(), AllocError>
    requires { last < 2 ^ 63 }
    ensures { OnOk result (out.new.items ≡ out.old.items ++ want.file_header_bytes table last) }
{
    put_kind(out)?;
    put_table(out, table, last)
}

impl Writer {
    pub fn new(alloc: Global) -> Result<Writer, AllocError>
        ensures { IfOk result (λ w. w ≡ want.nothing_written) }
    {
        let mut headers = Vec::new(alloc);
        put_zeros(&mut headers, 64)?;
        let mut names = Vec::new(alloc);
        names.push(0)?;
        Ok(Writer {
            bytes: Vec::new(alloc),
            headers,
            names,
            alloc,
        })
    }

    /// The next part, at the next multiple of eight.
    pub fn put_part(&mut self, name: &[u8], header: &Header, bytes: &[u8]) -> Result<(), AllocError>
        ensures { OnOk result (self.new ≡ want.with_part (record { name = name.now; header = header.now; bytes = bytes.now }) self.old) }
    {
        fill(&mut self.bytes)?;
        let offset = 64 + self.bytes.len() as u64;
        let place = string_place(name, self.names.as_slice());
        put_header(&mut self.headers, place, offset, header)?;
        put_string(&mut self.names, name)?;
        self.bytes.extend_from_slice(bytes)
    }

    /// A string table.
    pub fn put_strings(&mut self, name: &[u8], strings: &[u8]) -> Result<(), AllocError>
        ensures { OnOk result (self.new ≡ want.with_part (strings_part name.now strings.now) self.old) }
    {
        let header = Header {
            kind: 3,
            flags: 0,
            size: strings.len() as u64,
            link: 0,
            info: 0,
            align: 1,
            entry_size: 0,
        };
        self.put_part(name, &header, strings)
    }

    /// The names of sections, their own name among them.
    pub fn put_names(&mut self) -> Result<(), AllocError>
        ensures { OnOk result (self.new ≡ want.with_names self.old) }
    {
        let mut names = self.names.as_slice().to_vec(self.alloc)?;
        put_string(&mut names, b".shstrtab")?;
        self.put_strings(b".shstrtab", names.as_slice())
    }

    /// The file. `last` is the number of the last section.
    pub fn finish(&mut self, last: u64) -> Result<Vec<u8>, AllocError>
        requires { last < 2 ^ 63 }
        ensures { IfOk result (λ v. v.items ≡ want.finished last self.old) }
    {
        fill(&mut self.bytes)?;
        let mut out = Vec::new(self.alloc);
        put_file_header(&mut out, 64 + self.bytes.len() as u64, last)?;
        out.extend_from_slice(self.bytes.as_slice())?;
        out.extend_from_slice(self.headers.as_slice())?;
        Ok(out)
    }
}
