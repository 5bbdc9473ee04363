//! The whole command.
ghost use Rattle.std.specs.Prelude.{◌≡◌, ◌≤◌, ◌∷◌, [], IfErr, IfOk, OnOk};
ghost use Rattle.elf_write.specs.Files.{file_bytes};
ghost use Rattle.object_files.specs.Reads.{AreReadIn, use_of};
ghost use Rattle.answers.specs.Reads.{AreReadFor};
ghost use Rattle.as_command.specs.Found.{HasObject, IsFileOf, IsFound, IsTextOf};
ghost use Rattle.as_command.specs.Stops.{HasStopped, IsUnassembled, IsUnread};

use answers::Answer;
use elf_read::ElfObject;
use elf_write::write_object;
use orc_ids::Bytes;
use orc_io::{FileError, Files};
use rv_asm::{AsmError, assemble};
use std::alloc::{AllocError, Global};

/// What was found, before anything is written: the answer, and the object's file.
#[derive(Drop)]
pub struct AssemblyFound {
    pub answer: Answer,
    pub output: Bytes,
}

/// The number of the one file.
const FILE: u32 = 0;

/// The text of the file, or what is answered where there is none.
fn read_text<F: Files>(alloc: Global, files: &mut F, file: &str) -> Result<Bytes, Answer>
    ensures read { IfOk result (IsTextOf (F.holds files.old) file.now) }
    ensures unread { IfErr result (IsUnread (F.holds files.old) (F.faults files.old) (F.faults files.new) file.now) }
    ensures asked { OnOk result (AreReadIn (file.now ∷ [])
        (use_of (F.reads files.old) (F.faults files.old)) (use_of (F.reads files.new) (F.faults files.new))) }
    ensures asked_for { IfErr result (AreReadFor (file.now ∷ [])
        (use_of (F.reads files.old) (F.faults files.old)) (use_of (F.reads files.new) (F.faults files.new))) }
    ensures counted { F.faults files.old ≤ F.faults files.new }
    ensures same { F.holds files.new ≡ F.holds files.old }
{
    match files.read_file(alloc, file) {
        Ok(text) => Ok(text),
        Err(FileError::Failed) => Err(Answer::FileFault(FILE)),
        Err(FileError::TooLong) => Err(Answer::TooLong(FILE)),
        Err(FileError::NoMemory) => Err(Answer::NoMemory),
    }
}

/// The file of an object, or what is answered where memory ran out.
fn laid_out(alloc: Global, object: &ElfObject) -> Result<Bytes, Answer>
    ensures bytes { IfOk result (λ bytes. bytes ≡ file_bytes object.now) }
    ensures wanting { IfErr result (λ answer. answer ≡ Answer.NoMemory) }
{
    match write_object(alloc, object) {
        Ok(bytes) => Ok(bytes),
        Err(AllocError) => Err(Answer::NoMemory),
    }
}

/// The file of the object that a text is, or what is answered where it is none.
fn assembled(alloc: Global, text: &[u8]) -> Result<Bytes, Answer>
    ensures made { IfOk result (IsFileOf text.now) }
    ensures unassembled { IfErr result (IsUnassembled text.now) }
{
    match assemble(alloc, text) {
        Ok(object) => laid_out(alloc, &object),
        Err(AsmError::BadLine(line, why)) => Err(Answer::AsmRefused(line, why)),
        Err(AsmError::NoMemory) => Err(Answer::NoMemory),
    }
}

/// The file of the object of a file's text, or what is answered where there is none.
fn object_file<F: Files>(alloc: Global, files: &mut F, file: &str) -> Result<Bytes, Answer>
    ensures object { IfOk result (HasObject (F.holds files.old) file.now) }
    ensures stopped { IfErr result (HasStopped (F.holds files.old) (F.faults files.old) (F.faults files.new) file.now) }
    ensures asked { OnOk result (AreReadIn (file.now ∷ [])
        (use_of (F.reads files.old) (F.faults files.old)) (use_of (F.reads files.new) (F.faults files.new))) }
    ensures asked_for { IfErr result (AreReadFor (file.now ∷ [])
        (use_of (F.reads files.old) (F.faults files.old)) (use_of (F.reads files.new) (F.faults files.new))) }
    ensures counted { F.faults files.old ≤ F.faults files.new }
    ensures same { F.holds files.new ≡ F.holds files.old }
{
    let text = read_text(alloc, files, file)?;
    assembled(alloc, text.as_slice())
}

/// What `orc as` finds in this file.
pub fn find_assembly<F: Files>(alloc: Global, files: &mut F, file: &str) -> AssemblyFound
    ensures found { IsFound file.now (F.holds files.old) (F.faults files.old) (F.faults files.new) result.answer result.output }
    ensures asked { AreReadFor (file.now ∷ [])
        (use_of (F.reads files.old) (F.faults files.old)) (use_of (F.reads files.new) (F.faults files.new)) result.answer }
    ensures counted { F.faults files.old ≤ F.faults files.new }
    ensures same { F.holds files.new ≡ F.holds files.old }
{
    match object_file(alloc, files, file) {
        Ok(output) => AssemblyFound {
            answer: Answer::Done,
            output,
        },
        Err(answer) => AssemblyFound {
            answer,
            output: Bytes::new(alloc),
        },
    }
}
