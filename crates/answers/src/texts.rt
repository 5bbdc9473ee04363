ghost use Rattle.std.specs.Prelude.{◌≡◌, ◌++◌, IfOk, OnOk};
ghost use Rattle.session_script.specs.Refused.{why_word};
ghost use Rattle.answers.specs.declared.answer.Answer.TheVariants.{AsmRefused, ObjectRefused, ScriptRefused};
ghost use Rattle.answers.specs.EndLine.{asm_why_text, usage_text, kind_text, elf_text, graph_text, why_text, answer_text, end_line_of};

use crate::answer::Answer;
use asm_lines::AsmWhy;
use command_line::UsageKind;
use elf_read::{ElfError, NotBuiltKind};
use exec_run::{RunEnd, put_run_end};
use link_graph::GraphError;
use object_files::ObjectWhy;
use orc_ids::Bytes;
use session_script::ScriptWhy;
use std::alloc::{AllocError, Global};
use text_parts::{put, put_edge, put_numbered, put_placed};

/// The last line of the log: nothing after a write that failed.
pub fn end_line(alloc: Global, answer: &Answer) -> Result<Bytes, AllocError>
    ensures { IfOk result (λ line. line ≡ end_line_of answer.now) }
{
    let mut out = Vec::new(alloc);
    if !matches!(answer, Answer::WriteFault) {
        put(&mut out, b"end ")?;
        put_answer(alloc, &mut out, answer)?;
        put(&mut out, b"\n")?;
    }
    Ok(Bytes::from_vec(out))
}

fn put_answer(alloc: Global, out: &mut Vec<u8>, answer: &Answer) -> Result<(), AllocError>
    ensures { OnOk result (out.new.items ≡ out.old.items ++ answer_text answer.now) }
{
    match answer {
        Answer::Done => put(out, b"done"),
        Answer::Exited(code) => put_run_end(alloc, out, RunEnd::Exited(*code)),
        Answer::Usage(kind) => {
            put(out, b"usage ")?;
            put_usage(out, *kind)
        }
        Answer::ReadFault => put(out, b"read fault"),
        Answer::FileFault(file) => put_numbered(out, b"file fault ", *file),
        Answer::WriteFault => put(out, b"write fault"),
        Answer::ScriptRefused(line, why) => put_refused_line(out, *line, *why),
        Answer::ObjectRefused(file, why) => put_refused_file(out, *file, why),
        Answer::TooLong(file) => put_numbered(out, b"too long ", *file),
        Answer::Missing(name) => {
            put(out, b"missing ")?;
            put(out, name.as_slice())
        }
        Answer::Trap(pc, cause) => put_run_end(alloc, out, RunEnd::Trap(*pc, *cause)),
        Answer::LinkRefused(place, kind, v) => {
            put_edge(out, b"link refused ", *place, *kind, *v)
        }
        Answer::DepFailed(i) => put_numbered(out, b"dep failed i", i.0),
        Answer::OutOfFuel => put_run_end(alloc, out, RunEnd::OutOfFuel),
        Answer::OutputFull => put_run_end(alloc, out, RunEnd::OutputFull),
        Answer::JournalFull(len) => put_numbered(out, b"journal full ", *len),
        Answer::NoMemory => put(out, b"no memory"),
        Answer::DefineRefused(file) => put_numbered(out, b"define refused ", *file),
        Answer::AsmRefused(line, why) => put_refused_text(out, *line, *why),
    }
}

fn put_usage(out: &mut Vec<u8>, kind: UsageKind) -> Result<(), AllocError>
    ensures { OnOk result (out.new.items ≡ out.old.items ++ usage_text kind) }
{
    match kind {
        UsageKind::NoCommand => put(out, b"no command"),
        UsageKind::UnknownCommand => put(out, b"unknown command"),
        UsageKind::BadWords => put(out, b"bad words"),
        UsageKind::BadNumber => put(out, b"bad number"),
    }
}

/// A line's number, and why it is refused.
fn put_refused_line(out: &mut Vec<u8>, line: u32, why: ScriptWhy) -> Result<(), AllocError>
    ensures { OnOk result (out.new.items ≡ out.old.items ++ answer_text (ScriptRefused line why)) }
{
    put_numbered(out, b"script refused ", line)?;
    put(out, b" ")?;
    put_line_why(out, why)
}

fn put_line_why(out: &mut Vec<u8>, why: ScriptWhy) -> Result<(), AllocError>
    ensures { OnOk result (out.new.items ≡ out.old.items ++ why_word why) }
{
    put(out, why.word())
}

/// A line's number in an assembly text, and why it is refused.
fn put_refused_text(out: &mut Vec<u8>, line: u32, why: AsmWhy) -> Result<(), AllocError>
    ensures { OnOk result (out.new.items ≡ out.old.items ++ answer_text (AsmRefused line why)) }
{
    put_numbered(out, b"asm refused ", line)?;
    put(out, b" ")?;
    put_asm_why(out, why)
}

fn put_asm_why(out: &mut Vec<u8>, why: AsmWhy) -> Result<(), AllocError>
    ensures { OnOk result (out.new.items ≡ out.old.items ++ asm_why_text why) }
{
    match why {
        AsmWhy::Label => put(out, b"label"),
        AsmWhy::Word => put(out, b"word"),
        AsmWhy::Operands => put(out, b"operands"),
        AsmWhy::Number => put(out, b"number"),
        AsmWhy::Name => put(out, b"name"),
        AsmWhy::Section => put(out, b"section"),
    }
}

/// A file's number, and why it is refused.
fn put_refused_file(out: &mut Vec<u8>, file: u32, why: &ObjectWhy) -> Result<(), AllocError>
    ensures { OnOk result (out.new.items ≡ out.old.items ++ answer_text (ObjectRefused file why.now)) }
{
    put_numbered(out, b"object refused ", file)?;
    put(out, b" ")?;
    put_why(out, why)
}

fn put_why(out: &mut Vec<u8>, why: &ObjectWhy) -> Result<(), AllocError>
    ensures { OnOk result (out.new.items ≡ out.old.items ++ why_text why.now) }
{
    match why {
        ObjectWhy::Elf(error) => put_elf_error(out, error),
        ObjectWhy::Graph(error) => put_graph_error(out, error),
    }
}

fn put_graph_error(out: &mut Vec<u8>, error: &GraphError) -> Result<(), AllocError>
    ensures { OnOk result (out.new.items ≡ out.old.items ++ graph_text error.now) }
{
    match error {
        GraphError::UnknownReloc(kind, place) => {
            put_numbered(out, b"g1 ", *kind)?;
            put_placed(out, b" ", *place)
        }
        GraphError::RelocOutside(place) => put_placed(out, b"g2 ", *place),
        GraphError::TlsOrIfunc(symbol) => put_numbered(out, b"g3 ", *symbol),
        GraphError::BadPair(place) => put_placed(out, b"g4 ", *place),
        GraphError::NeedsAlign(place) => put_placed(out, b"g5 ", *place),
        GraphError::TooMany => put(out, b"g6"),
        GraphError::NoMemory => put(out, b"g7"),
    }
}

fn put_elf_error(out: &mut Vec<u8>, error: &ElfError) -> Result<(), AllocError>
    ensures { OnOk result (out.new.items ≡ out.old.items ++ elf_text error.now) }
{
    match error {
        ElfError::Short(place) => put_numbered(out, b"e1 ", *place),
        ElfError::BadMagic => put(out, b"e2"),
        ElfError::NotClass64 => put(out, b"e3"),
        ElfError::NotLittle => put(out, b"e4"),
        ElfError::NotRelocatable => put(out, b"e5"),
        ElfError::NotRiscv => put(out, b"e6"),
        ElfError::BadFlags(flags) => put_numbered(out, b"e7 ", *flags),
        ElfError::BadTable(section) => put_numbered(out, b"e8 ", *section),
        ElfError::BadSymbol(symbol) => put_numbered(out, b"e9 ", *symbol),
        ElfError::BadLink(section) => put_numbered(out, b"e10 ", *section),
        ElfError::Overlap(section) => put_numbered(out, b"e11 ", *section),
        ElfError::NotBuilt(kind) => {
            put(out, b"e12 ")?;
            put_kind(out, *kind)
        }
        ElfError::NoMemory => put(out, b"e13"),
    }
}

fn put_kind(out: &mut Vec<u8>, kind: NotBuiltKind) -> Result<(), AllocError>
    ensures { OnOk result (out.new.items ≡ out.old.items ++ kind_text kind) }
{
    match kind {
        NotBuiltKind::Group => put(out, b"group"),
        NotBuiltKind::Rel => put(out, b"rel"),
        NotBuiltKind::Tls => put(out, b"tls"),
        NotBuiltKind::Compressed => put(out, b"compressed"),
        NotBuiltKind::SectionKind => put(out, b"sectionkind"),
        NotBuiltKind::Xindex => put(out, b"xindex"),
        NotBuiltKind::Bind => put(out, b"bind"),
    }
}
