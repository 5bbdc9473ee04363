ghost use Rattle.std.specs.Prelude.{◌≡◌, not, IfOk};
ghost use Rattle.std.specs.List.{list_all};
ghost use Rattle.asm_lines.specs.Directives as want;
ghost use Rattle.asm_lines.specs.Pieces.{pieces_of};
ghost use Rattle.asm_lines.specs.Statements.{Answers, Encodable, is_up_to, is_alignment};

use crate::data::{ascii_statement, values_statement};
use crate::immediates::is_short;
use crate::instructions::instruction_of;
use crate::name::Name;
use crate::numbers::number_of;
use crate::operands::ended;
use crate::pieces::Pieces;
use crate::statement::{AsmWhy, LineError, SectionKind, Statement};
use crate::words::{has_symbol_bytes, is_blank, is_symbol, len_before};
use std::alloc::Global;

/// The most bytes of `.zero` and of a common symbol.
const LARGEST_SIZE: i128 = 0x100_0000;

#[tactic(auto, unfolding(crate::specs::Directives::section_kind))]
fn section_kind(name: &[u8]) -> Option<SectionKind>
    ensures { result ≡ want.section_kind name.now }
{
    if name == b".text".as_slice() {
        Some(SectionKind::Text)
    } else if name == b".data".as_slice() {
        Some(SectionKind::Data)
    } else if name == b".bss".as_slice() {
        Some(SectionKind::Bss)
    } else if name == b".rodata".as_slice() || name == b".eh_frame".as_slice() {
        Some(SectionKind::ReadOnly)
    } else {
        None
    }
}

/// How many bytes stand before the second dot of a name, or the end, if there is a byte.
fn second_dot(name: &[u8]) -> usize
    ensures { result ≡ want.second_dot name.now }
{
    match name {
        [] => 1,
        [_, rest @ ..] => 1 + len_before(rest, b'.'),
    }
}

/// What a section of a name is for, if there may be one.
#[tactic(auto, unfolding(crate::specs::Directives::kind_of_name))]
fn kind_of_name(name: &[u8]) -> Option<SectionKind>
    ensures { result ≡ want.kind_of_name name.now }
{
    let n = second_dot(name);
    if name.len() <= n {
        return section_kind(name);
    }
    if n + 1 < name.len() && has_symbol_bytes(&name[n + 1..]) {
        section_kind(&name[..n])
    } else {
        None
    }
}

fn parts_names(byte: u8) -> bool
    ensures { result ≡ want.parts_names byte }
{
    is_blank(byte) || byte == b',' || byte == b'(' || byte == b')' || byte == b'"'
}

fn has_no_part(text: &[u8]) -> bool
    ensures { result ≡ list_all (λ b. not (want.parts_names b)) text.now }
{
    text.iter().all(|byte| !parts_names(*byte))
}

fn is_section_word(text: &[u8]) -> bool
    ensures { result ≡ want.is_section_word text.now }
{
    match text {
        [] => false,
        [_, ..] => has_no_part(text),
    }
}

/// `.section NAME`.
#[tactic(auto, unfolding(crate::specs::Directives::section_statement))]
fn section_statement(text: &[u8]) -> Result<Statement<'_>, AsmWhy>
    ensures exact { result ≡ want.section_statement text.now }
    ensures encodable { IfOk result Encodable }
{
    if !is_section_word(text) {
        return Err(AsmWhy::Operands);
    }
    match kind_of_name(text) {
        None => Err(AsmWhy::Section),
        Some(kind) => Ok(Statement::Section {
            name: Name::new(text),
            kind,
        }),
    }
}

/// `.text`, `.data` and `.bss`.
#[tactic(auto, unfolding(crate::specs::Directives::bare_section))]
fn bare_section<'a>(
    name: &'static [u8],
    kind: SectionKind,
    text: &'a [u8],
) -> Result<Statement<'a>, AsmWhy>
    ensures exact { result ≡ want.bare_section name.now kind text.now }
    ensures encodable { IfOk result Encodable }
{
    match text {
        [] => Ok(Statement::Section {
            name: Name::new(name),
            kind,
        }),
        [_, ..] => Err(AsmWhy::Operands),
    }
}

/// The one symbol of a directive.
#[tactic(auto, unfolding(crate::specs::Directives::symbol_operand))]
fn symbol_operand(text: &[u8]) -> Result<Name<'_>, AsmWhy>
    ensures { result ≡ want.symbol_operand text.now }
{
    if !is_symbol(text) {
        return Err(AsmWhy::Operands);
    }
    let symbol = Name::new(text);
    if !is_short(&symbol) {
        return Err(AsmWhy::Name);
    }
    Ok(symbol)
}

fn is_up_to_largest(n: i128) -> bool
    ensures { result ≡ is_up_to want.largest_size n }
{
    0 <= n && n <= LARGEST_SIZE
}

fn is_alignment(n: i128) -> bool
    ensures { result ≡ is_alignment n }
{
    matches!(
        n,
        1 | 2 | 4 | 8 | 16 | 32 | 64 | 128 | 256 | 512 | 1024 | 2048 | 4096
    )
}

/// `.zero N`.
#[tactic(auto, unfolding(crate::specs::Directives::zero_statement))]
fn zero_statement(text: &[u8]) -> Result<Statement<'_>, AsmWhy>
    ensures exact { result ≡ want.zero_statement text.now }
    ensures encodable { IfOk result Encodable }
{
    let size = number_of(text).ok_or(AsmWhy::Operands)?;
    if !is_up_to_largest(size) {
        return Err(AsmWhy::Number);
    }
    Ok(Statement::Zero(size as u64))
}

/// `.balign N`.
#[tactic(auto, unfolding(crate::specs::Directives::align_statement))]
fn align_statement(text: &[u8]) -> Result<Statement<'_>, AsmWhy>
    ensures exact { result ≡ want.align_statement text.now }
    ensures encodable { IfOk result Encodable }
{
    let align = number_of(text).ok_or(AsmWhy::Operands)?;
    if !is_alignment(align) {
        return Err(AsmWhy::Number);
    }
    Ok(Statement::Align(align as u64))
}

fn symbol_of(text: &[u8]) -> Option<Name<'_>>
    ensures { result ≡ want.symbol_of text.now }
{
    is_symbol(text).then_some(Name::new(text))
}

#[tactic(auto, unfolding(crate::specs::Directives::common_operands))]
fn common_operands(text: &[u8]) -> Option<(Name<'_>, i128, i128)>
    ensures { result ≡ want.common_operands (pieces_of text.now) }
{
    let mut pieces = Pieces::new(text);
    let symbol = symbol_of(pieces.next()?)?;
    let size = number_of(pieces.next()?)?;
    let align = number_of(pieces.next()?)?;
    ended(pieces, (symbol, size, align))
}

/// `.comm S, SIZE, ALIGN`.
#[tactic(auto, unfolding(crate::specs::Directives::common_statement))]
fn common_statement(text: &[u8]) -> Result<Statement<'_>, AsmWhy>
    ensures exact { result ≡ want.common_statement text.now }
    ensures encodable { IfOk result Encodable }
{
    let (symbol, size, align) = common_operands(text).ok_or(AsmWhy::Operands)?;
    if !is_up_to_largest(size) || !is_alignment(align) {
        return Err(AsmWhy::Number);
    }
    if !is_short(&symbol) {
        return Err(AsmWhy::Name);
    }
    Ok(Statement::Common {
        symbol,
        size: size as u64,
        align: align as u64,
    })
}

/// `.option relax` and `.option norelax`.
#[tactic(auto, unfolding(crate::specs::Directives::option_statement))]
fn option_statement(text: &[u8]) -> Result<Statement<'_>, AsmWhy>
    ensures exact { result ≡ want.option_statement text.now }
    ensures encodable { IfOk result Encodable }
{
    if text == b"relax".as_slice() {
        Ok(Statement::Relax(true))
    } else if text == b"norelax".as_slice() {
        Ok(Statement::Relax(false))
    } else {
        Err(AsmWhy::Operands)
    }
}

/// The statement of a directive of sizes or options, or of an instruction.
#[tactic(auto, unfolding(crate::specs::Directives::size_directive))]
fn size_directive<'a>(word: &[u8], text: &'a [u8]) -> Result<Statement<'a>, AsmWhy>
    ensures exact { result ≡ want.size_directive word.now text.now }
    ensures encodable { IfOk result Encodable }
{
    if word == b".zero".as_slice() {
        zero_statement(text)
    } else if word == b".balign".as_slice() {
        align_statement(text)
    } else if word == b".comm".as_slice() {
        common_statement(text)
    } else if word == b".option".as_slice() {
        option_statement(text)
    } else {
        instruction_of(word, text)
    }
}

fn global_statement(text: &[u8]) -> Result<Statement<'_>, AsmWhy>
    ensures exact { result ≡ want.global_statement text.now }
    ensures encodable { IfOk result Encodable }
{
    Ok(Statement::Global(symbol_operand(text)?))
}

fn weak_statement(text: &[u8]) -> Result<Statement<'_>, AsmWhy>
    ensures exact { result ≡ want.weak_statement text.now }
    ensures encodable { IfOk result Encodable }
{
    Ok(Statement::Weak(symbol_operand(text)?))
}

fn hidden_statement(text: &[u8]) -> Result<Statement<'_>, AsmWhy>
    ensures exact { result ≡ want.hidden_statement text.now }
    ensures encodable { IfOk result Encodable }
{
    Ok(Statement::Hidden(symbol_operand(text)?))
}

/// The statement of a directive of a symbol, or of one of the words after it.
#[tactic(auto, unfolding(crate::specs::Directives::symbol_directive))]
fn symbol_directive<'a>(word: &[u8], text: &'a [u8]) -> Result<Statement<'a>, AsmWhy>
    ensures exact { result ≡ want.symbol_directive word.now text.now }
    ensures encodable { IfOk result Encodable }
{
    if word == b".globl".as_slice() {
        global_statement(text)
    } else if word == b".weak".as_slice() {
        weak_statement(text)
    } else if word == b".hidden".as_slice() {
        hidden_statement(text)
    } else {
        size_directive(word, text)
    }
}

/// The statement of a directive of sections, or of one of the words after it.
#[tactic(auto, unfolding(crate::specs::Directives::section_directive))]
fn section_directive<'a>(word: &[u8], text: &'a [u8]) -> Result<Statement<'a>, AsmWhy>
    ensures exact { result ≡ want.section_directive word.now text.now }
    ensures encodable { IfOk result Encodable }
{
    if word == b".text".as_slice() {
        bare_section(b".text", SectionKind::Text, text)
    } else if word == b".data".as_slice() {
        bare_section(b".data", SectionKind::Data, text)
    } else if word == b".bss".as_slice() {
        bare_section(b".bss", SectionKind::Bss, text)
    } else if word == b".section".as_slice() {
        section_statement(text)
    } else {
        symbol_directive(word, text)
    }
}

/// The statement of a word and its operands.
#[tactic(auto, unfolding(crate::specs::Directives::worded_statement))]
pub(crate) fn worded_statement<'a>(
    alloc: Global,
    word: &[u8],
    text: &'a [u8],
) -> Result<Statement<'a>, LineError>
    ensures exact { Answers (want.worded_statement word.now text.now) result }
    ensures encodable { IfOk result Encodable }
{
    if word == b".byte".as_slice() {
        return values_statement(alloc, 1, text);
    }
    if word == b".half".as_slice() {
        return values_statement(alloc, 2, text);
    }
    if word == b".word".as_slice() {
        return values_statement(alloc, 4, text);
    }
    if word == b".dword".as_slice() {
        return values_statement(alloc, 8, text);
    }
    if word == b".ascii".as_slice() {
        return ascii_statement(alloc, text);
    }
    match section_directive(word, text) {
        Ok(statement) => Ok(statement),
        Err(why) => Err(LineError::Bad(why)),
    }
}
