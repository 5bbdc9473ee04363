//! The script that a source has.
ghost use Rattle.std.specs.Prelude.{◌≡◌, ◌≤◌, length, IfOk, IfErr, OnOk};
ghost use Rattle.std.specs.Io.KnownBytes.{IsAtEnd};
ghost use Rattle.session_script.specs.declared.limits.TheConstants.{SIZE_LIMIT};
ghost use Rattle.session_script.specs.WellFormed.{IsWellFormed};
ghost use Rattle.session_command.specs.Found.{IsUnasked, IsUnread};
ghost use Rattle.session_command.specs.Reads.{IsSourceReadFor};
ghost use Rattle.session_command.specs.Texts.{AreRead, IsScriptOn};

use answers::Answer;
use orc_ids::Bytes;
use orc_io::{ReadError, Source, read_source};
use orc_names::NameHasher;
use session_script::{SIZE_LIMIT, Script, ScriptError, read_script};
use std::alloc::Global;

/// What the source has left, up to one byte more than a script may have.
fn read_text<S: Source>(alloc: Global, source: &mut S) -> Result<Bytes, Answer>
    ensures read { IfOk result (AreRead (S.left source.old)) }
    ensures unread { IfErr result (IsUnread (S.faults source.old) (S.faults source.new)) }
    ensures end { IfOk result (λ text. length text ≤ SIZE_LIMIT → IsAtEnd (S.left source.new)) }
    ensures quiet { OnOk result (S.faults source.new ≡ S.faults source.old) }
    ensures source_read { IfErr result (IsSourceReadFor (S.faults source.old) (S.faults source.new)) }
    ensures counted { S.faults source.old ≤ S.faults source.new }
{
    match read_source(alloc, source, SIZE_LIMIT) {
        Ok(text) => Ok(text),
        Err(ReadError::TooLong(front)) => Ok(front),
        Err(ReadError::Failed) => Err(Answer::ReadFault),
        Err(ReadError::NoMemory) => Err(Answer::NoMemory),
    }
}

/// The script on the source, for so many notes; or what is answered where there is none.
pub(crate) fn read_asked<S: Source>(
    alloc: Global,
    hasher: NameHasher,
    source: &mut S,
    notes: u32,
) -> Result<Script, Answer>
    ensures asked { IfOk result (IsScriptOn (S.left source.old) notes) }
    ensures well_formed { IfOk result (IsWellFormed notes) }
    ensures end { OnOk result (IsAtEnd (S.left source.new)) }
    ensures unasked { IfErr result (IsUnasked (S.left source.old) notes (S.faults source.old) (S.faults source.new)) }
    ensures quiet { OnOk result (S.faults source.new ≡ S.faults source.old) }
    ensures source_read { IfErr result (IsSourceReadFor (S.faults source.old) (S.faults source.new)) }
    ensures counted { S.faults source.old ≤ S.faults source.new }
{
    let text = read_text(alloc, source)?;
    match read_script(alloc, text.as_slice(), notes, hasher) {
        Ok(script) => Ok(script),
        Err(ScriptError::BadLine(line, why)) => Err(Answer::ScriptRefused(line, why)),
        Err(ScriptError::NoMemory) => Err(Answer::NoMemory),
    }
}
