//! The parts of a line that speak of names, units, levels and scopes.
ghost use Rattle.std.specs.Prelude.{◌≡◌, ◌++◌, OnOk};
ghost use Rattle.journal_text.specs.Parts.{IsGiven, name_text, unit_text, level_text, scope_text};

use orc_ids::{Level, NameId, Scope, UnitName};
use orc_names::Names;
use std::alloc::AllocError;
use text_parts::{put, put_numbered};

/// A text and a name.
pub fn put_named(
    out: &mut Vec<u8>,
    text: &[u8],
    names: &Names,
    name: NameId,
) -> Result<(), AllocError>
    requires { IsGiven names.now name }
    ensures { OnOk result (out.new.items ≡ out.old.items ++ (text.now ++ name_text names.now name)) }
{
    put(out, text)?;
    put(out, names.text(name))
}

/// A text and what the journal calls a unit.
pub(crate) fn put_unit(out: &mut Vec<u8>, text: &[u8], unit: UnitName) -> Result<(), AllocError>
    ensures { OnOk result (out.new.items ≡ out.old.items ++ (text.now ++ unit_text unit)) }
{
    put(out, text)?;
    match unit {
        UnitName::Object(file) => put_numbered(out, b"o", file),
        UnitName::Absolute(line) => put_numbered(out, b"a", line),
        UnitName::Alias(line) => put_numbered(out, b"l", line),
    }
}

/// The word for a level.
pub(crate) fn level_word(level: Level) -> &'static [u8]
    ensures { result.now ≡ level_text level }
{
    match level {
        Level::Resolved => b"resolved",
        Level::Ready => b"ready",
    }
}

/// A scope, with the colon before it.
pub(crate) fn scope_word(scope: Scope) -> &'static [u8]
    ensures { result.now ≡ scope_text scope }
{
    match scope {
        Scope::All => b":all",
        Scope::Exported => b":exported",
    }
}
