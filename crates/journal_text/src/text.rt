ghost use Rattle.std.specs.Prelude.{◌≡◌, ◌++◌, IfOk, OnOk};
ghost use Rattle.session_model.specs.State.{plain_entry, plain_history};
ghost use Rattle.journal_text.specs.Journal.{line_of, text_of_history, KnownEntry, AreKnown};

use crate::events::put_event;
use crate::replies::put_reply;
use orc_ids::Bytes;
use orc_names::Names;
use session_model::{Entry, UnitKind};
use std::alloc::{AllocError, Global};
use text_parts::{put, put_decimal, put_numbered};

/// The text of a history, whose names the table gave. The work is linear in the text.
pub fn text_of<U: UnitKind>(
    alloc: Global,
    entries: &[Entry<U>],
    names: &Names,
) -> Result<Bytes, AllocError>
    requires { AreKnown names.now (plain_history U.meaning entries.now) }
    ensures { IfOk result (λ text. text ≡ text_of_history names.now (plain_history U.meaning entries.now)) }
{
    let mut out = Vec::new(alloc);
    let mut number: u64 = 0;
    for entry in entries {
        number += 1;
        put_line(alloc, &mut out, names, number, entry)?;
    }
    Ok(Bytes::from_vec(out))
}

fn put_line<U: UnitKind>(
    alloc: Global,
    out: &mut Vec<u8>,
    names: &Names,
    number: u64,
    entry: &Entry<U>,
) -> Result<(), AllocError>
    requires { KnownEntry names.now (plain_entry U.meaning entry.now) }
    ensures { OnOk result (out.new.items ≡ out.old.items ++ line_of names.now number (plain_entry U.meaning entry.now)) }
{
    put_decimal(out, number)?;
    put_numbered(out, b" s", entry.seat.0)?;
    put(out, b" ")?;
    put_event(out, names, &entry.event)?;
    put(out, b" = ")?;
    put_reply(alloc, out, names, &entry.reply)?;
    put(out, b"\n")
}
