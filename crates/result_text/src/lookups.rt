ghost use Rattle.std.specs.Prelude.{◌≡◌, ◌++◌, OnOk};
ghost use Rattle.result_text.specs.Known.{AreAsked, KnownLook};
ghost use Rattle.result_text.specs.Results.{address_text, given_text, look_text};

use crate::stops::put_stop;
use journal_text::put_named;
use orc_ids::{InstId, Stop, Wanted};
use orc_names::Names;
use session_model::LookEnd;
use std::alloc::{AllocError, Global};
use text_parts::{put, put_at, put_numbered};

/// How a lookup of these names ended.
pub(crate) fn put_looked(
    alloc: Global,
    out: &mut Vec<u8>,
    names: &Names,
    wanted: &[Wanted],
    end: &LookEnd,
) -> Result<(), AllocError>
    requires asked { AreAsked names.now wanted.now }
    requires answered { KnownLook names.now end.now }
    ensures { OnOk result (out.new.items ≡ out.old.items ++ look_text names.now wanted.now end.now) }
{
    match end {
        LookEnd::Found(matches) => {
            put(out, b"found")?;
            put_given(alloc, out, names, wanted, matches.as_slice())
        }
        LookEnd::Failed(i) => put_numbered(out, b"failed i", i.0),
        LookEnd::InError(i) => put_numbered(out, b"inerror i", i.0),
        LookEnd::Missing(name) => put_named(out, b"missing ", names, *name),
        LookEnd::NoDylib(d) => put_numbered(out, b"nodylib d", d.0),
        LookEnd::JournalFull(len) => put_stop(out, Stop::JournalFull(*len)),
        LookEnd::NoMemory => put_stop(out, Stop::NoMemory),
    }
}

/// Each name with its address.
fn put_given(
    alloc: Global,
    out: &mut Vec<u8>,
    names: &Names,
    wanted: &[Wanted],
    matches: &[Option<(InstId, u64)>],
) -> Result<(), AllocError>
    requires { AreAsked names.now wanted.now }
    ensures { OnOk result (out.new.items ≡ out.old.items ++ given_text names.now wanted.now matches.now) }
{
    for (k, w) in wanted.iter().enumerate() {
        let Some(found) = matches.get(k) else {
            return Ok(());
        };
        put_named(out, b" ", names, w.name)?;
        put_address(alloc, out, *found)?;
    }
    Ok(())
}

fn put_address(
    alloc: Global,
    out: &mut Vec<u8>,
    found: Option<(InstId, u64)>,
) -> Result<(), AllocError>
    ensures { OnOk result (out.new.items ≡ out.old.items ++ address_text found) }
{
    match found {
        Some((_, address)) => put_at(alloc, out, b"@", address),
        None => put(out, b"@none"),
    }
}
