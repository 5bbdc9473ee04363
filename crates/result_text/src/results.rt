ghost use Rattle.std.specs.Prelude.{◌≡◌, ◌++◌, OnOk};
ghost use Rattle.result_text.specs.Known.{AreAsked, KnownEnd};
ghost use Rattle.result_text.specs.Results.{output_text, peek_text, ran_text, result_text};

use crate::lookups::put_looked;
use crate::stops::put_stop;
use exec_run::{RunEnd, put_run_end};
use journal_text::put_reply;
use orc_ids::Wanted;
use orc_names::Names;
use script_model::LineEnd;
use session_model::Peek;
use std::alloc::{AllocError, Global};
use text_parts::{put, put_at, put_hex_bytes};

/// How a line ended that looks up these names.
pub(crate) fn put_result(
    alloc: Global,
    out: &mut Vec<u8>,
    names: &Names,
    wanted: &[Wanted],
    end: &LineEnd,
) -> Result<(), AllocError>
    requires asked { AreAsked names.now wanted.now }
    requires answered { KnownEnd names.now end.now }
    ensures { OnOk result (out.new.items ≡ out.old.items ++ result_text names.now wanted.now end.now) }
{
    match end {
        LineEnd::Replied(reply) => put_reply(alloc, out, names, reply),
        LineEnd::Looked(end) => put_looked(alloc, out, names, wanted, end),
        LineEnd::Ran(end, output) => put_ran(alloc, out, *end, output.as_slice()),
        LineEnd::Unfound => put(out, b"unfound"),
        LineEnd::Peeked(told) => put_peeked(alloc, out, *told),
        LineEnd::Stopped(stop) => put_stop(out, *stop),
        LineEnd::Skipped => put(out, b"skipped"),
    }
}

/// What a peek told.
fn put_peeked(alloc: Global, out: &mut Vec<u8>, told: Peek) -> Result<(), AllocError>
    ensures { OnOk result (out.new.items ≡ out.old.items ++ peek_text told) }
{
    match told {
        Peek::Unfound => put(out, b"unfound"),
        Peek::NotYet => put(out, b"notyet"),
        Peek::Ready(address) => put_at(alloc, out, b"ready ", address),
    }
}

/// How a run ended, and what it wrote.
fn put_ran(alloc: Global, out: &mut Vec<u8>, end: RunEnd, output: &[u8]) -> Result<(), AllocError>
    ensures { OnOk result (out.new.items ≡ out.old.items ++ ran_text end output.now) }
{
    put_run_end(alloc, out, end)?;
    put(out, b" ")?;
    put_output(alloc, out, output)
}

fn put_output(alloc: Global, out: &mut Vec<u8>, output: &[u8]) -> Result<(), AllocError>
    ensures { OnOk result (out.new.items ≡ out.old.items ++ output_text output.now) }
{
    if output.is_empty() {
        put(out, b"-")
    } else {
        put_hex_bytes(alloc, out, output)
    }
}
