ghost use Rattle.std.specs.Prelude.{◌≡◌, ◌++◌, All, IfOk, OnOk, map};
ghost use Rattle.result_text.specs.Known.{AreKnownEnds, AreAsked, KnownEnd};
ghost use Rattle.result_text.specs.Results.{line_text, lines_from, text_of_ends};

use crate::lists::list_at;
use crate::results::put_result;
use orc_ids::{Bytes, Items, Wanted};
use orc_names::Names;
use script_model::LineEnd;
use std::alloc::{AllocError, Global};
use text_parts::{put, put_pair};

/// How each line of each client ended, a line for each. `wanted` has for each of them the names that it
/// looks up, and none where it is no lookup. The work is linear in the text.
pub fn text_of_results(
    alloc: Global,
    names: &Names,
    wanted: &[Items<Items<Wanted>>],
    ends: &[Vec<LineEnd>],
) -> Result<Bytes, AllocError>
    requires { AreKnownEnds names.now wanted.now (map (λ c. c.items) ends.now) }
    ensures { IfOk result (λ text. text ≡ text_of_ends names.now wanted.now (map (λ c. c.items) ends.now)) }
{
    let mut out = Vec::new(alloc);
    for (k, client) in ends.iter().enumerate() {
        put_client(
            alloc,
            &mut out,
            names,
            k + 1,
            list_at(wanted, k),
            client.as_slice(),
        )?;
    }
    Ok(Bytes::from_vec(out))
}

/// The lines of the client of this number.
fn put_client(
    alloc: Global,
    out: &mut Vec<u8>,
    names: &Names,
    client: usize,
    wanted: &[Items<Wanted>],
    ends: &[LineEnd],
) -> Result<(), AllocError>
    requires asked { All (AreAsked names.now) wanted.now }
    requires answered { All (KnownEnd names.now) ends.now }
    ensures { OnOk result (out.new.items ≡ out.old.items ++ lines_from names.now client wanted.now 0 ends.now) }
{
    for (k, end) in ends.iter().enumerate() {
        put_line(alloc, out, names, client, k + 1, list_at(wanted, k), end)?;
    }
    Ok(())
}

fn put_line(
    alloc: Global,
    out: &mut Vec<u8>,
    names: &Names,
    client: usize,
    line: usize,
    wanted: &[Wanted],
    end: &LineEnd,
) -> Result<(), AllocError>
    requires asked { AreAsked names.now wanted.now }
    requires answered { KnownEnd names.now end.now }
    ensures { OnOk result (out.new.items ≡ out.old.items ++ line_text names.now client line wanted.now end.now) }
{
    put_pair(out, b"c", client, b" l", line)?;
    put(out, b" ")?;
    put_result(alloc, out, names, wanted, end)?;
    put(out, b"\n")
}
