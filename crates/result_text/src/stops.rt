ghost use Rattle.std.specs.Prelude.{◌≡◌, ◌++◌, OnOk};
ghost use Rattle.result_text.specs.Results.{stop_text};

use orc_ids::Stop;
use std::alloc::AllocError;
use text_parts::put;

/// Why a call made no entry.
pub(crate) fn put_stop(out: &mut Vec<u8>, stop: Stop) -> Result<(), AllocError>
    ensures { OnOk result (out.new.items ≡ out.old.items ++ stop_text stop) }
{
    match stop {
        Stop::JournalFull(_) => put(out, b"full"),
        Stop::NoMemory => put(out, b"nomemory"),
    }
}
