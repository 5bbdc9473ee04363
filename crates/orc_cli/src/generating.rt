//! What `orc gen` found, as what is to be written.
ghost use Rattle.std.specs.Prelude.{◌≡◌, []};

use crate::running::Found;
use gen_command::SummaryFound;
use orc_ids::Bytes;
use std::alloc::Global;

/// The text of what the session came to is output, and the log has the end line alone.
pub(crate) fn of_summary(alloc: Global, summary: SummaryFound) -> Found
    ensures answer { result.answer ≡ summary.answer }
    ensures output { result.output ≡ summary.output }
    ensures journal { result.journal ≡ [] }
{
    Found {
        answer: summary.answer,
        output: summary.output,
        journal: Bytes::new(alloc),
    }
}
