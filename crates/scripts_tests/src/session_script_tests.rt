mod accepted;
mod cycle;
mod limits;
mod refused;

use orc_names::NameHasher;
use session_script::{Script, ScriptError, read_script};
use std::alloc::Global;

/// What a script gives where there are two notes.
fn read(alloc: Global, text: &str) -> Result<Script, ScriptError> {
    read_script(alloc, text.as_bytes(), 2, NameHasher::Fixed)
}
