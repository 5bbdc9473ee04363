use exec_run::RunEnd;
use orc_ids::{Bytes, Stop};
use session_model::{LookEnd, Peek, Reply};

/// How a line of a client ended.
#[derive(Drop)]
pub enum LineEnd {
    /// A definition, a move or a removal was answered so.
    Replied(Reply),
    /// A lookup ended so. It is no stop.
    Looked(LookEnd),
    /// A run ended so, and wrote this.
    Ran(RunEnd, Bytes),
    /// The client's lookups gave no address to the name that a run begins at.
    Unfound,
    /// A peek told this of its name.
    Peeked(Peek),
    /// A call of the line found no place in the journal, or wanted memory.
    Stopped(Stop),
    /// A line before was stopped.
    Skipped,
}

/// How a script's session ended: the stop of the set-up, if a call of it was stopped, and how each line of
/// each client ended.
#[derive(Drop)]
pub struct ScriptEnd {
    pub set_up: Option<Stop>,
    pub clients: Vec<Vec<LineEnd>>,
}
