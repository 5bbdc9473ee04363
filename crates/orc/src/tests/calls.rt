//! What a call of `orc` is made over, and what it comes to.

use super::contents::Files;
use super::expected::Expected;
use orc_ids::Outcome;

/// A call, and what it comes to.
#[derive(Clone, Copy)]
pub struct Call {
    pub words: &'static [&'static str],
    /// The text on the source.
    pub source: &'static str,
    pub files: Files,
    pub faults: Faults,
    /// For each notifier that is handed in what it is told, if anything.
    pub notes: &'static [Option<Outcome>],
    pub out: Expected,
    pub log: Expected,
    pub status: u8,
    pub reads: Reads,
}

/// What fails of an outside: of each device at most one call, by its number, which counts from 0, and what a sink has
/// no more room for.
#[derive(Clone, Copy)]
pub struct Faults {
    pub source: Option<u64>,
    pub files: Option<u64>,
    pub out: Option<u64>,
    pub log: Option<u64>,
    pub out_room: usize,
    pub log_room: usize,
}

/// More bytes than a call of these tests writes.
const ROOM: usize = 65_536;

/// Nothing fails.
pub const NO_FAULTS: Faults = Faults {
    source: None,
    files: None,
    out: None,
    log: None,
    out_room: ROOM,
    log_room: ROOM,
};

/// What a call may read.
#[derive(Clone, Copy)]
pub enum Reads {
    SourceAndFiles,
    FilesAlone,
    Nothing,
}
