use orc_ids::Items;
use session_model::{Dylib, InstRow, Job, Matches, Query, Track, UnitPhase};

/// A unit of a plain session.
#[derive(Drop)]
pub struct PlainUnit<U> {
    pub unit: U,
    pub tracker: u32,
    pub live: Items<bool>,
    pub phase: UnitPhase,
    pub seat: Option<u32>,
    pub base: Option<u64>,
    pub query: Option<u32>,
    pub bound: Option<Matches>,
}

/// A generator of a plain session.
#[derive(Drop)]
pub struct PlainGenerator<U> {
    pub dylib: u32,
    pub tracker: u32,
    pub unit: U,
    pub spent: bool,
}

/// A session as plain lists: every question is answered by going through them.
#[derive(Drop)]
pub struct PlainSession<U> {
    pub entries: u64,
    pub dylibs: Vec<Dylib>,
    pub trackers: Vec<Track>,
    pub rows: Vec<InstRow>,
    pub units: Vec<PlainUnit<U>>,
    pub generators: Vec<PlainGenerator<U>>,
    pub queries: Vec<Query>,
    pub jobs: Vec<Job>,
}
