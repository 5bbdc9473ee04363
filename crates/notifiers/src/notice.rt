use orc_ids::Outcome;

/// An object that has heard nothing, with its note.
#[derive(Drop)]
pub struct Unheard<N> {
    pub note: u32,
    pub what: N,
}

/// An object that has heard an outcome, with its note.
#[derive(Drop)]
pub struct Heard<N> {
    pub note: u32,
    pub what: N,
    pub outcome: Outcome,
}

/// An object with its note, and the outcome that it is to be told or has heard.
#[derive(Drop)]
pub struct Notice<N> {
    pub note: u32,
    pub what: N,
    pub outcome: Outcome,
}
