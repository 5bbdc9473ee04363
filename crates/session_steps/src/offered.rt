use orc_ids::Stop;
use session_model::Reply;

/// The answer of an event that was handed a unit, and the unit where the session didn't take it.
#[derive(Drop)]
pub struct Offered<U> {
    pub answer: Result<Reply, Stop>,
    pub back: Option<U>,
}
