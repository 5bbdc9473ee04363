/// What a client is told of a name without waiting for the session.
#[derive(Clone, Copy, PartialEq, Eq)]
pub enum Peek {
    /// No lookup of the client's gave the name an instance, or the latest gave it none.
    Unfound,
    /// No word of its instance was found.
    NotYet,
    /// Its instance is ready at this address.
    Ready(u64),
}
