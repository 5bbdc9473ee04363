/// Where the instances of a unit stand: from this one on, so many.
#[derive(Clone, Copy)]
pub struct Span {
    pub first: u32,
    pub count: u32,
}
