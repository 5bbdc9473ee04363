/// What an entry of the section table says of a section, but for its name and its place.
#[derive(Clone, Copy)]
pub(crate) struct Header {
    pub kind: u32,
    pub flags: u64,
    pub size: u64,
    pub link: u64,
    pub info: u64,
    pub align: u64,
    pub entry_size: u64,
}
