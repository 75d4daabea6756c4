// A draft as a store tells of it: the length of its key, which stands in a lent buffer since nothing allocates, its size, and the number
// of bytes so far.
#[derive(Clone, Copy, PartialEq, Eq, Debug)]
pub struct Pending {
    pub key: usize,
    pub size: u32,
    pub so_far: u32,
}
