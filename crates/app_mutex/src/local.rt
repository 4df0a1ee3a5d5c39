// What a node keeps.

/// What a node keeps: whether it is in, and its bit.
#[derive(Clone, Copy, Debug, PartialEq, Eq)]
pub struct MutexLocal {
    pub inside: bool,
    pub bit: bool,
}
