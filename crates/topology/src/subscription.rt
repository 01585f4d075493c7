//! What a computation reads, and how it extracts its keys, Akidau et al., VLDB 2013, section 4.2.

/// How a consumer extracts its key from a record's.
#[derive(Clone, Copy, PartialEq, Eq)]
pub enum By {
    /// The whole key.
    Key,
    /// What stands before the first slash.
    Head,
    /// What stands after the first slash.
    Tail,
}

/// One reading of a stream by a computation.
#[derive(Clone, Copy, PartialEq, Eq)]
pub struct Subscription {
    /// The part that reads.
    pub to: u32,
    /// How it extracts its key.
    pub by: By,
}
