//! Why an entry is at fault.

/// What is wrong with an entry: the first of these that applies.
#[derive(Clone, Copy, Debug, PartialEq, Eq)]
pub enum Why {
    /// The line is no entry's text, or has no newline.
    Spelling,
    /// The first entry was refused; or it doesn't open exactly the seeds, in the order of their addresses, with numbers from 0;
    /// or a pool that it opens isn't ready, where there is a load balancer.
    Opening,
    /// A grant isn't to who comes first.
    Grant,
    /// A connection has no place, or more than one.
    Place,
    /// A caller waits who could be granted a connection.
    Waiting,
}
