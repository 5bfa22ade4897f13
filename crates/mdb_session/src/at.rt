//! Who makes a step, and when.

/// Who makes a step, and when.
#[repr(C)]
#[derive(Clone, Copy, Debug, PartialEq, Eq)]
pub struct At {
    /// The moment, in milliseconds of any clock that never goes back.
    pub moment: u64,
    /// A number that the entry carries, such as that of a thread. It changes nothing.
    pub seat: u32,
}
