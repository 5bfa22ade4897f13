//! The acts of a pool, one a file, and the changes that they make.

pub mod changes;
pub mod claiming;
pub mod clearing;
pub mod closing;
pub mod collecting;
pub mod coming_back;
pub mod establishing;
pub mod expiring;
pub mod failing;
pub mod giving_up;
pub mod maintaining;
pub mod pinning;
pub mod readying;
pub mod requesting;
pub mod returning;
pub mod taking;
pub mod unpinning;
pub mod warming;
