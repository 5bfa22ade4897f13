//! A proxy that gives each tenant a share of every pool: what a tenant asks past its share is held back until connections of its own come back.
#![tactic(auto)]

mod asked;
mod asking;
mod books;
mod collecting;
mod freed;
mod handing;
mod notes;
mod passed;
mod proxy;
mod recording;
mod shares;
mod standings;
mod step;
mod told;

pub use asked::Asked;
pub use passed::is_passed;
pub use proxy::Proxy;
pub use shares::ShareError;
pub use step::{Answer, ProxyAct, ProxyRefused, ProxyReply, ProxyStep};
