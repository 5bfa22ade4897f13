//! What a driver is opened with.

ghost use Rattle.std.specs.Prelude.{◌≡◌};

use crate::address::ServerAddress;
use crate::items::Items;
use crate::object_id::ObjectId;
use crate::text::Text;
use crate::times::Moment;
use std::alloc::AllocError;

/// The options of a driver. `None` means that the default holds.
#[derive(Debug, Drop)]
pub struct Options {
    pub seeds: Items<ServerAddress>,
    pub set_name: Option<Text>,
    pub direct: bool,
    pub load_balanced: bool,
    pub max_pool_size: Option<u32>,
    pub min_pool_size: Option<u32>,
    pub max_connecting: Option<u32>,
    pub max_idle_time: Option<Moment>,
    /// How long a caller may wait in the queue of a pool, in milliseconds. 0, as no limit, ends nobody.
    pub max_wait: Option<Moment>,
    pub heartbeat: Option<Moment>,
    pub connect: Option<Moment>,
    pub streaming: Option<bool>,
    pub limit_id: Option<u32>,
    pub limit_generation: Option<u64>,
    pub limit_pool: Option<u32>,
    pub limit_monitor: Option<u32>,
    pub topology_id: ObjectId,
}

impl Clone for Options {
    ghost is_clone = { λ s t. t ≡ s };

    fn clone(&self) -> Result<Options, AllocError> {
        let seeds = self.seeds.clone()?;
        let set_name = match &self.set_name {
            Some(name) => Some(name.clone()?),
            None => None,
        };
        Ok(Options {
            seeds,
            set_name,
            direct: self.direct,
            load_balanced: self.load_balanced,
            max_pool_size: self.max_pool_size,
            min_pool_size: self.min_pool_size,
            max_connecting: self.max_connecting,
            max_idle_time: self.max_idle_time,
            max_wait: self.max_wait,
            heartbeat: self.heartbeat,
            connect: self.connect,
            streaming: self.streaming,
            limit_id: self.limit_id,
            limit_generation: self.limit_generation,
            limit_pool: self.limit_pool,
            limit_monitor: self.limit_monitor,
            topology_id: self.topology_id,
        })
    }
}

/// The first rule of options that is broken.
#[derive(Clone, Copy, Debug, PartialEq, Eq)]
pub enum BadOption {
    /// There are 1 to 128 seeds, all different.
    Seeds,
    /// A direct connection and a load balancer have exactly one seed.
    OneSeed,
    /// A direct connection has no load balancer.
    DirectAndBalanced,
    /// A load balancer has no set name.
    SetName,
    /// The greatest pool size and the greatest number of pending connections are 1 to 65,535.
    MaxOrConnecting,
    /// The least pool size is at most 65,535.
    Min,
    /// The last pool number that the seeds need is at most the limit of pool numbers.
    PoolLimit,
}
