//! What the pools of a driver get of its options.

ghost use Rattle.std.specs.Prelude.{◌≡◌};
ghost use Rattle.mdb_log.specs.Opening.{pool_options};

use mdb_base::Options;
use mdb_log::PoolOptions;

/// The options of each pool that these open.
pub(crate) fn pool_options(options: &Options) -> PoolOptions
    ensures { result ≡ pool_options options.now }
{
    PoolOptions {
        max_pool_size: options.max_pool_size,
        min_pool_size: options.min_pool_size,
        max_idle_time: options.max_idle_time,
        max_wait: options.max_wait,
        max_connecting: options.max_connecting,
        load_balanced: options.load_balanced,
        limit_id: options.limit_id.unwrap_or(u32::MAX),
        limit_generation: options.limit_generation.unwrap_or(u64::MAX),
    }
}
