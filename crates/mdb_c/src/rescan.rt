//! When SRV records are looked up again.

ghost use Rattle.std.specs.Prelude.{◌≡◌};
ghost use Rattle.mdb_c.specs.Rescan.{rescan};

use mdb_srv::{on_lookup, rescan_interval};

/// After how many seconds the records are looked up again ("Polling SRV Records for mongos Discovery"). `accepted` is how many hosts of the last lookup
/// were accepted, 0 where it failed; `ttl` the least time to live of their records, and `heartbeat` the time between two checks, in seconds.
#[unsafe(no_mangle)]
pub extern "C" fn mdb_srv_rescan(accepted: u32, ttl: u32, heartbeat: u64) -> u64
    ensures { result ≡ rescan accepted ttl heartbeat }
{
    if accepted == 0 {
        rescan_interval(on_lookup(Err(()), heartbeat))
    } else {
        rescan_interval(u64::from(ttl))
    }
}
