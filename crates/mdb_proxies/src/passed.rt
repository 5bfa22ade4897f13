//! Which acts a proxy hands on as they are.

ghost use Rattle.std.specs.Prelude.{◌≡◌};
ghost use Rattle.mdb_proxies.specs.Passing.{is_passed};

use mdb_log::Act;

/// The act is one that a proxy hands on as it is: one of workers, monitors and watchers, an expiry or a stop.
pub fn is_passed(act: &Act) -> bool
    ensures { result ≡ is_passed act.now }
{
    match act {
        Act::Claim => true,
        Act::Established(_, _, _) => true,
        Act::Failed(_, _, _, _) => true,
        Act::Error(_, _) => true,
        Act::Hello(_, _, _) => true,
        Act::Beat(_, _) => true,
        Act::Beaten(_, _, _, _) => true,
        Act::Rtt(_, _, _) => true,
        Act::Hosts(_) => true,
        Act::ClusterTime(_) => true,
        Act::Want(_) => true,
        Act::Unwant(_) => true,
        Act::Stop => true,
        Act::Expire(_) => true,
        _ => false,
    }
}
