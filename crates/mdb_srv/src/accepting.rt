//! Which of the found hosts are accepted.
ghost use Rattle.std.specs.Prelude.{◌≡◌, IfOk, IfErr, filter, find, map, not};
ghost use Rattle.std.specs.Option.{option_copied};
ghost use Rattle.mdb_srv.specs.Hosts as hosts;
ghost use Rattle.mdb_srv.specs.Hosts.{valid_hosts, some_hosts};
ghost use Rattle.mdb_srv.specs.Answers.{Refuses};

use super::domain::{domain_of, is_within, labels};
use super::refusals::mismatch;
use super::{DomainMismatch, SrvError};
use mdb_base::ServerAddress;
use std::alloc::{AllocError, Global};

// The hosts that are accepted if there is one, or the refusal of a host that is not in the domain.
pub(crate) fn accepted(
    alloc: Global,
    original: &str,
    dm: DomainMismatch,
    found: Vec<ServerAddress>,
) -> Result<Vec<ServerAddress>, SrvError>
    ensures kept { IfOk result (λ kept. valid_hosts original.now dm found.items
        ≡ some_hosts original.now kept.items) }
    ensures refused { IfErr result (Refuses (valid_hosts original.now dm found.items)) }
{
    let domain = domain_of(original);
    let last_labels = labels(alloc, domain)?;
    match dm {
        DomainMismatch::Error => match first_stranger(alloc, &last_labels, &found)? {
            Some(stranger) => Err(mismatch(alloc, original, stranger.host(), domain)),
            None => Ok(found),
        },
        DomainMismatch::Skip => Ok(all_within(alloc, &last_labels, found)?),
    }
}

// The first host that is not in the domain with these labels.
fn first_stranger<'a>(
    alloc: Global,
    last_labels: &[&str],
    found: &'a [ServerAddress],
) -> Result<Option<&'a ServerAddress>, AllocError>
    ensures { IfOk result (λ stranger. option_copied stranger
        ≡ find (λ host. not (hosts.is_within (map (λ label. label.now) last_labels.now) host)) found.now) }
{
    for host in found {
        if !is_within(alloc, last_labels, host)? {
            return Ok(Some(host));
        }
    }
    Ok(None)
}

// The hosts that are in the domain with these labels.
fn all_within(
    alloc: Global,
    last_labels: &[&str],
    found: Vec<ServerAddress>,
) -> Result<Vec<ServerAddress>, AllocError>
    ensures { IfOk result (λ kept. kept.items
        ≡ filter (hosts.is_within (map (λ label. label.now) last_labels.now)) found.items) }
{
    let mut kept = Vec::new(alloc);
    for host in found {
        if is_within(alloc, last_labels, &host)? {
            kept.push(host)?;
        }
    }
    Ok(kept)
}
