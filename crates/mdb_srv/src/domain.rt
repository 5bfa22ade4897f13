//! Labels and domains of host names.
ghost use Rattle.std.specs.Prelude.{◌≡◌, IfOk, drop, map, nat_eq};
ghost use Rattle.std.specs.Cmp.Lexicographic.{pointwise};
ghost use Rattle.std.specs.List.{ends_with};
ghost use Rattle.mdb_srv.specs.Hosts as hosts;

use super::cut::cut;
use mdb_base::ServerAddress;
use std::alloc::{AllocError, Global};

// The labels of a host name, which stand between its dots.
pub(crate) fn labels(alloc: Global, host: &str) -> Result<Vec<&str>, AllocError>
    ensures { IfOk result (λ list. map (λ label. label.now) list.items ≡ hosts.labels host.now) }
{
    host.split('.').collect(alloc)
}

// The domain of a host name: what stands after its first dot, if there is a dot in that too, else the name.
pub(crate) fn domain_of(host: &str) -> &str
    ensures { hosts.labels result.now ≡ hosts.domain host.now }
{
    let (_, rest) = cut(host, '.');
    let Some(rest) = rest else {
        return host;
    };
    let (_, more) = cut(rest, '.');
    if more.is_some() { rest } else { host }
}

// Whether the labels of a host after its first end with these.
pub(crate) fn is_within(
    alloc: Global,
    last_labels: &[&str],
    host: &ServerAddress,
) -> Result<bool, AllocError>
    ensures { IfOk result (λ inside. inside ≡ hosts.is_within (map (λ label. label.now) last_labels.now) host.now) }
{
    let own = labels(alloc, host.host())?;
    Ok(end_after_first(&own, last_labels))
}

// Whether the labels after the first end with these.
#[tactic(auto, using(crate::proofs::Domains::ends_with_texts))]
fn end_after_first(own: &[&str], last_labels: &[&str]) -> bool
    ensures { result ≡ ends_with (pointwise nat_eq)
        (drop 1 (map (λ label. label.now) own.now))
        (map (λ label. label.now) last_labels.now) }
{
    after_first(own).ends_with(last_labels)
}

// The labels after the first.
fn after_first<'a, 'b>(list: &'a [&'b str]) -> &'a [&'b str]
    ensures { result.now ≡ drop 1 list.now }
{
    match list {
        [] => list,
        [_, rest @ ..] => rest,
    }
}
