//! The rules that options keep.

ghost use Rattle.std.specs.Prelude.{◌≡◌, ◌&&◌, ◌||◌, is_some, nat_le, nat_lt, not, length, unwrap_or};
ghost use Rattle.std.specs.List.{list_any};
ghost use Rattle.mdb_base.specs.Equality.{same_address};
ghost use Rattle.mdb_base.specs.OptionRules.{all_different, are_seeds, is_size, broken_rule};

use crate::address::ServerAddress;
use crate::options::{BadOption, Options};

// One of the addresses is this one.
fn has_address(addresses: &[ServerAddress], address: &ServerAddress) -> bool
    ensures { result ≡ list_any (λ a. same_address a address.now) addresses.now }
{
    addresses.iter().any(|a| a.is(address))
}

fn all_different(addresses: &[ServerAddress]) -> bool
    ensures { result ≡ all_different addresses.now }
{
    match addresses {
        [] => true,
        [first, rest @ ..] => !has_address(rest, first) && all_different(rest),
    }
}

fn are_seeds(seeds: &[ServerAddress]) -> bool
    ensures { result ≡ are_seeds seeds.now }
{
    let count = seeds.len();
    1 <= count && count <= 128 && all_different(seeds)
}

// A size that is at least this, or the default.
fn is_size(size: Option<u32>, least: u32) -> bool
    ensures { result ≡ is_size size least }
{
    match size {
        Some(size) => least <= size && size <= 65_535,
        None => true,
    }
}

impl Options {
    /// The first rule that the options break, in the order of `BadOption`.
    pub fn check(&self) -> Option<BadOption>
        ensures { result ≡ broken_rule self.now }
    {
        let seeds = self.seeds.as_slice();
        let one = seeds.len() == 1;
        if !are_seeds(seeds) {
            return Some(BadOption::Seeds);
        }
        if (self.direct || self.load_balanced) && !one {
            return Some(BadOption::OneSeed);
        }
        if self.direct && self.load_balanced {
            return Some(BadOption::DirectAndBalanced);
        }
        if self.load_balanced && self.set_name.is_some() {
            return Some(BadOption::SetName);
        }
        if !(is_size(self.max_pool_size, 1) && is_size(self.max_connecting, 1)) {
            return Some(BadOption::MaxOrConnecting);
        }
        if !is_size(self.min_pool_size, 0) {
            return Some(BadOption::Min);
        }
        if (self.limit_pool.unwrap_or(u32::MAX) as usize) < seeds.len() - 1 {
            return Some(BadOption::PoolLimit);
        }
        None
    }
}
