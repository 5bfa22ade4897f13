//! The rule that the addresses of scripts keep.

ghost use Rattle.std.specs.Prelude.{◌≡◌};
ghost use Rattle.std.specs.List.{list_all};
ghost use Rattle.mdb_base.specs.Spelling.{has_colon};
ghost use Rattle.mdb_base.specs.AddressRule.{is_name_byte, is_v6_byte, is_name_host, is_v6_host};

use crate::address::ServerAddress;

pub(crate) fn is_name_byte(b: u8) -> bool
    ensures { result ≡ is_name_byte b }
{
    b.is_ascii_lowercase() || b.is_ascii_digit() || b == b'_' || b == b'-' || b == b'.'
}

pub(crate) fn is_v6_byte(b: u8) -> bool
    ensures { result ≡ is_v6_byte b }
{
    (b'a' <= b && b <= b'f') || (b'0' <= b && b <= b'9') || b == b':' || b == b'.'
}

fn all_of_name(bytes: &[u8]) -> bool
    ensures { result ≡ list_all is_name_byte bytes.now }
{
    bytes.iter().all(|b| is_name_byte(*b))
}

fn all_of_v6(bytes: &[u8]) -> bool
    ensures { result ≡ list_all is_v6_byte bytes.now }
{
    bytes.iter().all(|b| is_v6_byte(*b))
}

fn any_colon(bytes: &[u8]) -> bool
    ensures { result ≡ has_colon bytes.now }
{
    bytes.iter().any(|b| *b == b':')
}

#[tactic(auto, unfolding(crate::specs::AddressRule::is_name_host))]
fn is_name_host(host: &str) -> bool
    ensures { result ≡ is_name_host host.now }
{
    let bytes = host.as_bytes();
    1 <= bytes.len() && bytes.len() <= 255 && all_of_name(bytes)
}

#[tactic(auto, unfolding(crate::specs::AddressRule::is_v6_host))]
fn is_v6_host(host: &str) -> bool
    ensures { result ≡ is_v6_host host.now }
{
    let bytes = host.as_bytes();
    2 <= bytes.len() && bytes.len() <= 45 && all_of_v6(bytes) && any_colon(bytes)
}

impl ServerAddress {
    ghost use Rattle.mdb_base.specs.AddressRule.{is_address};

    /// The host is a name of 1 to 255 lower-case letters, digits, `_`, `-` and `.`, or an IPv6 address of 2 to 45
    /// digits, letters to `f`, colons and dots; the port is not 0.
    pub fn is_regular(&self) -> bool
        ensures { result ≡ is_address self.now }
    {
        let port = self.port;
        (is_name_host(self.host()) || is_v6_host(self.host())) && 1 <= port && port <= 65_535
    }
}
