//! Lists of addresses, as texts have them.

ghost use Rattle.std.specs.Prelude.{◌≡◌, ◌==◌, List, IfOk, IfErr, map};
ghost use Rattle.std.specs.List.{AllZip, slice_split};
ghost use Rattle.mdb_base.specs.AddressRule.{IsAddressText};
ghost use Rattle.mdb_base.specs.declared.address.ServerAddress.{ServerAddress as Address};
ghost use Rattle.mdb_base.specs.declared.address_parse.AddressError.TheVariants.{BadAddress};
ghost use Rattle.mdb_c.specs.Hosts.{AreHosts};

use mdb_base::{AddressError, ServerAddress};
use std::alloc::{AllocError, Global};

// The texts between the commas.
fn parts(alloc: Global, text: &str) -> Result<Vec<&str>, AllocError>
    ensures { IfOk result (λ parts. map (λ part. part.now) parts.items ≡ slice_split (λ b. b == 44) text.now) }
{
    text.split(',').collect(alloc)
}

// The addresses of all texts.
fn addresses(alloc: Global, texts: &[&str]) -> Result<Vec<ServerAddress>, AddressError>
    ensures found { IfOk result (λ hosts. AllZip IsAddressText (map (λ text. text.now) texts.now) hosts.items) }
    ensures bad { IfErr result (λ e. e ≡ BadAddress → (hosts : List Address) → AllZip IsAddressText (map (λ text. text.now) texts.now) hosts → ⊥) }
{
    let mut hosts = Vec::new(alloc);
    for text in texts {
        let host = match ServerAddress::parse(alloc, text) {
            Ok(host) => host,
            Err(why) => return Err(why),
        };
        match hosts.push(host) {
            Ok(()) => {}
            Err(_) => return Err(AddressError::OutOfMemory),
        }
    }
    Ok(hosts)
}

/// The hosts of a text, with commas between them; none where it is empty.
pub fn hosts_in(alloc: Global, text: &str) -> Result<Vec<ServerAddress>, AddressError>
    ensures found { IfOk result (λ hosts. AreHosts text.now hosts.items) }
    ensures bad { IfErr result (λ e. e ≡ BadAddress → (hosts : List Address) → AreHosts text.now hosts → ⊥) }
{
    if text.is_empty() {
        return Ok(Vec::new(alloc));
    }
    let parts = parts(alloc, text)?;
    addresses(alloc, &parts)
}
