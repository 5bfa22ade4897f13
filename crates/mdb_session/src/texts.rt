//! Texts that come from C, and texts that go there.

ghost use Rattle.std.specs.Prelude.{◌≡◌, ◌++◌, ◌≤◌, ◌<◌, length, drop, IfOk, option_copied};
ghost use Rattle.mdb_base.specs.declared.address.ServerAddress.{ServerAddress};
ghost use Rattle.mdb_parts.specs.Reading.{Gives};
ghost use Rattle.mdb_session.specs.Texts.{IsAddressOf, text_in};

use mdb_base::{AddressError, ServerAddress};
use mdb_lines::{LineError, is_printable};
use std::alloc::Global;

/// The text of these bytes, if each is printable ASCII.
#[tactic(auto, using(mdb_lines::proofs::Lines::is_text))]
pub fn text_in(bytes: &[u8]) -> Option<&str>
    ensures { option_copied result ≡ text_in bytes.now }
{
    if is_printable(bytes) {
        str::from_utf8(bytes).ok()
    } else {
        None
    }
}

/// The address of these bytes: `host`, `host:port`, `[v6]` or `[v6]:port`, with letters of any case. The default port is 27017. Fails with
/// `Bad` where they have none of these forms.
pub fn address_in(alloc: Global, bytes: &[u8]) -> Result<ServerAddress, LineError>
    ensures found { IfOk result (λ a. IsAddressOf bytes.now a) }
    ensures only { (a : ServerAddress) → IsAddressOf bytes.now a → Gives a result }
{
    let Some(text) = text_in(bytes) else {
        return Err(LineError::Bad);
    };
    match ServerAddress::parse(alloc, text) {
        Ok(address) => Ok(address),
        Err(AddressError::BadAddress) => Err(LineError::Bad),
        Err(AddressError::OutOfMemory) => Err(LineError::OutOfMemory),
    }
}

/// Copies the text to the beginning of `out` where it fits there, and answers how long it is.
pub fn copied(text: &[u8], out: &mut [u8]) -> usize
    ensures length { result ≡ length text.now }
    ensures fits { length text.now ≤ length out.old → out.new ≡ text.now ++ drop (length text.now) out.old }
    ensures small { length out.old < length text.now → out.new ≡ out.old }
{
    let n = text.len();
    if n <= out.len() {
        out[..n].copy_from_slice(text);
    }
    n
}
