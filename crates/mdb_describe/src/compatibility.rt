//! Whether the driver can speak to a server.

ghost use Rattle.std.specs.Prelude.{◌≡◌, IfOk, option_map, string_bytes, Some};
ghost use Rattle.mdb_describe.specs.Compatibility.{incompatible, incompatibility, too_new, too_old};

use crate::description::ServerDescription;
use mdb_base::{OutOfMemory, ServerAddress};
use std::alloc::Global;

// The wire versions that the driver speaks.
const LEAST: i32 = 8;

const GREATEST: i32 = 29;

impl ServerDescription {
    /// Why the driver, which speaks the wire versions 8 to 29, cannot speak to this server (SDAM, "Checking wire
    /// protocol compatibility"). `None` where it can, and where there is no reply. An absent wire version counts as
    /// 0.
    pub fn compatibility_error_message(&self, alloc: Global) -> Result<Option<String>, OutOfMemory>
        ensures { IfOk result (λ message. option_map string_bytes message ≡ incompatible self.now) }
    {
        match self.response() {
            Some(response) => message(
                alloc,
                &self.address,
                response.min_wire_version.unwrap_or(0),
                response.max_wire_version.unwrap_or(0),
            ),
            None => Ok(None),
        }
    }
}

fn message(
    alloc: Global,
    address: &ServerAddress,
    least: i32,
    greatest: i32,
) -> Result<Option<String>, OutOfMemory>
    ensures { IfOk result (λ message. option_map string_bytes message ≡ incompatibility address.now least greatest) }
{
    if least > GREATEST {
        Ok(Some(too_new(alloc, address, least)?))
    } else if greatest < LEAST {
        Ok(Some(too_old(alloc, address, greatest)?))
    } else {
        Ok(None)
    }
}

fn too_new(alloc: Global, address: &ServerAddress, version: i32) -> Result<String, OutOfMemory>
    ensures { IfOk result (λ text. string_bytes text ≡ too_new address.now version) }
{
    Ok(format!(in alloc;
        "server {address} requires wire version {version}, this driver supports up to 29"
    )?)
}

fn too_old(alloc: Global, address: &ServerAddress, version: i32) -> Result<String, OutOfMemory>
    ensures { IfOk result (λ text. string_bytes text ≡ too_old address.now version) }
{
    Ok(format!(in alloc;
        "server {address} reports wire version {version}, this driver needs at least 8"
    )?)
}
