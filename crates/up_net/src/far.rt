//! Addresses that are dialled.
ghost use Rattle.std.specs.Prelude.{◌≡◌, ◌∷◌, ◌++◌, IfOk, IfSome, string_bytes};
ghost use Rattle.std.specs.Str.{byte};

use std::alloc::{AllocError, Global};
use up_sign::HostName;

/// Where a server is, as `NAME@HOST:PORT`: the name of the host, as its operator calls it, and the address of its listener. The name
/// is that of whoever dials, and never asked of the server: a bad one could tell the name of another host, and have that host's
/// challenge signed.
#[derive(Drop)]
pub(crate) struct Far {
    pub host: HostName,
    pub address: String,
}

impl Far {
    /// The address that some bytes are. `None` where no name of a host stands before their first `@`, and where no text stands behind it.
    pub fn read(alloc: Global, address: &[u8]) -> Result<Option<Far>, AllocError>
        ensures { IfOk result (λ found. IfSome found (λ far.
            address.now ≡ far.host ++ byte "@" ∷ string_bytes far.address)) }
    {
        let Some(end) = address.iter().position(|b| *b == b'@') else {
            return Ok(None);
        };
        let Some(host) = HostName::read(alloc, &address[..end])? else {
            return Ok(None);
        };
        let Some(address) = text_of(alloc, &address[end + 1..])? else {
            return Ok(None);
        };
        Ok(Some(Far { host, address }))
    }
}

fn text_of(alloc: Global, bytes: &[u8]) -> Result<Option<String>, AllocError>
    ensures { IfOk result (λ found. IfSome found (λ text. string_bytes text ≡ bytes.now)) }
{
    Ok(String::from_utf8(Vec::from_slice(alloc, bytes)?).ok())
}
