//! The bounds of a record.
ghost use Rattle.std.specs.Prelude.{◌≡◌};
ghost use Rattle.std.specs.List.{list_all};
ghost use Rattle.up_entry.specs.Rules.{endpoint_fits};
ghost use Rattle.up_keys.specs.Records.{endpoints_fit, keeps_bounds};

use up_entry::{Endpoint, is_address};

// How many endpoints of one kind a record may have.
const MAX_ENDPOINTS: usize = 8;

// How many bytes a public key may have.
const MAX_KEY: usize = 1_024;

/// Whether these are at most 8 directories and 8 stores, each the host's own or at a good address, and a public key of 1 to
/// 1,024 bytes. It takes no memory.
#[tactic(auto, unfolding(crate::specs::Records::keeps_bounds))]
pub fn keeps_bounds(dirs: &[Endpoint], stores: &[Endpoint], key: &[u8]) -> bool
    ensures { result ≡ keeps_bounds dirs.now stores.now key.now }
{
    endpoints_fit(dirs) && endpoints_fit(stores) && (1..=MAX_KEY).contains(&key.len())
}

#[tactic(auto, unfolding(crate::specs::Records::endpoints_fit))]
fn endpoints_fit(endpoints: &[Endpoint]) -> bool
    ensures { result ≡ endpoints_fit endpoints.now }
{
    endpoints.len() <= MAX_ENDPOINTS && all_fit(endpoints)
}

fn all_fit(endpoints: &[Endpoint]) -> bool
    ensures { result ≡ list_all endpoint_fits endpoints.now }
{
    endpoints.iter().all(endpoint_fits)
}

fn endpoint_fits(endpoint: &Endpoint) -> bool
    ensures { result ≡ endpoint_fits endpoint.now }
{
    match endpoint {
        Endpoint::Local => true,
        Endpoint::Address(address) => is_address(address.as_slice()),
    }
}
