//! Who answers a request.
ghost use Rattle.std.specs.Prelude.{◌≡◌};
ghost use Rattle.up_calls.specs.Routes.{service_of};

use up_wire::Request;

/// Who answers a request.
#[derive(Clone, Copy, Debug, PartialEq, Eq)]
pub enum Service {
    /// A tree of the host.
    Directory,
    Store,
    Keys,
}

/// Who answers a request.
pub fn service_of(request: &Request) -> Service
    ensures { result ≡ service_of request.now }
{
    match request {
        Request::Get(_) | Request::StorePut(_) | Request::StoreDelete(_) => Service::Store,
        Request::KeyLookup(_) | Request::KeyPut(_) => Service::Keys,
        Request::Lookup(_)
        | Request::Put(_)
        | Request::Delete(_)
        | Request::Glob(_)
        | Request::WhichAccess(_)
        | Request::Watch(_, _)
        | Request::GroupText(_) => Service::Directory,
    }
}
