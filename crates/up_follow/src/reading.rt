//! Which requests only look.
ghost use Rattle.std.specs.Prelude.{◌≡◌};
ghost use Rattle.up_follow.specs.Reads.{is_read};

use up_wire::Request;

/// Whether a request only looks at a tree: of those that a follower answers.
pub fn is_read(request: &Request) -> bool
    ensures { result ≡ is_read request.now }
{
    matches!(
        request,
        Request::Lookup(_)
            | Request::WhichAccess(_)
            | Request::GroupText(_)
            | Request::Glob(_)
            | Request::Watch(_, _)
    )
}
