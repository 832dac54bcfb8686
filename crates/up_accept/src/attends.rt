//! Who answers connections.
ghost use Rattle.std.specs.Prelude.{IfOk};

use std::alloc::AllocError;
use std::net::{SocketAddr, TcpStream};
use std::sync::Wait;

/// Who answers connections, many at once. Each connection has a part of it, which was split off from another one.
pub trait Attends: Sync {
    /// What one connection has of it.
    type Part: Drop + Send;

    /// Whether a part is one of this.
    ghost is_part: { Self → Self.Part → Type 0 };

    /// A part for one more connection, or want of memory.
    fn split(&self, part: &mut Self::Part) -> Result<Self::Part, AllocError>
        requires { is_part self.now part.old }
        ensures kept { is_part self.now part.new }
        ensures other { IfOk result (is_part self.now) };

    /// Answers a connection, which came from this address, to its end.
    fn attend<R: Wait>(&self, rt: &R, part: &mut Self::Part, stream: &TcpStream, from: SocketAddr)
        requires { is_part self.now part.old }
        ensures kept { is_part self.now part.new };
}
