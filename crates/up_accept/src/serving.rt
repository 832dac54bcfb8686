//! Connections are answered, each in a thread of its own.
use crate::accepting::accepted;
use crate::attends::Attends;
use crate::room::Room;
use std::net::{SocketAddr, TcpListener, TcpStream};
use std::sync::Wait;
use std::thread::Threads;
use std::time::Clock;
use std::{io, thread};

/// How many connections are answered.
#[derive(Clone, Copy, Debug)]
pub struct Bounds {
    /// In all.
    pub connections: u64,
    /// At once; none stands for one.
    pub at_once: u64,
}

/// Accepts so many connections, and has each answered, in a thread of its own, or here where none starts or where there is no memory for
/// a part of it. It returns when all have ended. An `Err` says why no more are accepted; those that came have ended then too.
pub fn serve_each<A: Attends, R: Threads + Wait + Clock + Sync>(
    rt: &R,
    listener: &TcpListener,
    attendant: &A,
    whole: &mut A::Part,
    bounds: Bounds,
) -> io::Result<()>
    requires { A.is_part attendant.now whole.old }
{
    let places = Room::new(bounds.at_once);
    let room = &places;
    thread::scope(
        thread::scope_env(),
        rt,
        |scope| -> io::Result<()>
            requires { A.is_part attendant.now whole.now }
        {
            for _ in 0..bounds.connections {
                room.enter(rt);
                let (stream, from) = accepted(rt, listener)?;
                let Ok(part) = attendant.split(whole) else {
                    one(rt, attendant, whole, stream, from, room);
                    continue;
                };
                let job = move ||
                    requires { A.is_part attendant.now part }
                { one_apart(rt, attendant, part, stream, from, room) };
                if let Err(refused) = scope.spawn(job) {
                    let job = refused.value;
                    job();
                }
            }
            Ok(())
        },
    )
}

// One connection by a part of its own, which is let go at the end.
fn one_apart<A: Attends, R: Wait>(
    rt: &R,
    attendant: &A,
    mut part: A::Part,
    stream: TcpStream,
    from: SocketAddr,
    room: &Room,
)
    requires { A.is_part attendant.now part }
{
    one(rt, attendant, &mut part, stream, from, room);
}

// One connection, to its end. Its place is then another's.
fn one<A: Attends, R: Wait>(
    rt: &R,
    attendant: &A,
    part: &mut A::Part,
    stream: TcpStream,
    from: SocketAddr,
    room: &Room,
)
    requires { A.is_part attendant.now part.old }
    ensures { A.is_part attendant.now part.new }
{
    attendant.attend(rt, part, &stream, from);
    drop(stream);
    room.leave(rt);
}
