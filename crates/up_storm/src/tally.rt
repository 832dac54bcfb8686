//! Replies that are counted.
ghost use Rattle.std.specs.Prelude.{◌≡◌, ◌≤◌, ◌+◌, ◌<◌, ◌^◌};
ghost use Rattle.up_storm.specs.Telling.{both_counted, counted, none_counted, total};

use up_wire::Reply;

/// How many replies were Ok, NotExist and Private.
#[derive(Clone, Copy, Debug, PartialEq, Eq)]
pub struct Tally {
    pub ok: u64,
    pub notexist: u64,
    pub private: u64,
}

impl Tally {
    /// Nothing was counted yet.
    pub fn none() -> Tally
        ensures { result ≡ none_counted }
    {
        Tally {
            ok: 0,
            notexist: 0,
            private: 0,
        }
    }

    /// Counts one reply more. There are fewer than 2^32 so far.
    pub fn count(&mut self, reply: &Reply)
        requires { total self.old < 2 ^ 32 }
        ensures counted { self.new ≡ counted self.old reply.now }
        ensures total { total self.new ≤ total self.old + 1 }
    {
        match reply {
            Reply::Ok(_) => self.ok += 1,
            Reply::NotExist => self.notexist += 1,
            Reply::Private => self.private += 1,
            _ => (),
        }
    }

    /// These replies and those.
    pub fn both(self, other: Tally) -> Tally
        requires ok { self.ok + other.ok < 2 ^ 64 }
        requires notexist { self.notexist + other.notexist < 2 ^ 64 }
        requires private { self.private + other.private < 2 ^ 64 }
        ensures { result ≡ both_counted self other }
    {
        Tally {
            ok: self.ok + other.ok,
            notexist: self.notexist + other.notexist,
            private: self.private + other.private,
        }
    }
}
