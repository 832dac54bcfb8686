//! The sessions of an example, each with a client of its own, and what their lines print.
use crate::example::Line;
use std::io;
use std::io::ErrorKind;
use up_cache::copy_run;
use up_ends::{MemSink, MemSource};
use up_lists::Items;
use up_names::{User, parse_user};
use up_net::{SocketAsk, Waits};
use up_terminal::client_run;

/// A session: its number, its user, and the connection over which it asks.
#[derive(Drop)]
struct Session {
    number: String,
    user: String,
    server: SocketAsk<HostRuntime>,
}

/// The sessions of an example, at a server on this port.
#[derive(Drop)]
pub struct Sessions<'a> {
    rt: HostRuntime,
    helper: &'a str,
    port: String,
    all: Vec<Session>,
}

/// What was tried so far: how many lines, how many of them were answered otherwise, and what the last one printed and was to print.
#[derive(Drop)]
pub struct Tried {
    title: String,
    pub lines: u64,
    pub others: u64,
    printed: String,
    wanted: String,
}

impl Tried {
    /// Nothing of the example with this title.
    pub fn new(rt: HostRuntime, title: &str) -> Tried {
        Tried {
            title: String::from_str(rt.alloc(), title).unwrap_or(String::new(rt.alloc())),
            lines: 0,
            others: 0,
            printed: String::new(rt.alloc()),
            wanted: String::new(rt.alloc()),
        }
    }

    /// Judges what the last line printed. A difference is said.
    pub fn settle(&mut self, rt: HostRuntime) -> io::Result<()> {
        if self.printed.as_str() != self.wanted.as_str() {
            self.others = self.others.saturating_add(1);
            let (title, printed, wanted) = (
                self.title.as_str(),
                self.printed.as_str(),
                self.wanted.as_str(),
            );
            println!(rt; "{title}: printed\n{printed}and not\n{wanted}")?;
        }
        self.printed.clear();
        self.wanted.clear();
        Ok(())
    }

    fn wants(&mut self, line: &str) -> io::Result<()> {
        self.wanted.push_str(line)?;
        self.wanted.push('\n')?;
        Ok(())
    }

    fn asks(&mut self, rt: HostRuntime) -> io::Result<()> {
        self.settle(rt)?;
        self.lines = self.lines.saturating_add(1);
        Ok(())
    }

    fn prints(&mut self, session: &str, line: &str) -> io::Result<()> {
        self.printed.push_str(session)?;
        self.printed.push(' ')?;
        self.printed.push_str(line)?;
        self.printed.push('\n')?;
        Ok(())
    }
}

fn other() -> io::Error {
    io::Error::from(ErrorKind::Other)
}

impl<'a> Sessions<'a> {
    /// None yet, at a server on this port; this helper signs for them.
    pub fn new(rt: HostRuntime, helper: &'a str, port: String) -> Sessions<'a> {
        Sessions {
            rt,
            helper,
            port,
            all: Vec::new(rt.alloc()),
        }
    }

    /// Does what a line says.
    pub fn take(&mut self, line: Line<'_>, tried: &mut Tried) -> io::Result<()> {
        match line {
            Line::Open(number, user) => self.open(number, user),
            Line::Ask(number, words) => self.ask(number, words, tried),
            Line::Copy(number, paths) => self.copy(number, paths, tried),
            Line::Prints(text) => tried.wants(text),
            Line::Enrol(_) | Line::Nothing => Ok(()),
        }
    }

    /// Makes a session. Its client dials at its first request.
    fn open(&mut self, number: &str, user: &str) -> io::Result<()> {
        let server = self.dialled(user)?;
        let session = Session {
            number: String::from_str(self.rt.alloc(), number)?,
            user: String::from_str(self.rt.alloc(), user)?,
            server,
        };
        self.all.push(session)?;
        Ok(())
    }

    fn dialled(&self, user: &str) -> io::Result<SocketAsk<HostRuntime>> {
        let alloc = self.rt.alloc();
        let user = self.user(user)?;
        let address = self.address()?;
        let helper = String::from_str(alloc, self.helper)?;
        let bytes = address.as_bytes();
        Ok(SocketAsk::new(alloc, self.rt, bytes, user, helper, Waits::usual())?)
    }

    fn user(&self, name: &str) -> io::Result<User> {
        match parse_user(self.rt.alloc(), name.as_bytes()) {
            Ok(user) => Ok(user),
            Err(_) => Err(other()),
        }
    }

    fn address(&self) -> io::Result<String> {
        Ok(format!(in self.rt.alloc(); "home@127.0.0.1:{}", self.port.as_str())?)
    }

    /// Asks a line in a session, and keeps what it prints.
    fn ask(&mut self, number: &str, words: &str, tried: &mut Tried) -> io::Result<()> {
        tried.asks(self.rt)?;
        let rt = self.rt;
        for session in self.all.iter_mut() {
            if session.number.as_str() == number {
                let text = session.answer(rt, words)?;
                return tell(tried, number, text.as_str());
            }
        }
        tried.prints(number, "nosession")
    }

    /// Copies these paths as the user of a session, over a connection of its own, and keeps what that prints.
    fn copy(&self, number: &str, paths: &str, tried: &mut Tried) -> io::Result<()> {
        tried.asks(self.rt)?;
        for session in self.all.iter() {
            if session.number.as_str() == number {
                let mut server = self.dialled(session.user.as_str())?;
                let text = session.copied(self.rt, paths, &mut server)?;
                return tell(tried, number, text.as_str());
            }
        }
        tried.prints(number, "nosession")
    }
}

fn tell(tried: &mut Tried, number: &str, text: &str) -> io::Result<()> {
    for line in text.lines() {
        tried.prints(number, line)?;
    }
    Ok(())
}

impl Session {
    /// What a line prints that this session asks.
    fn answer(&mut self, rt: HostRuntime, line: &str) -> io::Result<String> {
        let alloc = rt.alloc();
        let bytes = line.as_bytes().to_vec(alloc)?;
        let mut source = MemSource::new(bytes, Items::new(alloc), Items::new(alloc));
        let mut sink = MemSink::new(alloc, Items::new(alloc));
        let words = self.words(rt, "client")?;
        let _ = client_run(
            alloc,
            words.as_slice(),
            &mut source,
            &mut sink,
            &mut self.server,
        );
        written(rt, &sink)
    }

    /// What `upspin copy` of these paths prints.
    fn copied(
        &self,
        rt: HostRuntime,
        paths: &str,
        server: &mut SocketAsk<HostRuntime>,
    ) -> io::Result<String> {
        let alloc = rt.alloc();
        let mut sink = MemSink::new(alloc, Items::new(alloc));
        let mut words = self.words(rt, "copy")?;
        for path in paths.split(' ') {
            words.push(String::from_str(alloc, path)?)?;
        }
        let _ = copy_run(alloc, words.as_slice(), server, &mut sink);
        written(rt, &sink)
    }

    fn words(&self, rt: HostRuntime, command: &str) -> io::Result<Vec<String>> {
        let mut words = Vec::new(rt.alloc());
        for word in [command, "home@127.0.0.1", "helper", self.user.as_str()] {
            words.push(String::from_str(rt.alloc(), word)?)?;
        }
        Ok(words)
    }
}

/// The text that was written.
fn written(rt: HostRuntime, sink: &MemSink) -> io::Result<String> {
    match std::str::from_utf8(sink.bytes()) {
        Ok(text) => Ok(String::from_str(rt.alloc(), text)?),
        Err(_) => Err(other()),
    }
}
