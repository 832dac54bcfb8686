//! Logs in a folder of the test's own, on a device that is full, and where they cannot be had.
use crate::tests::folder::Folder;
use std::fs::{File, OpenOptions};
use std::io;
use std::io::ErrorKind;
use std::test::Fail;
use up_disk::{Disk, Failed};
use up_ends::Source;
use up_net::{FileDisk, LogDisk, LogFile, open_enrol, open_logs};

/// The disk of one log in a folder.
fn opened(rt: HostRuntime, folder: &str, name: &str) -> io::Result<LogDisk> {
    let mut names = Vec::new(rt.alloc());
    names.push(String::from_str(rt.alloc(), name)?)?;
    match open_logs(rt.alloc(), &rt, folder, names.as_slice())?.take() {
        Some(disk) => Ok(disk),
        None => Err(io::Error::from(ErrorKind::Other)),
    }
}

/// Writes ten bytes to a disk that has none, and syncs it.
fn filled(disk: &mut LogDisk) -> Result<(), Failed> {
    if disk.size() != 0 {
        return Err(Failed);
    }
    disk.write_at(0, b"0123456789")?;
    disk.sync()
}

/// The first bytes of a disk, as many as there is room for.
fn first(disk: &mut LogDisk, room: &mut [u8]) -> Result<(), Failed> {
    if (room.len() as u64) > disk.size() {
        return Err(Failed);
    }
    disk.read(0, room)
}

/// Whether a log that is opened now can be filled, and how many calls of its disk failed.
fn fills(rt: HostRuntime, folder: &str, name: &str) -> io::Result<(bool, u64)> {
    let mut log = opened(rt, folder, name)?;
    let answer = filled(&mut log).is_ok();
    let faults = log.inner().faults();
    drop(log);
    Ok((answer, faults))
}

/// The same of a log while somebody holds its lock with others.
fn fills_beside_others(rt: HostRuntime, folder: &Folder) -> io::Result<(bool, u64)> {
    let path = folder.file("held")?;
    let held = File::create(&rt, path.as_str())?;
    held.try_lock_shared()?;
    let answer = fills(rt, folder.path(), "held");
    drop(held);
    answer
}

/// The same of a log that a server has.
fn fills_beside_a_server(rt: HostRuntime, folder: &Folder) -> io::Result<(bool, u64)> {
    let log = opened(rt, folder.path(), "log")?;
    let answer = fills(rt, folder.path(), "log");
    drop(log);
    answer
}

#[test]
fn a_log_is_one_servers(rt: HostRuntime) -> Result<(), Fail> {
    let folder = Folder::new(rt, "logs")?;
    let second = fills_beside_a_server(rt, &folder)?;
    let third = fills_beside_others(rt, &folder)?;
    let first = fills(rt, folder.path(), "log")?;
    folder.remove(rt)?;
    assert_eq!(rt; (first, second, third), ((true, 0), (false, 1), (false, 1)));
    Ok(())
}

/// What another program does: it cuts the file of a log to three bytes.
fn cut(rt: HostRuntime, folder: &Folder) -> io::Result<()> {
    let path = folder.file("cut")?;
    let file = OpenOptions::new().write(true).open(&rt, path.as_str())?;
    file.set_len(3)
}

/// Whether ten bytes and three of a log can be read that has ten bytes and is then cut, with what was read, and how many calls failed.
fn read_when_cut(rt: HostRuntime, folder: &Folder) -> io::Result<([bool; 3], [u8; 10], u64)> {
    let mut log = opened(rt, folder.path(), "cut")?;
    let whole = filled(&mut log).is_ok();
    cut(rt, folder)?;
    let mut room = [b'-'; 10];
    let ten = first(&mut log, &mut room).is_ok();
    let three = first(&mut log, &mut room[..3]).is_ok();
    let faults = log.inner().faults();
    drop(log);
    Ok(([whole, ten, three], room, faults))
}

#[test]
fn a_log_that_another_program_cuts(rt: HostRuntime) -> Result<(), Fail> {
    let folder = Folder::new(rt, "cut")?;
    let (answers, room, faults) = read_when_cut(rt, &folder)?;
    let size = opened(rt, folder.path(), "cut")?.size();
    folder.remove(rt)?;
    assert_eq!(rt; answers, [true, false, true]);
    assert_eq!(rt; room[..3], *b"012".as_slice());
    assert_eq!(rt; (faults, size), (1, 3));
    Ok(())
}

#[test]
fn logs_that_cannot_be_had(rt: HostRuntime) -> Result<(), Fail> {
    for (folder, name) in [
        ("/nobody/has/this", "log"),
        ("/dev", "null/log"),
        ("/dev", "full"),
    ] {
        assert_eq!(rt; fills(rt, folder, name)?, (false, 1));
    }
    Ok(())
}

#[test]
fn an_enrol_file_that_cannot_be_had(rt: HostRuntime) -> Result<(), Fail> {
    let mut enrol = open_enrol(&rt, "/nobody/has/this");
    let answer = enrol.read(&mut [0; 1]).is_ok();
    let faults = enrol.faults();
    drop(enrol);
    assert_eq!(rt; (answer, faults), (false, 1));
    Ok(())
}

/// A file of ten bytes whose first sync fails, and which then says that all is well.
#[derive(Drop)]
struct SyncsLate {
    syncs: u64,
}

impl LogFile for SyncsLate {
    ghost use Rattle.up_net.specs.Files.{AnyCall};

    ghost does = { AnyCall };

    fn read_at(&mut self, _at: u64, _buf: &mut [u8]) -> io::Result<()> {
        Ok(())
    }

    fn write_at(&mut self, _at: u64, _bytes: &[u8]) -> io::Result<()> {
        Ok(())
    }

    fn cut(&mut self, _size: u64) -> io::Result<()> {
        Ok(())
    }

    fn sync(&mut self) -> io::Result<()> {
        self.syncs = self.syncs.saturating_add(1);
        if self.syncs == 1 {
            return Err(io::Error::from(ErrorKind::Other));
        }
        Ok(())
    }

    fn size(&mut self) -> io::Result<u64> {
        Ok(10)
    }
}

#[test]
fn a_failed_sync_stays(rt: HostRuntime) -> Result<(), Fail> {
    let mut disk = FileDisk::new(SyncsLate { syncs: 0 })?;
    for faults in 1..4 {
        let answer = disk.sync();
        assert_eq!(rt; (answer, disk.faults()), (Err(Failed), faults));
    }
    Ok(())
}
