//! A folder of a test's own.
use std::alloc::Global;
use std::fs::{File, Files};
use std::io;
use std::process::{Command, Stdio};
use std::time::Clock;

/// Makes the folder `$1`, and in it the helper. Another program writes it, so that this one never has it open for writing while a
/// thread starts it.
const MAKES: &str = r#"mkdir "$1" && cat >"$1/helper" <<'END' && chmod 755 "$1/helper"
#!/bin/sh
echo "$*" >>"$0.runs"
case "$*" in
"verify 61 6263 -" | "sign one@a.example 6869") status=0 ;;
"verify 62 6263 -") exit 1 ;;
verify*) exit 3 ;;
"sign none@a.example 6869") exit 0 ;;
"sign fails@a.example 6869") status=1 ;;
*) status=0 ;;
esac
echo 0AFF
case "$*" in "sign two@a.example"*) echo 0AFF ;; esac
exit $status
END
"#;

/// A folder below that of temporary files, with a helper in it. Each has a name of its own.
#[derive(Drop)]
pub struct Folder {
    alloc: Global,
    path: String,
}

/// Makes the folder at this path, with its helper.
fn make(rt: HostRuntime, path: &str) -> io::Result<()> {
    let mut command = Command::new(rt.alloc(), "/bin/sh")?;
    command.args(["-c", MAKES, "sh", path])?;
    command.stdin(Stdio::null()).status(&rt)?;
    Ok(())
}

impl Folder {
    /// Makes it. What it is for is a part of its name.
    pub fn new(rt: HostRuntime, what: &str) -> io::Result<Folder> {
        let now = rt.since_1970()?.as_nanos();
        let path = format!(in rt.alloc(); "/tmp/upspin-{what}-{now}")?;
        make(rt, path.as_str())?;
        Ok(Folder {
            alloc: rt.alloc(),
            path,
        })
    }

    /// Its path.
    pub fn path(&self) -> &str {
        self.path.as_str()
    }

    /// The path of a file in it.
    pub fn file(&self, name: &str) -> io::Result<String> {
        let folder = self.path.as_str();
        Ok(format!(in self.alloc; "{folder}/{name}")?)
    }

    /// The text of a file in it.
    pub fn text(&self, rt: HostRuntime, name: &str) -> io::Result<String> {
        let path = self.file(name)?;
        io::read_to_string(self.alloc, File::open(&rt, path.as_str())?)
    }

    /// Removes it, with all that is in it.
    pub fn remove(self, rt: HostRuntime) -> io::Result<()> {
        rt.remove_dir_all(self.alloc, self.path.as_str())
    }
}
