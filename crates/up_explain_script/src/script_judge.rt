//! Who judges the lines of `upspin script`.
ghost use Rattle.std.specs.Prelude.{◌≡◌, []};
ghost use Rattle.up_explain_script.specs.ScriptNumbers.{line_behind};

use crate::hosts::take;
use crate::line_flaws::why_malformed;
use std::alloc::Global;
use std::marker::Model;
use up_explain_can::{Judge, Why};
use up_lists::Items;
use up_script_lines::{NewHost, script_line};

/// A script of `upspin script` between two lines: the hosts that its good lines have named so far.
#[derive(Drop)]
pub(crate) struct ScriptJudge {
    hosts: Items<NewHost>,
}

impl Model for ScriptJudge {
    ghost use Rattle.std.specs.Prelude.{List};
    ghost use Rattle.up_script_lines.specs.declared.script_lines.NewHost.{NewHost};

    ghost Value = { List NewHost };

    ghost view = { λ judge. judge.hosts };
}

impl ScriptJudge {
    /// Before the first line.
    pub(crate) fn new(alloc: Global) -> ScriptJudge
        ensures { result ≡ [] }
    {
        ScriptJudge {
            hosts: Items::new(alloc),
        }
    }
}

impl Judge for ScriptJudge {
    ghost step = { line_behind };

    fn judge(&mut self, alloc: Global, line: &[u8]) -> Result<(), Why> {
        match script_line(alloc, line)? {
            Some(says) => take(alloc, &mut self.hosts, says),
            None => Err(why_malformed(alloc, line)),
        }
    }
}
