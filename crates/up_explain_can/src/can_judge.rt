//! Who judges the lines of `upspin can`.
ghost use Rattle.std.specs.Prelude.{◌≡◌, None};
ghost use Rattle.std.specs.Option.{option_copied};
ghost use Rattle.up_can.specs.CanFiles.{bare_tree};
ghost use Rattle.up_can.specs.CanLines.{first_effect, tree_line};
ghost use Rattle.up_explain_can.specs.CanNumbers.{names_tree, owner_behind};
ghost use Rattle.up_explain_can.specs.Judging.{IsMeant};
ghost use Rattle.up_text.specs.Lines.{words_left};

use crate::can_words::{judge_kind, kind_of};
use crate::flaw::Flaw;
use crate::judge::Judge;
use crate::names::user_named;
use crate::why::{Why, bad_word};
use std::alloc::Global;
use std::marker::Model;
use up_can::CanKind;
use up_names::User;
use up_text::{cut_word, is_silent, one_word};

/// A script of `upspin can` between two lines: whose tree it is, once that is named. No other line changes what is malformed.
#[derive(Drop)]
pub(crate) struct CanJudge {
    owner: Option<User>,
}

impl Model for CanJudge {
    ghost use Rattle.std.specs.Prelude.{Option};
    ghost use Rattle.up_names.specs.Texts.{UserName};

    ghost Value = { Option UserName };

    ghost view = { λ judge. judge.owner };
}

impl CanJudge {
    /// Before the first line.
    pub(crate) fn new() -> CanJudge
        ensures { result ≡ None }
    {
        CanJudge { owner: None }
    }
}

impl Judge for CanJudge {
    ghost step = { owner_behind };

    #[tactic(auto, using(crate::proofs::CanNumberLemmas::owner_named, crate::proofs::CanNumberLemmas::owner_stays), unfolding(up_can::specs::CanLines::effect_of, up_can::specs::CanLines::words_effect))]
    fn judge(&mut self, alloc: Global, line: &[u8]) -> Result<(), Why> {
        if is_silent(line) {
            return Ok(());
        }
        let (keyword, arguments) = cut_word(line);
        let Some(kind) = kind_of(keyword) else {
            return Err(bad_word(alloc, keyword, Flaw::CanKeyword));
        };
        match &self.owner {
            Some(owner) => judge_kind(alloc, owner, kind, arguments),
            None => {
                drop(self.owner.replace(first_line(alloc, kind, arguments)?));
                Ok(())
            }
        }
    }
}

/// The owner whose tree a line of a kind names, before a tree is named.
#[tactic(auto, unfolding(up_can::specs::CanLines::first_effect))]
fn first_line(alloc: Global, kind: CanKind, arguments: Option<&[u8]>) -> Result<User, Why>
    ensures { IsMeant names_tree result
        (first_effect kind (words_left (option_copied arguments.entry))) }
{
    if kind != CanKind::Tree {
        return Err(Why::Line(Flaw::NoTree));
    }
    tree_line(alloc, arguments)
}

// `tree USER`
#[tactic(auto, unfolding(up_can::specs::CanLines::tree_line))]
fn tree_line(alloc: Global, arguments: Option<&[u8]>) -> Result<User, Why>
    ensures { IsMeant bare_tree result
        (tree_line (words_left (option_copied arguments.entry))) }
{
    match one_word(arguments) {
        Some(word) => user_named(alloc, word),
        None => Err(Why::Line(Flaw::TreeWords)),
    }
}
