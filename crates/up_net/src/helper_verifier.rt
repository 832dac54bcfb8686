//! A verifier that asks another program.
ghost use Rattle.std.specs.Prelude.{◌≡◌, [], ◌∷◌, ◌++◌, codes, map, IfOk, OnOk, None, IsErr, is_err, if◌then◌else◌, string_bytes};
ghost use Rattle.std.specs.Result.{result_ok};
ghost use Rattle.up_lists.specs.Counts.{count_after, HasCause, StaysUnless};
ghost use Rattle.up_ends.specs.Verdicts.{Judges};
ghost use Rattle.up_helper.specs.HelperWords.{hex_word};
ghost use Rattle.up_net.specs.Questions.{AsksOnce, question_of, verdict_of_code};

use crate::programs::Programs;
use std::alloc::{AllocError, Global};
use std::marker::Model;
use up_ends::{Failed, Verdict, Verifier};
use up_helper::hex_word;

/// A verifier that runs a helper for each question, as `HELPER verify KEY MESSAGE SIGNATURE`, each in upper-case hexadecimal digits
/// and `-` for empty. The helper's status 0 is Yes and 1 is No. All else, a helper that cannot be started, and want of memory, is a
/// fault. What it reads is empty, and what it prints is dropped; what it says on standard error is shown.
#[derive(Drop)]
pub struct HelperVerifier<P: Programs> {
    alloc: Global,
    programs: P,
    helper: String,
    faults: u64,
}

impl<P: Programs> Model for HelperVerifier<P> {
    ghost use Rattle.std.specs.String.{string_bytes};
    ghost use Rattle.up_net.specs.Questions.{AskedHelper};

    ghost Value = { AskedHelper P };

    ghost view = { λ verifier. record {
      programs = verifier.programs;
      helper = string_bytes verifier.helper;
      faults = verifier.faults;
    } };
}

impl<P: Programs> HelperVerifier<P> {
    /// A verifier that asks the helper at this path, or with this name. Nothing is started yet.
    pub fn new(alloc: Global, programs: P, helper: String) -> Self
        ensures { result ≡ record {
          programs = programs;
          helper = string_bytes helper;
          faults = 0;
        } }
    {
        HelperVerifier {
            alloc,
            programs,
            helper,
            faults: 0,
        }
    }

    /// How many questions failed so far. A count that stands at 2^64 - 1 stays there.
    pub fn faults(&self) -> u64
        ensures { result ≡ self.now.faults }
    {
        self.faults
    }

    /// Who runs the helper.
    pub fn programs(&self) -> &P
        ensures { result.now ≡ self.now.programs }
    {
        &self.programs
    }
}

impl<P: Programs> Verifier for HelperVerifier<P> {
    ghost use Rattle.std.specs.Prelude.{None};

    ghost judged = { λ _. None };

    ghost faults = { λ verifier. verifier.faults };

    fn verdict(&mut self, key: &[u8], message: &[u8], signature: &[u8]) -> Result<Verdict, Failed>
        // The helper runs once for each question, and its status is the verdict.
        ensures asked { AsksOnce P.runs self.old.helper
            (question_of key.now message.now signature.now)
            self.old.programs (result_ok result) self.new.programs }
        ensures helper { self.new.helper ≡ self.old.helper }
        // A fault is one question that got no verdict.
        ensures faults { self.new.faults ≡
            (if is_err result then count_after self.old.faults 1 else self.old.faults) }

        ensures judged { Judges None None
            (λ verdict. record {
              key = key.now;
              message = message.now;
              signature = signature.now;
              verdict = verdict;
            }) result }
        ensures cause { HasCause self.old.faults self.new.faults (IsErr result) }
        ensures quiet { StaysUnless self.old.faults self.new.faults (IsErr result) }
    {
        let helper = self.helper.as_str();
        match ask(
            self.alloc,
            &mut self.programs,
            helper,
            key,
            message,
            signature,
        ) {
            Some(verdict) => Ok(verdict),
            None => {
                self.faults = self.faults.saturating_add(1);
                Err(Failed)
            }
        }
    }
}

/// Runs a helper once for one question. `None` where it gave no verdict, or did not run for want of memory.
fn ask<P: Programs>(
    alloc: Global,
    programs: &mut P,
    helper: &str,
    key: &[u8],
    message: &[u8],
    signature: &[u8],
) -> Option<Verdict>
    ensures { AsksOnce P.runs helper.now (question_of key.now message.now signature.now)
        programs.old result programs.new }
{
    let Ok(words) = question(alloc, key, message, signature) else {
        return None;
    };
    let status = programs.status(helper, words.as_slice());
    verdict_of(status)
}

/// The words of a question.
fn question(
    alloc: Global,
    key: &[u8],
    message: &[u8],
    signature: &[u8],
) -> Result<Vec<String>, AllocError>
    ensures { IfOk result (λ words.
        map string_bytes words.items ≡ question_of key.now message.now signature.now) }
{
    let mut words = Vec::new(alloc);
    give_question(alloc, &mut words, key, message, signature)?;
    Ok(words)
}

/// Puts the words of a question behind others. For want of memory a part of them may stand there.
fn give_question(
    alloc: Global,
    words: &mut Vec<String>,
    key: &[u8],
    message: &[u8],
    signature: &[u8],
) -> Result<(), AllocError>
    ensures { OnOk result (map string_bytes words.new.items
        ≡ map string_bytes words.old.items ++ question_of key.now message.now signature.now) }
{
    words.push(String::from_str(alloc, "verify")?)?;
    give_bytes(alloc, words, key)?;
    give_bytes(alloc, words, message)?;
    give_bytes(alloc, words, signature)
}

/// Puts one word more behind others: bytes, as a helper takes them.
pub(crate) fn give_bytes(
    alloc: Global,
    words: &mut Vec<String>,
    bytes: &[u8],
) -> Result<(), AllocError>
    ensures { OnOk result (map string_bytes words.new.items
        ≡ map string_bytes words.old.items ++ hex_word bytes.now ∷ []) }
{
    words.push(hex_word(alloc, bytes)?)?;
    Ok(())
}

/// The verdict of a helper's status. `None` where it is neither 0 nor 1, or where no status came.
fn verdict_of(status: Option<i32>) -> Option<Verdict>
    ensures { result ≡ verdict_of_code status }
{
    match status {
        Some(0) => Some(Verdict::Yes),
        Some(1) => Some(Verdict::No),
        _ => None,
    }
}
