//! The reports over the logs of a stopped server.
use crate::{OUT_OF_MEMORY, READ_FAULT};
use std::alloc::AllocError;
use std::hash::RandomState;
use up_audit::{audit_run, audit_words};
use up_disk::Disks;
use up_ends::StdSink;
use up_net::LogDisk;
use up_report_files::{log_of_tree, logs_of_trees, open_for_reading};
use up_share::{share_run, share_words};

/// Runs `upspin audit`, and answers its status. Words that do not fit touch no file.
pub fn audit_status(rt: &HostRuntime, words: &[String]) -> u8 {
    match audited_logs(rt, words) {
        Ok(mut disks) => audit_run(
            rt.alloc(),
            words,
            &mut StdSink::new(rt.stdout()),
            &mut disks,
        ),
        Err(_) => OUT_OF_MEMORY,
    }
}

/// The logs of the trees of the words, and of the store; none where the words do not fit.
fn audited_logs(rt: &HostRuntime, words: &[String]) -> Result<Disks<LogDisk>, AllocError> {
    match audit_words(rt.alloc(), words)? {
        Some(owners) => {
            let trees = owners.len();
            drop(owners);
            let names = logs_of_trees(rt.alloc(), trees)?;
            logs_in(rt, words, names.as_slice())
        }
        None => Ok(Disks::new(rt.alloc())),
    }
}

/// Runs `upspin share`, and answers its status. Words that do not fit touch no file.
pub fn share_status(rt: &HostRuntime, words: &[String]) -> u8 {
    let Ok(random) = RandomState::new(rt) else {
        return READ_FAULT;
    };
    match shared_log(rt, words) {
        Ok(mut disks) => share_run(
            rt.alloc(),
            random,
            words,
            &mut StdSink::new(rt.stdout()),
            &mut disks,
        ),
        Err(_) => OUT_OF_MEMORY,
    }
}

/// The log of the tree of the words; none where the words do not fit.
fn shared_log(rt: &HostRuntime, words: &[String]) -> Result<Disks<LogDisk>, AllocError> {
    match share_words(rt.alloc(), words)? {
        Some(plan) => {
            let which = plan.place;
            drop(plan);
            let mut names = Vec::new(rt.alloc());
            names.push(log_of_tree(rt.alloc(), which)?)?;
            logs_in(rt, words, names.as_slice())
        }
        None => Ok(Disks::new(rt.alloc())),
    }
}

/// The logs with these names in the folder of the words, which is the second.
fn logs_in(
    rt: &HostRuntime,
    words: &[String],
    names: &[String],
) -> Result<Disks<LogDisk>, AllocError> {
    match words.get(1) {
        Some(folder) => open_for_reading(rt.alloc(), rt, folder.as_str(), names),
        None => Ok(Disks::new(rt.alloc())),
    }
}
