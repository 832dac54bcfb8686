//! What comes of a script. Each object that it runs over is made in a function of its own.
ghost use Rattle.std.specs.Prelude.{◌≡◌, length};
ghost use Rattle.std.specs.List.{AllByRecursion};
ghost use Rattle.up_disk.specs.Leaving.{IsBlank};

use crate::script_cases::around::ToldPeer;
use crate::script_cases::by_proof::ByProof;
use crate::script_cases::script::{Command, Script};
use std::alloc::{AllocError, Global};
use up_case_lines::Fault;
use up_disk::{Disk, Disks, MemDisk, blank_disks};
use up_ends::{FixedClock, ListNonces, MemSink, MemSource};
use up_lists::Items;
use up_peer::{Peer, Peers};
use up_script::{can_run, script_run};

/// What came of a script.
#[derive(Drop)]
pub struct Ran {
    pub status: u8,
    pub text: String,
    pub around: Counts,
}

/// How often what stands around a script failed, and how many disks are not there any more.
#[derive(Clone, Copy, Debug)]
pub struct Counts {
    pub helper_faults: u64,
    pub peer_faults: u64,
    pub disks_gone: u64,
}

/// Runs a script.
pub fn run(alloc: Global, script: &mut Script<'_>) -> Result<Ran, Fault> {
    let mut source = source_of(alloc, script)?;
    let words = script.words(alloc)?;
    run_from(alloc, script, &words, &mut source)
}

fn source_of(alloc: Global, script: &mut Script<'_>) -> Result<MemSource, AllocError> {
    let pieces = script.pieces(alloc)?;
    let fails = script.source_fails(alloc)?;
    Ok(MemSource::new(script.take_input(alloc), pieces, fails))
}

fn run_from(
    alloc: Global,
    script: &Script<'_>,
    words: &[String],
    source: &mut MemSource,
) -> Result<Ran, Fault> {
    let mut sink = MemSink::new(alloc, script.sink_fails(alloc)?);
    let (status, around) = run_to(alloc, script, words, source, &mut sink)?;
    ran_to(alloc, status, around, &sink)
}

fn ran_to(alloc: Global, status: u8, around: Counts, sink: &MemSink) -> Result<Ran, Fault> {
    Ok(Ran {
        status,
        text: String::from_utf8_lossy(alloc, sink.bytes())?,
        around,
    })
}

fn run_to(
    alloc: Global,
    script: &Script<'_>,
    words: &[String],
    source: &mut MemSource,
    sink: &mut MemSink,
) -> Result<(u8, Counts), Fault> {
    match script.command {
        Command::Can => {
            let status = can_run(alloc, script.random, words, source, sink);
            Ok((status, no_counts()))
        }
        Command::Script => run_around(alloc, script, words, source, sink),
    }
}

fn no_counts() -> Counts {
    Counts {
        helper_faults: 0,
        peer_faults: 0,
        disks_gone: 0,
    }
}

fn run_around(
    alloc: Global,
    script: &Script<'_>,
    words: &[String],
    source: &mut MemSource,
    sink: &mut MemSink,
) -> Result<(u8, Counts), Fault> {
    let told = script.around.told_peer(alloc)?;
    run_with(alloc, script, words, source, sink, told)
}

// The same with the peer that was told. A peer is of any kind here alone, where the list of peers ends too.
fn run_with(
    alloc: Global,
    script: &Script<'_>,
    words: &[String],
    source: &mut MemSource,
    sink: &mut MemSink,
    told: Option<ToldPeer>,
) -> Result<(u8, Counts), Fault> {
    let mut peers = Peers::new(alloc);
    let mut lost = Ok(());
    if let Some(one) = told {
        let ToldPeer { owners, peer } = one;
        let peer: Box<dyn Peer + Send> = peer;
        if let Err(fault) = peers.add(owners, Items::new(alloc), peer) {
            lost = Err(fault);
        }
    }
    lost?;
    run_beside(alloc, script, words, source, sink, &mut peers)
}

fn run_beside(
    alloc: Global,
    script: &Script<'_>,
    words: &[String],
    source: &mut MemSource,
    sink: &mut MemSink,
    peers: &mut Peers,
) -> Result<(u8, Counts), Fault> {
    let mut nonces = script.around.nonces(alloc)?;
    run_among(alloc, script, words, source, sink, peers, &mut nonces)
}

fn run_among(
    alloc: Global,
    script: &Script<'_>,
    words: &[String],
    source: &mut MemSource,
    sink: &mut MemSink,
    peers: &mut Peers,
    nonces: &mut ListNonces,
) -> Result<(u8, Counts), Fault> {
    let mut disks = blank_disks(alloc, &script.around.disk_faults)?;
    Ok(run_over(
        alloc, script, words, source, sink, peers, nonces, &mut disks,
    ))
}

fn run_over(
    alloc: Global,
    script: &Script<'_>,
    words: &[String],
    source: &mut MemSource,
    sink: &mut MemSink,
    peers: &mut Peers,
    nonces: &mut ListNonces,
    disks: &mut Disks<MemDisk>,
) -> (u8, Counts)
    requires eighty { length disks.old.disks ≡ 80 }
    requires blank { AllByRecursion (IsBlank ⟦<MemDisk as Disk>⟧) disks.old.disks }
{
    let mut helper = ByProof::new();
    let mut clock: FixedClock = script.around.clock();
    let count = disks.len();
    let status = script_run(
        alloc,
        script.random,
        words,
        source,
        sink,
        disks,
        &mut helper,
        &mut clock,
        nonces,
        peers,
    );
    let counts = Counts {
        helper_faults: helper.faults(),
        peer_faults: u64::try_from(peers.faults()).unwrap_or(u64::MAX),
        disks_gone: count.saturating_sub(disks.len()),
    };
    (status, counts)
}
