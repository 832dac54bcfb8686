//! What the adapters of `up_net` do at a machine: with its clock, its random bytes and its programs, and the two commands of a helper.
use crate::tests::folder::Folder;
use std::alloc::{AllocError, Global};
use std::io;
use std::io::ErrorKind;
use std::random::RandomSource;
use std::test::Fail;
use std::time::{Clock as TimeOfDay, Duration};
use up_ends::{Clock, Failed, MemSink, Nonces, Verdict, Verifier};
use up_helper::{hex_word, sign_run, verify_run};
use up_lists::Items;
use up_names::parse_user;
use up_net::{HelperVerifier, HostClock, Machine, SeedNonces, signature};

/// The clocks of a machine: the one that counts from 1970 stands still, or cannot be read, and the other one stands at an hour.
#[derive(Drop)]
struct Stands(Option<u64>);

impl TimeOfDay for Stands {
    fn monotonic(&self) -> io::Result<Duration> {
        Ok(Duration::from_secs(3_600))
    }

    fn since_1970(&self) -> io::Result<Duration> {
        match self.0 {
            Some(seconds) => Ok(Duration::new(seconds, 999_999_999)),
            None => Err(io::Error::from(ErrorKind::Other)),
        }
    }
}

#[test]
fn nearest_moment(rt: HostRuntime) -> Result<(), Fail> {
    for (reads, moment) in [
        (Some(86_400), 86_400),
        (Some(253_402_207_199), 253_402_207_199),
        (Some(253_402_207_200), 253_402_207_199),
        (Some(u64::MAX), 253_402_207_199),
        (None, 0),
    ] {
        let machine = Machine::new(rt.alloc(), Stands(reads));
        assert_eq!(rt; HostClock::new(machine).now(), moment);
    }
    Ok(())
}

/// A machine without random bytes.
#[derive(Drop)]
struct NoneRandom;

impl RandomSource for NoneRandom {
    fn fill_bytes(&self, _buf: &mut [u8]) -> io::Result<()> {
        Err(io::Error::from(ErrorKind::Other))
    }
}

#[test]
fn nonces_of_a_seed(rt: HostRuntime) -> Result<(), Fail> {
    let mut nonces = SeedNonces::new([0; 32]);
    for digits in [
        "2C34CE1DF23B838C5ABF2A7F6437CCA3D3067ED509FF25F11DF6B11B582B51EB",
        "08E00266FFF0AACC64974F22A53622A7DC458AC1B5FD446AE7C99A4A99A564E6",
    ] {
        let nonce = hex_word(rt.alloc(), nonces.next().as_slice())?;
        assert_eq!(rt; nonce.as_str(), digits);
    }
    let mut one = SeedNonces::from_random(&mut Machine::new(rt.alloc(), &rt))?;
    let mut other = SeedNonces::from_random(&mut Machine::new(rt.alloc(), &rt))?;
    assert!(rt; one.next() != other.next());
    assert!(rt; SeedNonces::from_random(&mut Machine::new(rt.alloc(), NoneRandom)).is_err());
    Ok(())
}

/// What a helper answers to one question, and how many of its runs failed.
fn verdict_of(
    rt: HostRuntime,
    helper: &str,
    key: &[u8],
) -> io::Result<(Result<Verdict, Failed>, u64)> {
    let helper = String::from_str(rt.alloc(), helper)?;
    let mut verifier = HelperVerifier::new(rt.alloc(), Machine::new(rt.alloc(), rt), helper);
    let verdict = verifier.verdict(key, b"bc", b"");
    let faults = verifier.faults();
    drop(verifier);
    Ok((verdict, faults))
}

/// The place of the first program, or key, with another verdict than is wanted.
fn wrong_verdict(rt: HostRuntime, helper: &str) -> io::Result<Option<usize>> {
    for (place, (program, key, verdict, faults)) in [
        ("/bin/true", b"a", Ok(Verdict::Yes), 0),
        ("/bin/false", b"a", Ok(Verdict::No), 0),
        ("/nobody/has/this", b"a", Err(Failed), 1),
        (helper, b"a", Ok(Verdict::Yes), 0),
        (helper, b"b", Ok(Verdict::No), 0),
        (helper, b"c", Err(Failed), 1),
    ]
    .iter()
    .copied()
    .enumerate()
    {
        if verdict_of(rt, program, key)? != (verdict, faults) {
            return Ok(Some(place));
        }
    }
    Ok(None)
}

#[test]
fn verdicts_of_programs(rt: HostRuntime) -> Result<(), Fail> {
    let folder = Folder::new(rt, "verdicts")?;
    let helper = folder.file("helper")?;
    let wrong = wrong_verdict(rt, helper.as_str())?;
    // Each question ran it once, one that it failed at too.
    let runs = folder.text(rt, "helper.runs")?;
    folder.remove(rt)?;
    assert_eq!(rt; wrong, None);
    let wanted = "verify 61 6263 -\nverify 62 6263 -\nverify 63 6263 -\n";
    assert_eq!(rt; runs.as_str(), wanted);
    Ok(())
}

/// A letter for what a helper signs for a user: two bytes, something else, or nothing.
fn signed(rt: HostRuntime, helper: &str, user: &[u8]) -> io::Result<u8> {
    let Ok(user) = parse_user(rt.alloc(), user) else {
        return Ok(b'!');
    };
    let mut machine = Machine::new(rt.alloc(), rt);
    Ok(
        match signature(rt.alloc(), &mut machine, helper, &user, b"hi")? {
            None => b'-',
            Some(bytes) if bytes.as_slice() == b"\x0A\xFF".as_slice() => b's',
            Some(_) => b'?',
        },
    )
}

#[test]
fn signatures_of_programs(rt: HostRuntime) -> Result<(), Fail> {
    let folder = Folder::new(rt, "signatures")?;
    let helper = folder.file("helper")?;
    let one = signed(rt, helper.as_str(), b"one@a.example")?;
    let two = signed(rt, helper.as_str(), b"two@a.example")?;
    let none = signed(rt, helper.as_str(), b"none@a.example")?;
    let fails = signed(rt, helper.as_str(), b"fails@a.example")?;
    drop(helper);
    folder.remove(rt)?;
    assert_eq!(rt; [one, two, none, fails], *b"s---");
    Ok(())
}

/// The words of a command.
fn words(alloc: Global, texts: &[&str]) -> Result<Vec<String>, AllocError> {
    let mut words = Vec::new(alloc);
    for text in texts {
        words.push(String::from_str(alloc, *text)?)?;
    }
    Ok(words)
}

#[test]
fn commands_of_a_helper(rt: HostRuntime) -> Result<(), Fail> {
    let signature = "BA7816BF8F01CFEA414140DE5DAE2223B00361A396177A9CB410FF61F20015AD";
    for (signature, status) in [(signature, 0), ("00", 1), ("-", 1), ("", 2), ("ba", 2)] {
        let words = words(rt.alloc(), &["verify", "61", "6263", signature])?;
        assert_eq!(rt; verify_run(rt.alloc(), &words), status);
    }
    let mut sink = MemSink::new(rt.alloc(), Items::from_vec(Vec::new(rt.alloc())));
    for (user, status) in [("ann", 2), ("Ann@A.Example.", 0)] {
        let words = words(rt.alloc(), &["sign", user, "6869"])?;
        assert_eq!(rt; sign_run(rt.alloc(), &words, &mut sink), status);
    }
    let line = b"E781F9F84DB4F4BB68CBF1A24FCA81BEC40C4F1EDE895137579311A4DF1CEDAC\n";
    assert_eq!(rt; sink.bytes(), line.as_slice());
    Ok(())
}
