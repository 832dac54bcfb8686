//! A verifier that judges by the signature.
ghost use Rattle.std.specs.Prelude.{None};

use sha2::{Digest, Sha256};
use up_ends::{Failed, Verdict, Verifier};

/// A verifier that fails where the signature begins with `FAIL`, and says No where it begins with `NO`. One of 32 bytes is judged as
/// `upspin verify` judges: Yes exactly where it is the SHA-256 of the key and the message, one after the other. Any other is a Yes. It
/// tells nothing of what it judged.
#[derive(Drop)]
pub struct ByProof {
    faults: u64,
}

impl ByProof {
    pub fn new() -> ByProof {
        ByProof { faults: 0 }
    }

    /// How many questions failed so far.
    pub fn faults(&self) -> u64 {
        self.faults
    }
}

impl Verifier for ByProof {
    ghost judged = { λ _. None };

    ghost faults = { λ verifier. verifier.faults };

    fn verdict(&mut self, key: &[u8], message: &[u8], signature: &[u8]) -> Result<Verdict, Failed> {
        if signature.starts_with(b"FAIL") {
            self.faults = self.faults.saturating_add(1);
            return Err(Failed);
        }
        Ok(verdict_on(key, message, signature))
    }
}

fn verdict_on(key: &[u8], message: &[u8], signature: &[u8]) -> Verdict {
    let good = match signature.len() {
        32 => is_signature(key, message, signature),
        _ => !signature.starts_with(b"NO"),
    };
    if good { Verdict::Yes } else { Verdict::No }
}

fn is_signature(key: &[u8], message: &[u8], signature: &[u8]) -> bool {
    signature
        == Sha256::new_with_prefix(key)
            .chain_update(message)
            .finalize()
            .as_slice()
}
