//! The requests of a storm, drawn from numbers.
ghost use Rattle.std.specs.Prelude.{◌≡◌, ◌<◌};
ghost use Rattle.up_storm.specs.Generator.{drawn_of, first_number, next_number, wish_of};

/// What is asked of a file, or of its directory.
#[derive(Clone, Copy, Debug, PartialEq, Eq)]
pub enum Wish {
    /// The empty file is put.
    Put,
    Delete,
    Lookup,
    /// The file of that number is looked up in the directory of the session after the next one.
    LookElsewhere,
    /// All of the session's directory is listed.
    Glob,
}

/// A request that was drawn: what is asked, and the number of the file, below 16.
#[derive(Clone, Copy, Debug, PartialEq, Eq)]
pub struct Draw {
    pub wish: Wish,
    pub file: u64,
}

/// The number with which session `k` of a storm begins.
pub fn first_number(seed: u64, k: u64) -> u64
    ensures { result ≡ first_number seed k }
{
    seed.wrapping_add(k)
}

/// The number behind this one: the generator's next step.
pub fn next_number(x: u64) -> u64
    ensures { result ≡ next_number x }
{
    x.wrapping_mul(6_364_136_223_846_793_005)
        .wrapping_add(1_442_695_040_888_963_407)
}

/// What a number draws.
pub fn drawn_of(x: u64) -> Draw
    ensures { result ≡ drawn_of x }
{
    Draw {
        wish: wish_of(x >> 61),
        file: (x >> 57) % 16,
    }
}

// What a kind asks.
fn wish_of(kind: u64) -> Wish
    ensures { result ≡ wish_of kind }
{
    if kind < 4 {
        Wish::Put
    } else if kind == 4 {
        Wish::Delete
    } else if kind == 5 {
        Wish::Lookup
    } else if kind == 6 {
        Wish::LookElsewhere
    } else {
        Wish::Glob
    }
}
