//! How a run of a command ends.
ghost use Rattle.std.specs.Prelude.{◌≡◌};
ghost use Rattle.up_command.specs.Statuses.{code_of};

/// How a run of a command ends. Each command says which of these it answers, and when.
#[derive(Clone, Copy)]
pub enum Status {
    /// All was done, and all was written.
    Done,
    /// A line is malformed; the lines before it were run.
    BadLine,
    /// The source failed, or the system has no random bytes.
    ReadFault,
    /// The sink failed; a front of the text was written.
    WriteFault,
    /// There was no memory; a front of the text was written.
    OutOfMemory,
    /// The verifier failed; the text of what was done before was written.
    HelperFault,
    /// A disk failed; the text of what was done before was written.
    DiskFault,
    /// The input has more bytes than it may have.
    TooLong,
    /// A log does not open for its content.
    Damaged,
    /// The system refused a listener, or a connection to it.
    ListenFault,
    /// A line of the text of users to be enrolled is bad.
    BadUser,
    /// Whoever was asked failed.
    AskFault,
    /// A log is full.
    Full,
    /// The words are not those of a command; the usage line was written.
    Usage,
}

impl Status {
    /// The number that the program ends with.
    pub fn code(self) -> u8
        ensures { result ≡ code_of self }
    {
        match self {
            Status::Done => 0,
            Status::BadLine => 1,
            Status::ReadFault => 2,
            Status::WriteFault => 3,
            Status::OutOfMemory => 4,
            Status::HelperFault => 5,
            Status::DiskFault => 6,
            Status::TooLong => 7,
            Status::Damaged => 8,
            Status::ListenFault => 9,
            Status::BadUser => 10,
            Status::AskFault => 11,
            Status::Full => 12,
            Status::Usage => 64,
        }
    }
}
