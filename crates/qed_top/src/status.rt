//! How a call ended.
ghost use Rattle.std.specs.Prelude.{◌≡◌};
ghost use Rattle.qed_top.specs.Codes.{status_code};

/// How a call ended.
#[derive(Clone, Copy, Debug, PartialEq, Eq)]
pub enum Status {
    /// The command did what it is for.
    Done,
    /// The words match no command.
    Usage,
    /// The command does not take the file.
    Refused,
    /// A limit is exceeded.
    Limit,
    /// A file could not be read.
    ReadFault,
    /// A file or a text could not be written.
    WriteFault,
    /// Memory ran out.
    Memory,
    /// A check of the test fired.
    Fired,
    /// The test trapped.
    Trapped,
    /// The test had not ended after its steps.
    StepsSpent,
}

impl Status {
    /// The exit code of the program: 0 for `Done`, 2 to 7 for what went wrong, 10 to 12 for how a run ended.
    pub fn code(&self) -> u8
        ensures { result ≡ status_code self.now }
    {
        match self {
            Status::Done => 0,
            Status::Usage => 2,
            Status::Refused => 3,
            Status::Limit => 4,
            Status::ReadFault => 5,
            Status::WriteFault => 6,
            Status::Memory => 7,
            Status::Fired => 10,
            Status::Trapped => 11,
            Status::StepsSpent => 12,
        }
    }
}
