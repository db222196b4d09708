//! How the program ends.

ghost use Rattle.std.specs.Prelude.{◌≡◌};

/// How a call of the program ended.
#[derive(Clone, Copy, Debug, PartialEq, Eq)]
pub enum Status {
    /// It did what was asked, and a program that it ran ended with success.
    Success,
    /// A program that it ran ended with failure.
    Failure,
    /// The files are no program.
    Refused,
    /// A program that it ran was aborted.
    Abort,
    /// A program that it ran made all the steps that it was given.
    Steps,
    /// A file or the input couldn't be read.
    ReadFault,
    /// The output couldn't be written.
    WriteFault,
    /// Memory ran out.
    Memory,
    /// A limit was passed.
    Limit,
    /// A file isn't there.
    Missing,
    /// The words of the command line ask for nothing that there is.
    Words,
}

impl Status {
    ghost use Rattle.au_base.specs.Statuses.{status_number};

    /// The number with which the process ends.
    pub fn number(&self) -> u8
        ensures { result ≡ status_number self.now }
    {
        match self {
            Status::Success => 0,
            Status::Failure => 1,
            Status::Refused => 2,
            Status::Abort => 3,
            Status::Steps => 4,
            Status::ReadFault => 5,
            Status::WriteFault => 6,
            Status::Memory => 7,
            Status::Limit => 8,
            Status::Missing => 9,
            Status::Words => 64,
        }
    }
}
