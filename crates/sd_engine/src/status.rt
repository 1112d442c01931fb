//! The status of a command.
ghost use Rattle.std.specs.Prelude.{◌≡◌};
ghost use Rattle.sd_engine.specs.Statuses.{name_of, number_of};

/// How a command ended. The numbers are the exit statuses, in this order from 0.
#[derive(Clone, Copy, PartialEq, Eq, Debug)]
pub enum Status {
    /// All was done, and the output is whole.
    Done,
    /// A driver text is refused; the output names it.
    Refused,
    /// The words are no command.
    Usage,
    /// A file was not read: it is not there, or a read failed.
    ReadFault,
    /// The output was not written whole: a write failed.
    WriteFault,
    /// Want of memory; nothing was written.
    OutOfMemory,
    /// A file has more than 1,048,576 bytes.
    TooLong,
    /// The scenario is refused; the output names its line.
    BadScenario,
    /// The run was written whole, and a driver failed in it.
    DriverFailed,
}

impl Status {
    /// The exit status, from 0 to 8.
    pub fn number(self) -> u8
        ensures { result ≡ number_of self }
    {
        match self {
            Status::Done => 0,
            Status::Refused => 1,
            Status::Usage => 2,
            Status::ReadFault => 3,
            Status::WriteFault => 4,
            Status::OutOfMemory => 5,
            Status::TooLong => 6,
            Status::BadScenario => 7,
            Status::DriverFailed => 8,
        }
    }

    /// The status's name, for a person.
    pub fn name(self) -> &'static str
        ensures { result.now ≡ name_of self }
    {
        match self {
            Status::Done => "Done",
            Status::Refused => "Refused",
            Status::Usage => "Usage",
            Status::ReadFault => "ReadFault",
            Status::WriteFault => "WriteFault",
            Status::OutOfMemory => "OutOfMemory",
            Status::TooLong => "TooLong",
            Status::BadScenario => "BadScenario",
            Status::DriverFailed => "DriverFailed",
        }
    }
}
