//! The exit statuses.

ghost use Rattle.std.specs.Prelude.{◌≡◌};
ghost use Rattle.std.specs.Process.{exit_status};
ghost use Rattle.ptg_top.specs.Codes.{code_of};

use std::process::ExitCode;

/// How a run of the program ended; the exit status of its process is `code`.
#[derive(Clone, Copy, Debug, PartialEq, Eq)]
pub enum Status {
    /// What was asked for was printed. For `run`, `replay`, `demo`, `certify` and `ranks` all tasks ran.
    Complete,
    /// The arguments form no command.
    Usage,
    /// The JDF was refused.
    JdfRefused,
    /// The data were refused.
    DataRefused,
    /// The job is not consistent.
    Inconsistent,
    /// Some task trapped.
    Trapped,
    /// Some task could not run.
    Stalled,
    /// A file could not be read.
    ReadFault,
    /// The output could not be written.
    WriteFault,
    /// Out of memory. Nothing was written.
    OutOfMemory,
    /// A preload was asked for that is over 2^30 bytes.
    PreloadTooLarge,
    /// The trace was refused.
    TraceRefused,
}

impl Status {
    /// The exit status of the process.
    pub fn code(self) -> u8
        ensures { result ≡ code_of self }
    {
        match self {
            Status::Complete => 0,
            Status::Usage => 1,
            Status::JdfRefused => 2,
            Status::DataRefused => 3,
            Status::Inconsistent => 4,
            Status::Trapped => 5,
            Status::Stalled => 6,
            Status::ReadFault => 7,
            Status::WriteFault => 8,
            Status::OutOfMemory => 9,
            Status::PreloadTooLarge => 10,
            Status::TraceRefused => 11,
        }
    }

    /// The exit code with which the process ends: the number `code`.
    pub fn exit_code(self) -> ExitCode
        ensures { exit_status result ≡ code_of self }
    {
        ExitCode::from(self.code())
    }
}
