// How commands end.
ghost use Rattle.std.specs.Prelude.{◌≡◌};

use chip_config::ConfigFault;
use conda_host::Role;
use elf_loader::ImageFault;
use std::alloc::AllocError;

/// How a command ended.
#[derive(Clone, Copy, Debug, PartialEq, Eq)]
pub enum Status {
    /// All steps were made, and the schedule was read to its end.
    Done,
    /// The words are no command.
    Usage,
    ReadFault(Role),
    WriteFault(Role),
    /// The configuration is refused; the fault isn't want of memory.
    Config(ConfigFault),
    /// The image is refused; the fault isn't want of memory.
    Image(ImageFault),
    /// The first bad line of the schedule, counted from 1.
    Schedule { line: u64, why: u8 },
    /// A source has more bytes than its limit, or the schedule more events than its limit.
    TooLarge { role: Role, limit: u64 },
    OutOfMemory,
    /// The first bad line of a text that is assembled or checked, counted from 1.
    Syntax { line: u64, why: u8 },
}

impl Status {
    ghost use Rattle.command_answers.specs.StatusText.{status_code};

    /// The exit status of the program.
    pub fn code(&self) -> u8
        ensures { result ≡ status_code self.now }
    {
        match self {
            Status::Done => 0,
            Status::Usage => 2,
            Status::ReadFault(_) => 3,
            Status::WriteFault(_) => 4,
            Status::Config(_) => 5,
            Status::Image(_) => 6,
            Status::Schedule { .. } => 7,
            Status::TooLarge { .. } => 8,
            Status::OutOfMemory => 9,
            Status::Syntax { .. } => 13,
        }
    }
}

impl From<AllocError> for Status {
    ghost use Rattle.std.specs.Prelude.{◌≡◌};
    ghost use Rattle.command_answers.specs.declared.status.Status.TheVariants.{OutOfMemory};

    ghost from_gives = { λ _ e. e ≡ OutOfMemory };

    fn from(_: AllocError) -> Self {
        Status::OutOfMemory
    }
}
