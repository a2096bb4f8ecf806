// A file that is made at a command's end.
ghost use Rattle.std.specs.Prelude.{◌≢◌};
ghost use Rattle.command_answers.specs.Answers.{Answers};
ghost use Rattle.command_answers.specs.StatusText.{IsTold};
ghost use Rattle.command_answers.specs.LastFile.{IsFileEnd, file_command, text_outcome};

use crate::Status;
use conda_host::{Host, HostFailed, Role, write_all};

/// Creates a role's file, and writes a text to it. It takes no memory.
pub fn write_file<H: Host>(host: &mut H, role: Role, name: &str, text: &[u8]) -> Status
    ensures answers { Answers (file_command role name.now) (text_outcome text.now)
        (H.state host.old)
        (H.state host.new) result }
    ensures end { IsFileEnd role result }
    ensures told { IsTold result }
    ensures known { result ≢ Status.Usage }
{
    match host.create(role, name) {
        Ok(()) => match write_all(host, role, text) {
            Ok(()) => Status::Done,
            Err(HostFailed) => Status::WriteFault(role),
        },
        Err(HostFailed) => Status::WriteFault(role),
    }
}
