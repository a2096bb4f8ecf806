// The host's calls, each with the fault that its failure is.
ghost use Rattle.std.specs.Prelude.{◌≡◌, false, OnOk, OnErr, IfErr};
ghost use Rattle.conda_host.specs.State.{is_created, IsReading, IsCreating, Opens, Creates, Rose};

use conda_host::{Host, HostFailed, Role};
use streams::Fault;

pub fn open<H: Host>(host: &mut H, role: Role, name: &str) -> Result<(), Fault>
    ensures ok { OnOk result (Opens (H.state host.old) (H.state host.new) role name.now) }
    ensures fault { IfErr result (λ f. f ≡ Fault.Read role) }
    ensures cause { OnErr result (Rose (H.state host.old) (H.state host.new) role name.now) }
    ensures rest { IsReading (H.state host.old) (H.state host.new) role }
{
    match host.open(role, name) {
        Ok(()) => Ok(()),
        Err(HostFailed) => Err(Fault::Read(role)),
    }
}

pub fn create<H: Host>(host: &mut H, role: Role, name: &str) -> Result<(), Fault>
    ensures ok { OnOk result (Creates (H.state host.new) role name.now) }
    ensures fault { IfErr result (λ f. f ≡ Fault.Write role) }
    ensures none { OnErr result (is_created (H.state host.new) role ≡ false) }
    ensures cause { OnErr result (Rose (H.state host.old) (H.state host.new) role name.now) }
    ensures rest { IsCreating (H.state host.old) (H.state host.new) role name.now }
{
    match host.create(role, name) {
        Ok(()) => Ok(()),
        Err(HostFailed) => Err(Fault::Write(role)),
    }
}
