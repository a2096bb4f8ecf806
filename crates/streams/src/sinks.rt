// The sinks of a command.
ghost use Rattle.std.specs.Prelude.{◌≡◌, ◌≤◌, [], length, IsTrue, IfSome, IsSomeAnd, IfErr, OnOk, OnErr};
ghost use Rattle.conda_host.specs.State.{is_created, RoseForAll};
ghost use Rattle.conda_host.specs.declared.outside.Role.{Role as TheRole};
ghost use Rattle.streams.specs.Seen.{fault_in};
ghost use Rattle.streams.specs.Sink.{AddsIf};
ghost use Rattle.streams.specs.Streaming.{is_sink_of, has_sink, AreMade, AreWhole, Gives, HasFaultCause, added_to};

use crate::{Fault, MOST_PUT, Sink};
use conda_host::{Host, HostFailed, Role};

/// At most two sinks, whose roles are different.
#[derive(Drop)]
pub struct Sinks {
    pub first: Option<Sink>,
    pub second: Option<Sink>,
}

// Whether the sink is the role's.
fn is_role(sink: &Option<Sink>, role: Role) -> bool
    ensures { result ≡ is_sink_of sink.now role }
{
    match sink {
        Some(sink) => sink.role().index() == role.index(),
        None => false,
    }
}

// Adds bytes to a sink, if there is one.
fn put_into<H: Host>(sink: &mut Option<Sink>, host: &mut H, bytes: &[u8]) -> Result<(), Fault>
    requires created { IfSome sink.old (λ s. IsTrue (is_created (H.state host.old) s.role)) }
    requires short { length bytes.now ≤ MOST_PUT }
    ensures ok { OnOk result (AddsIf (H.state host.old)
        (H.state host.new) sink.old sink.new bytes.now) }
    ensures err { OnErr result (AddsIf (H.state host.old) (H.state host.new) sink.old sink.new []) }
    ensures fault { IfErr result (λ f. IsSomeAnd sink.old (λ s. f ≡ Fault.Write s.role)) }
    ensures cause { OnErr result (IfSome sink.old (λ s. RoseForAll (H.state host.old)
        (H.state host.new) s.role)) }
{
    let Some(sink) = sink else {
        return Ok(());
    };
    match sink.put(host, bytes) {
        Ok(()) => Ok(()),
        Err(HostFailed) => Err(Fault::Write(sink.role())),
    }
}

// Writes what is pending of a sink, if there is one.
fn flush_of<H: Host>(sink: &mut Option<Sink>, host: &mut H) -> Result<(), Fault>
    requires { IfSome sink.old (λ s. IsTrue (is_created (H.state host.old) s.role)) }
    ensures whole { OnOk result (IfSome sink.new (λ s. s.pending ≡ [])) }
    ensures adds { AddsIf (H.state host.old) (H.state host.new) sink.old sink.new [] }
    ensures fault { IfErr result (λ f. IsSomeAnd sink.old (λ s. f ≡ Fault.Write s.role)) }
    ensures cause { OnErr result (IfSome sink.old (λ s. RoseForAll (H.state host.old)
        (H.state host.new) s.role)) }
{
    let Some(sink) = sink else {
        return Ok(());
    };
    match sink.flush(host) {
        Ok(()) => Ok(()),
        Err(HostFailed) => Err(Fault::Write(sink.role())),
    }
}

impl Sinks {
    /// Adds bytes to the text of the role's sink, where it has one.
    pub fn put<H: Host>(&mut self, host: &mut H, role: Role, bytes: &[u8]) -> Result<(), Fault>
        requires made { AreMade (H.state host.old) self.old }
        requires short { length bytes.now ≤ MOST_PUT }
        ensures ok { OnOk result (Gives (H.state host.old) (H.state host.new) self.old self.new
            (added_to role bytes.now)) }
        ensures err { OnErr result (Gives (H.state host.old) (H.state host.new) self.old self.new
            (λ r. [])) }
        ensures cause { (source : TheRole) → HasFaultCause source (has_sink self.old)
            (H.state host.old) (H.state host.new) (fault_in result) }
    {
        if is_role(&self.first, role) {
            put_into(&mut self.first, host, bytes)
        } else if is_role(&self.second, role) {
            put_into(&mut self.second, host, bytes)
        } else {
            Ok(())
        }
    }

    /// Writes what is pending.
    pub fn flush<H: Host>(&mut self, host: &mut H) -> Result<(), Fault>
        requires { AreMade (H.state host.old) self.old }
        ensures whole { OnOk result (AreWhole self.new) }
        ensures gives { Gives (H.state host.old) (H.state host.new) self.old self.new (λ r. []) }
        ensures cause { (source : TheRole) → HasFaultCause source (has_sink self.old)
            (H.state host.old) (H.state host.new) (fault_in result) }
    {
        flush_of(&mut self.first, host)?;
        flush_of(&mut self.second, host)
    }
}
