// Streams over the files of a host.
ghost use Rattle.std.specs.Prelude.{◌≡◌, IsTrue, OnOk, OnErr};
ghost use Rattle.std.proofs.Props.{props};
ghost use Rattle.streams.specs.Seen.{fault_in};
ghost use Rattle.streams.specs.Streaming.{AreOpen};

use crate::{Fault, Sinks, Streams};
use conda_host::{Host, HostFailed, Role};

/// One opened role of a host, and sinks whose files are made.
#[derive(Drop)]
pub struct Files<'a, H: Host> {
    pub host: &'a mut H,
    pub sinks: &'a mut Sinks,
    pub source: Role,
    ghost open: { AreOpen (H.state host.now) source sinks.now } by { Prim.hlevel props },
}

impl<'a, H: Host> Files<'a, H> {
    ghost use Rattle.streams.specs.Streaming.{AreWhole, IsLed, seen_over};

    /// Streams over these files.
    pub fn new(host: &'a mut H, source: Role, sinks: &'a mut Sinks) -> Files<'a, H>
        requires { AreOpen (H.state host.old) source sinks.old }
        ensures host { (result.host.ghost_name ≡ host.entry.ghost_name)
            × (result.host.now ≡ host.old) }
        ensures sinks { (result.sinks.ghost_name ≡ sinks.entry.ghost_name)
            × (result.sinks.now ≡ sinks.old) }
        ensures source { result.source ≡ source }
    {
        Files {
            host,
            sinks,
            source,
        }
    }

    /// Writes the rest of all texts.
    pub fn finish(&mut self) -> Result<(), Fault>
        ensures whole { OnOk result (AreWhole self.new.sinks.now) }
        ensures seen { seen_over (H.state self.new.host.now) self.new.source self.new.sinks.now
            ≡ seen_over (H.state self.old.host.now) self.old.source self.old.sinks.now }
        ensures same { (self.new.host.ghost_name ≡ self.old.host.ghost_name)
            × (self.new.sinks.ghost_name ≡ self.old.sinks.ghost_name)
            × (self.new.source ≡ self.old.source) }
        ensures led { IsLed self.old.source self.old.sinks.now self.new.sinks.now
            (H.state self.old.host.now) (H.state self.new.host.now) (fault_in result) }
    {
        self.sinks.flush(self.host)
    }
}

impl<'a, H: Host> Streams for Files<'a, H> {
    ghost use Rattle.streams.specs.Streaming.{IsLed, seen_over};
    ghost use Rattle.std.proofs.Common.{refl, ◌∙◌};
    ghost use Rattle.streams.specs.Calls.{led_refl, led_by};

    ghost seen = { λ f. seen_over (H.state f.host.now) f.source f.sinks.now };

    ghost leads = { λ f g fault. (g.host.ghost_name ≡ f.host.ghost_name)
        × (g.sinks.ghost_name ≡ f.sinks.ghost_name) × (g.source ≡ f.source)
        × IsLed f.source f.sinks.now g.sinks.now (H.state f.host.now) (H.state g.host.now)
        fault };

    ghost stays = { λ f. (refl, refl, refl, led_refl f.source f.sinks.now (H.state f.host.now)) };

    ghost goes_on = { λ f g h fault p q. (q.0 ∙ p.0, q.1 ∙ p.1, q.2 ∙ p.2, led_by p.2 p.3 q.3) };

    fn read(&mut self, buf: &mut [u8]) -> Result<usize, Fault> {
        match self.host.read(self.source, buf) {
            Ok(n) => Ok(n),
            Err(HostFailed) => Err(Fault::Read(self.source)),
        }
    }

    fn put(&mut self, role: Role, bytes: &[u8]) -> Result<(), Fault> {
        self.sinks.put(self.host, role, bytes)
    }
}
