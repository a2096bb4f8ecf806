// Streams over files of a host that are only written.
ghost use Rattle.std.specs.Prelude.{◌≡◌, OnOk};
ghost use Rattle.std.proofs.Props.{props};
ghost use Rattle.streams.specs.Seen.{fault_in};
ghost use Rattle.streams.specs.Streaming.{AreMade};

use crate::{Fault, Sinks, Streams};
use conda_host::{Host, Role};

/// Sinks whose files are made, and no source.
#[derive(Drop)]
pub struct SinkFiles<'a, H: Host> {
    pub host: &'a mut H,
    pub sinks: &'a mut Sinks,
    ghost made: { AreMade (H.state host.now) sinks.now } by { Prim.hlevel props },
}

impl<'a, H: Host> SinkFiles<'a, H> {
    ghost use Rattle.streams.specs.Streaming.{AreWhole, IsLedAlone, seen_alone};

    /// Streams over these files.
    pub fn new(host: &'a mut H, sinks: &'a mut Sinks) -> SinkFiles<'a, H>
        requires { AreMade (H.state host.old) sinks.old }
        ensures host { (result.host.ghost_name ≡ host.entry.ghost_name)
            × (result.host.now ≡ host.old) }
        ensures sinks { (result.sinks.ghost_name ≡ sinks.entry.ghost_name)
            × (result.sinks.now ≡ sinks.old) }
    {
        SinkFiles { host, sinks }
    }

    /// Writes the rest of all texts.
    pub fn finish(&mut self) -> Result<(), Fault>
        ensures whole { OnOk result (AreWhole self.new.sinks.now) }
        ensures seen { seen_alone (H.state self.new.host.now) self.new.sinks.now
            ≡ seen_alone (H.state self.old.host.now) self.old.sinks.now }
        ensures same { (self.new.host.ghost_name ≡ self.old.host.ghost_name)
            × (self.new.sinks.ghost_name ≡ self.old.sinks.ghost_name) }
        ensures led { IsLedAlone self.old.sinks.now self.new.sinks.now
            (H.state self.old.host.now) (H.state self.new.host.now) (fault_in result) }
    {
        self.sinks.flush(self.host)
    }
}

impl<'a, H: Host> Streams for SinkFiles<'a, H> {
    ghost use Rattle.streams.specs.Streaming.{IsLedAlone, seen_alone};
    ghost use Rattle.std.proofs.Common.{refl, ◌∙◌};
    ghost use Rattle.streams.specs.Calls.{led_refl, led_trans};

    ghost seen = { λ f. seen_alone (H.state f.host.now) f.sinks.now };

    ghost leads = { λ f g fault. (g.host.ghost_name ≡ f.host.ghost_name)
        × (g.sinks.ghost_name ≡ f.sinks.ghost_name)
        × IsLedAlone f.sinks.now g.sinks.now (H.state f.host.now) (H.state g.host.now) fault };

    ghost stays = { λ f. (refl, refl, λ r. led_refl r f.sinks.now (H.state f.host.now)) };

    ghost goes_on = { λ f g h fault p q. (q.0 ∙ p.0, q.1 ∙ p.1, λ r. led_trans (p.2 r) (q.2 r)) };

    fn read(&mut self, _buf: &mut [u8]) -> Result<usize, Fault> {
        Ok(0)
    }

    fn put(&mut self, role: Role, bytes: &[u8]) -> Result<(), Fault> {
        self.sinks.put(self.host, role, bytes)
    }
}
