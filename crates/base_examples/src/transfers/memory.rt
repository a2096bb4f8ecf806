// A source in memory, and no sink: what is put goes nowhere.
ghost use Rattle.std.specs.Prelude.{◌≤◌, length};

use conda_host::Role;
use streams::{Fault, Streams};

/// Bytes that are read from a place on.
#[derive(Drop)]
pub struct MemorySource<'a> {
    bytes: &'a [u8],
    at: usize,
    ghost within: { at ≤ length bytes.now },
}

impl<'a> MemorySource<'a> {
    pub fn new(bytes: &'a [u8]) -> MemorySource<'a> {
        MemorySource { bytes, at: 0 }
    }
}

impl<'a> Streams for MemorySource<'a> {
    ghost use Rattle.std.specs.Prelude.{◌≡◌, true, false, [], drop, None};
    ghost use Rattle.std.proofs.Common.{refl};

    ghost seen = { λ m. record {
      tells = true;
      left = drop m.at m.bytes.now;
      sinks = λ r. false;
      text = λ r. [];
    } };

    ghost leads = { λ f g fault. fault ≡ None };

    ghost stays = { λ a. refl };

    ghost goes_on = { λ a b c f p q. q };

    fn read(&mut self, buf: &mut [u8]) -> Result<usize, Fault> {
        let n = buf.len().min(self.bytes.len() - self.at);
        buf[..n].copy_from_slice(&self.bytes[self.at..self.at + n]);
        self.at += n;
        Ok(n)
    }

    fn put(&mut self, _role: Role, _bytes: &[u8]) -> Result<(), Fault> {
        Ok(())
    }
}
