// Streams as a loop sees them.
ghost use Rattle.std.specs.Prelude.{◌≡◌, ◌≤◌, length, Option, None, IfOk, OnOk, OnErr};
ghost use Rattle.streams.specs.declared.fault.Fault.{Fault as TheFault};
ghost use Rattle.streams.specs.Seen.{Seen, Takes, Puts, fault_in};

use crate::Fault;
use conda_host::Role;

/// The most bytes that are put into a sink at once.
pub const MOST_PUT: usize = 64;

/// A source that is read in pieces, and a sink for each of some roles.
///
/// After a fault the streams show what they showed before the call that failed.
pub trait Streams {
    ghost seen: { Self → Seen };

    // Any number of calls leads from the first to the second; the last of them had this fault, or
    // none had one.
    ghost leads: { Self → Self → Option TheFault → Type 0 };

    /// Takes some of the bytes that are left of the source, to the front of the buffer, and says
    /// how many: none at the end.
    fn read(&mut self, buf: &mut [u8]) -> Result<usize, Fault>
        ensures ok { IfOk result (λ n. Takes (seen self.old) (seen self.new) buf.old buf.new n) }
        ensures err { OnErr result (seen self.new ≡ seen self.old) }
        ensures leads { leads self.old self.new (fault_in result) };

    /// Adds bytes to the text of a role's sink. Where the role has none, they go nowhere.
    fn put(&mut self, role: Role, bytes: &[u8]) -> Result<(), Fault>
        requires { length bytes.now ≤ MOST_PUT }
        ensures ok { OnOk result (Puts (seen self.old) (seen self.new) role bytes.now) }
        ensures err { OnErr result (seen self.new ≡ seen self.old) }
        ensures leads { leads self.old self.new (fault_in result) };

    // No call leads nowhere else, and calls after calls are calls.
    ghost stays: { (a : Self) → leads a a None };

    ghost goes_on: { (a b c : Self) (f : Option TheFault) → leads a b None → leads b c f
        → leads a c f };
}
