// A whole text is put into a role's sink.
ghost use Rattle.std.specs.Prelude.{OnOk, OnErr};
ghost use Rattle.streams.specs.Seen.{Puts, PutsFront, fault_in};

use crate::{Fault, MOST_PUT, Streams};
use conda_host::Role;

/// Adds all the bytes to the text of a role's sink, in pieces that streams take at once. After a
/// fault a front of them was added.
pub fn put_all<S: Streams>(streams: &mut S, role: Role, bytes: &[u8]) -> Result<(), Fault>
    ensures ok { OnOk result (Puts (S.seen streams.old) (S.seen streams.new) role bytes.now) }
    ensures err { OnErr result (PutsFront (S.seen streams.old) (S.seen streams.new)
        role bytes.now) }
    ensures leads { S.leads streams.old streams.new (fault_in result) }
{
    let mut at = 0;
    while at < bytes.len() {
        let end = bytes.len().min(at + MOST_PUT);
        streams.put(role, &bytes[at..end])?;
        at = end;
    }
    Ok(())
}
