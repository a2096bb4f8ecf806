// An event goes into the texts of order and output.
ghost use Rattle.std.specs.Prelude.{◌≡◌, ◌≤◌, length, IfSome, OnOk, OnErr};
ghost use Rattle.conda_host.specs.declared.outside.Role.TheVariants as Role_is;
ghost use Rattle.streams.specs.Seen.{Puts, fault_in};
ghost use Rattle.machine_run.specs.Running.{Records, RecordsPart, entry_line};

use arrayvec::ArrayVec;
use conda_host::Role;
use schedule_log::{Entry, entry_text};
use streams::{Fault, Streams};

// The line of an entry that comes often, where its number has one digit.
#[tactic(auto, using(std::proofs::lemmas::Fmt::decimal_digit))]
fn short_line(entry: Entry) -> Option<[u8; 4]>
    ensures { IfSome result (λ line. line ≡ entry_line entry) }
{
    match entry {
        Entry::Step(hart) if hart < 10 => Some([b's', b' ', b'0' + hart, b'\n']),
        Entry::Spec(core) if core < 10 => Some([b'p', b' ', b'0' + core, b'\n']),
        _ => None,
    }
}

// Adds the line of an entry to the order.
fn put_line<S: Streams>(streams: &mut S, entry: Entry) -> Result<(), Fault>
    ensures ok { OnOk result (Puts (S.seen streams.old) (S.seen streams.new) Role_is.Order
        (entry_line entry)) }
    ensures err { OnErr result (S.seen streams.new ≡ S.seen streams.old) }
    ensures leads { S.leads streams.old streams.new (fault_in result) }
{
    if let Some(line) = short_line(entry) {
        return streams.put(Role::Order, &line);
    }
    let mut line = ArrayVec::new();
    entry_text(entry, &mut line);
    line.push(b'\n');
    streams.put(Role::Order, line.as_slice())
}

// Adds bytes to the output, of which most events have none.
fn put_output<S: Streams>(streams: &mut S, out: &[u8]) -> Result<(), Fault>
    requires { length out.now ≤ 64 }
    ensures ok { OnOk result (Puts (S.seen streams.old) (S.seen streams.new) Role_is.Output
        out.now) }
    ensures err { OnErr result (S.seen streams.new ≡ S.seen streams.old) }
    ensures leads { S.leads streams.old streams.new (fault_in result) }
{
    if out.is_empty() {
        return Ok(());
    }
    streams.put(Role::Output, out)
}

/// Adds the line of an event's entry to the order, and its bytes to the output.
pub fn record<S: Streams>(
    streams: &mut S,
    entry: Entry,
    out: &ArrayVec<u8, 64>,
) -> Result<(), Fault>
    ensures ok { OnOk result (Records (S.seen streams.old)
        (S.seen streams.new) entry out.now.items) }
    ensures err { OnErr result (RecordsPart (S.seen streams.old)
        (S.seen streams.new) entry out.now.items) }
    ensures leads { S.leads streams.old streams.new (fault_in result) }
{
    put_line(streams, entry)?;
    put_output(streams, out.as_slice())
}
