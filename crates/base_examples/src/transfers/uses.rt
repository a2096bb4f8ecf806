// What commands do with streams: a source is read on its own, or goes through to a sink; a text is
// put into the only file.
ghost use Rattle.std.specs.Prelude.{◌≡◌, ◌++◌, ℕ, List, IsTrue, IfOk, OnOk, Some, None};
ghost use Rattle.conda_host.specs.declared.outside.Role.TheVariants as role;
ghost use Rattle.streams.specs.Seen.{IsLeft, ShowsText, fault_in};
ghost use Rattle.streams.specs.Streaming.{AreMade, AreOpen};
ghost use Rattle.streams.specs.Sink.{SinkView};

use conda_host::{Host, Role};
use streams::{Fault, Files, MOST_PUT, Sink, SinkFiles, Sinks, Streams, put_all};

fn open<H: Host>(host: &mut H, role: Role, name: &str) -> Result<(), Fault>
    ensures { OnOk result (IsTrue ((H.state host.new).role role).opened) }
{
    match host.open(role, name) {
        Ok(()) => Ok(()),
        Err(_) => Err(Fault::Read(role)),
    }
}

// Reads from an opened role, beside which nothing is written.
fn read_opened<H: Host>(host: &mut H, role: Role, buf: &mut [u8]) -> Result<usize, Fault>
    requires { IsTrue ((H.state host.old).role role).opened }
{
    let mut sinks = Sinks {
        first: None,
        second: None,
    };
    Files::new(host, role, &mut sinks).read(buf)
}

/// Opens a role, and reads from its start.
pub fn read_front<H: Host>(
    host: &mut H,
    role: Role,
    name: &str,
    buf: &mut [u8],
) -> Result<usize, Fault> {
    open(host, role, name)?;
    read_opened(host, role, buf)
}

/// Copies what is left of the source to the text of a role's sink, in at most so many pieces.
/// Whether the source's end was met is the answer.
pub fn copy_all<S: Streams>(streams: &mut S, role: Role, pieces: u32) -> Result<bool, Fault>
    ensures copied { IfOk result (λ ended. IsTrue ended → (left text : List ℕ)
        → IsLeft (S.seen streams.old) left → ShowsText (S.seen streams.old) role text
        → ShowsText (S.seen streams.new) role (text ++ left)) }
    ensures leads { S.leads streams.old streams.new (fault_in result) }
{
    let mut piece = [0u8; MOST_PUT];
    for _ in 0..pieces {
        let n = streams.read(&mut piece)?;
        if n == 0 {
            return Ok(true);
        }
        streams.put(role, &piece[..n])?;
    }
    Ok(false)
}

// Opens a source, and creates a file for what comes of it.
fn start<H: Host>(host: &mut H, from: &str, to: &str) -> Result<(), Fault>
    ensures { OnOk result ((sink : SinkView) → sink.role ≡ role.Program
        → AreOpen (H.state host.new) role.Source (record { first = Some sink; second = None })) }
{
    open(host, Role::Source, from)?;
    match host.create(Role::Program, to) {
        Ok(()) => Ok(()),
        Err(_) => Err(Fault::Write(Role::Program)),
    }
}

fn copy_over<H: Host>(files: &mut Files<'_, H>) -> Result<bool, Fault> {
    let ended = copy_all(files, Role::Program, 99)?;
    files.finish()?;
    Ok(ended)
}

/// Copies a file through a sink of the role Program.
pub fn copy_file<H: Host>(host: &mut H, sink: Sink, from: &str, to: &str) -> Result<bool, Fault>
    requires { sink.role ≡ role.Program }
{
    start(host, from, to)?;
    let mut sinks = Sinks {
        first: Some(sink),
        second: None,
    };
    let mut files = Files::new(host, Role::Source, &mut sinks);
    copy_over(&mut files)
}

// Creates a file for a text.
fn create<H: Host>(host: &mut H, to: &str) -> Result<(), Fault>
    ensures { OnOk result ((sink : SinkView) → sink.role ≡ role.Program
        → AreMade (H.state host.new) (record { first = Some sink; second = None })) }
{
    match host.create(Role::Program, to) {
        Ok(()) => Ok(()),
        Err(_) => Err(Fault::Write(Role::Program)),
    }
}

fn write_over<H: Host>(files: &mut SinkFiles<'_, H>, text: &[u8]) -> Result<(), Fault> {
    put_all(files, Role::Program, text)?;
    files.finish()
}

/// Writes a text through a sink of the role Program, beside which nothing is read.
pub fn write_file<H: Host>(host: &mut H, sink: Sink, text: &[u8], to: &str) -> Result<(), Fault>
    requires { sink.role ≡ role.Program }
{
    create(host, to)?;
    let mut sinks = Sinks {
        first: Some(sink),
        second: None,
    };
    let mut files = SinkFiles::new(host, &mut sinks);
    write_over(&mut files, text)
}
