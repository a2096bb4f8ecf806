// A buffer in front of a role's file.
ghost use Rattle.std.specs.Prelude.{◌≡◌, ◌+◌, ◌≤◌, [], ◌++◌, drop, take, length, IsTrue, IfOk, OnOk, OnErr};
ghost use Rattle.conda_host.specs.State.{is_created, RoseForAll};
ghost use Rattle.streams.specs.Sink.{SinkView, Adds};

use crate::MOST_PUT;
use conda_host::{Host, HostFailed, Role};
use std::alloc::{AllocError, Global};
use std::marker::Model;

/// Gathers a text for a created role, and writes it in pieces. Its memory is taken when it is made.
#[derive(Drop)]
pub struct Sink {
    role: Role,
    memory: Vec<u8>,
    start: usize,
    held: usize,
}

impl Model for Sink {
    ghost use Rattle.std.specs.Prelude.{◌≤◌, ◌-◌, drop, take, length};
    ghost use Rattle.streams.specs.declared.streams.TheConstants.{MOST_PUT};
    ghost use Rattle.streams.specs.Sink.{SinkView};

    ghost Value = { SinkView };

    ghost view = { λ w. record {
      role = w.role;
      pending = drop w.start (take w.held w.memory.items);
      room = length w.memory.items - w.held;
    } };

    ghost invariant = { λ w. (w.start ≤ w.held) × (w.held ≤ length w.memory.items)
        × (MOST_PUT ≤ length w.memory.items) };
}

// Writes the bytes from a place on, and moves the place behind those that were written.
fn drain<H: Host>(
    host: &mut H,
    role: Role,
    bytes: &[u8],
    start: &mut usize,
) -> Result<(), HostFailed>
    requires created { IsTrue (is_created (H.state host.old) role) }
    requires within { start.old ≤ length bytes.now }
    ensures all { OnOk result (start.new ≡ length bytes.now) }
    ensures within { start.new ≤ length bytes.now }
    ensures adds { Adds (H.state host.old) (H.state host.new)
        (record { role = role; pending = drop start.old bytes.now; room = 0 })
        (record { role = role; pending = drop start.new bytes.now; room = 0 }) [] }
    ensures cause { OnErr result (RoseForAll (H.state host.old) (H.state host.new) role) }
{
    while *start < bytes.len() {
        let n = host.write(role, &bytes[*start..])?;
        *start += n;
    }
    Ok(())
}

// Puts bytes behind those that are held.
fn append(memory: &mut [u8], held: usize, bytes: &[u8])
    requires { held + length bytes.now ≤ length memory.old }
    ensures { take (held + length bytes.now) memory.new ≡ take held memory.old ++ bytes.now }
{
    memory[held..held + bytes.len()].copy_from_slice(bytes);
}

impl Sink {
    /// A sink for a role, with a buffer of so many bytes.
    pub fn new(alloc: Global, role: Role, capacity: usize) -> Result<Sink, AllocError>
        requires { MOST_PUT ≤ capacity }
        ensures { IfOk result (λ sink. sink
            ≡ record { role = role; pending = []; room = capacity }) }
    {
        let memory = vec![in alloc; 0u8; capacity]?;
        Ok(Sink {
            role,
            memory,
            start: 0,
            held: 0,
        })
    }

    /// Its role.
    pub fn role(&self) -> Role
        ensures { result ≡ self.now.role }
    {
        self.role
    }

    /// Writes what is pending.
    pub fn flush<H: Host>(&mut self, host: &mut H) -> Result<(), HostFailed>
        requires { IsTrue (is_created (H.state host.old) self.old.role) }
        ensures empty { OnOk result (self.new.pending ≡ []) }
        ensures room { OnOk result (MOST_PUT ≤ self.new.room) }
        ensures adds { Adds (H.state host.old) (H.state host.new) self.old self.new [] }
        ensures cause { OnErr result (RoseForAll (H.state host.old)
            (H.state host.new) self.old.role) }
    {
        drain(host, self.role, &self.memory[..self.held], &mut self.start)?;
        self.start = 0;
        self.held = 0;
        Ok(())
    }

    // Adds bytes to those that are pending.
    fn keep(&mut self, bytes: &[u8])
        requires { length bytes.now ≤ self.old.room }
        ensures pending { self.new.pending ≡ self.old.pending ++ bytes.now }
        ensures role { self.new.role ≡ self.old.role }
    {
        append(&mut self.memory, self.held, bytes);
        self.held += bytes.len();
    }

    /// Adds bytes to the text.
    pub fn put<H: Host>(&mut self, host: &mut H, bytes: &[u8]) -> Result<(), HostFailed>
        requires created { IsTrue (is_created (H.state host.old) self.old.role) }
        requires short { length bytes.now ≤ MOST_PUT }
        ensures ok { OnOk result (Adds (H.state host.old)
            (H.state host.new) self.old self.new bytes.now) }
        ensures err { OnErr result (Adds (H.state host.old)
            (H.state host.new) self.old self.new []) }
        ensures cause { OnErr result (RoseForAll (H.state host.old)
            (H.state host.new) self.old.role) }
    {
        if self.memory.len() - self.held < bytes.len() {
            self.flush(host)?;
        }
        self.keep(bytes);
        Ok(())
    }
}
