// Files of the machine, of which nothing is told.
ghost use Rattle.std.specs.Prelude.{◌≡◌, ◌≤◌, ◌<◌, ◌+◌, ◌-◌, ◌^◌, min, length, slice_index, slice_set, is_some, IfOk};

use conda_host::{Host, HostFailed, ROLES, Role};
use std::fs;
use std::fs::Files;
use std::io::{Read, Write};

// Reads an opened file.
fn read_some<F: Read>(source: &mut Option<F>, buf: &mut [u8]) -> Result<usize, HostFailed>
    ensures bound { IfOk result (λ n. n ≤ length buf.old) }
    ensures kind { is_some source.new ≡ is_some source.old }
{
    match source {
        Some(file) => file.read(buf).map_err(|_| HostFailed),
        None => Err(HostFailed),
    }
}

// Writes to a created file. Taking nothing of a piece is a fault.
fn write_some<F: Write>(made: &mut Option<F>, bytes: &[u8]) -> Result<usize, HostFailed>
    ensures bound { IfOk result (λ n. n ≤ length bytes.now) }
    ensures some { IfOk result (λ n. 0 < length bytes.now → 0 < n) }
    ensures kind { is_some made.new ≡ is_some made.old }
{
    match made {
        Some(file) => match file.write(bytes) {
            Ok(n) if n > 0 || bytes.is_empty() => Ok(n),
            _ => Err(HostFailed),
        },
        None => Err(HostFailed),
    }
}

// Counts a fault of the role at a place.
fn counted(faults: &mut [u64; ROLES], at: usize) -> HostFailed
    requires { at < ROLES }
    ensures others { faults.new ≡ slice_set faults.old at (slice_index faults.new at) }
    ensures grows { slice_index faults.old at ≤ slice_index faults.new at }
    ensures rose { min (slice_index faults.old at + 1) (2 ^ 64 - 1) ≤ slice_index faults.new at }
{
    faults[at] = faults[at].saturating_add(1);
    HostFailed
}

/// The files of the machine, for each role at most one that is read and one that is written. It
/// counts the faults of each role.
#[derive(Drop)]
pub struct StdHost<R: Files + Drop> {
    rt: R,
    sources: [Option<R::File>; ROLES],
    made: [Option<R::File>; ROLES],
    faults: [u64; ROLES],
}

impl<R: Files + Drop> StdHost<R> {
    /// A host with no file opened.
    pub fn new(rt: R) -> StdHost<R> {
        StdHost {
            rt,
            sources: [const { None }; ROLES],
            made: [const { None }; ROLES],
            faults: [0; ROLES],
        }
    }
}

impl<R: Files + Drop> Host for StdHost<R> {
    ghost use Rattle.conda_cli.specs.StdHost.{quiet_state};

    ghost state = { λ host. quiet_state host.sources host.made host.faults };

    fn open(&mut self, role: Role, name: &str) -> Result<(), HostFailed> {
        let at = role.index();
        match fs::open(&self.rt, name) {
            Ok(file) => {
                self.sources[at] = Some(file);
                Ok(())
            }
            Err(_) => {
                self.sources[at] = None;
                Err(counted(&mut self.faults, at))
            }
        }
    }

    fn read(&mut self, role: Role, buf: &mut [u8]) -> Result<usize, HostFailed> {
        let at = role.index();
        match read_some(&mut self.sources[at], buf) {
            Ok(n) => Ok(n),
            Err(_) => Err(counted(&mut self.faults, at)),
        }
    }

    fn create(&mut self, role: Role, name: &str) -> Result<(), HostFailed> {
        let at = role.index();
        match fs::create(&self.rt, name) {
            Ok(file) => {
                self.made[at] = Some(file);
                Ok(())
            }
            Err(_) => {
                self.made[at] = None;
                Err(counted(&mut self.faults, at))
            }
        }
    }

    fn write(&mut self, role: Role, bytes: &[u8]) -> Result<usize, HostFailed> {
        let at = role.index();
        match write_some(&mut self.made[at], bytes) {
            Ok(n) => Ok(n),
            Err(_) => Err(counted(&mut self.faults, at)),
        }
    }
}

#[cfg(test)]
mod tests {
    use super::*;
    use conda_host::{read_all, write_all};
    use std::test::Fail;

    #[test]
    fn what_was_written_is_read_back(rt: HostRuntime) -> Result<(), Fail> {
        let name = "std_host.tmp";
        let mut host = StdHost::new(rt);
        host.create(Role::Order, name).map_err(|_| "create")?;
        write_all(&mut host, Role::Order, b"hello").map_err(|_| "write")?;
        host.open(Role::Config, name).map_err(|_| "open")?;
        let bytes = read_all(rt.alloc(), &mut host, Role::Config, 5).map_err(|_| "read")?;
        fs::remove_file(&rt, name).map_err(|_| "remove")?;
        assert_eq!(rt; bytes.as_slice(), b"hello".as_slice());
        Ok(())
    }
}
