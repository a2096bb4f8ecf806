// A host that makes the bytes of a long file as it goes.
ghost use Rattle.std.specs.Prelude.{◌≤◌, length};

use conda_host::{Host, HostFailed, Role};

/// A host whose file of one role is so many times one byte. Every file is there, nothing fails,
/// what is written is dropped, and nothing is told of any file.
#[derive(Drop)]
pub struct Filled<'a> {
    pub role: Role,
    pub byte: u8,
    pub count: usize,
    pub config: &'a [u8],
    pub image: &'a [u8],
}

// Fills a buffer's front with so many times a byte, and says how many that were.
fn fill(buf: &mut [u8], byte: u8, count: &mut usize) -> usize
    ensures { result ≤ length buf.old }
{
    let filled = buf.len().min(*count);
    buf[..filled].fill(byte);
    *count -= filled;
    filled
}

// Takes the front of some bytes into a buffer, and says how many that were.
fn take(buf: &mut [u8], bytes: &mut &[u8]) -> usize
    ensures { result ≤ length buf.old }
{
    let count = buf.len().min(bytes.len());
    buf[..count].copy_from_slice(&bytes[..count]);
    *bytes = &bytes[count..];
    count
}

impl Host for Filled<'_> {
    ghost use Rattle.std.specs.Prelude.{true, false, [], None};

    ghost state = { λ host. record {
      tells = false;
      file = λ n. None;
      role = λ r. record { opened = true; left = []; created = true; name = []; written = [] };
      faults = λ r n. 0;
    } };

    fn open(&mut self, _role: Role, _name: &str) -> Result<(), HostFailed> {
        Ok(())
    }

    fn read(&mut self, role: Role, buf: &mut [u8]) -> Result<usize, HostFailed> {
        if role == self.role {
            return Ok(fill(buf, self.byte, &mut self.count));
        }
        match role {
            Role::Config => Ok(take(buf, &mut self.config)),
            Role::Image => Ok(take(buf, &mut self.image)),
            _ => Ok(0),
        }
    }

    fn create(&mut self, _role: Role, _name: &str) -> Result<(), HostFailed> {
        Ok(())
    }

    fn write(&mut self, _role: Role, bytes: &[u8]) -> Result<usize, HostFailed> {
        Ok(bytes.len())
    }
}
