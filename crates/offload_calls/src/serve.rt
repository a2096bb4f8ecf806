// What the calls of harts and kernels do.
ghost use Rattle.std.specs.Prelude.{◌≡◌, ◌==◌, ◌≤◌, false, is_some, length, slice_get, slice_set, if◌then◌else◌};
ghost use Rattle.rv32_hart.specs.Act.{value_of};
ghost use Rattle.offload_calls.specs.Calls.{waits, launch_answer, polled, answers, goes_on, served, regs_after_call, statuses_after_call, kernel_served, regs_after_kernel_call};

use crate::status::CoreStatus;
use arrayvec::ArrayVec;
use rv32_hart::{Regs, Trap};

const EXIT: u32 = 93;

const LAUNCH: u32 = 1000;

const WAIT: u32 = 1001;

const POLL: u32 = 1002;

const PUT: u32 = 1003;

const DONE: u32 = 1004;

/// What a hart's call asks for, beside its effect on the registers.
#[derive(Clone, Copy, Debug, PartialEq, Eq)]
pub enum Served {
    /// Nothing more: the hart goes on.
    Next,
    /// The hart ends with this value.
    Exit(u32),
    /// This core starts at the entry with the argument in x10.
    Launch { core: u8, entry: u32, arg: u32 },
    /// This byte is output.
    Put(u8),
    /// The call isn't served.
    Trapped(Trap),
}

/// What a kernel's call asks for, beside its effect on the registers.
#[derive(Clone, Copy, Debug, PartialEq, Eq)]
pub enum Kernel {
    /// This byte is output.
    Put(u8),
    /// The kernel ends with this value.
    Done(u32),
    /// The call isn't served.
    Trapped(Trap),
}

/// Whether a hart's call is wait on a core that runs, which isn't executed.
pub fn waits(r: &Regs, cores: &ArrayVec<CoreStatus, 4>) -> bool
    ensures { result ≡ waits (slice_get cores.now.items) r.now }
{
    r.get(17) == WAIT && status_of(cores.as_slice(), r.get(10)) == Some(CoreStatus::Run)
}

/// Serves a hart's call by the number in x17: 93 exit, 1000 launch, 1001 wait, 1002 poll, 1003 put;
/// any other is trap 8.
///
/// A call that goes on moves pc to the next instruction; exit and a trap leave pc and registers.
pub fn serve_hart(r: &mut Regs, cores: &mut ArrayVec<CoreStatus, 4>) -> Served
    requires { waits (slice_get cores.old.items) r.old ≡ false }
    ensures served { result ≡ served (slice_get cores.old.items) r.old }
    ensures regs { r.new ≡ regs_after_call (slice_get cores.old.items) r.old }
    ensures cores { cores.new.items ≡ statuses_after_call cores.old.items r.old }
{
    let statuses = cores.as_mut_slice();
    let value = r.get(10);
    match r.get(17) {
        EXIT => Served::Exit(value),
        LAUNCH => launch(r, statuses),
        WAIT => {
            poll(r, statuses);
            rest(statuses, value);
            Served::Next
        }
        POLL => {
            poll(r, statuses);
            Served::Next
        }
        PUT => {
            go_on(r);
            Served::Put((value % 256) as u8)
        }
        number => Served::Trapped(not_served(number)),
    }
}

/// Whether a kernel's call puts a byte.
pub fn is_put(r: &Regs) -> bool
    ensures { result ≡ (value_of r.now 17 == 1003) }
{
    r.get(17) == PUT
}

/// Serves a kernel's call by the number in x17: 1003 put, 1004 done; any other is trap 8.
pub fn serve_core(r: &mut Regs) -> Kernel
    ensures served { result ≡ kernel_served r.old }
    ensures regs { r.new ≡ regs_after_kernel_call r.old }
{
    let value = r.get(10);
    match r.get(17) {
        PUT => {
            go_on(r);
            Kernel::Put((value % 256) as u8)
        }
        DONE => Kernel::Done(value),
        number => Kernel::Trapped(not_served(number)),
    }
}

// Starts core x10 where it is idle.
fn launch(r: &mut Regs, cores: &mut [CoreStatus]) -> Served
    requires call { value_of r.old 17 ≡ 1000 }
    requires few { length cores.old ≤ 4 }
    ensures served { result ≡ served (slice_get cores.old) r.old }
    ensures regs { r.new ≡ answers r.old (launch_answer (slice_get cores.old (value_of r.old 10))) }
    ensures cores { cores.new ≡ statuses_after_call cores.old r.old }
{
    let core = r.get(10);
    match status_of(cores, core) {
        None => {
            answer(r, 2);
            Served::Next
        }
        Some(CoreStatus::Idle) => {
            cores[core as usize] = CoreStatus::Run;
            let launched = Served::Launch {
                core: core as u8,
                entry: r.get(11),
                arg: r.get(12),
            };
            answer(r, 0);
            launched
        }
        Some(_) => {
            answer(r, 1);
            Served::Next
        }
    }
}

// Tells how core x10 stands.
fn poll(r: &mut Regs, cores: &[CoreStatus])
    ensures { r.new ≡ polled (slice_get cores.now) r.old }
{
    let (how, value) = match status_of(cores, r.get(10)) {
        Some(CoreStatus::Idle) => (0, 0),
        Some(CoreStatus::Run) => (1, 0),
        Some(CoreStatus::Done(value)) => (2, value),
        Some(CoreStatus::Trapped(trap)) => (3, u32::from(trap.cause)),
        None => (4, 0),
    };
    answer(r, how);
    r.x[11] = value;
}

// Core x10, where there is one, becomes idle.
fn rest(cores: &mut [CoreStatus], core: u32)
    ensures { cores.new ≡ (if is_some (slice_get cores.old core)
        then slice_set cores.old core CoreStatus.Idle else cores.old) }
{
    if status_of(cores, core).is_some() {
        cores[core as usize] = CoreStatus::Idle;
    }
}

fn status_of(cores: &[CoreStatus], core: u32) -> Option<CoreStatus>
    ensures { result ≡ slice_get cores.now core }
{
    cores.get(core as usize).copied()
}

fn not_served(number: u32) -> Trap
    ensures cause { result.cause ≡ 8 }
    ensures value { result.value ≡ number }
{
    Trap {
        cause: 8,
        value: number,
    }
}

fn answer(r: &mut Regs, value: u32)
    ensures { r.new ≡ answers r.old value }
{
    go_on(r);
    r.x[10] = value;
}

fn go_on(r: &mut Regs)
    ensures { r.new ≡ goes_on r.old }
{
    r.pc = r.pc.wrapping_add(4);
}
