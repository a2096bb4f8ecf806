// The worked examples of calls.
use arrayvec::ArrayVec;
use offload_calls::{CoreStatus, Kernel, Served, is_put, serve_core, serve_hart, waits};
use rv32_hart::{Regs, Trap};

fn one_core(status: CoreStatus) -> ArrayVec<CoreStatus, 4> {
    let mut cores = ArrayVec::new();
    cores.push(status);
    cores
}

fn call(number: u32, x10: u32) -> Regs {
    let mut r = Regs::new(0x1_0000);
    r.x[17] = number;
    r.x[10] = x10;
    r
}

// What a call asks for, where it isn't a wait on a core that runs.
fn serve(r: &mut Regs, cores: &mut ArrayVec<CoreStatus, 4>) -> Option<Served> {
    if waits(r, cores) {
        None
    } else {
        Some(serve_hart(r, cores))
    }
}

fn trap(cause: u8, value: u32) -> Trap {
    Trap { cause, value }
}

#[test]
fn a_launch_starts_an_idle_core(rt: HostRuntime) {
    let mut r = call(1000, 0);
    r.x[11] = 0x1_0040;
    r.x[12] = 64;
    let mut cores = one_core(CoreStatus::Idle);
    let launched = Served::Launch {
        core: 0,
        entry: 0x1_0040,
        arg: 64,
    };
    assert_eq!(rt; serve(&mut r, &mut cores), Some(launched));
    assert_eq!(rt; r.x[10], 0);
    assert_eq!(rt; cores.as_slice(), [CoreStatus::Run].as_slice());
}

#[test]
fn a_launch_of_a_core_that_is_done_answers_1(rt: HostRuntime) {
    let mut r = call(1000, 0);
    let mut cores = one_core(CoreStatus::Done(5));
    assert_eq!(rt; serve(&mut r, &mut cores), Some(Served::Next));
    assert_eq!(rt; r.x[10], 1);
    assert_eq!(rt; r.pc, 0x1_0004);
}

#[test]
fn there_is_no_core_1(rt: HostRuntime) {
    let mut cores = one_core(CoreStatus::Idle);
    let mut launch = call(1000, 1);
    assert_eq!(rt; serve(&mut launch, &mut cores), Some(Served::Next));
    assert_eq!(rt; launch.x[10], 2);
    let mut poll = call(1002, 1);
    assert_eq!(rt; serve(&mut poll, &mut cores), Some(Served::Next));
    assert_eq!(rt; poll.x[10], 4);
    assert_eq!(rt; poll.x[11], 0);
}

#[test]
fn a_wait_is_not_executed_while_its_core_runs(rt: HostRuntime) {
    let r = call(1001, 0);
    assert!(rt; waits(&r, &one_core(CoreStatus::Run)));
    assert!(rt; !waits(&r, &one_core(CoreStatus::Idle)));
    assert!(rt; !waits(&call(1001, 1), &one_core(CoreStatus::Run)));
}

#[test]
fn a_wait_takes_the_trap_of_its_core(rt: HostRuntime) {
    let mut r = call(1001, 0);
    let mut cores = one_core(CoreStatus::Trapped(trap(2, 0)));
    assert_eq!(rt; serve(&mut r, &mut cores), Some(Served::Next));
    assert_eq!(rt; r.x[10], 3);
    assert_eq!(rt; r.x[11], 2);
    assert_eq!(rt; cores.as_slice(), [CoreStatus::Idle].as_slice());
}

#[test]
fn done_is_no_call_of_a_hart(rt: HostRuntime) {
    let mut cores = one_core(CoreStatus::Idle);
    let mut done = call(1004, 0);
    let unserved = Served::Trapped(trap(8, 0x3ec));
    assert_eq!(rt; serve(&mut done, &mut cores), Some(unserved));
    let mut exit = call(93, 7);
    assert_eq!(rt; serve(&mut exit, &mut cores), Some(Served::Exit(7)));
}

#[test]
fn calls_of_kernels(rt: HostRuntime) {
    let mut put = call(1003, 0x141);
    assert!(rt; is_put(&put));
    assert_eq!(rt; serve_core(&mut put), Kernel::Put(0x41));
    assert_eq!(rt; serve_core(&mut call(1004, 9)), Kernel::Done(9));
    assert_eq!(rt;
        serve_core(&mut call(93, 0)),
        Kernel::Trapped(trap(8, 0x5d))
    );
}
