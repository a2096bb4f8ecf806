use checkpoint::Checkpoint;
use rv32_hart::Regs;
use std::test::Fail;

#[test]
fn restore_gives_what_was_taken(rt: HostRuntime) -> Result<(), Fail> {
    let mut regs = Regs::new(1024);
    regs.write(5, 77);
    let checkpoint = Checkpoint::take(&regs);
    regs.write(5, 78);
    regs.pc = 1028;
    assert_eq!(rt; checkpoint.regs().get(5), 77);
    regs = checkpoint.restore();
    assert_eq!(rt; regs.get(5), 77);
    assert_eq!(rt; regs.pc, 1024);
    Ok(())
}

#[test]
fn a_released_checkpoint_changes_nothing(rt: HostRuntime) -> Result<(), Fail> {
    let regs = Regs::new(1024);
    let checkpoint = Checkpoint::take(&regs);
    checkpoint.release();
    assert_eq!(rt; regs, Regs::new(1024));
    Ok(())
}
