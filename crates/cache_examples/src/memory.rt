use conda_base::Line;
use line_memory::{Backing, LineMemory};
use std::alloc::AllocError;
use traffic_trace::{Kind, Traffic};

#[test]
fn a_line_is_written(rt: HostRuntime) -> Result<(), AllocError> {
    let mut memory = LineMemory::new(rt.alloc(), 32, 64, &[5; 128])?;
    memory.write(Line(3), &[7; 128]);
    let mut out = [1; 128];
    memory.read(Line(3), &mut out);
    assert_eq!(rt; out[31], 7);
    assert_eq!(rt; out[32], 0);
    memory.read(Line(4), &mut out);
    assert_eq!(rt; out[0], 5);
    Ok(())
}

#[test]
fn marked_bytes_are_put(rt: HostRuntime) -> Result<(), AllocError> {
    let mut memory = LineMemory::new(rt.alloc(), 32, 64, &[5; 128])?;
    memory.mix(Line(3), &[9; 128], 0b10);
    let mut out = [1; 128];
    memory.read(Line(3), &mut out);
    assert_eq!(rt; out[0], 5);
    assert_eq!(rt; out[1], 9);
    Ok(())
}

#[test]
fn a_merge_is_noted(rt: HostRuntime) -> Result<(), AllocError> {
    let mut memory = LineMemory::new(rt.alloc(), 64, 0, &[5; 128])?;
    let mut log = Traffic::new(rt.alloc(), 1)?;
    memory.merge(2, Line(1), &[9; 128], 1, &mut log);
    memory.flush(Line(1), &mut log);
    assert_eq!(rt; log.total(Kind::Back), 0);
    assert_eq!(rt; log.total(Kind::Merge), 1);
    assert_eq!(rt; size_and_dirty(&memory), (64, None));
    let mut out = [1; 128];
    memory.copy(Line(1), &mut out);
    assert_eq!(rt; out[0], 9);
    Ok(())
}

fn size_and_dirty<B: Backing>(memory: &B) -> (u32, Option<(usize, Line)>) {
    (memory.line_bytes(), memory.next_dirty(0))
}
