use conda_base::Line;
use mesi_directory::{Directory, Row};
use std::alloc::AllocError;

#[test]
fn an_owner_becomes_a_sharer(rt: HostRuntime) -> Result<(), AllocError> {
    let mut directory = Directory::new(rt.alloc(), Line(16), 3)?;
    directory.own(Line(17), 2);
    assert_eq!(rt; directory.row(Line(17)), Row::Owner(2));
    directory.share(Line(17), 11);
    assert_eq!(rt; directory.row(Line(17)), Row::Shared(0b1000_0000_0100));
    assert!(rt; directory.row(Line(17)).has(11));
    assert!(rt; !directory.row(Line(17)).has(10));
    assert_eq!(rt; directory.row(Line(16)), Row::Nobody);
    assert_eq!(rt; directory.row(Line(18)), Row::Nobody);
    Ok(())
}

#[test]
fn the_last_holder_leaves_nobody(rt: HostRuntime) -> Result<(), AllocError> {
    let mut directory = Directory::new(rt.alloc(), Line(16), 1)?;
    directory.share(Line(16), 0);
    directory.share(Line(16), 4);
    directory.leave(Line(16), 0);
    assert_eq!(rt; directory.row(Line(16)), Row::Shared(0b1_0000));
    directory.leave(Line(16), 4);
    assert_eq!(rt; directory.row(Line(16)), Row::Nobody);
    Ok(())
}
