use dpl_gen::layout;
use std::test::Fail;

#[test]
fn one_box(rt: HostRuntime) -> Result<(), Fail> {
    let text = layout(rt.alloc(), 7, 1, 1)?;
    assert_eq!(rt; text.as_slice(), b"L M;\nB 250 100 135 50;\nE\n".as_slice());
    Ok(())
}

#[test]
fn blocks_stand_apart(rt: HostRuntime) -> Result<(), Fail> {
    let text = layout(rt.alloc(), 1_000_000_000_000, 9, 9)?;
    let text = text.as_slice();
    assert_eq!(rt; text.len(), 1609);
    let end = b"\nB 250 100 2605 1450;\nB 300 100 3370 1450;\nE\n";
    assert!(rt; text.ends_with(end.as_slice()));
    Ok(())
}
