use dpl_classes::classes;
use std::test::Fail;

#[test]
fn a_chain_in_any_order(rt: HostRuntime) -> Result<(), Fail> {
    let (label, count) = classes(rt.alloc(), 6, &[(5, 4), (2, 2), (1, 5), (4, 3), (1, 3)])?;
    assert_eq!(rt; label.as_slice(), [0, 1, 2, 1, 1, 1].as_slice());
    assert_eq!(rt; count, 3);
    Ok(())
}

#[test]
fn no_pairs(rt: HostRuntime) -> Result<(), Fail> {
    let (label, count) = classes(rt.alloc(), 2, &[])?;
    assert_eq!(rt; label.as_slice(), [0, 1].as_slice());
    assert_eq!(rt; count, 2);
    Ok(())
}

#[test]
fn no_numbers(rt: HostRuntime) -> Result<(), Fail> {
    let (label, count) = classes(rt.alloc(), 0, &[])?;
    assert!(rt; label.is_empty());
    assert_eq!(rt; count, 0);
    Ok(())
}
