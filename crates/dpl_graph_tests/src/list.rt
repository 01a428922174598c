use dpl_list::Grouped;
use std::test::Fail;

#[test]
fn items_in_the_rows_of_their_keys(rt: HostRuntime) -> Result<(), Fail> {
    let rows = Grouped::by_key(rt.alloc(), 4, &[2, 0, 2], &[70, 71, 72])?;
    assert_eq!(rt; rows.len(), 4);
    assert_eq!(rt; rows.row(0), [71].as_slice());
    assert!(rt; rows.row(1).is_empty());
    assert_eq!(rt; rows.row(2), [70, 72].as_slice());
    assert!(rt; rows.row(3).is_empty());
    Ok(())
}
