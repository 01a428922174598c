use dpl_groups::find_groups;
use dpl_list::Items;
use std::test::Fail;

#[test]
fn groups_are_found(rt: HostRuntime) -> Result<(), Fail> {
    let edges = [
        Items::new(vec![in rt.alloc(); 1usize]?),
        Items::new(vec![in rt.alloc(); 2usize]?),
        Items::new(vec![in rt.alloc(); 0usize, 3]?),
        Items::new(vec![in rt.alloc();]?),
        Items::new(vec![in rt.alloc(); 4usize]?),
        Items::new(vec![in rt.alloc(); 3usize, 4]?),
    ];
    let groups = find_groups(rt.alloc(), edges.as_slice())?;
    assert_eq!(rt; groups.labels.as_slice(), [1, 1, 1, 0, 2, 3].as_slice());
    assert_eq!(rt; groups.heads.as_slice(), [3, 0, 4, 5].as_slice());
    Ok(())
}
