use dpl_calls::{groups_of, looped, missing, scan};
use dpl_lex::{Name, commands};
use std::test::Fail;

#[test]
fn definitions_and_calls_are_found(rt: HostRuntime) -> Result<(), Fail> {
    let layer = Name::new(b"M").ok_or("a name")?;
    let text = b"DS 3; C 1; DF; DS 1; C 2 T 5 0; DF; DS 2; C 1; C 4; DF; E";
    let cut = commands(rt.alloc(), text)?;
    let table = scan(rt.alloc(), text, &cut, &layer)?;
    assert_eq!(rt; (table.count(), table.place(2)), (3, Some(2)));
    assert_eq!(rt; missing(&table), Some(9));
    let groups = groups_of(rt.alloc(), &table)?;
    assert_eq!(rt; groups.labels.as_slice(), [1, 0, 0].as_slice());
    assert_eq!(rt; looped(&table, &groups), Some(5));
    Ok(())
}
