use dpl_rules::command::{Command, Spot, Transformation};
use dpl_rules::{Refusal, What, read_command};
use std::test::Fail;

#[test]
fn commands_are_read(rt: HostRuntime) -> Result<(), Fail> {
    let Ok(Command::Call(number, parts)) = read_command(rt.alloc(), b"C 1 T 5 R 6 MX R0-1") else {
        return Err("no call")?;
    };
    assert_eq!(rt; number, 1);
    let expected = [
        Transformation::Shift(Spot { x: 5, y: 6 }),
        Transformation::MirrorX,
        Transformation::Rotate(Spot { x: 0, y: -1 }),
    ];
    assert_eq!(rt; parts.as_slice(), expected.as_slice());
    let refused = read_command(rt.alloc(), b"B 10 10 0 1000000000001");
    assert!(rt; matches!(refused, Err(Refusal::Breaks(What::Number))));
    let refused = read_command(rt.alloc(), b"(a) B");
    assert!(rt; matches!(refused, Err(Refusal::Breaks(What::Syntax))));
    Ok(())
}
