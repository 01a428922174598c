use dpl_words::{Command, Line, ScriptError, UsageError, Work, parse, script};
use std::alloc::Global;
use std::test::Fail;

fn words_of(alloc: Global, line: &str) -> Result<Vec<String>, Fail> {
    let mut words = Vec::new(alloc);
    for word in line.split_whitespace() {
        words.push(String::from_str(alloc, word)?)?;
    }
    Ok(words)
}

#[test]
fn a_script_is_named(rt: HostRuntime) -> Result<(), Fail> {
    let alloc = rt.alloc();
    let words = words_of(
        alloc,
        "edit --script=s --layer M --space 100 --overlap 20 --keep K",
    )?;
    match parse(alloc, words.as_slice())? {
        Command::Layout { options, work } => {
            assert_eq!(rt; options.layer().bytes(), b"M".as_slice());
            match work {
                Work::Edit(script) => assert_eq!(rt; script.as_str(), "s"),
                _ => return Err("another command".into()),
            }
        }
        _ => return Err("another command".into()),
    }
    let words = words_of(alloc, "edit --layer M --space 100 --overlap 20")?;
    assert_eq!(rt;
        parse(alloc, words.as_slice()).err(),
        Some(UsageError::Usage(2))
    );
    let words = words_of(alloc, "split --script s --layer M --space 100 --overlap 20")?;
    assert_eq!(rt;
        parse(alloc, words.as_slice()).err(),
        Some(UsageError::Usage(1))
    );
    Ok(())
}

/// What a text is refused for, `None` where it is a script.
fn refusal(alloc: Global, text: &[u8]) -> Option<ScriptError> {
    if text.len() > 10_000 {
        return None;
    }
    script(alloc, text).err()
}

#[test]
fn the_first_line_that_is_no_edit(rt: HostRuntime) -> Result<(), Fail> {
    let rows: [(&[u8], u64); 16] = [
        (b"\n", 1),
        (b"add 0 0 0 5\n", 1),
        (b"add 0 0 5 0\n", 1),
        (b"add 0 0 1 5", 1),
        (b"add 0 0 1 5\nremove 01\n", 2),
        (b"add  0 0 1 5\n", 1),
        (b"add 0 0 1 5 \n", 1),
        (b"add 0 0 1 5 6\n", 1),
        (b"add 0 0 1 1073741825\n", 1),
        (b"add -0 0 1 5\n", 1),
        (b"remove 1000000000001\n", 1),
        (b"remove -1\n", 1),
        (b"remove +1\n", 1),
        (b"add 0 0 1 5\r\n", 1),
        (b"remove 0\nremove 1\nREMOVE 2\n", 3),
        (b"remove 0\n\nremove\n", 2),
    ];
    for (text, number) in rows {
        assert_eq!(rt; refusal(rt.alloc(), text), Some(ScriptError::Bad(number)));
    }
    Ok(())
}

#[test]
fn lines_in_order(rt: HostRuntime) -> Result<(), Fail> {
    let alloc = rt.alloc();
    let lines = script(
        alloc,
        b"remove 1000000000000\nadd -25 -1073741824 25 1073741824\n",
    )?;
    assert_eq!(rt; lines.len(), 2);
    match lines.first().ok_or("no line")? {
        Line::Remove(number) => assert_eq!(rt; *number, 1_000_000_000_000),
        Line::Add(_) => return Err("another line".into()),
    }
    match lines.last().ok_or("no line")? {
        Line::Add(rect) => {
            assert_eq!(rt; (rect.x1, rect.x2), (-25, 25));
            assert_eq!(rt; (rect.y1, rect.y2), (-1_073_741_824, 1_073_741_824));
        }
        Line::Remove(_) => return Err("another line".into()),
    }
    assert_eq!(rt; refusal(alloc, b""), None);
    Ok(())
}
