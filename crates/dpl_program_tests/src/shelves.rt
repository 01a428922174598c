use dpl_ext::{FileShelf, MemShelf, OpenEnd, ReadEnd, Shelf, Source, read_all};
use std::fs;
use std::test::Fail;

// A shelf with two texts under one name and one under another, whose call of this number fails.
fn shelf_of(rt: &HostRuntime, fails: u64) -> Result<MemShelf, Fail> {
    let mut files = Vec::new(rt.alloc());
    for (name, text) in [("r", "first"), ("r", "second"), ("s", "other")] {
        let name = String::from_str(rt.alloc(), name)?;
        files.push((name, Vec::from_slice(rt.alloc(), text.as_bytes())?))?;
    }
    let fails = vec![in rt.alloc(); fails]?;
    Ok(MemShelf::new(rt.alloc(), files, 2, fails))
}

#[test]
fn the_first_text_of_a_name_counts(rt: HostRuntime) -> Result<(), Fail> {
    let mut shelf = shelf_of(&rt, 99)?;
    let mut into = [0u8; 4];
    assert_eq!(rt; shelf.read(&mut into).ok(), Some(0));
    shelf.open("r")?;
    let text = read_all(rt.alloc(), &mut shelf, 9)?;
    assert_eq!(rt; text.as_slice(), b"first".as_slice());
    Ok(())
}

#[test]
fn an_unknown_name_closes_the_shelf(rt: HostRuntime) -> Result<(), Fail> {
    let mut shelf = shelf_of(&rt, 99)?;
    shelf.open("s")?;
    assert_eq!(rt; shelf.open("t"), Err(OpenEnd::Failed));
    let text = read_all(rt.alloc(), &mut shelf, 9)?;
    assert!(rt; text.is_empty());
    Ok(())
}

#[test]
fn opens_and_reads_are_counted_together(rt: HostRuntime) -> Result<(), Fail> {
    for fails in 0..5u64 {
        let mut shelf = shelf_of(&rt, fails)?;
        let opened = shelf.open("r");
        assert_eq!(rt; opened.is_err(), fails == 0);
        if opened.is_ok() {
            let got = read_all(rt.alloc(), &mut shelf, 9).map(|v| v.len());
            let want = if fails < 5 {
                Err(ReadEnd::Fault)
            } else {
                Ok(5usize)
            };
            assert_eq!(rt; got, want, "call {fails}");
        }
    }
    Ok(())
}

#[test]
fn files_are_read(rt: HostRuntime) -> Result<(), Fail> {
    fs::write(&rt, "shelf_test.txt", "hello")?;
    let mut shelf = FileShelf::new(&rt, rt.alloc());
    let mut into = [0u8; 4];
    assert_eq!(rt; shelf.read(&mut into).ok(), Some(0));
    shelf.open("shelf_test.txt")?;
    let text = read_all(rt.alloc(), &mut shelf, 9)?;
    assert_eq!(rt; text.as_slice(), b"hello".as_slice());
    assert_eq!(rt; shelf.open("no_such_file.txt"), Err(OpenEnd::Failed));
    let text = read_all(rt.alloc(), &mut shelf, 9)?;
    assert!(rt; text.is_empty());
    fs::remove_file(&rt, "shelf_test.txt")?;
    Ok(())
}
