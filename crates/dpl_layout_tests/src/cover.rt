use dpl_cell::{Rect, Stretch};
use dpl_cover::Cover;
use std::test::Fail;

fn push(boxes: &mut Vec<Rect>, x1: i64, y1: i64, x2: i64, y2: i64) -> Result<(), Fail> {
    boxes.push(Rect::new(x1, y1, x2, y2).ok_or("out of range")?)?;
    Ok(())
}

/// The columns from -2 to 13, `#` where a stretch has one.
fn drawn(rt: &HostRuntime, parts: &[Stretch]) -> Result<String, Fail> {
    let mut line = String::new(rt.alloc());
    for x in -2..13 {
        let has = parts.iter().any(|s| s.from <= x && x < s.to);
        line.push(if has { '#' } else { '.' })?;
    }
    Ok(line)
}

/// Two boxes that overlap, and one apart: row by row what they cover between two columns.
#[test]
fn rows_of_three_boxes(rt: HostRuntime) -> Result<(), Fail> {
    let mut boxes = Vec::new(rt.alloc());
    push(&mut boxes, 0, 0, 4, 4)?;
    push(&mut boxes, 2, 2, 6, 8)?;
    push(&mut boxes, 9, 3, 12, 4)?;
    let mut cover = Cover::new(rt.alloc(), boxes.as_slice())?;
    cover.rise(0);
    let parts = cover.stretches(rt.alloc(), -2, 13)?;
    assert_eq!(rt; drawn(&rt, parts.as_slice())?.as_str(), "..####.........");
    cover.rise(3);
    let parts = cover.stretches(rt.alloc(), -2, 13)?;
    assert_eq!(rt; drawn(&rt, parts.as_slice())?.as_str(), "..######...###.");
    let parts = cover.stretches(rt.alloc(), 7, 9)?;
    assert_eq!(rt; drawn(&rt, parts.as_slice())?.as_str(), "...............");
    cover.rise(4);
    let parts = cover.stretches(rt.alloc(), -2, 13)?;
    assert_eq!(rt; drawn(&rt, parts.as_slice())?.as_str(), "....####.......");
    cover.rise(8);
    let parts = cover.stretches(rt.alloc(), -2, 13)?;
    assert!(rt; parts.is_empty());
    Ok(())
}

/// Whether the stretches have the columns from one on up to another, which is left out, and no others.
fn has_only(parts: &[Stretch], from: i64, to: i64) -> bool {
    for x in -3..2203 {
        let has = parts.iter().any(|s| s.from <= x && x < s.to);
        if has != (from <= x && x < to) {
            return false;
        }
    }
    true
}

/// Two long boxes laid over each other below a row of 1,100 small ones, at whose 2,200 columns they pass wide blocks, and
/// one over all of these.
#[test]
fn long_boxes_over_wide_blocks(rt: HostRuntime) -> Result<(), Fail> {
    let mut boxes = Vec::new(rt.alloc());
    push(&mut boxes, 0, 0, 2199, 4)?;
    push(&mut boxes, 100, 2, 2051, 8)?;
    for k in 0..1100i64 {
        let x = k.wrapping_mul(2);
        push(&mut boxes, x, 9, x.wrapping_add(1), 14)?;
    }
    push(&mut boxes, 0, 11, 2199, 12)?;
    let mut cover = Cover::new(rt.alloc(), boxes.as_slice())?;
    cover.rise(0);
    let parts = cover.stretches(rt.alloc(), -3, 2203)?;
    assert!(rt; has_only(parts.as_slice(), 0, 2199));
    cover.rise(2);
    let parts = cover.stretches(rt.alloc(), -3, 2203)?;
    assert!(rt; has_only(parts.as_slice(), 0, 2199));
    cover.rise(4);
    let parts = cover.stretches(rt.alloc(), -3, 2203)?;
    assert!(rt; has_only(parts.as_slice(), 100, 2051));
    cover.rise(8);
    let parts = cover.stretches(rt.alloc(), -3, 2203)?;
    assert!(rt; parts.is_empty());
    cover.rise(9);
    let parts = cover.stretches(rt.alloc(), -2, 13)?;
    assert_eq!(rt; drawn(&rt, parts.as_slice())?.as_str(), "..#.#.#.#.#.#.#");
    let parts = cover.stretches(rt.alloc(), -3, 2203)?;
    assert_eq!(rt; parts.len(), 1100);
    cover.rise(11);
    let parts = cover.stretches(rt.alloc(), -3, 2203)?;
    assert!(rt; has_only(parts.as_slice(), 0, 2199));
    cover.rise(12);
    let parts = cover.stretches(rt.alloc(), -3, 2203)?;
    assert_eq!(rt; parts.len(), 1100);
    cover.rise(14);
    let parts = cover.stretches(rt.alloc(), -3, 2203)?;
    assert!(rt; parts.is_empty());
    Ok(())
}
