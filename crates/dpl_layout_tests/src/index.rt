use dpl_index::{Ask, Bounds, Index, KindIndex, NoMemory};
use std::alloc::Global;
use std::process::Abort;
use std::test::Fail;

/// Compares the items that meet a window.
fn compare<R: Abort>(
    rt: &R,
    alloc: Global,
    all: &[Bounds],
    window: &Bounds,
    wanted: &[usize],
) -> Result<(), Fail> {
    let bounds = Vec::from_slice(alloc, all)?;
    let index = Index::new(alloc, bounds)?;
    let found = index.meeting(alloc, window)?;
    assert_eq!(rt; found.as_slice(), wanted);
    Ok(())
}

/// Columns and rows from the first to the second number, of each.
fn bounds(columns: (i64, i64), rows: (i64, i64)) -> Bounds {
    Bounds {
        left: columns.0,
        right: columns.1,
        low: rows.0,
        high: rows.1,
    }
}

/// Squares of 3 by 3, a free column and a free row between each two of them, numbered from the lower left row by row.
fn grid(alloc: Global) -> Result<Vec<Bounds>, NoMemory> {
    let mut all = Vec::new(alloc);
    for row in 0..4u16 {
        for column in 0..4u16 {
            let x = i64::from(column) * 4;
            let y = i64::from(row) * 4;
            all.push(bounds((x, x + 2), (y, y + 2)))?;
        }
    }
    Ok(all)
}

#[test]
fn a_window_over_a_grid(rt: HostRuntime) -> Result<(), Fail> {
    let all = grid(rt.alloc())?;
    let inner = bounds((5, 9), (5, 9));
    compare(&rt, rt.alloc(), all.as_slice(), &inner, &[5, 6, 9, 10])?;
    let column = bounds((8, 8), (-100, 100));
    compare(&rt, rt.alloc(), all.as_slice(), &column, &[2, 6, 10, 14])?;
    let between = bounds((3, 3), (-100, 100));
    compare(&rt, rt.alloc(), all.as_slice(), &between, &[])
}

#[test]
fn bounds_that_meet_at_a_corner(rt: HostRuntime) -> Result<(), Fail> {
    let all = [
        bounds((10, 20), (10, 20)),
        bounds((-5, -1), (0, 9)),
        bounds((-5, 0), (-7, 0)),
        bounds((10, 12), (11, 12)),
    ];
    let window = bounds((0, 10), (0, 10));
    compare(&rt, rt.alloc(), &all, &window, &[0, 2])
}

#[test]
fn two_items_in_one_place(rt: HostRuntime) -> Result<(), Fail> {
    let here = bounds((4, 6), (4, 6));
    let all = [here, bounds((40, 60), (4, 6)), here];
    compare(&rt, rt.alloc(), &all, &here, &[0, 2])
}

#[test]
fn an_empty_index(rt: HostRuntime) -> Result<(), Fail> {
    let window = bounds((i64::MIN, i64::MAX), (i64::MIN, i64::MAX));
    compare(&rt, rt.alloc(), &[], &window, &[])
}

fn kinded(alloc: Global, all: &[Bounds], kinds: &[u32]) -> Result<KindIndex, NoMemory> {
    let items = Vec::from_slice(alloc, all)?;
    let kinds = Vec::from_slice(alloc, kinds)?;
    KindIndex::new(alloc, items, kinds)
}

/// Compares the items of other kinds in the near window and of one kind in the far one, in order.
fn compare_asked<R: Abort>(
    rt: &R,
    alloc: Global,
    index: &KindIndex,
    ask: &Ask,
    wanted: &[usize],
) -> Result<(), Fail> {
    let mut found = index.asked(alloc, ask)?;
    found.sort_unstable();
    assert_eq!(rt; found.as_slice(), wanted);
    Ok(())
}

fn are_few(alloc: Global, index: &KindIndex, ask: &Ask, most: usize) -> Result<bool, NoMemory> {
    Ok(index.few_asked(alloc, ask, most)?.is_some())
}

/// Two squares side by side of one kind, and one of another kind above each of them.
#[test]
fn of_other_kinds_and_of_one_kind_nearby(rt: HostRuntime) -> Result<(), Fail> {
    let all = [
        bounds((0, 2), (0, 2)),
        bounds((4, 6), (0, 2)),
        bounds((0, 2), (4, 6)),
        bounds((4, 6), (4, 6)),
    ];
    let ask = Ask {
        near: bounds((-1, 3), (-1, 3)),
        far: bounds((-3, 5), (-3, 5)),
        kind: 7,
    };
    let index = kinded(rt.alloc(), &all, &[7, 7, 8, 9])?;
    compare_asked(&rt, rt.alloc(), &index, &ask, &[0, 2, 3])?;
    assert!(rt; !are_few(rt.alloc(), &index, &ask, 2)?);
    assert!(rt; are_few(rt.alloc(), &index, &ask, 3)?);
    Ok(())
}

/// Bounds of many sizes around few places, so that places on the curve agree in many bits or in all.
fn many(alloc: Global) -> Result<Vec<Bounds>, NoMemory> {
    let mut all = Vec::new(alloc);
    for i in 0..300u16 {
        let (x, y) = (i64::from(i % 7) * 100, i64::from(i % 3) * 1000);
        let half = i64::from(i / 2);
        all.push(bounds((x - half, x + half), (y - half, y + half)))?;
    }
    Ok(all)
}

/// The items that meet a window, by looking at each.
fn due(alloc: Global, all: &[Bounds], window: &Bounds) -> Result<Vec<usize>, NoMemory> {
    let mut due = Vec::new(alloc);
    for k in 0..all.len() {
        let b = all[k];
        let level = b.left <= window.right && window.left <= b.right;
        if level && b.low <= window.high && window.low <= b.high {
            due.push(k)?;
        }
    }
    Ok(due)
}

#[test]
fn all_that_meet_a_window_among_many(rt: HostRuntime) -> Result<(), Fail> {
    let all = many(rt.alloc())?;
    for i in 0..40u16 {
        let x = i64::from(i) * 20 - 100;
        let window = bounds((x, x + 9), (120, 930));
        let due = due(rt.alloc(), all.as_slice(), &window)?;
        compare(&rt, rt.alloc(), all.as_slice(), &window, due.as_slice())?;
    }
    Ok(())
}
