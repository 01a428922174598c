// The first place at which a condition fails.
ghost use Rattle.std.specs.Prelude.{◌≡◌, ◌≤◌, ◌<◌, ◌^◌, length, map, pos, None, Some, IfOk};
ghost use Rattle.dpl_cell.specs.Places.{corners_of};
ghost use Rattle.dpl_report.specs.Plain.{plain_zone};
ghost use Rattle.dpl_report.specs.Valid.{IsCounts, IsParams};
ghost use Rattle.dpl_good.specs.declared.refusals.Miss.{Miss};
ghost use Rattle.dpl_good.specs.FirstDifferences.{FirstDifference};
ghost use Rattle.dpl_good.specs.Misses as misses;
ghost use Rattle.dpl_good.specs.Conditions as conditions;

use dpl_cell::Rect;
use dpl_good::Miss;
use dpl_options::{Options, name_bytes};
use dpl_parse::{Clashes, Cuts};
use dpl_report::{Broken, Counts, Params, Zone};
use std::alloc::{AllocError as NoMemory, Global};

/// Two numbers of a line that have to be the same.
pub fn number_miss(place: u64, found: u64, wanted: u64) -> Option<Miss>
    requires found { found < 2 ^ 63 }
    requires wanted { wanted < 2 ^ 63 }
    ensures { result ≡ misses.number_miss place found wanted }
{
    if found == wanted {
        None
    } else {
        let found = found as i64;
        let wanted = wanted as i64;
        Some(Miss {
            place,
            found,
            wanted,
        })
    }
}

fn pair_miss(place: u64, found: i64, wanted: i64) -> Option<Miss>
    ensures { result ≡ misses.pair_miss place found wanted }
{
    if found == wanted {
        None
    } else {
        Some(Miss {
            place,
            found,
            wanted,
        })
    }
}

/// The first numbers that differ.
fn numbers_miss(place: u64, found: &[i64], wanted: &[i64]) -> Option<Miss>
    ensures { result ≡ misses.numbers_miss place found.now wanted.now }
{
    let mut left = wanted;
    for x in found {
        let Some((y, others)) = left.split_first() else {
            return None;
        };
        if let Some(miss) = pair_miss(place, *x, *y) {
            return Some(miss);
        }
        left = others;
    }
    None
}

fn ends_miss(found: &Broken, wanted: &Broken) -> Option<Miss>
    ensures { result ≡ conditions.ends_miss found.now wanted.now }
{
    let a = [i64::from(found.a), i64::from(found.b)];
    let b = [i64::from(wanted.a), i64::from(wanted.b)];
    numbers_miss(u64::from(found.edge), &a, &b)
}

fn listed(edge: u32) -> Miss
    ensures { result ≡ misses.miss edge (pos 1) (pos 0) }
{
    Miss {
        place: u64::from(edge),
        found: 1,
        wanted: 0,
    }
}

fn not_listed(edge: u32) -> Miss
    ensures { result ≡ misses.miss edge (pos 0) (pos 1) }
{
    Miss {
        place: u64::from(edge),
        found: 0,
        wanted: 1,
    }
}

/// Lines of one list against the edges that have to stand there.
fn entry_miss(edge: u32, wanted: u32) -> Option<Miss>
    ensures { result ≡ conditions.edge_miss edge wanted }
{
    if edge < wanted {
        Some(listed(edge))
    } else if wanted < edge {
        Some(not_listed(wanted))
    } else {
        None
    }
}

/// Aside lines against the edges set aside.
pub fn aside_lines_miss(found: &[u32], wanted: &[u32]) -> Option<Miss>
    ensures { result ≡ conditions.aside_miss found.now wanted.now }
{
    let mut left = wanted;
    for x in found {
        let Some((y, others)) = left.split_first() else {
            return Some(listed(*x));
        };
        if let Some(miss) = entry_miss(*x, *y) {
            return Some(miss);
        }
        left = others;
    }
    left.first().map(|y| not_listed(*y))
}

fn name_miss(place: u64, found: &[u8], wanted: &[u8]) -> Option<Miss>
    ensures { result ≡ misses.name_miss place found.now wanted.now }
{
    let mut left = wanted;
    for x in found {
        let Some((y, others)) = left.split_first() else {
            return pair_miss(place, i64::from(*x), 256);
        };
        if let Some(miss) = pair_miss(place, i64::from(*x), i64::from(*y)) {
            return Some(miss);
        }
        left = others;
    }
    match left.first() {
        Some(y) => pair_miss(place, 256, i64::from(*y)),
        None => None,
    }
}

/// Lines 7 to 12 against the counts of the layout.
pub fn counts_miss(found: &Counts, wanted: &Counts) -> Option<Miss>
    requires found { IsCounts found.now }
    requires wanted { IsCounts wanted.now }
    ensures { result ≡ conditions.counts_miss found.now wanted.now }
{
    let first = number_miss(7, found.pieces, wanted.pieces)
        .or(number_miss(8, found.fragments, wanted.fragments))
        .or(number_miss(9, found.bonds, wanted.bonds));
    first
        .or(number_miss(10, found.stitches, wanted.stitches))
        .or(number_miss(11, found.clashes, wanted.clashes))
        .or(number_miss(12, found.excess, wanted.excess))
}

/// Clash lines against the broken clashes: the least edge that differs.
pub fn clash_lines_miss(
    alloc: Global,
    found: Clashes<'_>,
    wanted: &[Broken],
) -> Result<Option<Miss>, NoMemory>
    ensures miss { IfOk result (λ v. v ≡ conditions.clash_lines_miss found.entry wanted.now) }
    ensures none { IfOk result (λ v. (v ≡ None → found.entry ≡ wanted.now) ×
        (found.entry ≡ wanted.now → v ≡ None)) }
    ensures first { IfOk result (λ v. (m : Miss) → v ≡ Some m →
        FirstDifference (λ b. b.edge) conditions.ends_miss found.entry wanted.now m) }
{
    let miss = first_clash_miss(alloc, found, wanted)?;
    Ok(miss)
}

fn first_clash_miss(
    alloc: Global,
    found: Clashes<'_>,
    wanted: &[Broken],
) -> Result<Option<Miss>, NoMemory>
    ensures { IfOk result (λ v. v ≡ conditions.clash_lines_miss found.entry wanted.now) }
{
    let mut left = wanted;
    let mut lines = found;
    'lines: while let Some(x) = lines.next_item(alloc)? {
        let Some((y, others)) = left.split_first() else {
            return Ok(Some(listed(x.edge)));
        };
        if let Some(miss) = entry_miss(x.edge, y.edge) {
            return Ok(Some(miss));
        }
        if let Some(miss) = ends_miss(&x, y) {
            return Ok(Some(miss));
        }
        left = others;
    }
    Ok(left.first().map(|y| not_listed(y.edge)))
}

/// The first of the corners' numbers `x1`, `y1`, `x2` and `y2` that differs, in grid units, said at
/// this place.
pub fn corners_miss(place: u64, found: &Rect, wanted: &Rect) -> Option<Miss>
    ensures { result ≡ misses.numbers_miss place (conditions.corner_numbers (corners_of found.now))
        (conditions.corner_numbers (corners_of wanted.now)) }
{
    let a = [found.x1, found.y1, found.x2, found.y2];
    let b = [wanted.x1, wanted.y1, wanted.x2, wanted.y2];
    numbers_miss(place, &a, &b)
}

fn zone_miss(found: &Zone, wanted: &Zone) -> Option<Miss>
    ensures { result ≡ conditions.zone_miss (plain_zone found.now) (plain_zone wanted.now) }
{
    ends_miss(&found.at, &wanted.at).or(corners_miss(
        u64::from(found.at.edge),
        &found.rect,
        &wanted.rect,
    ))
}

/// Cut lines against the broken stitches: the least edge that differs.
pub fn cut_lines_miss(
    alloc: Global,
    found: Cuts<'_>,
    wanted: &[Zone],
) -> Result<Option<Miss>, NoMemory>
    ensures { IfOk result (λ v.
        v ≡ conditions.cut_lines_miss found.entry (map plain_zone wanted.now)) }
{
    let mut left = wanted;
    let mut lines = found;
    'lines: while let Some(x) = lines.next_cut(alloc)? {
        let Some((y, others)) = left.split_first() else {
            return Ok(Some(listed(x.at.edge)));
        };
        if let Some(miss) = entry_miss(x.at.edge, y.at.edge) {
            return Ok(Some(miss));
        }
        if let Some(miss) = zone_miss(&x, y) {
            return Ok(Some(miss));
        }
        left = others;
    }
    Ok(left.first().map(|y| not_listed(y.at.edge)))
}

/// The weight of a clash between corners: without a line of its own that of every clash.
fn corner_weight(params: &Params) -> u64
    requires { IsParams params.now }
    ensures weight { result ≡ conditions.corner_weight params.now.corner params.now.conflict }
    ensures small { result < 2 ^ 63 }
{
    match params.corner {
        Some(corner) => corner,
        None => params.conflict,
    }
}

/// The corner weight and the keep layer against the options.
fn more_miss(found: &Params, wanted: &Options) -> Option<Miss>
    requires found { IsParams found.now }
    ensures { result ≡ conditions.more_miss found.now wanted.now }
{
    let corner = number_miss(16, corner_weight(found), wanted.weights().corner());
    let keep = name_miss(17, name_bytes(&found.keep), name_bytes(wanted.keep()));
    corner.or(keep)
}

/// Lines 2 to 6, and 16 and 17 where they are there, against the options.
pub fn params_miss(found: &Params, wanted: &Options) -> Option<Miss>
    requires found { IsParams found.now }
    ensures { result ≡ conditions.params_miss found.now wanted.now }
{
    let first = name_miss(2, found.layer.bytes(), wanted.layer().bytes())
        .or(number_miss(3, found.space, wanted.space()))
        .or(number_miss(4, found.overlap, wanted.overlap()));
    first
        .or(number_miss(5, found.stitch, wanted.weights().stitch()))
        .or(number_miss(6, found.conflict, wanted.weights().conflict()))
        .or(more_miss(found, wanted))
}
