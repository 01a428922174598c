// Pieces that had better be turned over together, by growing sets of pieces, as in Kernighan and Lin 1970: from each broken
// edge one of its ends is turned over, then the piece of best gain beside what is turned, and so on. The best front of this
// row is kept where it wins. Nothing here stands in a contract: what is found is judged by what it costs.
ghost use Rattle.std.specs.Prelude.{◌≡◌, ◌<◌, length, All, false, slice_index_or};

use crate::links::{Link, links_of, rows_of};
use dpl_list::Grouped;
use dpl_sign::Edge;
use std::alloc::{AllocError as NoMemory, Global};

/// So many pieces are turned over together at most.
const MOST_GROWN: usize = 30;

/// So many rounds over the broken edges at most.
const MOST_ROUNDS: usize = 50;

/// So many steps over links and pieces at most, which bounds the time.
const MOST_STEPS: u64 = 1 << 27;

/// So many pieces that may win alone are looked at at most, after the sets.
const MOST_LOOKS: usize = 1 << 26;

/// The flag of a piece.
pub fn flag_at(flags: &[bool], p: u32) -> bool
    ensures { result ≡ slice_index_or flags.now p false }
{
    (p as usize) < flags.len() && flags[p as usize]
}

fn gain_at(gains: &[i64], p: u32) -> i64 {
    if (p as usize) < gains.len() {
        gains[p as usize]
    } else {
        0
    }
}

fn mark_at(marks: &[u64], p: u32) -> u64 {
    if (p as usize) < marks.len() {
        marks[p as usize]
    } else {
        0
    }
}

fn add_gain(gains: &mut [i64], p: u32, by: i64) {
    if (p as usize) < gains.len() {
        gains[p as usize] = gains[p as usize].wrapping_add(by);
    }
}

fn set_mark(marks: &mut [u64], p: u32, mark: u64) {
    if (p as usize) < marks.len() {
        marks[p as usize] = mark;
    }
}

fn flip(flags: &mut [bool], p: u32) {
    if (p as usize) < flags.len() {
        flags[p as usize] = !flags[p as usize];
    }
}

/// The links between the pieces.
#[derive(Drop)]
struct Field {
    links: Vec<Link>,
    rows: Grouped<u32>,
}

/// What is turned over so far, what each piece wins by a turn more, and marks of what was met.
#[derive(Drop)]
struct Turns {
    turned: Vec<bool>,
    gains: Vec<i64>,
    marks: Vec<u64>,
    mark: u64,
    steps: u64,
}

/// What a broken edge wins, or one that is not broken loses, once or twice.
fn swing(weight: i64, broken: bool, times: i64) -> i64 {
    let by = weight.wrapping_mul(times);
    if broken { by } else { 0i64.wrapping_sub(by) }
}

/// Whether a link is broken now.
fn broken_now(link: &Link, turned: &[bool]) -> bool {
    let differ = flag_at(turned, link.p) != flag_at(turned, link.q);
    link.is_broken != differ
}

/// What each piece wins before any turn.
fn first_gains(gains: &mut [i64], links: &[Link]) {
    for link in links {
        let by = swing(link.weight, link.is_broken, 1);
        add_gain(gains, link.p, by);
        add_gain(gains, link.q, by);
    }
}

/// After a piece was turned over: what the pieces beside it win now.
fn renew(gains: &mut [i64], links: &[Link], turned: &[bool], row: &[u32], p: u32) {
    for s in row {
        if (*s as usize) < links.len() {
            let link = &links[*s as usize];
            let by = swing(link.weight, broken_now(link, turned), 2);
            let other = if link.p == p { link.q } else { link.p };
            add_gain(gains, other, by);
        }
    }
}

/// The links at a piece.
fn row_of(rows: &Grouped<u32>, p: u32) -> &[u32] {
    if (p as usize) < rows.len() {
        rows.row(p as usize)
    } else {
        &[]
    }
}

/// Turns a piece over.
fn turn_over(field: &Field, search: &mut Turns, p: u32) {
    let row = row_of(&field.rows, p);
    let gain = gain_at(search.gains.as_slice(), p);
    flip(search.turned.as_mut_slice(), p);
    add_gain(
        search.gains.as_mut_slice(),
        p,
        0i64.wrapping_sub(gain).wrapping_sub(gain),
    );
    renew(
        search.gains.as_mut_slice(),
        field.links.as_slice(),
        search.turned.as_slice(),
        row,
        p,
    );
    search.steps = search.steps.saturating_sub(row.len() as u64 + 1);
}

/// Puts the pieces beside a piece behind those that wait, each once.
fn meet(field: &Field, search: &mut Turns, p: u32, waiting: &mut Vec<u32>) -> Result<(), NoMemory> {
    let row = row_of(&field.rows, p);
    let links = field.links.as_slice();
    for s in row {
        if (*s as usize) < links.len() {
            let link = &links[*s as usize];
            let other = if link.p == p { link.q } else { link.p };
            if mark_at(search.marks.as_slice(), other) != search.mark {
                set_mark(search.marks.as_mut_slice(), other, search.mark);
                waiting.push(other)?;
            }
        }
    }
    Ok(())
}

/// The place of the piece of best gain among those that wait.
fn best_of(waiting: &[u32], gains: &[i64]) -> usize {
    let mut best = 0;
    let mut gain = 0i64;
    for k in 0..waiting.len() {
        let here = gain_at(gains, waiting[k]);
        if k == 0 || gain < here {
            best = k;
            gain = here;
        }
    }
    best
}

/// Takes the piece of best gain from those that wait.
fn take_best(search: &mut Turns, waiting: &mut Vec<u32>) -> Option<u32> {
    search.steps = search.steps.saturating_sub(waiting.len() as u64);
    let best = best_of(waiting.as_slice(), search.gains.as_slice());
    if best < waiting.len() {
        Some(waiting.swap_remove(best))
    } else {
        None
    }
}

/// Turns back what was turned over behind the best front.
fn turn_back(field: &Field, search: &mut Turns, grown: &[u32], front: usize) {
    for k in 0..grown.len() {
        if front <= k {
            turn_over(field, search, grown[k]);
        }
    }
}

/// Turns one end of a broken edge over, and grows the set of what is turned. Keeps the best front, and tells whether it
/// wins.
fn grow(
    alloc: Global,
    field: &Field,
    search: &mut Turns,
    start: u32,
    other: u32,
) -> Result<bool, NoMemory> {
    search.mark = search.mark.wrapping_add(1);
    set_mark(search.marks.as_mut_slice(), start, search.mark);
    set_mark(search.marks.as_mut_slice(), other, search.mark);
    let mut grown = Vec::new(alloc);
    let mut waiting = Vec::new(alloc);
    waiting.push(start)?;
    let mut sum = 0i64;
    let mut most = 0i64;
    let mut front = 0usize;
    for _turn in 0..MOST_GROWN {
        let Some(p) = take_best(search, &mut waiting) else {
            break;
        };
        sum = sum.wrapping_add(gain_at(search.gains.as_slice(), p));
        turn_over(field, search, p);
        meet(field, search, p, &mut waiting)?;
        grown.push(p)?;
        if most < sum {
            most = sum;
            front = grown.len();
        }
    }
    turn_back(field, search, grown.as_slice(), front);
    Ok(0 < most)
}

/// Goes over the links, and grows a set from each end of a broken one.
fn one_round(alloc: Global, field: &Field, search: &mut Turns) -> Result<bool, NoMemory> {
    let links = field.links.as_slice();
    let mut won = false;
    for link in links {
        if search.steps == 0 {
            return Ok(false);
        }
        if broken_now(link, search.turned.as_slice()) {
            if grow(alloc, field, search, link.q, link.p)? {
                won = true;
            }
        }
        if broken_now(link, search.turned.as_slice()) {
            if grow(alloc, field, search, link.p, link.q)? {
                won = true;
            }
        }
    }
    Ok(won)
}

/// Puts those pieces beside a piece that win alone behind those that wait.
fn push_winners(
    field: &Field,
    search: &Turns,
    p: u32,
    waiting: &mut Vec<u32>,
) -> Result<(), NoMemory> {
    let row = row_of(&field.rows, p);
    let links = field.links.as_slice();
    for s in row {
        if (*s as usize) < links.len() {
            let link = &links[*s as usize];
            let other = if link.p == p { link.q } else { link.p };
            if 0 < gain_at(search.gains.as_slice(), other) {
                waiting.push(other)?;
            }
        }
    }
    Ok(())
}

/// Turns over what wins alone, which is something only where the steps ran out.
fn turn_winners(
    alloc: Global,
    field: &Field,
    search: &mut Turns,
    count: u32,
) -> Result<(), NoMemory> {
    let mut waiting = Vec::new(alloc);
    for p in 0..count {
        if 0 < gain_at(search.gains.as_slice(), p) {
            waiting.push(p)?;
        }
    }
    for _look in 0..MOST_LOOKS {
        let Some(p) = waiting.pop() else {
            break;
        };
        if 0 < gain_at(search.gains.as_slice(), p) {
            turn_over(field, search, p);
            push_winners(field, search, p, &mut waiting)?;
        }
    }
    Ok(())
}

/// For each piece whether it had better be turned over.
pub fn search(
    alloc: Global,
    edges: &[Edge],
    piece: &[u32],
    count: u32,
    colours: &[bool],
) -> Result<Vec<bool>, NoMemory>
    requires ends { All (λ e. e.b < length piece.now) edges.now }
    requires coloured { length colours.now ≡ length piece.now }
{
    let links = links_of(alloc, edges, piece, colours)?;
    let rows = rows_of(alloc, links.as_slice(), count)?;
    let mut gains = vec![in alloc; 0i64; count as usize]?;
    first_gains(gains.as_mut_slice(), links.as_slice());
    let field = Field { links, rows };
    let mut search = Turns {
        turned: vec![in alloc; false; count as usize]?,
        gains,
        marks: vec![in alloc; 0u64; count as usize]?,
        mark: 0,
        steps: MOST_STEPS,
    };
    for _round in 0..MOST_ROUNDS {
        if !one_round(alloc, &field, &mut search)? {
            break;
        }
    }
    turn_winners(alloc, &field, &mut search, count)?;
    let Turns { turned, .. } = search;
    Ok(turned)
}
