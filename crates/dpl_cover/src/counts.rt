// How often each place is counted.
ghost use Rattle.std.specs.Prelude.{◌≡◌, ◌≤◌, ◌<◌, ◌+◌, ◌*◌, ◌/◌, ◌^◌, ◌+ℤ◌, ℕ, pos, true, length, int_lt, IfSome};
ghost use Rattle.dpl_cover.specs.declared.blocks.TheConstants.{BLOCK, WIDE};
ghost use Rattle.dpl_cover.specs.Counts.{AreBlank, AreCounts, AreParts, AreSmall, AreUpTo, HasWithin, IsAdded};
ghost use Rattle.dpl_cover.specs.Counts.{IsAlike, IsBetween, IsChange, IsFit, IsKept, IsPartChange, IsRenewed};
ghost use Rattle.dpl_cover.specs.Counts.{IsUnit, IsUpTo, IsWholeGrown, IsWider, block_at, block_of, is_counted};
ghost use Rattle.dpl_cover.specs.Counts.{own_at, part_at};

use crate::blocks::{
    BLOCK, Block, WIDE, block_of, is_loose, joined, loose, raised, sign_of, wide_of,
};

/// Adds a number to the own counts of places.
fn add_each(each: &mut [i64], from: usize, to: usize, by: i64)
    requires order { from ≤ to }
    requires within { to ≤ length each.old }
    requires one { IsUnit by }
    requires small { AreUpTo (2 ^ 60) (length each.old) (own_at each.old) }
    ensures long { length each.new ≡ length each.old }
    ensures own { IsAdded (length each.old) from to by (own_at each.old) (own_at each.new) }
{
    for k in from..to {
        each[k] += by;
    }
}

/// Adds a number to the count of a block.
fn add_whole(blocks: &mut [Block], b: usize, by: i64)
    requires within { b < length blocks.old }
    requires one { IsUnit by }
    requires small { IsUpTo (2 ^ 62) (block_at blocks.old b).whole }
    ensures { IsWholeGrown b by blocks.old blocks.new }
{
    let now = raised(&blocks[b], by);
    blocks[b] = Block {
        whole: now.whole + by,
        ..now
    };
}

/// Sets between which numbers lies what is counted for the places of a block.
fn set_bounds(blocks: &mut [Block], b: usize, now: &Block)
    requires { b < length blocks.old }
    ensures kept { IsKept b blocks.old blocks.new }
    ensures low { (block_at blocks.new b).low ≡ now.now.low }
    ensures high { (block_at blocks.new b).high ≡ now.now.high }
{
    blocks[b].low = now.low;
    blocks[b].high = now.high;
}

/// Between which numbers the own counts of places lie.
fn bounds_of(each: &[i64], from: usize, to: usize) -> Block
    requires order { from ≤ to }
    requires within { to ≤ length each.now }
    ensures { (k : ℕ) → from ≤ k → k < to → IsBetween result (own_at each.now k) }
{
    let mut low = i64::MAX;
    let mut high = i64::MIN;
    for k in from..to {
        low = low.min(each[k]);
        high = high.max(each[k]);
    }
    Block {
        whole: 0,
        low,
        high,
    }
}

/// Looks up again between which numbers lies what is counted for the places of a block.
fn renew(blocks: &mut [Block], each: &[i64], b: usize, from: usize, to: usize)
    requires block { b < length blocks.old }
    requires order { from ≤ to }
    requires within { to ≤ length each.now }
    ensures { IsRenewed b from to each.now blocks.old blocks.new }
{
    let now = raised(&bounds_of(each, from, to), blocks[b].whole);
    set_bounds(blocks, b, &now);
}

/// Widens the numbers of a block by a number that was added to the counts of some of its places.
fn widen(blocks: &mut [Block], b: usize, by: i64)
    requires { b < length blocks.old }
    ensures kept { IsKept b blocks.old blocks.new }
    ensures wider { IsWider (block_at blocks.old b) (block_at blocks.new b) }
    ensures between { HasWithin by (block_at blocks.old b) (block_at blocks.new b) }
{
    let now = joined(&blocks[b], &raised(&blocks[b], by));
    set_bounds(blocks, b, &now);
}

/// Whether a place of a block beside those from one on up to another has its least count.
fn has_least_beside(each: &[i64], block: &Block, from: usize, to: usize) -> bool
    requires order { from < to }
    requires within { to ≤ length each.now }
{
    let beside = if to % BLOCK == 0 || to == each.len() {
        from / BLOCK * BLOCK
    } else {
        to
    };
    each[beside].wrapping_add(block.whole) <= block.low
}

/// Adds a number to the counts of places of one block. Its numbers are looked up again where one was taken away, or
/// where one was added to all places, perhaps, that have its least count.
fn change_within(each: &mut [i64], blocks: &mut [Block], from: usize, to: usize, by: i64)
    requires order { from < to }
    requires within { to ≤ length each.old }
    requires block { to ≤ from / BLOCK * BLOCK + BLOCK }
    requires one { IsUnit by }
    requires parts { AreParts each.old blocks.old }
    requires own { AreUpTo (2 ^ 60) (length each.old) (own_at each.old) }
    requires part { AreUpTo (2 ^ 60) (length each.old) (part_at each.old blocks.old) }
    ensures { IsPartChange from to by each.old blocks.old each.new blocks.new }
{
    let b = block_of(from);
    if to - from == BLOCK {
        add_whole(blocks, b, by);
        return;
    }
    add_each(each, from, to, by);
    if 0 < by && has_least_beside(each, &blocks[b], from, to) {
        widen(blocks, b, by);
    } else {
        let start = from / BLOCK * BLOCK;
        let end = start + BLOCK.min(each.len() - start);
        renew(blocks, each, b, start, end);
    }
}

/// Adds a number to the counts of places, in blocks alone that are not wide.
fn change_parts(each: &mut [i64], blocks: &mut [Block], from: usize, to: usize, by: i64)
    requires order { from < to }
    requires within { to ≤ length each.old }
    requires one { IsUnit by }
    requires parts { AreParts each.old blocks.old }
    requires own { AreUpTo (2 ^ 59) (length each.old) (own_at each.old) }
    requires part { AreUpTo (2 ^ 59) (length each.old) (part_at each.old blocks.old) }
    ensures { IsPartChange from to by each.old blocks.old each.new blocks.new }
{
    let mut at = from;
    while at < to {
        let end = at + (BLOCK - at % BLOCK).min(to - at);
        change_within(each, blocks, at, end, by);
        at = end;
    }
}

/// Between which numbers lies what lies between those of blocks from one on up to another, which is left out.
fn joined_all(blocks: &[Block], from: usize, to: usize) -> Block
    requires order { from < to }
    requires within { to ≤ length blocks.now }
    ensures { (j : ℕ) → from ≤ j → j < to → IsWider (block_at blocks.now j) result }
{
    let mut all = blocks[from];
    for j in from + 1..to {
        all = joined(&all, &blocks[j]);
    }
    all
}

/// Between which numbers lies what is counted for the places of a wide block, looked up in all its blocks.
fn bounds_of_wide(blocks: &[Block], w: usize) -> Block
    requires { w + 1 < length blocks.now }
    ensures { (from to : ℕ) → IsFit w from to blocks.now result }
{
    let all = joined_all(blocks, w + 1, blocks.len().min(w + 1 + BLOCK));
    raised(&all, blocks[w].whole)
}

/// Whether the places of all blocks of a wide block are known to be counted, or all known to be not.
fn are_all(blocks: &[Block], w: usize, counted: bool) -> bool
    requires { w + 1 < length blocks.now }
{
    for j in w + 1..blocks.len().min(w + 1 + BLOCK) {
        match sign_of(0, &raised(&blocks[j], blocks[w].whole)) {
            Some(sign) if sign == counted => {}
            _ => return false,
        }
    }
    true
}

/// Whether a change of a wide block made all its places counted, or none.
fn has_turned(blocks: &[Block], w: usize, changed: &Block, now: &Block) -> bool
    requires { w + 1 < length blocks.now }
{
    match sign_of(0, changed) {
        Some(counted) => sign_of(0, now).is_none() && are_all(blocks, w, counted),
        None => false,
    }
}

/// Between which numbers lies what is counted for the places of a wide block, after a change of its blocks from one on
/// up to another.
fn fitted(blocks: &[Block], w: usize, from: usize, to: usize) -> Block
    requires order { w < from }
    requires some { from < to }
    requires within { to ≤ length blocks.now }
    ensures { IsFit w from to blocks.now result }
{
    if to - from == BLOCK {
        return bounds_of_wide(blocks, w);
    }
    let wide = blocks[w];
    let changed = raised(&joined_all(blocks, from, to), wide.whole);
    let now = joined(&wide, &changed);
    if has_turned(blocks, w, &changed, &now) {
        return bounds_of_wide(blocks, w);
    }
    now
}

/// Adds a number to the counts of places of one wide block. Its numbers stay loose until all its blocks are changed at
/// once, so that small boxes do not pay for them.
fn change_in_wide(each: &mut [i64], blocks: &mut [Block], from: usize, to: usize, by: i64)
    requires order { from < to }
    requires within { to ≤ length each.old }
    requires wide { to ≤ from / WIDE * WIDE + WIDE }
    requires one { IsUnit by }
    requires counts { AreCounts each.old blocks.old }
    requires small { AreSmall (2 ^ 59) each.old blocks.old }
    ensures { IsChange from to by each.old blocks.old each.new blocks.new }
{
    let w = wide_of(from);
    let is_whole = to - from == WIDE;
    let is_loose = is_loose(&blocks[w]);
    if is_whole && !is_loose {
        add_whole(blocks, w, by);
        return;
    }
    change_parts(each, blocks, from, to, by);
    if is_whole || !is_loose {
        let now = fitted(blocks, w, block_of(from), block_of(to - 1) + 1);
        set_bounds(blocks, w, &now);
    }
}

/// Makes the numbers of wide blocks loose where nothing is counted.
pub fn loosen(blocks: &mut [Block])
    requires { AreBlank blocks.old }
    ensures long { length blocks.new ≡ length blocks.old }
    ensures blank { AreBlank blocks.new }
{
    for w in 0..blocks.len() {
        if w % (BLOCK + 1) == 0 {
            set_bounds(blocks, w, &loose());
        }
    }
}

/// Adds a number, one or minus one, to the counts of places.
pub fn change(each: &mut [i64], blocks: &mut [Block], from: usize, to: usize, by: i64)
    requires order { from < to }
    requires within { to ≤ length each.old }
    requires one { IsUnit by }
    requires counts { AreCounts each.old blocks.old }
    requires small { AreSmall (2 ^ 58) each.old blocks.old }
    ensures { IsChange from to by each.old blocks.old each.new blocks.new }
{
    let mut at = from;
    while at < to {
        let end = at + (WIDE - at % WIDE).min(to - at);
        change_in_wide(each, blocks, at, end, by);
        at = end;
    }
}

/// Places from one on up to `to`, which is left out, that are all counted, or of which none is.
#[derive(Clone, Copy, Debug)]
pub struct Piece {
    pub to: usize,
    pub counted: bool,
}

/// Whether a place is counted more than not at all, by its own count and those of its blocks.
fn is_more(own: i64, whole: i64) -> bool
    requires own { IsUpTo (2 ^ 60) own }
    requires whole { IsUpTo (2 ^ 61) whole }
    ensures { result ≡ int_lt (pos 0) (own +ℤ whole) }
{
    -whole < own
}

/// Where the places of a block end that are all counted, or not, from one on up to another, which is left out.
fn end_of_alike(each: &[i64], whole: i64, from: usize, to: usize, counted: bool) -> usize
    requires order { from ≤ to }
    requires within { to ≤ length each.now }
    requires own { AreUpTo (2 ^ 60) (length each.now) (own_at each.now) }
    requires whole { IsUpTo (2 ^ 61) whole }
    ensures order { from ≤ result }
    ensures within { result ≤ to }
    ensures same { (k : ℕ) → from ≤ k → k < result → int_lt (pos 0) (own_at each.now k +ℤ whole) ≡ counted }
{
    for k in from..to {
        if is_more(each[k], whole) != counted {
            return k;
        }
    }
    to
}

/// What is counted for the places of a block at once, with that of its wide block.
fn whole_of(block: &Block, wide: &Block) -> i64
    requires { IsUpTo (2 ^ 61) (block.now.whole +ℤ wide.now.whole) }
    ensures sum { result ≡ block.now.whole +ℤ wide.now.whole }
    ensures small { IsUpTo (2 ^ 61) result }
{
    block.whole + wide.whole
}

/// The places from one on of its wide block, or of its block, where one count is enough to tell that they are alike.
fn known_from(each: &[i64], blocks: &[Block], at: usize) -> Option<Piece>
    requires within { at < length each.now }
    requires counts { AreCounts each.now blocks.now }
    requires small { AreSmall (2 ^ 60) each.now blocks.now }
    ensures { IfSome result (IsAlike each.now blocks.now at) }
{
    let wide = blocks[wide_of(at)];
    if let Some(counted) = sign_of(0, &wide) {
        let to = at + (WIDE - at % WIDE).min(each.len() - at);
        return Some(Piece { to, counted });
    }
    let counted = sign_of(wide.whole, &blocks[block_of(at)])?;
    let to = at + (BLOCK - at % BLOCK).min(each.len() - at);
    Some(Piece { to, counted })
}

/// The places from one on, of its wide block at most, of which all are counted more than not at all, or none.
pub fn alike_from(each: &[i64], blocks: &[Block], at: usize) -> Piece
    requires within { at < length each.now }
    requires counts { AreCounts each.now blocks.now }
    requires small { AreSmall (2 ^ 60) each.now blocks.now }
    ensures { IsAlike each.now blocks.now at result }
{
    if let Some(piece) = known_from(each, blocks, at) {
        return piece;
    }
    let whole = whole_of(&blocks[block_of(at)], &blocks[wide_of(at)]);
    let counted = is_more(each[at], whole);
    let to = at + (BLOCK - at % BLOCK).min(each.len() - at);
    let to = end_of_alike(each, whole, at + 1, to, counted);
    Piece { to, counted }
}

/// Where the blocks from a place on end whose places are all counted: at that place where it lies in none of those.
/// No block that begins at a column or right of it is looked at.
pub fn full_from(columns: &[i64], each: &[i64], blocks: &[Block], at: usize, to: i64) -> usize
    requires long { length each.now ≡ length columns.now }
    requires within { at ≤ length each.now }
    requires counts { AreCounts each.now blocks.now }
    requires small { AreSmall (2 ^ 60) each.now blocks.now }
    ensures order { at ≤ result }
    ensures within { result ≤ length each.now }
    ensures same { (k : ℕ) → at ≤ k → k < result →
        is_counted each.now blocks.now k ≡ true }
{
    if at % BLOCK > 0 {
        return at;
    }
    let mut end = at;
    while end < columns.len() && columns[end] < to {
        match known_from(each, blocks, end) {
            Some(piece) if piece.counted => end = piece.to,
            _ => return end,
        }
    }
    end
}
