// Places in blocks of two sizes. They stand in one list, in which the blocks of a wide block follow it.
ghost use Rattle.std.specs.Prelude.{◌≡◌, ◌^◌, ◌+ℤ◌, ℤ, pos, true, int_lt, IfSome};
ghost use Rattle.dpl_cover.specs.Counts.{HasWithin, IsBetween, IsUpTo, IsWider, block_of, wide_of};

/// How many places a block has, and how many blocks a wide block; the last may have fewer.
pub const BLOCK: usize = 32;

/// How many places a wide block has.
pub const WIDE: usize = 1024;

/// No count is farther from 0.
const FAR: i64 = 1 << 62;

/// What is counted for all places of a block at once, and between which numbers lies what is counted for each with it.
#[derive(Clone, Copy, Debug)]
pub struct Block {
    pub whole: i64,
    pub low: i64,
    pub high: i64,
}

/// Where the block of a place stands.
pub fn block_of(k: usize) -> usize
    ensures { result ≡ block_of k }
{
    k / BLOCK + k / WIDE + 1
}

/// Where its wide block stands.
pub fn wide_of(k: usize) -> usize
    ensures { result ≡ wide_of k }
{
    k / WIDE * (BLOCK + 1)
}

/// A block with these numbers and a count added to both.
pub fn raised(block: &Block, count: i64) -> Block
    ensures whole { result.whole ≡ block.now.whole }
    ensures between { HasWithin count block.now result }
{
    Block {
        whole: block.whole,
        low: block.low.saturating_add(count),
        high: block.high.saturating_add(count),
    }
}

/// Between which numbers lies what lies between those of one of two blocks; with the count of the first.
pub fn joined(a: &Block, b: &Block) -> Block
    ensures whole { result.whole ≡ a.now.whole }
    ensures first { IsWider a.now result }
    ensures second { IsWider b.now result }
{
    Block {
        whole: a.whole,
        low: a.low.min(b.low),
        high: a.high.max(b.high),
    }
}

/// Numbers between which all counts lie, so that they tell of none.
pub fn loose() -> Block
    ensures { (z : ℤ) → IsUpTo (2 ^ 62) z → IsBetween result z }
{
    Block {
        whole: 0,
        low: -FAR,
        high: FAR,
    }
}

/// Whether the numbers of a block tell nothing.
pub fn is_loose(block: &Block) -> bool
    ensures { result ≡ true → (z : ℤ) → IsUpTo (2 ^ 62) z → IsBetween block.now z }
{
    block.low <= -FAR && FAR <= block.high
}

/// Whether all that lies between the numbers of a block is more than nothing with a count, or none is.
pub fn sign_of(count: i64, block: &Block) -> Option<bool>
    requires { IsUpTo (2 ^ 62) count }
    ensures { (z : ℤ) → IsBetween block.now z → IfSome result (λ counted. int_lt (pos 0) (z +ℤ count) ≡ counted) }
{
    if -count < block.low {
        Some(true)
    } else if block.high <= -count {
        Some(false)
    } else {
        None
    }
}
