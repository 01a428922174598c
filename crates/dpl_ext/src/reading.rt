// Reading all that is left of a source.
ghost use Rattle.std.specs.Prelude.{◌≡◌, ◌+◌, ◌-◌, ◌^◌, ◌<◌, ◌≤◌, ◌⊎◌, length, IfOk, IfErr, IfSome, OnOk, OnErr, Err};
ghost use Rattle.dpl_ext.specs.Device.{Rose, RoseBy};
ghost use Rattle.dpl_ext.specs.Reading.{GivesPiece, StopsPiece, HandsWhole, IsWhole, Refuses, TookFront};

use crate::devices::{Failed, Source};
use crate::taking::Taker;
use std::alloc::Global;
use thiserror::Error;

/// Why not all that was left is there. The source has given up what was read.
#[derive(Clone, Copy, Debug, PartialEq, Eq, Error)]
pub enum ReadEnd {
    #[error("the source failed")]
    Fault,
    #[error("more bytes were left than the limit")]
    TooLong,
    #[error("out of memory")]
    NoMemory,
}

const PIECE: u64 = 4096;

/// Reads all that is left, if that is at most `limit` bytes, in at most `limit + 2` reads: each but the last takes at
/// least one byte, and all together never more than one past the limit.
pub fn read_all<S: Source>(alloc: Global, source: &mut S, limit: u64) -> Result<Vec<u8>, ReadEnd>
    requires { limit < 2 ^ 32 }
    ensures whole { IfOk result (λ v.
        IsWhole (S.seen source.old) (S.seen source.new) v.items limit) }
    ensures refused { IfErr result (Refuses (S.seen source.old) (S.seen source.new) limit) }

    // Where the source tells its bytes and no call failed, it is too long exactly where more were left.
    ensures too_long { result ≡ Err ReadEnd.TooLong →
        IfSome (S.seen source.old).left (λ xs. limit < length xs) }
    ensures long { IfSome (S.seen source.old).left (λ xs. limit < length xs
        → ¬ Rose (S.seen source.old).faults (S.seen source.new).faults
        → (result ≡ Err ReadEnd.TooLong) ⊎ (result ≡ Err ReadEnd.NoMemory)) }
    ensures reads { S.reads source.new ≤ S.reads source.old + limit + 2 }
{
    let mut bytes = Vec::new(alloc);
    match read_each(source, limit, &mut bytes) {
        Ok(()) => Ok(bytes),
        Err(end) => Err(end),
    }
}

/// Reads all that is left as `read_all` does, hands each piece on as it comes, and keeps none. After a refusal the taker
/// has a front of what was read.
pub fn read_each<S: Source, T: Taker>(
    source: &mut S,
    limit: u64,
    taker: &mut T,
) -> Result<(), ReadEnd>
    requires small { limit < 2 ^ 32 }
    requires room { length (T.got taker.old) + limit ≤ T.room taker.old }
    ensures whole { OnOk result (HandsWhole (S.seen source.old) (S.seen source.new)
        (T.got taker.old) (T.got taker.new) limit) }
    ensures refused { IfErr result (Refuses (S.seen source.old) (S.seen source.new) limit) }
    ensures too_long { result ≡ Err ReadEnd.TooLong →
        IfSome (S.seen source.old).left (λ xs. limit < length xs) }
    ensures long { IfSome (S.seen source.old).left (λ xs. limit < length xs
        → ¬ Rose (S.seen source.old).faults (S.seen source.new).faults
        → (result ≡ Err ReadEnd.TooLong) ⊎ (result ≡ Err ReadEnd.NoMemory)) }
    ensures reads { S.reads source.new ≤ S.reads source.old + limit + 2 }

    // What the taker got where not all was read.
    ensures front { OnErr result (TookFront (S.seen source.old) (S.seen source.new) limit
        (T.got taker.old) (T.got taker.new)) }
    ensures same { T.room taker.new ≡ T.room taker.old }
{
    let mut taken = 0;
    for _turn in 0..limit + 2 {
        let count = read_piece(source, taker, taken, limit)?;
        if count == 0 {
            return Ok(());
        }
        taken += count;
    }
    unreachable!()
}

/// Hands on the next piece of what is left, of which so many bytes were taken before, and says how long it is: it has no
/// byte only at the end.
fn read_piece<S: Source, T: Taker>(
    source: &mut S,
    taker: &mut T,
    taken: u64,
    limit: u64,
) -> Result<u64, ReadEnd>
    requires within { taken ≤ limit }
    requires small { limit < 2 ^ 32 }
    requires room { length (T.got taker.old) + (limit - taken) ≤ T.room taker.old }
    ensures ok { IfOk result (GivesPiece (S.seen source.old) (S.seen source.new)
        (T.got taker.old) (T.got taker.new) (limit - taken)) }
    ensures err { IfErr result (StopsPiece (S.seen source.old) (S.seen source.new) taken limit) }
    ensures kept { OnErr result (T.got taker.new ≡ T.got taker.old) }
    ensures same { T.room taker.new ≡ T.room taker.old }
    ensures reads { RoseBy 1 (S.reads source.old) (S.reads source.new) }
{
    let mut piece = [0u8; 4096];
    let want = (limit + 1 - taken).min(PIECE) as usize;
    let count = match source.read(&mut piece[..want]) {
        Ok(count) => count,
        Err(Failed) => return Err(ReadEnd::Fault),
    };
    if taken + count as u64 > limit {
        return Err(ReadEnd::TooLong);
    }
    match taker.take(&piece[..count]) {
        Ok(()) => Ok(count as u64),
        Err(_) => Err(ReadEnd::NoMemory),
    }
}
