// Parts of a command.
ghost use Rattle.std.specs.Prelude.{◌≡◌, List, length, IfOk};
ghost use Rattle.std.specs.List.{list_all};
ghost use Rattle.dpl_lex.specs.Classes.{is_blank};
ghost use Rattle.dpl_rules.specs.Readers as readers;
ghost use Rattle.dpl_rules.specs.Readers.{Reads, signed_of, unsigned_of, spot_of, repeated};

use crate::command::{Command, Spot};
use dpl_lex::classes::{is_blank_byte, skip_blanks};
use dpl_lex::{Num, Numbers};
use std::alloc::{AllocError, Global};

/// One more than the greatest magnitude: it stands for each number beyond.
const BEYOND: i64 = 1_000_000_000_001;

fn signed(bytes: &[u8]) -> Option<(i64, &[u8])>
    ensures { Reads (λ r. (r.0, r.1.now)) result (signed_of bytes.now) }
{
    let mut numbers = Numbers::new(bytes);
    match numbers.signed() {
        Num::Value(value) => Some((value, numbers.rest())),
        Num::Big => Some((BEYOND, numbers.rest())),
        Num::Nothing => None,
    }
}

/// The next integer without a sign, and what follows it, `None` where there is none. 10^12 + 1
/// stands for each greater one.
pub fn unsigned(bytes: &[u8]) -> Option<(u64, &[u8])>
    ensures { Reads (λ r. (r.0, r.1.now)) result (unsigned_of bytes.now) }
{
    let mut numbers = Numbers::new(bytes);
    match numbers.unsigned() {
        Num::Value(value) => Some((value.unsigned_abs(), numbers.rest())),
        Num::Big => Some((BEYOND as u64, numbers.rest())),
        Num::Nothing => None,
    }
}

/// The next point, an integer for each coordinate, and what follows it, `None` where one is
/// wanting. 10^12 + 1 stands for each integer of a magnitude beyond 10^12.
pub fn spot(bytes: &[u8]) -> Option<(Spot, &[u8])>
    ensures { Reads (λ r. (r.0, r.1.now)) result (spot_of bytes.now) }
{
    let (x, rest) = signed(bytes)?;
    let (y, rest) = signed(rest)?;
    Some((Spot { x, y }, rest))
}

/// As many points as stand one after another.
#[tactic(auto, using(crate::proofs::Repeated::repeated_step, crate::proofs::Repeated::repeated_stop, crate::proofs::Repeated::repeated_none))]
pub fn spots(alloc: Global, bytes: &[u8]) -> Result<(Vec<Spot>, &[u8]), AllocError>
    ensures { IfOk result (λ r. (r.0.items, r.1.now)
        ≡ repeated spot_of (length bytes.now) bytes.now) }
{
    let mut spots = Vec::new(alloc);
    let mut rest = bytes;
    for _turn in 0..bytes.len() {
        let Some((next, others)) = spot(rest) else {
            return Ok((spots, rest));
        };
        spots.push(next)?;
        rest = others;
    }
    Ok((spots, rest))
}

fn is_all_blank(bytes: &[u8]) -> bool
    ensures { result ≡ list_all is_blank bytes.now }
{
    bytes.iter().all(|b| is_blank_byte(*b))
}

/// The command, where only blanks follow.
pub fn complete(command: Command, rest: &[u8]) -> Option<Command>
    ensures { result ≡ readers.complete command rest.now }
{
    if is_all_blank(rest) {
        Some(command)
    } else {
        None
    }
}

/// What follows this letter, which may stand behind blanks.
pub fn letter(b: u8, bytes: &[u8]) -> Option<&[u8]>
    ensures { Reads (λ r. r.now) result (readers.letter b bytes.now) }
{
    let rest = skip_blanks(bytes);
    match rest.split_first() {
        Some((first, others)) if *first == b => Some(others),
        _ => None,
    }
}
