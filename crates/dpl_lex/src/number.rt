// The integers of a command.
ghost use Rattle.std.specs.Prelude.{◌≡◌, List, ℕ};
ghost use Rattle.dpl_lex.specs.Number.{unsigned_at, signed_at, digits_value, of_magnitude, of_negated, StandsFor};
ghost use Rattle.dpl_lex.specs.Classes.{drop_while, is_digit};

use crate::classes::{is_digit_byte, skip_separators};
use std::marker::Model;

/// What stands next in a command.
#[derive(Clone, Copy, Debug, PartialEq, Eq)]
pub enum Num {
    Value(i64),
    /// Its magnitude is more than 1,000,000,000,000.
    Big,
    Nothing,
}

const GREATEST: u64 = 1_000_000_000_000;

/// Reads the integers of a command, one after another. Contracts see the bytes that are left.
#[derive(Drop)]
pub struct Numbers<'a> {
    rest: &'a [u8],
}

impl<'a> Model for Numbers<'a> {
    ghost use Rattle.std.specs.Prelude.{List, ℕ};

    ghost Value = { List ℕ };

    ghost view = { λ s. s.rest.now };
}

impl<'a> Numbers<'a> {
    /// All bytes of a command are left.
    pub fn new(piece: &'a [u8]) -> Numbers<'a>
        ensures { result ≡ piece.entry.now }
    {
        Numbers { rest: piece }
    }

    /// The next integer without a sign, behind separators. `Nothing` moves nothing.
    pub fn unsigned(&mut self) -> Num
        ensures { (result, self.new) ≡ unsigned_at self.old }
    {
        let behind = skip_separators(self.rest);
        match behind.first() {
            Some(first) if is_digit_byte(*first) => {
                let (value, rest) = digits(behind);
                self.rest = rest;
                magnitude(value)
            }
            _ => Num::Nothing,
        }
    }

    /// The next integer behind separators, with a minus or without. `Nothing` moves nothing.
    pub fn signed(&mut self) -> Num
        ensures { (result, self.new) ≡ signed_at self.old }
    {
        let behind = skip_separators(self.rest);
        match behind.split_first() {
            Some((b'-', others)) => match others.first() {
                Some(first) if is_digit_byte(*first) => {
                    let (value, rest) = digits(others);
                    self.rest = rest;
                    negated(value)
                }
                _ => Num::Nothing,
            },
            Some((first, _)) if is_digit_byte(*first) => {
                let (value, rest) = digits(behind);
                self.rest = rest;
                magnitude(value)
            }
            _ => Num::Nothing,
        }
    }

    /// What has not been read.
    pub fn rest(&self) -> &'a [u8]
        ensures { result.now ≡ self.now }
    {
        self.rest
    }
}

/// What stands for the number that the digits at the front make, and what follows them.
#[tactic(auto, using(crate::proofs::Digits::le_digits_value))]
fn digits(bytes: &[u8]) -> (u64, &[u8])
    ensures value { StandsFor (digits_value 0 bytes.now) result.0 }
    ensures rest { result.1.now ≡ drop_while is_digit bytes.now }
{
    let mut value = 0;
    let mut rest = bytes;
    'digits: while let Some((first, others)) = rest.split_first()
        && is_digit_byte(*first)
    {
        if value <= GREATEST {
            value = value * 10 + u64::from(*first - b'0');
        }
        rest = others;
    }
    (value, rest)
}

fn magnitude(value: u64) -> Num
    ensures { (n : ℕ) → StandsFor n value → result ≡ of_magnitude n }
{
    if value > GREATEST {
        Num::Big
    } else {
        Num::Value(value as i64)
    }
}

fn negated(value: u64) -> Num
    ensures { (n : ℕ) → StandsFor n value → result ≡ of_negated n }
{
    if value > GREATEST {
        Num::Big
    } else {
        Num::Value(-(value as i64))
    }
}
