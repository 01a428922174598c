// The integers of a line.
ghost use Rattle.std.specs.Prelude.{◌≡◌, [], ◌∷◌, take, IfOk, MatchOption};
ghost use Rattle.dpl_report.specs.Reading.{numbers_in};

use dpl_lex::{Num, Numbers};
use std::alloc::{AllocError as NoMemory, Global};
use std::marker::Model;

/// The integers of a line, read one after another. Contracts see those that are left.
#[derive(Drop)]
pub struct LineNumbers<'a> {
    numbers: Numbers<'a>,
    turns: usize,
}

impl<'a> Model for LineNumbers<'a> {
    ghost use Rattle.std.specs.Prelude.{List, ℤ};
    ghost use Rattle.dpl_rules.specs.Readers.{signed_of, repeated};

    ghost Value = { List ℤ };

    ghost view = { λ s. (repeated signed_of s.turns s.numbers).0 };
}

impl<'a> LineNumbers<'a> {
    /// All those behind the first byte are left, up to the first byte that belongs to none and
    /// separates none.
    pub fn new(line: &'a [u8]) -> LineNumbers<'a>
        ensures { result ≡ numbers_in line.entry.now }
    {
        let behind = match line.split_first() {
            Some((_, behind)) => behind,
            None => line,
        };
        LineNumbers {
            numbers: Numbers::new(behind),
            turns: line.len(),
        }
    }

    /// The first of them, which leaves the others.
    pub fn next_number(&mut self) -> Option<i64>
        ensures { MatchOption result (self.old ≡ []) (λ z. self.old ≡ z ∷ self.new) }
    {
        if self.turns == 0 {
            return None;
        }
        self.turns -= 1;
        match self.numbers.signed() {
            Num::Value(number) => Some(number),
            Num::Big => Some(1_000_000_000_001),
            Num::Nothing => None,
        }
    }
}

const FEW: usize = 8;

/// The first eight integers of a line. No line but that of a cycle has so many.
pub fn first_numbers(alloc: Global, line: &[u8]) -> Result<Vec<i64>, NoMemory>
    ensures { IfOk result (λ v. v.items ≡ take 8 (numbers_in line.now)) }
{
    let mut found = Vec::new(alloc);
    let mut numbers = LineNumbers::new(line);
    for _turn in 0..FEW {
        let Some(number) = numbers.next_number() else {
            return Ok(found);
        };
        found.push(number)?;
    }
    Ok(found)
}
