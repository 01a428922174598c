// The cycle lines of a report, read where they stand: no edge is stored.
ghost use Rattle.std.specs.Prelude.{◌≡◌, ◌∷◌, [], length, Ok, MatchOption};
ghost use Rattle.dpl_form.specs.Lines.{lines_in};
ghost use Rattle.dpl_walks.specs.Cycles.{cycles_in, cycle_lines};
ghost use Rattle.dpl_walks.specs.Read.{cycle_of};
ghost use Rattle.dpl_report.specs.Reading as reading;

use crate::scanning::{behind_cycle, front_of, short_at};
use dpl_form::first_line;
use std::marker::Model;

/// The edges of a cycle line, read one after another where they stand. Contracts see those that
/// are left.
#[derive(Drop)]
pub struct Edges<'a> {
    rest: &'a [u8],
}

impl<'a> Model for Edges<'a> {
    ghost use Rattle.std.specs.Prelude.{List, [], ℕ};
    ghost use Rattle.dpl_walks.specs.Cycles.{edges_in, AreEdges};

    ghost Value = { List ℕ };

    ghost view = { λ s. edges_in s.rest.now };

    ghost invariant = { λ s. AreEdges [] s.rest.now };
}

impl<'a> Edges<'a> {
    /// The first of them, which leaves the others.
    pub fn next_edge(&mut self) -> Option<u32>
        ensures { MatchOption result (self.old ≡ []) (λ e. self.old ≡ e ∷ self.new) }
    {
        match short_at(self.rest) {
            None => None,
            Some((edge, others)) => {
                self.rest = others;
                Some(edge)
            }
        }
    }
}

/// A walk with its half weight, as its line has it.
#[derive(Drop)]
pub struct WrittenCycle<'a> {
    pub half: u64,
    pub start: u32,
    pub edges: Edges<'a>,
}

/// The cycle lines of a report, read one after another. Contracts see the cycles that are left.
#[derive(Drop)]
pub struct Cycles<'a> {
    text: &'a [u8],
    left: usize,
}

impl<'a> Model for Cycles<'a> {
    ghost use Rattle.std.specs.Prelude.{◌≡◌, List, length};
    ghost use Rattle.dpl_sign.specs.declared.walks.Cycle.{Cycle};
    ghost use Rattle.dpl_walks.specs.Cycles.{cycles_in};

    ghost Value = { List Cycle };

    ghost view = { λ s. cycles_in s.text.now };

    ghost invariant = { λ s. s.left ≡ length (cycles_in s.text.now) };
}

impl<'a> Cycles<'a> {
    /// The first of them, which leaves the others.
    pub fn next_cycle(&mut self) -> Option<WrittenCycle<'a>>
        ensures { MatchOption result (self.old ≡ []) (λ c. self.old ≡ cycle_of c ∷ self.new) }
    {
        if self.left == 0 {
            return None;
        }
        let Some((line, rest)) = first_line(self.text) else {
            return None;
        };
        let Some(front) = front_of(line) else {
            return None;
        };
        self.left -= 1;
        self.text = rest;
        let edges = Edges { rest: front.edges };
        Some(WrittenCycle {
            half: front.half,
            start: front.start,
            edges,
        })
    }

    /// The same lines once more.
    pub fn again(&self) -> Cycles<'a>
        ensures { result ≡ self.now }
    {
        Cycles {
            text: self.text,
            left: self.left,
        }
    }
}

/// How many cycle lines stand at the front, and what follows them.
fn count_cycles(text: &[u8]) -> (usize, &[u8])
    ensures count { result.0 ≡ length (cycles_in text.now) }
    ensures rest { lines_in result.1.now ≡ (cycle_lines (lines_in text.now)).1 }
{
    let mut left = 0;
    let mut rest = text;
    'lines: while let Some(others) = behind_cycle(rest) {
        left += 1;
        rest = others;
    }
    (left, rest)
}

/// The cycle lines at the front, and what follows them.
#[tactic(auto, unfolding(dpl_report::specs::Reading::read_cycles))]
pub fn front_cycles(text: &[u8]) -> (Cycles<'_>, &[u8])
    ensures { reading.read_cycles (lines_in text.now) ≡ Ok (result.0, lines_in result.1.now) }
{
    let (left, rest) = count_cycles(text);
    (Cycles { text, left }, rest)
}
