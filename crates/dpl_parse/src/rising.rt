// Items that stand in lines of their own and rise by their edges.
ghost use Rattle.std.specs.Prelude.{◌≡◌, ◌++◌, ℕ, ℤ, false, List, Option, None, codes, MatchOption, refl};
ghost use Rattle.std.specs.Str.{bytes_eq};
ghost use Rattle.dpl_parse.specs.Items.{item_from};
ghost use Rattle.dpl_report.specs.Reading.{from_edge, aside_from, broken_from, zone_from};
ghost use Rattle.dpl_report.specs.ReportLines.{aside_line, clash_line, cut_line};

use crate::edges::{aside_in, clash_in, cut_in};
use dpl_report::{Broken, Zone};
use std::marker::Model;

/// What a line says of an edge.
pub trait Rising: Drop + Sized {
    ghost made_of: { List ℤ → Option Self };

    ghost edge_of: { Self → ℕ };

    ghost line_of: { Self → List ℕ };

    /// What a line says, `None` where it says nothing of the kind.
    fn read(line: &[u8]) -> Option<Self>
        ensures { MatchOption result
            ((least : ℕ) → item_from made_of edge_of line_of least line.now ≡ None)
            (λ x. (least : ℕ) → item_from made_of edge_of line_of least line.now
            ≡ from_edge least (edge_of x) x) };

    fn edge(&self) -> u32
        ensures { result ≡ edge_of self.now };

    /// No such line is that of a cycle.
    ghost no_cycle: { (x : Self) (rest : List ℕ) →
        bytes_eq (line_of x) (codes "(cycle" ++ rest) ≡ false };
}

/// What a cut line says: a broken stitch with its zone. Contracts see it as plain numbers.
#[derive(Drop)]
pub struct CutLine {
    pub zone: Zone,
}

impl Model for CutLine {
    ghost use Rattle.dpl_report.specs.Plain.{PlainZone, plain_zone};

    ghost Value = { PlainZone };

    ghost view = { λ s. plain_zone s.zone };
}

impl Rising for CutLine {
    ghost made_of = { zone_from };

    ghost edge_of = { λ z. z.at.edge };

    ghost line_of = { cut_line };

    ghost no_cycle = { λ x rest. refl };

    fn read(line: &[u8]) -> Option<CutLine> {
        let zone = cut_in(line)?;
        Some(CutLine { zone })
    }

    fn edge(&self) -> u32 {
        self.zone.at.edge
    }
}

/// A broken clash.
impl Rising for Broken {
    ghost made_of = { broken_from };

    ghost edge_of = { λ b. b.edge };

    ghost line_of = { clash_line };

    ghost no_cycle = { λ x rest. refl };

    fn read(line: &[u8]) -> Option<Broken> {
        clash_in(line)
    }

    fn edge(&self) -> u32 {
        self.edge
    }
}

/// An edge that is set aside.
impl Rising for u32 {
    ghost made_of = { aside_from };

    ghost edge_of = { λ e. e };

    ghost line_of = { aside_line };

    ghost no_cycle = { λ x rest. refl };

    fn read(line: &[u8]) -> Option<u32> {
        aside_in(line)
    }

    fn edge(&self) -> u32 {
        *self
    }
}
