//! Where a face stands, and when something comes on a way.

ghost use Rattle.std.specs.Prelude.{◌≡◌, ℕ, ◌+◌, ◌<◌, ◌^◌, List};
ghost use Rattle.dpl_dual.specs.declared.crosses.Dual.{Dual};
ghost use Rattle.dpl_dual.specs.Duals.{way_at};
ghost use Rattle.dpl_flood.specs.Queues.{never};
ghost use Rattle.dpl_flood.specs.Seas.{Sea, IsSea, due_of};
ghost use Rattle.dpl_flood.specs.Standings.{StandsOn, gain_of, loss_of, due_between, due_at_shore};

use dpl_tree::Label;

/// Where a held face stands: on which top, how far the moat reaches beyond it, how the top moves, and whether it rests.
#[derive(Clone, Copy)]
pub struct Standing {
    pub top: u32,
    pub reach: u64,
    pub label: Label,
    pub rests: bool,
}

impl Standing {
    /// What the top gains in a unit of time.
    fn gain(&self) -> u64
        ensures { result ≡ gain_of self.now }
    {
        match self.label {
            Label::Outer => 1,
            _ => 0,
        }
    }

    /// What it loses.
    fn loss(&self) -> u64
        ensures { result ≡ loss_of self.now }
    {
        match self.label {
            Label::Inner => 1,
            _ => 0,
        }
    }
}

/// When something comes on a way between two held faces.
fn due_between(x: &Standing, y: &Standing, length: u64, time: u64) -> u64
    requires { time + length < 2 ^ 64 }
    ensures { result ≡ due_between x.now y.now length time }
{
    if x.top == y.top || x.rests || y.rests {
        return u64::MAX;
    }
    let (nearer, farther) = (x.gain() + y.gain(), x.loss() + y.loss());
    if nearer <= farther {
        return u64::MAX;
    }
    let room = length.saturating_sub(x.reach).saturating_sub(y.reach);
    if nearer - farther == 2 {
        return time + room / 2;
    }
    time + room
}

/// When something comes on a way between a held face and open water.
fn due_at_shore(x: &Standing, length: u64, time: u64) -> u64
    requires { time + length < 2 ^ 64 }
    ensures { result ≡ due_at_shore x.now length time }
{
    if x.rests || x.gain() <= x.loss() {
        return u64::MAX;
    }
    time + length.saturating_sub(x.reach)
}

/// When something comes on a way between faces that stand so: the last time at which it has room, or the greatest number.
pub fn due(first: Option<Standing>, second: Option<Standing>, length: u64, time: u64) -> u64
    requires { time + length < 2 ^ 64 }
    ensures { (d : Dual) (terminals : List ℕ) (s : Sea) (w : ℕ) → IsSea d terminals s → s.time ≡ time →
        (way_at d.crosses w).length ≡ length → StandsOn s (way_at d.crosses w).f first →
        StandsOn s (way_at d.crosses w).g second → result ≡ due_of d s never w }
{
    match first {
        Some(x) => match second {
            Some(y) => due_between(&x, &y, length, time),
            None => due_at_shore(&x, length, time),
        },
        None => match second {
            Some(y) => due_at_shore(&y, length, time),
            None => u64::MAX,
        },
    }
}
