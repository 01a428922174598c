// The weights of what is broken.
ghost use Rattle.std.specs.Prelude.{◌≡◌, ◌≤◌};
ghost use Rattle.dpl_limits.specs.declared.TheConstants.{MOST_WEIGHT};
ghost use Rattle.dpl_options.specs.Options.{PlainWeights, AreWeights, usual_weights};

use std::marker::Model;

/// What a broken stitch, a broken conflict between sides and one between corners weigh, each 1 to 1,000,000.
#[derive(Clone, Copy, Drop)]
pub struct Weights {
    stitch: u64,
    conflict: u64,
    corner: u64,
}

impl Model for Weights {
    ghost use Rattle.dpl_options.specs.Options.{PlainWeights, AreWeights};

    ghost Value = { PlainWeights };

    ghost view = { λ w. record { stitch = w.stitch; conflict = w.conflict; corner = w.corner } };

    ghost inverse = { λ v. record { stitch = v.stitch; conflict = v.conflict; corner = v.corner } };

    ghost invariant = { λ w. AreWeights (record { stitch = w.stitch; conflict = w.conflict; corner = w.corner }) };
}

impl Weights {
    /// These weights, each from 1 to 1,000,000.
    pub fn new(stitch: u64, conflict: u64, corner: u64) -> Weights
        requires { AreWeights (record { stitch = stitch; conflict = conflict; corner = corner }) }
        ensures { result ≡ record { stitch = stitch; conflict = conflict; corner = corner } }
    {
        Weights {
            stitch,
            conflict,
            corner,
        }
    }

    /// Those of a split for which none is asked.
    pub fn usual() -> Weights
        ensures { result ≡ usual_weights }
    {
        Weights::new(1, 10, 10)
    }

    /// What a broken stitch weighs, from 1 to 1,000,000.
    pub fn stitch(&self) -> u64
        ensures value { result ≡ self.now.stitch }
        ensures some { 1 ≤ result }
        ensures most { result ≤ MOST_WEIGHT }
    {
        self.stitch
    }

    /// What a broken conflict between sides weighs, from 1 to 1,000,000.
    pub fn conflict(&self) -> u64
        ensures value { result ≡ self.now.conflict }
        ensures some { 1 ≤ result }
        ensures most { result ≤ MOST_WEIGHT }
    {
        self.conflict
    }

    /// What a broken conflict between corners weighs, from 1 to 1,000,000.
    pub fn corner(&self) -> u64
        ensures value { result ≡ self.now.corner }
        ensures some { 1 ≤ result }
        ensures most { result ≤ MOST_WEIGHT }
    {
        self.corner
    }
}
