// Edges of three kinds: bonds, stitches and clashes.
ghost use Rattle.std.specs.Prelude.{◌≡◌, ◌<◌, ◌≤◌};
ghost use Rattle.dpl_limits.specs.declared.TheConstants.{MOST_WEIGHT};
ghost use Rattle.dpl_sign.specs.Weights.{least_weight, most_weight};

/// What an edge asks of the colours of its ends: a bond that they agree, a stitch that they
/// had better agree, a clash that they had better differ.
#[derive(Clone, Copy, Debug, PartialEq, Eq)]
pub enum Kind {
    Bond,
    Stitch,
    Clash,
}

/// An edge of a graph. A bond weighs nothing, the others from 1 to 1,000,000.
#[derive(Clone, Copy, Debug)]
pub struct Edge {
    pub a: u32,
    pub b: u32,
    pub kind: Kind,
    pub weight: u64,
    pub ghost ordered: { a < b },
    pub ghost least: { least_weight kind ≤ weight },
    pub ghost most: { weight ≤ most_weight kind },
}

impl Edge {
    /// An edge whose ends have to agree.
    pub fn bond(a: u32, b: u32) -> Edge
        requires { a < b }
        ensures first { result.a ≡ a }
        ensures second { result.b ≡ b }
        ensures kind { result.kind ≡ Kind.Bond }
        ensures weight { result.weight ≡ 0 }
    {
        let (kind, weight) = (Kind::Bond, 0);
        Edge { a, b, kind, weight }
    }

    /// An edge whose ends had better agree.
    pub fn stitch(a: u32, b: u32, weight: u64) -> Edge
        requires order { a < b }
        requires least { 1 ≤ weight }
        requires most { weight ≤ MOST_WEIGHT }
        ensures first { result.a ≡ a }
        ensures second { result.b ≡ b }
        ensures kind { result.kind ≡ Kind.Stitch }
        ensures weight { result.weight ≡ weight }
    {
        let kind = Kind::Stitch;
        Edge { a, b, kind, weight }
    }

    /// An edge whose ends had better differ.
    pub fn clash(a: u32, b: u32, weight: u64) -> Edge
        requires order { a < b }
        requires least { 1 ≤ weight }
        requires most { weight ≤ MOST_WEIGHT }
        ensures first { result.a ≡ a }
        ensures second { result.b ≡ b }
        ensures kind { result.kind ≡ Kind.Clash }
        ensures weight { result.weight ≡ weight }
    {
        let kind = Kind::Clash;
        Edge { a, b, kind, weight }
    }
}
