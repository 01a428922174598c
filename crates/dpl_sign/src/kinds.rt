// What an edge is, asked of its kind.
ghost use Rattle.std.specs.Prelude.{◌≡◌, ◌||◌, not};
ghost use Rattle.dpl_sign.specs.Kinds.{is_bond, is_clash};

use crate::edges::Kind;

impl Kind {
    /// Whether the ends have to agree.
    pub fn is_bond(self) -> bool
        ensures { result ≡ is_bond self }
    {
        match self {
            Kind::Bond => true,
            Kind::Stitch | Kind::Clash => false,
        }
    }

    /// Whether the ends had better agree.
    pub fn is_stitch(self) -> bool
        ensures { result ≡ not (is_bond self || is_clash self) }
    {
        match self {
            Kind::Stitch => true,
            Kind::Bond | Kind::Clash => false,
        }
    }

    /// Whether the ends had better differ.
    pub fn is_clash(self) -> bool
        ensures { result ≡ is_clash self }
    {
        match self {
            Kind::Clash => true,
            Kind::Bond | Kind::Stitch => false,
        }
    }
}
