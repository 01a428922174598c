// What is asked of a split.
ghost use Rattle.std.specs.Prelude.{◌≡◌, ◌≤◌, ◌*◌, true, IfSome};
ghost use Rattle.dpl_limits.specs.declared.TheConstants.{MOST_SPACE};
ghost use Rattle.dpl_lex.specs.Name.{is_name};
ghost use Rattle.dpl_options.specs.Options.{PlainOptions, AreOptions, IsSplitLayer, name_or_nothing};

use crate::weights::Weights;
use dpl_lex::Name;
use std::marker::Model;

/// What is asked of a split. Lengths are in hundredths of a micron, each 1 to 100,000.
#[derive(Drop)]
pub struct Options {
    layer: Name,
    space: u64,
    overlap: u64,
    weights: Weights,
    keep: Option<Name>,
}

impl Model for Options {
    ghost use Rattle.dpl_options.specs.Options.{PlainOptions, AreOptions};

    ghost Value = { PlainOptions };

    ghost view = { λ o. record { layer = o.layer; space = o.space; overlap = o.overlap; weights = o.weights; keep = o.keep } };

    ghost invariant = { λ o. AreOptions (record { layer = o.layer; space = o.space; overlap = o.overlap; weights = o.weights; keep = o.keep }) };
}

impl Options {
    /// `keep` is the layer where nothing is cut.
    pub fn new(
        layer: Name,
        space: u64,
        overlap: u64,
        weights: Weights,
        keep: Option<Name>,
    ) -> Options
        requires { AreOptions (record { layer = layer; space = space; overlap = overlap; weights = weights; keep = keep }) }
        ensures { result ≡ record { layer = layer; space = space; overlap = overlap; weights = weights; keep = keep } }
    {
        Options {
            layer,
            space,
            overlap,
            weights,
            keep,
        }
    }

    /// The layer that is split. Its name has at most 31 bytes.
    pub fn layer(&self) -> &Name
        ensures value { result.now ≡ self.now.layer }
        ensures split { IsSplitLayer self.now.layer }
    {
        &self.layer
    }

    /// The spacing, in hundredths of a micron.
    pub fn space(&self) -> u64
        ensures value { result ≡ self.now.space }
        ensures some { 1 ≤ result }
        ensures most { result ≤ MOST_SPACE }
    {
        self.space
    }

    /// The overlap, in hundredths of a micron.
    pub fn overlap(&self) -> u64
        ensures value { result ≡ self.now.overlap }
        ensures some { 1 ≤ result }
        ensures most { result ≤ MOST_SPACE }
    {
        self.overlap
    }

    /// The spacing in grid units of half a hundredth of a micron.
    pub fn space_in_units(&self) -> u64
        ensures value { result ≡ 2 * self.now.space }
        ensures some { 2 ≤ result }
        ensures most { result ≤ 2 * MOST_SPACE }
    {
        2 * self.space
    }

    /// The overlap in grid units of half a hundredth of a micron.
    pub fn overlap_in_units(&self) -> u64
        ensures value { result ≡ 2 * self.now.overlap }
        ensures some { 2 ≤ result }
        ensures most { result ≤ 2 * MOST_SPACE }
    {
        2 * self.overlap
    }

    /// What a broken stitch and broken conflicts weigh.
    pub fn weights(&self) -> &Weights
        ensures { result.now ≡ self.now.weights }
    {
        &self.weights
    }

    /// All options are in their ranges. It is a fact about them; nothing runs.
    pub fn in_range(&self)
        ensures { AreOptions self.now }
    {
        let _layer = &self.layer;
    }

    /// The layer where nothing is cut.
    pub fn keep(&self) -> &Option<Name>
        ensures value { result.now ≡ self.now.keep }
        ensures split { IfSome self.now.keep IsSplitLayer }
    {
        &self.keep
    }
}

/// The bytes of a layer's name, none where there is no layer.
pub fn name_bytes(name: &Option<Name>) -> &[u8]
    ensures bytes { result.now ≡ name_or_nothing name.now }
    ensures name { IfSome name.now (λ n. is_name n ≡ true) }
{
    match name {
        Some(name) => name.bytes(),
        None => &[],
    }
}

/// The same name once more.
pub fn same_name(name: &Name) -> Name
    ensures { result ≡ name.now }
{
    match Name::new(name.bytes()) {
        Some(name) => name,
        None => unreachable!(),
    }
}

/// The same layer once more, or none.
pub fn same_keep(keep: &Option<Name>) -> Option<Name>
    ensures { result ≡ keep.now }
{
    match keep {
        Some(name) => Some(same_name(name)),
        None => None,
    }
}
