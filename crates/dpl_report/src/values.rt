// The values of the first lines of a report, by version.
use dpl_lex::Name;

/// The values that each report has.
#[derive(Drop)]
pub struct Values {
    pub layer: Name,
    pub space: u64,
    pub overlap: u64,
    pub stitch: u64,
    pub conflict: u64,
}

/// The values that only a report of the second version has.
#[derive(Drop)]
pub struct More {
    pub corner: Option<u64>,
    pub keep: Option<Name>,
}
