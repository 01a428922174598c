//! A node that serves again.

ghost use Rattle.std.specs.Prelude.{length, IfSome};
ghost use Rattle.dpl_flood.specs.Arenas.{IsThere};

use crate::nodes::Node;

/// One of the nodes at a face, from the newest to the older ones, whose chain is that of a member and so long. None at
/// the end of what was noted.
pub(crate) fn find(
    nodes: &[Node],
    older: &[u32],
    newest: u32,
    face: u32,
    member: u32,
    far: u64,
) -> Option<u32>
    ensures { IfSome result (λ a. IsThere nodes.now a face member far) }
{
    let mut end = nodes.len();
    let mut here = newest;
    while (here as usize) < end {
        let node = &nodes[here as usize];
        if (node.face == face) & (node.member == member) & (node.far == far) {
            return Some(here);
        }
        end = here as usize;
        here = match older.get(here as usize) {
            Some(next) => *next,
            None => return None,
        };
    }
    None
}
