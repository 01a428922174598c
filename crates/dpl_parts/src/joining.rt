// The components of a net.
ghost use Rattle.std.specs.Prelude.{◌≡◌, ◌<◌, ℕ, map, length, All, IfOk};
ghost use Rattle.dpl_classes.specs.Classes.{AreClasses};
ghost use Rattle.dpl_parts.specs.Components.{AreComponents};

use dpl_classes::classes;
use dpl_sign::{Edge, Net};
use std::alloc::{AllocError as NoMemory, Global};

/// The two ends of each edge.
fn ends(alloc: Global, edges: &[Edge]) -> Result<Vec<(u32, u32)>, NoMemory>
    ensures { IfOk result (λ v. v.items ≡ map (λ e. (e.a, e.b)) edges.now) }
{
    let mut ends = Vec::new(alloc);
    for edge in edges {
        ends.push((edge.a, edge.b))?;
    }
    Ok(ends)
}

/// The number of each node's component, and how many components there are.
pub fn counted_components(alloc: Global, net: &Net) -> Result<(Vec<u32>, u32), NoMemory>
    ensures components { IfOk result (λ p. AreComponents net.now p.0.items) }
    ensures within { IfOk result (λ p. All (λ c. c < p.1) p.0.items) }
{
    let ends = ends(alloc, net.graph.edges.as_slice())?;
    let found = classes(alloc, net.graph.nodes as usize, ends.as_slice())?;
    Ok(found)
}

/// The number of each node's component. Components are numbered from 0 in the order of their least nodes.
pub fn components(alloc: Global, net: &Net) -> Result<Vec<u32>, NoMemory>
    ensures { IfOk result (λ v. AreComponents net.now v.items) }
{
    let (number, _) = counted_components(alloc, net)?;
    Ok(number)
}
