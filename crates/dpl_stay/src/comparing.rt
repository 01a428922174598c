// Which components stay.
ghost use Rattle.std.specs.Prelude.{◌≡◌, ◌<◌, ℕ, length, map, IfOk};
ghost use Rattle.dpl_stay.specs.Order.{IsInOrder};
ghost use Rattle.dpl_stay.specs.Marks.{has_partner, without_ends, without_partners};
ghost use Rattle.dpl_stay.specs.Staying.{AreStaying};

use crate::marking::{of_whole_components, take_ends, take_partners, with_partner};
use crate::pairing::{partners, twins};
use dpl_cell::Rect;
use dpl_parts::counted_components;
use dpl_sign::Net;
use std::alloc::{AllocError as NoMemory, Global};

/// Which nodes of a net are of a component that an old net has too, and for each node the old one with its rectangle.
#[derive(Drop)]
pub struct Staying {
    pub taken: Vec<bool>,
    pub partners: Vec<Option<u32>>,
}

/// The components of a net that are the same as components of an old one.
pub fn compare(
    alloc: Global,
    old_rects: &[Rect],
    old: &Net,
    rects: &[Rect],
    net: &Net,
) -> Result<Staying, NoMemory>
    requires old { IsInOrder old_rects.now old.now }
    requires new { IsInOrder rects.now net.now }
    ensures { IfOk result (λ s.
        AreStaying rects.now old_rects.now net.now old.now s.partners.items s.taken.items) }
{
    let there = partners(alloc, rects, old_rects)?;
    let back = partners(alloc, old_rects, rects)?;
    let twins_there = twins(alloc, net, there.as_slice(), old)?;
    let twins_back = twins(alloc, old, back.as_slice(), net)?;
    let here = Matched {
        net,
        partners: there.as_slice(),
        twins: twins_there.as_slice(),
    };
    let before = Matched {
        net: old,
        partners: back.as_slice(),
        twins: twins_back.as_slice(),
    };
    let fine = fine_nodes(alloc, &here, &before)?;
    let (number, count) = counted_components(alloc, net)?;
    let taken = of_whole_components(alloc, fine.as_slice(), number.as_slice(), count)?;
    Ok(Staying {
        taken,
        partners: there,
    })
}

/// A net, with what stands for its nodes and its edges in another.
#[derive(Clone, Copy)]
struct Matched<'a> {
    net: &'a Net,
    partners: &'a [Option<u32>],
    twins: &'a [Option<u32>],
}

/// Which nodes have a partner, and all their edges and the edges at the partner a twin.
fn fine_nodes(alloc: Global, new: &Matched<'_>, old: &Matched<'_>) -> Result<Vec<bool>, NoMemory>
    requires nodes { length new.now.partners.now ≡ new.now.net.now.graph.nodes }
    requires old_nodes { length old.now.partners.now ≡ old.now.net.now.graph.nodes }
    requires edges { length new.now.twins.now ≡ length new.now.net.now.graph.edges }
    requires old_edges { length old.now.twins.now ≡ length old.now.net.now.graph.edges }
    ensures { IfOk result (λ v. v.items ≡ without_partners old.now.net.now.graph.edges
        old.now.twins.now old.now.partners.now (without_ends new.now.net.now.graph.edges
        new.now.twins.now (map has_partner new.now.partners.now)
        (length new.now.net.now.graph.edges)) (length old.now.net.now.graph.edges)) }
{
    let mut fine = with_partner(alloc, new.partners)?;
    take_ends(
        fine.as_mut_slice(),
        new.net.graph.edges.as_slice(),
        new.twins,
    );
    take_partners(
        fine.as_mut_slice(),
        old.net.graph.edges.as_slice(),
        old.twins,
        old.partners,
    );
    Ok(fine)
}
