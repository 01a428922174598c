//! A plane drawing that grows edge by edge.

ghost use Rattle.std.specs.Prelude.{◌≡◌, ◌≢◌, ℕ, ◌+◌, ◌*◌, ◌<◌, ◌≤◌, ◌^◌, not, [], ◌∷◌, ◌++◌, length, slice_index, IfOk};
ghost use Rattle.dpl_sign.specs.Drawings.{is_in, dart_count};
ghost use Rattle.dpl_sign.specs.Excess.{raises_excess};
ghost use Rattle.dpl_drawing.specs.Drawn.{IsDrawn, AreLasts, IsAttached, IsInserted};

use crate::cycles::Cycles;
use crate::nearness::Nearby;
use crate::numbering::filled;
use crate::turning::{NO_DART, next_from};
use dpl_sign::Net;
use std::alloc::{AllocError, Global};

/// The faces of the edges that are drawn, as cycles of darts, and their components, as cycles of
/// nodes.
#[derive(Drop)]
pub struct Plane {
    pub faces: Cycles,
    pub parts: Cycles,
    pub components: u32,
    // A dart of each node, from which the others are near.
    pub lasts: Vec<u32>,
    pub nearby: Nearby,
}

/// Puts a dart of a new edge before `next` around its node. Where `next` is the dart itself the node
/// has no other, and nothing changes.
fn attach(faces: &mut Cycles, dart: u32, next: u32, twin: u32)
    requires dart { dart < length faces.old.nexts }
    requires next { next < length faces.old.nexts }
    requires twin { twin < length faces.old.nexts }
    requires back { slice_index faces.old.nexts twin ≡ dart }
    requires room { faces.old.fresh + 1 < 2 ^ 64 }
    ensures value { IsAttached faces.old.nexts dart next twin faces.new.nexts }
    ensures length { length faces.new.nexts ≡ length faces.old.nexts }
    ensures room { faces.new.fresh ≤ faces.old.fresh + 1 }
{
    if next != dart {
        let into = faces.prev(next);
        faces.splice(into, twin);
    }
}

/// Puts the two darts of an edge before the darts that are next around their nodes.
fn insert(faces: &mut Cycles, edge: u32, next: u32, next_twin: u32)
    requires edge { 2 * edge + 1 < length faces.old.nexts }
    requires small { length faces.old.nexts < 2 ^ 31 }
    requires next { next < length faces.old.nexts }
    requires next_twin { next_twin < length faces.old.nexts }
    requires alone { slice_index faces.old.nexts (2 * edge) ≡ 2 * edge }
    requires alone_twin { slice_index faces.old.nexts (2 * edge + 1) ≡ 2 * edge + 1 }
    requires apart { next ≢ 2 * edge + 1 }
    requires room { faces.old.fresh + 3 < 2 ^ 64 }
    ensures value { IsInserted faces.old.nexts edge next next_twin faces.new.nexts }
    ensures length { length faces.new.nexts ≡ length faces.old.nexts }
    ensures room { faces.new.fresh ≤ faces.old.fresh + 3 }
{
    let dart = 2 * edge;
    let twin = dart + 1;
    faces.splice(dart, twin);
    attach(faces, dart, next, twin);
    attach(faces, twin, next_twin, dart);
}

impl Plane {
    /// No edge is drawn.
    pub fn new(alloc: Global, net: &Net) -> Result<Plane, AllocError>
        ensures drawn { IfOk result (λ d.
            IsDrawn net.now (is_in []) d.faces.nexts d.parts.nexts d.components) }
        ensures lasts { IfOk result (λ d. AreLasts net.now (is_in []) d.lasts.items) }
        ensures room { IfOk result (λ d. d.faces.fresh ≡ dart_count net.now) }
        ensures part_room { IfOk result (λ d. d.parts.fresh ≡ net.now.graph.nodes) }
    {
        let components = net.graph.nodes;
        let faces = Cycles::new(alloc, 2 * net.graph.edges.as_slice().len() as u32)?;
        let parts = Cycles::new(alloc, components)?;
        let lasts = filled(alloc, components as usize, NO_DART)?;
        let nearby = Nearby::new(alloc, net)?;
        Ok(Plane {
            faces,
            parts,
            components,
            lasts,
            nearby,
        })
    }

    /// Goes on to the next edge, which is drawn unless it leads from one face of a component to
    /// another. `kept` says which of the earlier ones were.
    pub fn add_next(&mut self, net: &Net, kept: &[bool]) -> bool
        requires edge { length kept.now < length net.now.graph.edges }
        requires drawn { IsDrawn net.now (is_in kept.now)
            self.old.faces.nexts self.old.parts.nexts self.old.components }
        requires lasts { AreLasts net.now (is_in kept.now) self.old.lasts.items }
        requires room { self.old.faces.fresh + 3 < 2 ^ 64 }
        requires part_room { self.old.parts.fresh + 1 < 2 ^ 64 }
        ensures kept { result ≡ not (raises_excess net.now kept.now) }
        ensures drawn { IsDrawn net.now (is_in (kept.now ++ result ∷ []))
            self.new.faces.nexts self.new.parts.nexts self.new.components }
        ensures lasts { AreLasts net.now (is_in (kept.now ++ result ∷ [])) self.new.lasts.items }
        ensures room { self.new.faces.fresh ≤ self.old.faces.fresh + 3 }
        ensures part_room { self.new.parts.fresh ≤ self.old.parts.fresh + 1 }
    {
        let edge = kept.len() as u32;
        let (dart, twin) = (2 * edge, 2 * edge + 1);
        let ends = net.graph.edges.as_slice()[edge as usize];
        let last = self.lasts[ends.a as usize];
        let next = next_from(self.faces.ring(), net, kept, dart, last, &mut self.nearby);
        let last_twin = self.lasts[ends.b as usize];
        let next_twin = next_from(
            self.faces.ring(),
            net,
            kept,
            twin,
            last_twin,
            &mut self.nearby,
        );
        if !self.parts.are_together(ends.a, ends.b) {
            insert(&mut self.faces, edge, next, next_twin);
            self.parts.splice(ends.a, ends.b);
            self.components -= 1;
            self.lasts[ends.a as usize] = dart;
            self.lasts[ends.b as usize] = twin;
            self.nearby.note(dart, dart);
            self.nearby.note(twin, twin);
            return true;
        }
        if !self.faces.are_together(next, next_twin) {
            return false;
        }
        insert(&mut self.faces, edge, next, next_twin);
        self.lasts[ends.a as usize] = dart;
        self.lasts[ends.b as usize] = twin;
        self.nearby.note(dart, dart);
        self.nearby.note(twin, twin);
        true
    }
}
