//! Why an edge is set aside.

ghost use Rattle.std.specs.Prelude.{◌≡◌, ◌↔◌, ◌<◌, length, IfOk, IfSome, None, []};
ghost use Rattle.dpl_sign.specs.Drawings.{is_in};
ghost use Rattle.dpl_sign.specs.Excess.{excess, all_edges, with_edge, kept_edges, aside_edges};
ghost use Rattle.dpl_drawing.specs.Faces.{AreFaces};
ghost use Rattle.dpl_map.specs.Maps.{is_kept};
ghost use Rattle.dpl_euler.specs.Bars.{IsBar, IsFirstAside};

use crate::circling::cycle_from;
use crate::searching::walk;
use crate::types::{Bar, Drawn};
use dpl_drawing::{Drawing, draw};
use dpl_list::Items;
use dpl_sign::{Net, next_around};
use std::alloc::{AllocError, Global};

/// The excess over all edges. It is 0 exactly where the whole drawing is plane.
pub fn excess_of(alloc: Global, net: &Net) -> Result<u64, AllocError>
    ensures { IfOk result (λ n. n ≡ excess net.now all_edges) }
{
    let drawing = draw(alloc, net)?;
    Ok(drawing.excess)
}

/// The excess over all edges, and what bars the least edge that is set aside, from one drawing. With
/// that edge the kept edges have excess 2. Near linear.
pub fn drawn(alloc: Global, net: &Net) -> Result<Drawn, AllocError>
    ensures excess { IfOk result (λ d. d.excess ≡ excess net.now all_edges) }
    ensures none { IfOk result (λ d. d.bar ≡ None ↔ aside_edges net.now ≡ []) }
    ensures least { IfOk result (λ d. IfSome d.bar (λ x. IsFirstAside net.now x.edge)) }
    ensures bar { IfOk result (λ d. IfSome d.bar (IsBar net.now)) }
    ensures two { IfOk result (λ d. IfSome d.bar (λ x.
        excess net.now (with_edge (is_kept net.now) x.edge) ≡ 2)) }
{
    let drawing = draw(alloc, net)?;
    let excess = drawing.excess;
    if drawing.aside.is_empty() {
        return Ok(Drawn { excess, bar: None });
    }
    let found = bar_of(alloc, net, &drawing)?;
    Ok(Drawn {
        excess,
        bar: Some(found),
    })
}

/// What bars the least edge that is set aside, if there is one.
pub fn bar(alloc: Global, net: &Net) -> Result<Option<Bar>, AllocError>
    ensures none { IfOk result (λ b. b ≡ None ↔ aside_edges net.now ≡ []) }
    ensures least { IfOk result (λ b. IfSome b (λ x. IsFirstAside net.now x.edge)) }
    ensures bar { IfOk result (λ b. IfSome b (IsBar net.now)) }
    ensures two { IfOk result (λ b. IfSome b (λ x.
        excess net.now (with_edge (is_kept net.now) x.edge) ≡ 2)) }
{
    let drawn = drawn(alloc, net)?;
    Ok(drawn.bar)
}

/// What bars the first edge that is set aside.
fn bar_of(alloc: Global, net: &Net, drawing: &Drawing) -> Result<Bar, AllocError>
    requires kept { drawing.now.kept.items ≡ kept_edges net.now }
    requires aside { drawing.now.aside.items ≡ aside_edges net.now }
    requires corners { AreFaces net.now (is_in (kept_edges net.now)) drawing.now.corners.items }
    requires some { 0 < length (aside_edges net.now) }
    ensures least { IfOk result (λ b. IsFirstAside net.now b.edge) }
    ensures bar { IfOk result (IsBar net.now) }
{
    let edge = drawing.aside[0];
    let kept = drawing.kept.as_slice();
    let corner = next_around(net, kept, 2 * edge);
    let face = cycle_from(alloc, drawing.corners.as_slice(), corner)?;
    let ends = net.graph.edges.as_slice()[edge as usize];
    let walk = walk(alloc, &net.graph, kept, ends.a, ends.b)?;
    Ok(Bar {
        edge,
        face: Items::new(face),
        walk: Items::new(walk),
    })
}
