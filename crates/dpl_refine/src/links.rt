// Edges between pieces. Nothing here stands in a contract: what the search finds is judged by what it costs.
ghost use Rattle.std.specs.Prelude.{◌≡◌, ◌<◌, ◌^◌, length, All, OnOk};

use dpl_list::Grouped;
use dpl_sign::{Edge, broken};
use std::alloc::{AllocError as NoMemory, Global};

/// An edge between two pieces, and whether the colours break it before any turn.
#[derive(Clone, Copy, Debug)]
pub struct Link {
    pub p: u32,
    pub q: u32,
    pub weight: i64,
    pub is_broken: bool,
}

/// The edges that lead from one piece to another.
pub fn links_of(
    alloc: Global,
    edges: &[Edge],
    piece: &[u32],
    colours: &[bool],
) -> Result<Vec<Link>, NoMemory>
    requires ends { All (λ e. e.b < length piece.now) edges.now }
    requires coloured { length colours.now ≡ length piece.now }
{
    let mut links = Vec::new(alloc);
    for edge in edges {
        let p = piece[edge.a as usize];
        let q = piece[edge.b as usize];
        if p != q {
            let is_broken = broken(edge, colours[edge.a as usize], colours[edge.b as usize]);
            let weight = edge.weight as i64;
            links.push(Link {
                p,
                q,
                weight,
                is_broken,
            })?;
        }
    }
    Ok(links)
}

/// Notes that a link ends at a piece.
pub fn push_end(
    keys: &mut Vec<u32>,
    items: &mut Vec<u32>,
    key: u32,
    item: u32,
    count: u32,
) -> Result<(), NoMemory>
    requires same { length keys.old.items ≡ length items.old.items }
    requires below { All (λ k. k < count) keys.old.items }
    ensures same { OnOk result (length keys.new.items ≡ length items.new.items) }
    ensures below { OnOk result (All (λ k. k < count) keys.new.items) }
{
    if key < count {
        keys.push(key)?;
        items.push(item)?;
    }
    Ok(())
}

/// The numbers of the links at each piece.
pub fn rows_of(alloc: Global, links: &[Link], count: u32) -> Result<Grouped<u32>, NoMemory> {
    let mut keys = Vec::new(alloc);
    let mut items = Vec::new(alloc);
    let mut next = 0u32;
    for link in links {
        push_end(&mut keys, &mut items, link.p, next, count)?;
        push_end(&mut keys, &mut items, link.q, next, count)?;
        next = next.wrapping_add(1);
    }
    let rows = Grouped::by_key(alloc, count, keys.as_slice(), items.as_slice())?;
    Ok(rows)
}
