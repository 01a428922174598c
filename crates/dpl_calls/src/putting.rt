// What a command puts into its definition.
ghost use Rattle.std.specs.Prelude.{◌≡◌, ◌++◌, [], ◌∷◌, true, map, ℕ, Option, IfOk, OnOk};
ghost use Rattle.dpl_rules.specs.Figures.{IsScale, IsExtentNear, legs};
ghost use Rattle.dpl_rules.specs.Bounds.{is_command_in_bounds};
ghost use Rattle.dpl_calls.specs.Parts as parts;
ghost use Rattle.dpl_calls.specs.Parts.Part.{Drawn};
ghost use Rattle.dpl_calls.specs.Table.{entry_part};
ghost use Rattle.dpl_calls.specs.Found.{calls_in};
ghost use Rattle.dpl_calls.specs.Put.{scaled_extent, site_in, IsFew};

use crate::apart::Apart;
use crate::body::Body;
use crate::entry::Entry;
use crate::figure::{Corner, Figure};
use crate::moves::Move;
use crate::placement::placement_of;
use dpl_list::Items;
use dpl_rules::command::{Command, Scale, Spot};
use dpl_rules::figures::{Extent, box_extent, double, leg, scaled};
use dpl_rules::scope::Scope;
use std::alloc::{AllocError, Global};

fn scaled_extent(scale: Scale, e: Extent) -> Extent
    requires scale { IsScale scale }
    requires near { IsExtentNear e }
    ensures { result ≡ scaled_extent scale e }
{
    Extent {
        x1: scaled(scale, e.x1),
        y1: scaled(scale, e.y1),
        x2: scaled(scale, e.x2),
        y2: scaled(scale, e.y2),
    }
}

fn scaled_corner(scale: Scale, spot: &Spot) -> Corner
    requires { IsScale scale }
    ensures { result ≡ parts.scaled_corner scale spot.now }
{
    Corner {
        x: scaled(scale, double(spot.x)),
        y: scaled(scale, double(spot.y)),
    }
}

fn scaled_path(alloc: Global, scale: Scale, path: &[Spot]) -> Result<Items<Corner>, AllocError>
    requires { IsScale scale }
    ensures { IfOk result (λ r. r ≡ map (parts.scaled_corner scale) path.now) }
{
    let mut corners = Vec::new(alloc);
    for spot in path {
        corners.push(scaled_corner(scale, spot))?;
    }
    Ok(Items::new(corners))
}

/// Adds a figure.
fn put_figure(alloc: Global, body: &mut Body, figure: Figure) -> Result<(), AllocError>
    ensures parts { OnOk result (map entry_part body.new ≡ map entry_part body.old ++ Drawn figure ∷ []) }
    ensures calls { OnOk result ((place : Option ℕ) →
        calls_in place body.new ≡ calls_in place body.old) }
{
    let figure = Apart::new(alloc, figure)?;
    body.put(Entry::Drawn(figure))
}

/// Adds a rectangle.
fn put_rectangle(alloc: Global, body: &mut Body, scale: Scale, e: Extent) -> Result<(), AllocError>
    requires scale { IsScale scale }
    requires near { IsExtentNear e }
    ensures parts { OnOk result (map entry_part body.new ≡ map entry_part body.old
        ++ parts.rectangle scale e ∷ []) }
    ensures calls { OnOk result ((place : Option ℕ) →
        calls_in place body.new ≡ calls_in place body.old) }
{
    put_figure(alloc, body, Figure::Rectangle(scaled_extent(scale, e)))
}

fn put_legs(
    alloc: Global,
    body: &mut Body,
    scale: Scale,
    width: u64,
    path: &[Spot],
) -> Result<(), AllocError>
    requires { IsScale scale }
    ensures parts { OnOk result (map entry_part body.new ≡ map entry_part body.old
        ++ map (parts.rectangle scale) (legs width path.now)) }
    ensures calls { OnOk result ((place : Option ℕ) →
        calls_in place body.new ≡ calls_in place body.old) }
{
    let Some((first, rest)) = path.split_first() else {
        return Ok(());
    };
    if rest.is_empty() {
        return put_rectangle(alloc, body, scale, leg(width, first, first));
    }
    let mut before = first;
    for spot in rest {
        put_rectangle(alloc, body, scale, leg(width, before, spot))?;
        before = spot;
    }
    Ok(())
}

/// Adds what the command with this number puts in where it stands.
pub fn put_entries(
    alloc: Global,
    body: &mut Body,
    scope: &Scope,
    at: u32,
    command: &Command,
) -> Result<(), AllocError>
    requires scale { IsScale scope.now.scale }
    requires bounds { is_command_in_bounds command.now ≡ true }
    requires few { IsFew command.now }
    ensures parts { OnOk result (map entry_part body.new ≡ map entry_part body.old
        ++ parts.parts_of scope.now command.now) }
    ensures calls { OnOk result ((place : Option ℕ) →
        calls_in place body.new ≡ calls_in place body.old ++ site_in place at command.now) }
{
    let chosen = scope.layer == Some(true);
    match command {
        Command::Polygon(path) if chosen => {
            let corners = scaled_path(alloc, scope.scale, path.as_slice())?;
            put_figure(alloc, body, Figure::Polygon(corners))
        }
        Command::Box(b) if chosen && !(b.length == 0 || b.width == 0) => {
            put_rectangle(alloc, body, scope.scale, box_extent(b))
        }
        Command::Wire(width, path) if chosen && *width != 0 => {
            put_legs(alloc, body, scope.scale, *width, path.as_slice())
        }
        Command::Call(number, transformations) => {
            let placement = placement_of(scope.scale, transformations.as_slice());
            let moves = Move::new(alloc, placement)?;
            body.put(Entry::Called {
                at,
                number: *number,
                moves,
            })
        }
        _ => Ok(()),
    }
}
