// Links of fragments with many others around them: of each piece only those are looked at that may be its nearest.
ghost use Rattle.std.specs.Prelude.{◌≡◌, ◌⊎◌, ◌<◌, ℕ, false, true, All, IfOk, List, OnOk, length, max, min};
ghost use Rattle.std.specs.Prelude.{slice_index_or};
ghost use Rattle.dpl_links.specs.declared.linking.Link.{Link};
ghost use Rattle.dpl_links.specs.Links.{HasMoreClashes, IsLink, piece_of};
ghost use Rattle.dpl_links.specs.Gathering.{ArePieces, AreGathered, scene_in};
ghost use Rattle.dpl_links.specs.Crowds.{AreGatheredBut, AreKnown, AddsLinks, AddsTurns, AreKept};
ghost use Rattle.dpl_links.specs.Crowds.{HasNearer, HasStanding, IsCrowd, IsFrom, IsLeftOut, IsCovered};
ghost use Rattle.dpl_links.specs.Crowds.{is_crowded};

use crate::heading::{MOST_GATHERED, add_link, settled, stands_for};
use crate::linking::{Link, link_in};
use crate::pieces::{Pieces, tell_pieces};
use crate::ranking::kinds_of;
use crate::reaching::least_gap_at;
use crate::turning::{Turn, in_turn, turns_of};
use dpl_index::{Stop, stops_by_kind};
use dpl_limits::LimitError;
use dpl_near::all_bounds;
use std::alloc::{AllocError, Global};

/// Fragments with their kinds and stops over them, and whether the kinds are known to tell pieces and shapes.
#[derive(Clone, Copy)]
pub struct Crowd<'a> {
    pub pieces: Pieces<'a>,
    pub kinds: &'a [u32],
    pub stops: &'a [Stop],
    pub told: bool,
}

/// Adds links of the crowded fragments with one another, until each link has one that stands for it.
pub fn add_crowded(
    alloc: Global,
    found: Vec<Link>,
    pieces: &Pieces<'_>,
    crowded: &[bool],
    room: usize,
) -> Result<Vec<Link>, LimitError>
    requires pieces { ArePieces pieces.now }
    requires long { length crowded.now ≡ length pieces.now.rects.now }
    requires found { AreGatheredBut (scene_in pieces.now) pieces.now.piece.now
        (length pieces.now.rects.now) crowded.now found.items }
    ensures links { IfOk result (λ v. AreGathered (scene_in pieces.now) pieces.now.piece.now
        (length pieces.now.rects.now) v.items) }
    ensures many { result ≡ Err LimitError.TooMany →
        HasMoreClashes (scene_in pieces.now) pieces.now.piece.now room }
{
    if !is_any(crowded) {
        return Ok(found);
    }
    let bounds = all_bounds(alloc, pieces.rects)?;
    let kinds = kinds_of(alloc, pieces)?;
    let stops = stops_by_kind(alloc, bounds.as_slice(), kinds.as_slice())?;
    let told = tell_pieces(alloc, kinds.as_slice(), pieces)?;
    let crowd = Crowd {
        pieces: *pieces,
        kinds: kinds.as_slice(),
        stops: stops.as_slice(),
        told,
    };
    let mut turns = turns_of(alloc, &crowd, crowded)?;
    in_turn(&mut turns, pieces.piece);
    match look_around_all(alloc, found, &crowd, turns.as_slice(), room) {
        Err(error) => Err(error),
        Ok(links) => Ok(links),
    }
}

fn is_any(crowded: &[bool]) -> bool
    ensures { result ≡ false → (i : ℕ) → is_crowded crowded.now i ≡ false }
{
    for one in crowded {
        if *one {
            return true;
        }
    }
    false
}

/// Adds links, until each has one that stands for it of which one fragment is looked at in the turn of the other.
fn look_around_all(
    alloc: Global,
    found: Vec<Link>,
    crowd: &Crowd<'_>,
    turns: &[Turn],
    room: usize,
) -> Result<Vec<Link>, LimitError>
    requires crowd { IsCrowd crowd.now }
    requires inside { All (λ t. t.number < length crowd.now.pieces.rects.now) turns.now }
    requires found { All (IsLink (scene_in crowd.now.pieces) crowd.now.pieces.piece.now)
        found.items }
    ensures links { IfOk result (λ v. AddsTurns (scene_in crowd.now.pieces)
        crowd.now.pieces.piece.now crowd.now.stops.now turns.now (length turns.now) found.items
        v.items) }
    ensures many { result ≡ Err LimitError.TooMany →
        HasMoreClashes (scene_in crowd.now.pieces) crowd.now.pieces.piece.now room }
{
    let count = crowd.pieces.rects.len();
    let mut nearest: Vec<Option<Link>> = vec![in alloc; None; count]?;
    let mut found = found;
    for turn in turns {
        look_around(&mut found, &mut nearest, crowd, turn)?;
        if found.len() > MOST_GATHERED {
            found = match settled(alloc, found, room) {
                Ok(links) => links,
                Err(error) => return Err(error),
            };
        }
    }
    Ok(found)
}

/// Adds links of a fragment, until each with one that its turn looks at has one that stands for it.
fn look_around(
    found: &mut Vec<Link>,
    nearest: &mut Vec<Option<Link>>,
    crowd: &Crowd<'_>,
    turn: &Turn,
) -> Result<(), AllocError>
    requires crowd { IsCrowd crowd.now }
    requires within { turn.now.number < length crowd.now.pieces.rects.now }
    requires known { AreKnown (scene_in crowd.now.pieces) crowd.now.pieces.piece.now found.old.items
        nearest.old.items }
    ensures { OnOk result (AddsLinks (scene_in crowd.now.pieces) crowd.now.pieces.piece.now
        turn.now.number (IsFrom crowd.now.stops.now turn.now.from) found.old.items found.new.items
        nearest.new.items) }
{
    let stops = crowd.stops;
    let mut at = turn.from;
    'stops: while at < stops.len() {
        let stop = &stops[at];
        if may_link(crowd, nearest, stop, turn.number) {
            look_at(found, nearest, &crowd.pieces, turn.number, stop.number)?;
            at += 1;
        } else {
            at += stop.rest + 1;
        }
    }
    Ok(())
}

/// Whether a stop may hold the other fragment of a link for which none stands.
fn may_link(crowd: &Crowd<'_>, nearest: &[Option<Link>], stop: &Stop, i: usize) -> bool
    requires crowd { IsCrowd crowd.now }
    requires within { i < length crowd.now.pieces.rects.now }
    requires stop { stop.now.number < length crowd.now.pieces.rects.now }
    ensures { result ≡ false → IsLeftOut crowd.now nearest.now stop.now i }
{
    let pieces = &crowd.pieces;
    let gap = least_gap_at(pieces.rects, i, &stop.bounds);
    if pieces.space * pieces.space <= gap {
        return false;
    }
    match stop.kind {
        None => true,
        Some(_) => !crowd.told || !is_behind(pieces, nearest, stop.number, i, gap),
    }
}

/// Whether two fragments are of one shape, or a link of their pieces with less than this gap is kept.
fn is_behind(
    pieces: &Pieces<'_>,
    nearest: &[Option<Link>],
    number: usize,
    i: usize,
    gap: u64,
) -> bool
    requires pieces { ArePieces pieces.now }
    requires number { number < length pieces.now.rects.now }
    requires within { i < length pieces.now.rects.now }
    ensures { result ≡ true → (slice_index_or pieces.now.shape.now i 0
        ≡ slice_index_or pieces.now.shape.now number 0) ⊎ HasNearer nearest.now
        (min (piece_of pieces.now.piece.now i) (piece_of pieces.now.piece.now number))
        (max (piece_of pieces.now.piece.now i) (piece_of pieces.now.piece.now number)) gap }
{
    if pieces.shape[i] == pieces.shape[number] {
        return true;
    }
    let (own, other) = (pieces.piece[i], pieces.piece[number]);
    has_nearer(nearest, other, own.min(other), own.max(other), gap)
}

/// Whether the link that is kept for a piece is one of these two with less than this gap.
fn has_nearer(nearest: &[Option<Link>], piece: u32, p: u32, q: u32, gap: u64) -> bool
    ensures { result ≡ true → HasNearer nearest.now p q gap }
{
    match nearest.get(piece as usize) {
        None => false,
        Some(kept) => match kept {
            None => false,
            Some(link) => link.p == p && link.q == q && link.gap < gap,
        },
    }
}

/// Whether the link that is kept for a piece stands for this one.
fn has_standing(nearest: &[Option<Link>], piece: u32, link: &Link) -> bool
    ensures { result ≡ true → HasStanding nearest.now link.now }
{
    match nearest.get(piece as usize) {
        None => false,
        Some(kept) => match kept {
            None => false,
            Some(kept) => stands_for(kept, link),
        },
    }
}

/// Adds the link of two fragments if there is one and none is kept that stands for it.
fn look_at(
    found: &mut Vec<Link>,
    nearest: &mut Vec<Option<Link>>,
    pieces: &Pieces<'_>,
    i: usize,
    j: usize,
) -> Result<(), AllocError>
    requires pieces { ArePieces pieces.now }
    requires first { i < length pieces.now.rects.now }
    requires second { j < length pieces.now.rects.now }
    requires known { AreKnown (scene_in pieces.now) pieces.now.piece.now found.old.items
        nearest.old.items }
    ensures { OnOk result (AddsLinks (scene_in pieces.now) pieces.now.piece.now i (λ k. k ≡ j)
        found.old.items found.new.items nearest.new.items) }
{
    match link_in(pieces, i, j) {
        None => Ok(()),
        Some(link) => {
            let piece = pieces.piece[j];
            if has_standing(nearest, piece, &link) {
                return Ok(());
            }
            add_link(found, link)?;
            keep(nearest, piece, link);
            Ok(())
        }
    }
}

/// Keeps a link for a piece.
fn keep(nearest: &mut Vec<Option<Link>>, piece: u32, link: Link)
    ensures { (links : List Link) → AreKept nearest.old.items links → IsCovered links link →
        AreKept nearest.new.items links }
{
    let piece = piece as usize;
    if piece < nearest.len() {
        nearest[piece] = Some(link);
    }
}
