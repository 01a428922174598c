// A whole report, written.
ghost use Rattle.std.specs.Prelude.{◌≡◌, [], ◌∷◌, ◌++◌, map, OnOk, IfOk};
ghost use Rattle.dpl_cell.specs.Places.{corners_of};
ghost use Rattle.dpl_boxes.specs.Masks.{box_line};
ghost use Rattle.dpl_boxes.specs.Drawings.{DrawsMasks};
ghost use Rattle.dpl_form.specs.Lines.{text_of, optional_line};
ghost use Rattle.dpl_report.specs.Plain.{plain_zone, plain_report};
ghost use Rattle.dpl_report.specs.ReportLines.{cut_line, clash_line, aside_line, cycle_line, params_lines, counts_lines, report_text};
ghost use Rattle.dpl_report.specs.ReportLines as lines;
ghost use Rattle.dpl_report.specs.Valid.{IsReport};

use crate::marks::{Broken, Zone};
use crate::params::{Counts, Params};
use crate::reports::Report;
use crate::writing::{
    push_aside, push_clash, push_count, push_cut, push_cycle, push_keep, push_layer, push_mask,
    push_masks, version_line,
};
use dpl_boxes::push_box;
use dpl_cell::Rect;
use dpl_lex::Name;
use dpl_sign::Cycle;
use std::alloc::{AllocError as NoMemory, Global};

fn push_params(out: &mut Vec<u8>, p: &Params) -> Result<(), NoMemory>
    ensures { OnOk result (out.new.items ≡ out.old.items ++ text_of (params_lines p.now)) }
{
    out.extend_from_slice(version_line(p.corner.is_some()))?;
    push_layer(out, p.layer.bytes())?;
    push_count(out, b"space", p.space)?;
    push_count(out, b"overlap", p.overlap)?;
    push_count(out, b"stitch", p.stitch)?;
    push_count(out, b"conflict", p.conflict)
}

fn push_first_counts(out: &mut Vec<u8>, k: &Counts) -> Result<(), NoMemory>
    ensures { OnOk result (out.new.items ≡ out.old.items ++ text_of (lines.first_counts k.now)) }
{
    push_count(out, b"pieces", k.pieces)?;
    push_count(out, b"fragments", k.fragments)?;
    push_count(out, b"bonds", k.bonds)?;
    Ok(())
}

fn push_other_counts(out: &mut Vec<u8>, k: &Counts) -> Result<(), NoMemory>
    ensures { OnOk result (out.new.items ≡ out.old.items ++ text_of (lines.other_counts k.now)) }
{
    push_count(out, b"stitches", k.stitches)?;
    push_count(out, b"clashes", k.clashes)?;
    push_count(out, b"excess", k.excess)?;
    Ok(())
}

fn push_counts(out: &mut Vec<u8>, k: &Counts) -> Result<(), NoMemory>
    ensures { OnOk result (out.new.items ≡ out.old.items ++ text_of (counts_lines k.now)) }
{
    push_first_counts(out, k)?;
    push_other_counts(out, k)?;
    Ok(())
}

fn push_cuts(out: &mut Vec<u8>, cuts: &[Zone]) -> Result<(), NoMemory>
    ensures { OnOk result (out.new.items ≡ out.old.items
        ++ text_of (map cut_line (map plain_zone cuts.now))) }
{
    for zone in cuts {
        push_cut(out, zone)?;
    }
    Ok(())
}

fn push_clashes(out: &mut Vec<u8>, clashes: &[Broken]) -> Result<(), NoMemory>
    ensures { OnOk result (out.new.items ≡ out.old.items ++ text_of (map clash_line clashes.now)) }
{
    for broken in clashes {
        push_clash(out, broken)?;
    }
    Ok(())
}

fn push_asides(out: &mut Vec<u8>, aside: &[u32]) -> Result<(), NoMemory>
    ensures { OnOk result (out.new.items ≡ out.old.items ++ text_of (map aside_line aside.now)) }
{
    for edge in aside {
        push_aside(out, *edge)?;
    }
    Ok(())
}

fn push_cycles(out: &mut Vec<u8>, cycles: &[Cycle]) -> Result<(), NoMemory>
    ensures { OnOk result (out.new.items ≡ out.old.items ++ text_of (map cycle_line cycles.now)) }
{
    for cycle in cycles {
        push_cycle(out, cycle)?;
    }
    Ok(())
}

fn push_boxes(out: &mut Vec<u8>, boxes: &[Rect]) -> Result<(), NoMemory>
    ensures { OnOk result (out.new.items ≡ out.old.items
        ++ text_of (map box_line (map corners_of boxes.now))) }
{
    for r in boxes {
        push_box(out, r)?;
    }
    Ok(())
}

fn push_costs(out: &mut Vec<u8>, r: &Report) -> Result<(), NoMemory>
    ensures { OnOk result (out.new.items ≡ out.old.items
        ++ text_of (lines.costs_lines r.now.cost r.now.bound r.now.colours)) }
{
    push_count(out, b"cost", r.cost)?;
    push_count(out, b"bound", r.bound)?;
    push_masks(out, r.colours.as_slice())?;
    Ok(())
}

fn push_kept(out: &mut Vec<u8>, keep: &Option<Name>) -> Result<(), NoMemory>
    ensures { OnOk result (out.new.items ≡ out.old.items
        ++ text_of (optional_line lines.keep_line keep.now)) }
{
    match keep {
        None => Ok(()),
        Some(name) => push_keep(out, name.bytes()),
    }
}

fn push_more(out: &mut Vec<u8>, p: &Params) -> Result<(), NoMemory>
    ensures { OnOk result (out.new.items ≡ out.old.items
        ++ text_of (lines.more_lines p.now.corner p.now.keep)) }
{
    match p.corner {
        None => Ok(()),
        Some(corner) => {
            push_count(out, b"corner", corner)?;
            push_kept(out, &p.keep)
        }
    }
}

fn push_head(out: &mut Vec<u8>, r: &Report) -> Result<(), NoMemory>
    ensures { OnOk result (out.new.items ≡ out.old.items
        ++ text_of (lines.head_lines (plain_report r.now).head)) }
{
    push_params(out, &r.params)?;
    push_counts(out, &r.counts)?;
    push_costs(out, r)?;
    push_more(out, &r.params)?;
    Ok(())
}

fn push_lists(out: &mut Vec<u8>, r: &Report) -> Result<(), NoMemory>
    ensures { OnOk result (out.new.items ≡ out.old.items
        ++ text_of (lines.lists_lines (plain_report r.now).lists)) }
{
    push_cuts(out, r.cuts.as_slice())?;
    push_clashes(out, r.clashes.as_slice())?;
    push_asides(out, r.aside.as_slice())?;
    push_cycles(out, r.cycles.as_slice())
}

fn push_masked(out: &mut Vec<u8>, name: &[u8], letter: u8, boxes: &[Rect]) -> Result<(), NoMemory>
    ensures { OnOk result (out.new.items ≡ out.old.items
        ++ text_of (lines.mask_lines name.now letter (map corners_of boxes.now))) }
{
    push_mask(out, name, letter)?;
    push_boxes(out, boxes)
}

fn push_start(out: &mut Vec<u8>) -> Result<(), NoMemory>
    ensures { OnOk result (out.new.items ≡ out.old.items ++ text_of (lines.start_line ∷ [])) }
{
    out.extend_from_slice(b"DS 1 1 4;\n")
}

fn push_last(out: &mut Vec<u8>) -> Result<(), NoMemory>
    ensures { OnOk result (out.new.items ≡ out.old.items ++ text_of lines.last_lines) }
{
    out.extend_from_slice(b"DF;\nC 1;\nE\n")
}

fn push_drawing(out: &mut Vec<u8>, r: &Report) -> Result<(), NoMemory>
    ensures { OnOk result (out.new.items ≡ out.old.items
        ++ text_of (lines.drawing_lines r.now.params.layer (map corners_of r.now.on_a)
        (map corners_of r.now.on_b))) }
{
    let name = r.params.layer.bytes();
    push_start(out)?;
    push_masked(out, name, b'A', r.on_a.as_slice())?;
    push_masked(out, name, b'B', r.on_b.as_slice())?;
    push_last(out)?;
    Ok(())
}

fn write(alloc: Global, r: &Report) -> Result<Vec<u8>, NoMemory>
    ensures { IfOk result (λ v. v.items ≡ report_text (plain_report r.now)) }
{
    let mut out = Vec::new(alloc);
    push_head(&mut out, r)?;
    push_lists(&mut out, r)?;
    push_drawing(&mut out, r)?;
    Ok(out)
}

/// The text of a report.
pub fn print(alloc: Global, report: &Report) -> Result<Vec<u8>, NoMemory>
    requires { IsReport (plain_report report.now) }
    ensures text { IfOk result (λ v. v.items ≡ report_text (plain_report report.now)) }
    ensures draws { IfOk result (λ v.
        DrawsMasks report.now.params.layer (map corners_of report.now.on_a)
        (map corners_of report.now.on_b) v.items) }
{
    write(alloc, report)
}
