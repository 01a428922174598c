//! A session.
ghost use Rattle.std.specs.Prelude.{◌≡◌, ◌⊎◌, ◌+◌, ◌<◌, ◌^◌, ◌∷◌, [], ◌++◌, IfOk, OnOk, Err};
ghost use Rattle.dpl_report.specs.Plain.{plain_report};
ghost use Rattle.dpl_edit.specs.Contents.{content, boxes_without, HasBox, Refuses};
ghost use Rattle.dpl_edit.specs.Optima.{KeepMasks};
ghost use Rattle.dpl_edit.specs.Sessions.{IsReportOf, IsBegun, IsEdited, RefusesRemoval};

use crate::contents::{has_box, with_box, without_box};
use crate::editing::solve_edit;
use crate::errors::RemoveError;
use crate::placed::Placed;
use crate::solved::{Solved, solve_content};
use dpl_cell::Rect;
use dpl_core::{report_is_of_the_layer, report_of};
use dpl_layer::{Drawing, LayerError};
use dpl_options::Options;
use dpl_report::Report;
use dpl_sum::copy_solution;
use std::alloc::{AllocError as NoMemory, Global};
use std::marker::Model;

/// The content of a layer, its net and an optimum, of the whole and of each component.
#[derive(Drop)]
pub struct Session {
    options: Options,
    drawing: Drawing,
    boxes: Vec<Placed>,
    count: u64,
    solved: Solved,
}

impl Model for Session {
    ghost use Rattle.dpl_edit.specs.Optima.{AreSolved, solved_of};
    ghost use Rattle.dpl_edit.specs.Sessions.{State, IsSession};

    ghost Value = { State };

    ghost view = { λ s. record {
      options = s.options;
      begun = s.drawing.layer.prims;
      keep = s.drawing.keep.prims;
      boxes = s.boxes.items;
      count = s.count;
      solved = solved_of s.solved;
    } };

    ghost invariant = { λ s. IsSession (record {
      options = s.options;
      begun = s.drawing.layer.prims;
      keep = s.drawing.keep.prims;
      boxes = s.boxes.items;
      count = s.count;
      solved = solved_of s.solved;
    }) × AreSolved s.solved.parts.items };
}

impl Session {
    /// A session that begins with a drawing, and no box added.
    pub fn new(alloc: Global, drawing: Drawing, options: Options) -> Result<Session, LayerError>
        ensures begun { IfOk result (IsBegun options drawing) }
        ensures refused { (e : LayerError) → result ≡ Err e → (e ≡ LayerError.NoMemory) ⊎
            Refuses options drawing.layer.prims drawing.keep.prims e }
        ensures exact { (e : LayerError) →
            Refuses options drawing.layer.prims drawing.keep.prims e →
            (result ≡ Err e) ⊎ (result ≡ Err LayerError.NoMemory) }
    {
        let mut drawing = drawing;
        let boxes = Vec::new(alloc);
        match solve_content(alloc, &mut drawing, &boxes, &options, &[], &[]) {
            Ok(solved) => Ok(Session {
                options,
                drawing,
                boxes,
                count: 0,
                solved,
            }),
            Err(error) => Err(error),
        }
    }

    /// Adds a box to the chosen layer, and gives its number: the count of the boxes that were added before.
    pub fn add(&mut self, alloc: Global, rect: Rect) -> Result<u64, LayerError>
        requires { self.old.count < 2 ^ 32 }
        ensures number { IfOk result (λ n. n ≡ self.old.count) }
        ensures added { OnOk result (IsEdited self.old self.new
            (self.old.boxes ++ record { number = self.old.count; rect = rect } ∷ [])
            (self.old.count + 1)) }
        ensures kept { OnOk result (KeepMasks self.old.solved self.new.solved) }
        ensures refused { (e : LayerError) → result ≡ Err e → (self.new ≡ self.old) ×
            ((e ≡ LayerError.NoMemory) ⊎ Refuses self.old.options (content self.old.begun
            (self.old.boxes ++ record { number = self.old.count; rect = rect } ∷ []))
            self.old.keep e) }
        ensures exact { (e : LayerError) → Refuses self.old.options (content self.old.begun
            (self.old.boxes ++ record { number = self.old.count; rect = rect } ∷ []))
            self.old.keep e → (result ≡ Err e) ⊎ (result ≡ Err LayerError.NoMemory) }
    {
        let number = self.count;
        let boxes = match with_box(alloc, &self.boxes, Placed { number, rect }) {
            Ok(boxes) => boxes,
            Err(_) => return Err(LayerError::NoMemory),
        };
        match solve_edit(
            alloc,
            &mut self.drawing,
            &boxes,
            &self.options,
            &self.solved,
        ) {
            Ok(solved) => {
                self.boxes = boxes;
                self.solved = solved;
                self.count = number + 1;
                Ok(number)
            }
            Err(error) => Err(error),
        }
    }

    /// Removes the box with this number.
    pub fn remove(&mut self, alloc: Global, number: u64) -> Result<(), RemoveError>
        ensures removed { OnOk result (HasBox number self.old.boxes ×
            IsEdited self.old self.new (boxes_without number self.old.boxes) self.old.count) }
        ensures kept { OnOk result (KeepMasks self.old.solved self.new.solved) }
        ensures refused { (e : RemoveError) → result ≡ Err e → (self.new ≡ self.old) ×
            ((e ≡ RemoveError.Refused LayerError.NoMemory) ⊎ RefusesRemoval self.old number e) }
        ensures exact { (e : RemoveError) → RefusesRemoval self.old number e →
            (result ≡ Err e) ⊎ (result ≡ Err (RemoveError.Refused LayerError.NoMemory)) }
    {
        if !has_box(&self.boxes, number) {
            return Err(RemoveError::NoBox(number));
        }
        let boxes = match without_box(alloc, &self.boxes, number) {
            Ok(boxes) => boxes,
            Err(_) => return Err(RemoveError::Refused(LayerError::NoMemory)),
        };
        match solve_edit(
            alloc,
            &mut self.drawing,
            &boxes,
            &self.options,
            &self.solved,
        ) {
            Ok(solved) => {
                self.boxes = boxes;
                self.solved = solved;
                Ok(())
            }
            Err(error) => Err(RemoveError::Refused(error)),
        }
    }

    /// How many boxes were added.
    pub fn count(&self) -> u64
        ensures { result ≡ self.now.count }
    {
        self.count
    }

    /// The report of the content.
    pub fn report(&self, alloc: Global) -> Result<Report, NoMemory>
        ensures { IfOk result (λ r. IsReportOf self.now (plain_report r)) }
    {
        let layer = &self.solved.layer;
        let solution = copy_solution(alloc, &self.solved.solution)?;
        let report = report_of(alloc, &self.options, &layer.fragments, &layer.net, solution)?;
        report_is_of_the_layer(&self.options, layer, &report);
        Ok(report)
    }
}
