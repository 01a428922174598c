// Borders line by line, so that a search looks at those of one line only.
ghost use Rattle.std.specs.Prelude.{◌≡◌, ◌<ℤ◌, ℕ, ◌-◌, ◌<◌, ◌≤◌, IfOk, MatchOption};
ghost use Rattle.std.specs.Prelude.{length, map, slice_index_or, take, drop, AllPairs, Any, Contains};
ghost use Rattle.dpl_near.specs.declared.borders.Border.{Border as ABorder};
ghost use Rattle.dpl_near.specs.Borders.{AreInOrder};
ghost use Rattle.dpl_near.specs.Lines.{AreLines, AreOnLine, IsLine, IsLower};

use crate::borders::{Border, push_along};
use crate::seeking::place_past;
use std::alloc::{AllocError as NoMemory, Global};
use std::marker::Model;

/// Where the borders of one line begin and end among borders in order.
#[derive(Clone, Copy)]
pub struct Line {
    pub at: i64,
    pub start: usize,
    pub end: usize,
}

/// Borders in order and where each ends, and their lines and where each runs.
#[derive(Drop)]
pub struct BorderLines {
    borders: Vec<Border>,
    ends: Vec<i64>,
    lines: Vec<Line>,
    levels: Vec<i64>,
}

/// The line at which a search ended, and for each line where a search on it ended: the next one is likely to end near.
#[derive(Drop)]
pub struct Marks {
    line: usize,
    places: Vec<usize>,
}

impl Model for BorderLines {
    ghost use Rattle.std.specs.Prelude.{◌≡◌, List, map};
    ghost use Rattle.dpl_near.specs.declared.borders.Border.{Border as ABorder};
    ghost use Rattle.dpl_near.specs.Borders.{AreInOrder};
    ghost use Rattle.dpl_near.specs.Lines.{AreLines};

    ghost Value = { List ABorder };

    ghost view = { λ s. s.borders.items };

    ghost invariant = { λ s. record {
      order : AreInOrder s.borders.items;
      ends : s.ends.items ≡ map (λ b. b.to) s.borders.items;
      lines : AreLines s.borders.items s.lines.items;
      levels : s.levels.items ≡ map (λ l. l.at) s.lines.items;
    } };
}

impl BorderLines {
    ghost use Rattle.std.specs.Prelude.{◌≡◌, IfOk, OnOk};
    ghost use Rattle.dpl_near.specs.Borders.{AddsAlong, AreInOrder};

    /// These borders, which are in order.
    pub fn new(alloc: Global, borders: Vec<Border>) -> Result<BorderLines, NoMemory>
        requires { AreInOrder borders.items }
        ensures { IfOk result (λ s. s ≡ borders.items) }
    {
        let ends = ends_of(alloc, &borders)?;
        let lines = lines_of(alloc, &borders)?;
        let levels = levels_of(alloc, &lines)?;
        Ok(BorderLines {
            borders,
            ends,
            lines,
            levels,
        })
    }

    /// Marks before any search.
    pub fn marks(&self, alloc: Global) -> Result<Marks, NoMemory> {
        let places = vec![in alloc; 0usize; self.lines.len()]?;
        Ok(Marks { line: 0, places })
    }

    /// Adds the pairs of a border and those that lie along it, by the numbers of rectangles.
    pub fn push_along(
        &self,
        marks: &mut Marks,
        pairs: &mut Vec<(u32, u32)>,
        border: &Border,
    ) -> Result<(), NoMemory>
        ensures { OnOk result (AddsAlong border.now self.now pairs.old.items pairs.new.items) }
    {
        match line_of(&self.lines, &self.levels, border, marks) {
            None => Ok(()),
            Some(line) => {
                let borders = borders_on(&self.borders, &line);
                let ends = ends_on(&self.borders, &self.ends, &line);
                let near = marks.near();
                let place = push_along(pairs, border, borders, ends, near)?;
                marks.set(place);
                Ok(())
            }
        }
    }
}

impl Marks {
    /// Where the last search on the line ended that was found last.
    fn near(&self) -> usize {
        match self.places.get(self.line) {
            None => 0,
            Some(place) => *place,
        }
    }

    /// Notes where a search on that line ended.
    fn set(&mut self, place: usize) {
        if self.line < self.places.len() {
            self.places[self.line] = place;
        }
    }
}

/// Where each of the borders ends.
fn ends_of(alloc: Global, borders: &[Border]) -> Result<Vec<i64>, NoMemory>
    ensures { IfOk result (λ v. v.items ≡ map (λ b. b.to) borders.now) }
{
    borders.iter().map(|border| border.to).collect(alloc)
}

/// Where each of the lines runs.
fn levels_of(alloc: Global, lines: &[Line]) -> Result<Vec<i64>, NoMemory>
    ensures { IfOk result (λ v. v.items ≡ map (λ l. l.at) lines.now) }
{
    lines.iter().map(|line| line.at).collect(alloc)
}

/// The lines of borders, the lowest first.
fn lines_of(alloc: Global, borders: &[Border]) -> Result<Vec<Line>, NoMemory>
    requires { AreInOrder borders.now }
    ensures { IfOk result (λ v. AreLines borders.now v.items) }
{
    let mut lines = Vec::new(alloc);
    let mut start = 0;
    'lines: while start < borders.len() {
        let line = line_from(borders, start);
        lines.push(line)?;
        start = line.end;
    }
    Ok(lines)
}

/// The line whose first border stands at a place.
fn line_from(borders: &[Border], start: usize) -> Line
    requires order { AreInOrder borders.now }
    requires within { start < length borders.now }
    requires first { (k : ℕ) (d : ABorder) → k < start →
        (slice_index_or borders.now k d).line <ℤ (slice_index_or borders.now start d).line }
    ensures line { IsLine borders.now result }
    ensures start { result.start ≡ start }
    ensures some { start < result.end }
{
    let at = borders[start].line;
    for end in start + 1..borders.len() {
        if borders[end].line != at {
            return Line { at, start, end };
        }
    }
    Line {
        at,
        start,
        end: borders.len(),
    }
}

/// The line of a border, if some of the borders are on it. It is looked for near the one that was found last.
fn line_of(lines: &[Line], levels: &[i64], border: &Border, marks: &mut Marks) -> Option<Line>
    requires rising { AllPairs IsLower lines.now }
    requires levels { levels.now ≡ map (λ l. l.at) lines.now }
    ensures { MatchOption result (¬ Any (λ l. l.at ≡ border.now.line) lines.now)
        (λ l. Contains lines.now l × (l.at ≡ border.now.line)) }
{
    let past = place_past(levels, border.line, marks.line);
    if past == 0 {
        return None;
    }
    marks.line = past - 1;
    let line = lines[past - 1];
    if line.at < border.line {
        return None;
    }
    Some(line)
}

/// The borders of a line.
fn borders_on<'a>(borders: &'a [Border], line: &Line) -> &'a [Border]
    requires order { AreInOrder borders.now }
    requires line { IsLine borders.now line.now }
    ensures on { AreOnLine borders.now line.now.at result.now }
    ensures part { result.now ≡ take (line.now.end - line.now.start) (drop line.now.start borders.now) }
{
    &borders[line.start..line.end]
}

/// Where those of a line end.
fn ends_on<'a>(borders: &[Border], ends: &'a [i64], line: &Line) -> &'a [i64]
    requires ends { ends.now ≡ map (λ b. b.to) borders.now }
    requires line { IsLine borders.now line.now }
    ensures { result.now ≡ map (λ b. b.to)
        (take (line.now.end - line.now.start) (drop line.now.start borders.now)) }
{
    &ends[line.start..line.end]
}
