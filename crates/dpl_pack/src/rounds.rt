//! An odd walk around each moat.

ghost use Rattle.std.specs.Prelude.{◌≡◌, ◌*◌, ◌%◌, ◌<◌, List, length, count_by, All, IfOk, OnOk};
ghost use Rattle.dpl_laminar.specs.Families.{has};
ghost use Rattle.dpl_sign.specs.declared.walks.Cycle.{Cycle};
ghost use Rattle.dpl_map.specs.Views.{view_of};
ghost use Rattle.dpl_map.specs.Built.{IsMapOf};
ghost use Rattle.dpl_pack.specs.Marks.{AreClear};
ghost use Rattle.dpl_pack.specs.Traces.{odd_list};
ghost use Rattle.dpl_pack.specs.Rounds.{AreGoing, IsCourse, IsGoneTo, IsRun};

use crate::laid::{Laid, Level, Moats, Near};
use crate::ranks::{clear_first, mark_up_to, rank};
use crate::walks::{Around, walk_around};
use dpl_map::Map;
use dpl_sign::{Cycle, Signed};
use std::alloc::{AllocError, Global};

/// Moats as they are laid on a map.
#[derive(Clone, Copy)]
pub struct Course<'a> {
    pub map: &'a Map<'a>,
    pub graph: &'a Signed,
    pub sets: &'a [Near],
    pub levels: &'a [Level],
}

/// The place behind the levels that stand in a row round one set, from a place on, and are no less than those before.
fn run_end(levels: &[Level], from: usize) -> usize
    requires { from < length levels.now }
    ensures { IsRun levels.now from result }
{
    for i in from + 1..levels.len() {
        let before = levels[i - 1];
        if levels[i].place != before.place {
            return i;
        }
        if levels[i].most < before.most {
            return i;
        }
    }
    levels.len()
}

/// Puts an odd walk around each moat of a set, from a place on, at the end of the cycles, and tells the place behind them.
/// The faces near the set are ranked once, and for each moat those of its own level alone are marked.
fn go_round_set(
    alloc: Global,
    course: &Course<'_>,
    from: usize,
    order: &mut Vec<(u64, u32)>,
    inside: &mut [bool],
    seen: &mut [bool],
    cycles: &mut Vec<Cycle>,
) -> Result<usize, AllocError>
    requires course { IsCourse course.now }
    requires from { from < length course.now.levels.now }
    requires places { length inside.old ≡ (view_of course.now.map.now).faces }
    requires darts { length seen.old ≡ 2 * length course.now.graph.now.edges }
    requires inside { AreClear inside.old }
    requires seen { AreClear seen.old }
    ensures more { IfOk result (λ to. from < to) }
    ensures walks { IfOk result (λ to. (old : List Cycle) →
        IsGoneTo course.now from old cycles.old.items → IsGoneTo course.now to old cycles.new.items) }
    ensures inside { OnOk result (AreClear inside.new) }
    ensures seen { OnOk result (AreClear seen.new) }
{
    let to = run_end(course.levels, from);
    let near = &course.sets[course.levels[from].place];
    let (faces, depths) = (near.faces.as_slice(), near.depths.as_slice());
    rank(faces, depths, order)?;
    let mut marked = 0;
    let mut deep = 0;
    for i in from..to {
        let Level { most, half, .. } = course.levels[i];
        marked = mark_up_to(order, most, marked, inside);
        let around = Around {
            map: course.map,
            graph: course.graph,
            faces,
            depths,
            level: most,
            inside,
        };
        let walk = walk_around(alloc, &around, &mut deep, seen)?;
        cycles.push(Cycle { half, walk })?;
    }
    clear_first(order, marked, inside);
    Ok(to)
}

/// Puts an odd walk around each moat at the end of the cycles, with the moat's half weight. No face and no dart is marked
/// before or after.
///
/// The moats of a set cost the faces near it once, in order of their depths. Beyond that each costs the faces of its own
/// level alone, and what is looked at until its walk is found.
pub fn go_round(
    alloc: Global,
    map: &Map<'_>,
    graph: &Signed,
    moats: &Moats,
    inside: &mut [bool],
    seen: &mut [bool],
    cycles: &mut Vec<Cycle>,
) -> Result<(), AllocError>
    requires map { IsMapOf graph.now map.now }
    requires places { length inside.old ≡ (view_of map.now).faces }
    requires darts { length seen.old ≡ 2 * length graph.now.edges }
    requires faces { All (λ m. All (λ f. f < (view_of map.now).faces) m.faces) moats.now }
    requires odd { All (λ m. count_by (has m.faces)
        (odd_list graph.now (view_of map.now)) % 2 ≡ 1) moats.now }
    requires inside { AreClear inside.old }
    requires seen { AreClear seen.old }
    ensures walks { OnOk result (AreGoing graph.now (view_of map.now) moats.now
        cycles.old.items cycles.new.items) }
    ensures inside { OnOk result (AreClear inside.new) }
    ensures seen { OnOk result (AreClear seen.new) }
{
    let Laid { sets, levels } = moats.laid();
    let course = Course {
        map,
        graph,
        sets,
        levels,
    };
    let mut order = Vec::new(alloc);
    let mut from = 0;
    while from < levels.len() {
        from = go_round_set(alloc, &course, from, &mut order, inside, seen, cycles)?;
    }
    Ok(())
}
