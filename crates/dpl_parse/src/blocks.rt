// Lines that are none of a cycle, and the edges of the aside lines, which are stored.
ghost use Rattle.std.specs.Prelude.{◌≡◌, ◌<◌, ◌∷◌, length, MatchOption};
ghost use Rattle.dpl_form.specs.Lines.{lines_in};
ghost use Rattle.dpl_walks.specs.Cycles.{BeginWithCycle};
ghost use Rattle.dpl_parse.specs.Gives.{Gives};
ghost use Rattle.dpl_report.specs.Reading as reading;

use crate::items::item_in;
use crate::stops::Stop;
use dpl_form::first_line;
use dpl_walks::behind;
use std::alloc::Global;

/// The first line and what follows it, `None` where there is none or it begins as that of a cycle:
/// such a line may be long, and its end is not looked for.
pub fn other_line(text: &[u8]) -> Option<(&[u8], &[u8])>
    ensures { MatchOption result (BeginWithCycle (lines_in text.now)) (λ p.
        (lines_in text.now ≡ p.0.now ∷ lines_in p.1.now) × (length p.1.now < length text.now)) }
{
    match behind(b"(cycle", text) {
        Some(_) => None,
        None => first_line(text),
    }
}

/// The edges of the aside lines at the front, which rise, and what follows these lines. Its error
/// is want of memory.
#[tactic(auto, unfolding(dpl_report::specs::Reading::read_aside))]
pub fn aside(alloc: Global, text: &[u8]) -> Result<(Vec<u32>, &[u8]), Stop>
    ensures { Gives (λ x. (x.0.items, lines_in x.1.now)) result
        (reading.read_aside (lines_in text.now)) }
{
    let mut found = Vec::new(alloc);
    let mut rest = text;
    let mut least = 0;
    'lines: while let Some((line, others)) = other_line(rest) {
        let Some(edge) = item_in::<u32>(least, line) else {
            return Ok((found, rest));
        };
        least = u64::from(edge) + 1;
        found.push(edge)?;
        rest = others;
    }
    Ok((found, rest))
}
