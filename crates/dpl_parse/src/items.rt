// One line of a report, read. A line counts where what was read from it is written so again.
ghost use Rattle.std.specs.Prelude.{◌≡◌, IfOk};
ghost use Rattle.dpl_report.specs.Reading as reading;
ghost use Rattle.dpl_parse.specs.Items.{item_from};

use crate::guesses::count_from;
use crate::numbers::first_numbers;
use crate::rising::Rising;
use dpl_report::writing::push_count;
use std::alloc::{AllocError as NoMemory, Global};

/// The number in a line of this word, `None` where the line is none. Its error is want of memory.
#[tactic(auto, using(crate::proofs::FewLemmas::count_of_few))]
pub fn count_in(alloc: Global, word: &[u8], line: &[u8]) -> Result<Option<u64>, NoMemory>
    ensures { IfOk result (λ o. o ≡ reading.item_count word.now line.now) }
{
    let numbers = first_numbers(alloc, line)?;
    let Some(number) = count_from(&numbers) else {
        return Ok(None);
    };
    let mut again = Vec::new(alloc);
    push_count(&mut again, word, number)?;
    Ok(if again.as_slice() == line {
        Some(number)
    } else {
        None
    })
}

/// What a line says of an edge, `None` where it says nothing of the kind or its edge is below
/// `least`.
pub fn item_in<T: Rising>(least: u64, line: &[u8]) -> Option<T>
    ensures { result ≡ item_from T.made_of T.edge_of T.line_of least line.now }
{
    match T::read(line) {
        None => None,
        Some(item) => {
            if u64::from(item.edge()) < least {
                return None;
            }
            Some(item)
        }
    }
}
