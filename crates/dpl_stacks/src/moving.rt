// Stacks moved from one list to another.
ghost use Rattle.std.specs.Prelude.{◌≡◌, ◌≤◌, ◌++◌, length, OnOk, take, drop, reverse};

use dpl_cell::Rect;
use std::alloc::AllocError;

/// Moves the stacks from a place on to the end of another list, the last first.
pub fn move_back(from: &mut Vec<Rect>, to: &mut Vec<Rect>, count: usize) -> Result<(), AllocError>
    requires within { count ≤ length from.old.items }
    ensures from { OnOk result (from.new.items ≡ take count from.old.items) }
    ensures to { OnOk result (to.new.items ≡ to.old.items ++ reverse (drop count from.old.items)) }
{
    push_back(to, &from[count..])?;
    from.truncate(count);
    Ok(())
}

/// Adds stacks, the last first.
pub fn push_back(to: &mut Vec<Rect>, stacks: &[Rect]) -> Result<(), AllocError>
    ensures { OnOk result (to.new.items ≡ to.old.items ++ reverse stacks.now) }
{
    if stacks.is_empty() {
        return Ok(());
    }
    let from = to.len();
    to.extend_from_slice(stacks)?;
    to[from..].reverse();
    Ok(())
}
