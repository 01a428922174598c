// The bounds on the integers of a command.
ghost use Rattle.std.specs.Prelude.{◌≡◌, ◌<◌, ◌^◌, length};
ghost use Rattle.std.specs.List.{list_all};
ghost use Rattle.dpl_rules.specs.Bounds as bounds;
ghost use Rattle.dpl_rules.specs.Answers.{Answers};

use crate::command::{Command, Spot, Transformation};
use crate::forms::form;
use crate::what::{Refusal, What};
use std::alloc::Global;

fn is_in_bounds(n: u64) -> bool
    ensures { result ≡ bounds.is_in_bounds n }
{
    n <= 1_000_000_000_000
}

fn is_spot_in_bounds(spot: &Spot) -> bool
    ensures { result ≡ bounds.is_spot_in_bounds spot.now }
{
    is_in_bounds(spot.x.unsigned_abs()) && is_in_bounds(spot.y.unsigned_abs())
}

fn is_transformation_in_bounds(transformation: &Transformation) -> bool
    ensures { result ≡ bounds.is_transformation_in_bounds transformation.now }
{
    match transformation {
        Transformation::Shift(by) => is_spot_in_bounds(by),
        Transformation::MirrorX | Transformation::MirrorY => true,
        Transformation::Rotate(to) => is_spot_in_bounds(to),
    }
}

fn is_path_in_bounds(path: &[Spot]) -> bool
    ensures { result ≡ list_all bounds.is_spot_in_bounds path.now }
{
    path.iter().all(|s| is_spot_in_bounds(s))
}

fn are_in_bounds(transformations: &[Transformation]) -> bool
    ensures { result ≡ list_all bounds.is_transformation_in_bounds transformations.now }
{
    transformations
        .iter()
        .all(|t| is_transformation_in_bounds(t))
}

fn is_command_in_bounds(command: &Command) -> bool
    ensures { result ≡ bounds.is_command_in_bounds command.now }
{
    match command {
        Command::Idle | Command::Layer(_) | Command::Finish => true,
        Command::Polygon(path) => is_path_in_bounds(path.as_slice()),
        Command::Box(b) => {
            is_in_bounds(b.length)
                && is_in_bounds(b.width)
                && is_spot_in_bounds(&b.centre)
                && is_spot_in_bounds(&b.direction)
        }
        Command::Wire(width, path) => is_in_bounds(*width) && is_path_in_bounds(path.as_slice()),
        Command::Flash(diameter, centre) => is_in_bounds(*diameter) && is_spot_in_bounds(centre),
        Command::Start(number, scale) => {
            is_in_bounds(*number) && is_in_bounds(scale.times) && is_in_bounds(scale.over)
        }
        Command::Delete(number) => is_in_bounds(*number),
        Command::Call(number, transformations) => {
            is_in_bounds(*number) && are_in_bounds(transformations.as_slice())
        }
    }
}

/// The command of these bytes, or the rule on its form or its integers that they break.
///
/// The time grows with the number of bytes.
pub fn read_command(alloc: Global, bytes: &[u8]) -> Result<Command, Refusal>
    requires { length bytes.now < 2 ^ 32 }
    ensures { Answers result (bounds.command_of bytes.now) }
{
    let command = match form(alloc, bytes) {
        Ok(Some(command)) => command,
        Ok(None) => return Err(Refusal::Breaks(What::Syntax)),
        Err(_) => return Err(Refusal::NoMemory),
    };
    if is_command_in_bounds(&command) {
        Ok(command)
    } else {
        Err(Refusal::Breaks(What::Number))
    }
}
