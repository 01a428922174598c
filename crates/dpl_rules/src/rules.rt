// The rules that one command can break.
ghost use Rattle.std.specs.Prelude.{◌≡◌};
ghost use Rattle.std.specs.List.{list_any};
ghost use Rattle.dpl_rules.specs.Rules as rules;
ghost use Rattle.dpl_rules.specs.Figures.{IsScale};

use crate::command::{Command, Scale, Transformation};
use crate::figures::{
    box_extent, is_extent_on_grid, is_path_on_grid, is_spot_on_grid, is_straight, is_wire_on_grid,
    slants, slants_round,
};
use crate::scope::Scope;
use crate::what::What;

fn is_chosen(layer: Option<bool>) -> bool
    ensures { result ≡ rules.is_chosen layer }
{
    layer == Some(true)
}

fn breaks_nest(scope: &Scope, command: &Command) -> bool
    ensures { result ≡ rules.breaks_nest scope.now command.now }
{
    match command {
        Command::Start(..) => scope.definition.is_some(),
        Command::Finish => scope.definition.is_none(),
        _ => false,
    }
}

fn turns_askew(transformation: &Transformation) -> bool
    ensures { result ≡ rules.turns_askew transformation.now }
{
    match transformation {
        Transformation::Rotate(to) => !is_straight(to),
        _ => false,
    }
}

fn any_askew(transformations: &[Transformation]) -> bool
    ensures { result ≡ list_any rules.turns_askew transformations.now }
{
    transformations.iter().any(|t| turns_askew(t))
}

fn breaks_angle(scope: &Scope, command: &Command) -> bool
    ensures { result ≡ rules.breaks_angle scope.now command.now }
{
    match command {
        Command::Box(b) => is_chosen(scope.layer) && !is_straight(&b.direction),
        Command::Call(_, transformations) => any_askew(transformations.as_slice()),
        _ => false,
    }
}

fn is_figure(command: &Command) -> bool
    ensures { result ≡ rules.is_figure command.now }
{
    matches!(
        command,
        Command::Polygon(_) | Command::Box(_) | Command::Wire(..) | Command::Flash(..)
    )
}

fn breaks_layerless(scope: &Scope, command: &Command) -> bool
    ensures { result ≡ rules.breaks_layerless scope.now command.now }
{
    is_figure(command) && scope.layer.is_none()
}

fn breaks_slant(scope: &Scope, command: &Command) -> bool
    ensures { result ≡ rules.breaks_slant scope.now command.now }
{
    match command {
        Command::Polygon(path) => is_chosen(scope.layer) && slants_round(path.as_slice()),
        Command::Wire(_, path) => is_chosen(scope.layer) && slants(path.as_slice()),
        _ => false,
    }
}

fn shifts_off(scale: Scale, transformation: &Transformation) -> bool
    requires { IsScale scale }
    ensures { result ≡ rules.shifts_off scale transformation.now }
{
    match transformation {
        Transformation::Shift(by) => !is_spot_on_grid(scale, by),
        _ => false,
    }
}

fn any_shifts_off(scale: Scale, transformations: &[Transformation]) -> bool
    requires { IsScale scale }
    ensures { result ≡ list_any (rules.shifts_off scale) transformations.now }
{
    for transformation in transformations {
        if shifts_off(scale, transformation) {
            return true;
        }
    }
    false
}

fn breaks_off_grid(scope: &Scope, command: &Command) -> bool
    requires { IsScale scope.now.scale }
    ensures { result ≡ rules.breaks_off_grid scope.now command.now }
{
    match command {
        Command::Polygon(path) => {
            is_chosen(scope.layer) && !is_path_on_grid(scope.scale, path.as_slice())
        }
        Command::Box(b) => is_chosen(scope.layer) && !is_extent_on_grid(scope.scale, box_extent(b)),
        Command::Wire(width, path) => {
            is_chosen(scope.layer) && !is_wire_on_grid(scope.scale, *width, path.as_slice())
        }
        Command::Call(_, transformations) => any_shifts_off(
            scope.scale,
            transformations.as_slice(),
        ),
        _ => false,
    }
}

fn breaks_round(scope: &Scope, command: &Command) -> bool
    ensures { result ≡ rules.breaks_round scope.now command.now }
{
    match command {
        Command::Flash(..) => is_chosen(scope.layer),
        _ => false,
    }
}

fn breaks_scale(command: &Command) -> bool
    ensures { result ≡ rules.breaks_scale command.now }
{
    match command {
        Command::Start(_, scale) => scale.times == 0 || scale.over == 0,
        _ => false,
    }
}

/// The first rule that a command breaks. `twice` says whether it begins a definition a second time.
pub fn broken_rule(scope: &Scope, twice: bool, command: &Command) -> Option<What>
    requires { IsScale scope.now.scale }
    ensures { result ≡ rules.broken_rule scope.now twice command.now }
{
    if breaks_nest(scope, command) {
        Some(What::Nest)
    } else if twice {
        Some(What::Twice)
    } else if breaks_angle(scope, command) {
        Some(What::Angle)
    } else if breaks_layerless(scope, command) {
        Some(What::Layerless)
    } else if breaks_slant(scope, command) {
        Some(What::Slant)
    } else if breaks_off_grid(scope, command) {
        Some(What::OffGrid)
    } else if breaks_round(scope, command) {
        Some(What::Round)
    } else if matches!(command, Command::Delete(_)) {
        Some(What::Delete)
    } else if breaks_scale(command) {
        Some(What::Scale)
    } else {
        None
    }
}
