// The commands of a layout, one after another.
ghost use Rattle.std.specs.Prelude.{◌≡◌, ◌≤◌, ◌<◌, ◌+◌, ◌++◌, ◌==◌, [], ◌∷◌, false, true, ℕ, Option, Some, None, OnOk, IfOk, length, List, nat_eq, IsSome};
ghost use Rattle.std.specs.List.{list_any};
ghost use Rattle.indexmap.specs.IndexMap.{get, keys};
ghost use Rattle.dpl_limits.specs.declared.TheConstants.{MOST_LAYOUT_BYTES};
ghost use Rattle.dpl_lex.specs.Cutting.{commands_of};
ghost use Rattle.dpl_rules.specs.Bounds.{is_command_in_bounds, read_commands};
ghost use Rattle.dpl_rules.specs.Figures.{IsScale};
ghost use Rattle.dpl_rules.specs.Rules as rules;
ghost use Rattle.dpl_calls.specs.Parts.{parts_of};
ghost use Rattle.dpl_calls.specs.Table.{bodies_of};
ghost use Rattle.dpl_calls.specs.Found.{calls_at};
ghost use Rattle.dpl_calls.specs.Put.{put_at, site_in, IsKnown, IsFew};
ghost use Rattle.dpl_calls.specs.Scanned.{ScanGives};

use crate::body::Body;
use crate::putting::put_entries;
use crate::table::Table;
use dpl_lex::Name;
use dpl_lex::types::{Commands, Ending};
use dpl_rules::command::{Command, Scale};
use dpl_rules::scope::Scope;
use dpl_rules::{Refusal, What, broken_rule, read_command};
use indexmap::IndexMap;
use std::alloc::{AllocError, Global};
use thiserror::Error;

/// Why a layout was not scanned.
#[derive(Clone, Copy, Debug, PartialEq, Eq, Error)]
pub enum ScanError {
    #[error("command {0} breaks the rule {1:?}")]
    Breaks(u32, What),
    #[error("no memory")]
    NoMemory,
}

/// Adds what the command with this number puts in, where it stands.
fn place(
    alloc: Global,
    table: &mut Table,
    scope: &Scope,
    at: u32,
    command: &Command,
) -> Result<(), AllocError>
    requires scale { IsScale scope.now.scale }
    requires bounds { is_command_in_bounds command.now ≡ true }
    requires few { IsFew command.now }
    requires known { IsKnown table.old scope.now.definition }
    ensures bodies { OnOk result ((place : Option ℕ) →
        bodies_of table.new place
        ≡ put_at scope.now.definition (bodies_of table.old) (parts_of scope.now command.now)
        place) }
    ensures calls { OnOk result ((place : Option ℕ) →
        calls_at table.new place
        ≡ put_at scope.now.definition (calls_at table.old) (site_in place at command.now) place) }
    ensures keys { OnOk result (keys table.new.definitions ≡ keys table.old.definitions) }
    ensures known { OnOk result (IsKnown table.new scope.now.definition) }
{
    match scope.definition {
        None => put_entries(alloc, &mut table.top, scope, at, command),
        Some(number) => match table.definitions.get_mut(&number) {
            Some(body) => put_entries(alloc, body, scope, at, command),
            None => Ok(()),
        },
    }
}

/// Begins a definition.
#[tactic(auto, using(crate::proofs::Absent::absent, crate::proofs::Absent::keys_put))]
fn begin(alloc: Global, table: &mut Table, number: u64) -> Result<(), AllocError>
    requires { list_any (λ m. m == number) (keys table.old.definitions) ≡ false }
    ensures bodies { OnOk result ((place : Option ℕ) →
        bodies_of table.new place ≡ bodies_of table.old place) }
    ensures calls { OnOk result ((place : Option ℕ) →
        calls_at table.new place ≡ calls_at table.old place) }
    ensures keys { OnOk result (keys table.new.definitions ≡ keys table.old.definitions
        ++ number ∷ []) }
    ensures known { OnOk result (IsSome (get nat_eq table.new.definitions number)) }
{
    table.definitions.insert(number, Body::new(alloc))?;
    Ok(())
}

/// What is in force behind a command, and what it adds.
fn step(
    alloc: Global,
    table: &mut Table,
    scope: Scope,
    layer: &Name,
    at: u32,
    command: &Command,
) -> Result<Scope, AllocError>
    requires scale { IsScale scope.scale }
    requires known { IsKnown table.old scope.definition }
    requires bounds { is_command_in_bounds command.now ≡ true }
    requires few { IsFew command.now }
    requires clean { rules.broken_rule scope (rules.breaks_twice (keys table.old.definitions)
        command.now) command.now ≡ None }
    ensures scope { IfOk result (λ s. s ≡ rules.after layer.now scope command.now) }
    ensures bodies { OnOk result ((place : Option ℕ) →
        bodies_of table.new place
        ≡ put_at scope.definition (bodies_of table.old) (parts_of scope command.now) place) }
    ensures keys { OnOk result (keys table.new.definitions
        ≡ rules.with_start command.now (keys table.old.definitions)) }
    ensures calls { OnOk result ((place : Option ℕ) →
        calls_at table.new place
        ≡ put_at scope.definition (calls_at table.old) (site_in place at command.now) place) }
    ensures scale { IfOk result (λ s. IsScale s.scale) }
    ensures known { IfOk result (λ s. IsKnown table.new s.definition) }
{
    place(alloc, table, &scope, at, command)?;
    match command {
        Command::Layer(name) => Ok(Scope {
            layer: Some(name.bytes() == layer.bytes()),
            ..scope
        }),
        Command::Start(number, scale) => {
            begin(alloc, table, *number)?;
            Ok(Scope {
                definition: Some(*number),
                layer: None,
                outer: scope.layer,
                scale: *scale,
            })
        }
        Command::Finish => Ok(Scope {
            definition: None,
            layer: scope.outer,
            outer: None,
            scale: Scale { times: 1, over: 1 },
        }),
        Command::Call(..)
        | Command::Idle
        | Command::Polygon(_)
        | Command::Box(_)
        | Command::Wire(..)
        | Command::Flash(..)
        | Command::Delete(_) => Ok(scope),
    }
}

#[tactic(auto, using(crate::proofs::Absent::present))]
fn breaks_twice(table: &Table, command: &Command) -> bool
    ensures { result ≡ rules.breaks_twice (keys table.now.definitions) command.now }
{
    match command {
        Command::Start(number, _) => table.definitions.contains_key(number),
        _ => false,
    }
}

/// The rule that the end of the text breaks: the end command inside a definition, or a comment that
/// is never closed.
fn broken_at_end(scope: &Scope, ending: Ending) -> Option<What>
    ensures { (at : ℕ) → rules.fault_at_end scope.now at ending ≡ rules.or_later at result None }
{
    match ending {
        Ending::End if scope.definition.is_some() => Some(What::Nest),
        Ending::Paren => Some(What::Syntax),
        Ending::End | Ending::NoEnd => None,
    }
}

/// The definitions and calls of all commands, or the first rule of one command that is broken.
pub fn scan(
    alloc: Global,
    text: &[u8],
    commands: &Commands,
    layer: &Name,
) -> Result<Table, ScanError>
    requires short { length text.now ≤ MOST_LAYOUT_BYTES }
    requires commands { commands.now ≡ commands_of text.now }
    ensures { ScanGives layer.now (read_commands text.now commands.now.spans) commands.now.ending
        result }
{
    let mut table = Table {
        top: Body::new(alloc),
        definitions: IndexMap::new(alloc),
    };
    let mut scope = Scope {
        definition: None,
        layer: None,
        outer: None,
        scale: Scale { times: 1, over: 1 },
    };
    let mut at: u32 = 1;
    let mut rest = commands.spans.as_slice();
    'commands: while let Some((span, others)) = rest.split_first() {
        let command = match read_command(alloc, &text[span.start as usize..span.end as usize]) {
            Ok(command) => command,
            Err(Refusal::Breaks(what)) => return Err(ScanError::Breaks(at, what)),
            Err(Refusal::NoMemory) => return Err(ScanError::NoMemory),
        };
        if let Some(what) = broken_rule(&scope, breaks_twice(&table, &command), &command) {
            return Err(ScanError::Breaks(at, what));
        }
        scope = match step(alloc, &mut table, scope, layer, at, &command) {
            Ok(scope) => scope,
            Err(_) => return Err(ScanError::NoMemory),
        };
        at += 1;
        rest = others;
    }
    match broken_at_end(&scope, commands.ending) {
        Some(what) => Err(ScanError::Breaks(at, what)),
        None => Ok(table),
    }
}
