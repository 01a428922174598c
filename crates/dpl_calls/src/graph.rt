// The graph of the calls among definitions.
ghost use Rattle.std.specs.Prelude.{◌≡◌, ◌++◌, [], ◌∷◌, map, IfOk, OnOk};
ghost use Rattle.indexmap.specs.IndexMap.{keys};
ghost use Rattle.dpl_groups.specs.Groups.{AreGroups};
ghost use Rattle.dpl_calls.specs.Places as lists;
ghost use Rattle.dpl_calls.specs.Places.{graph_of};
ghost use Rattle.dpl_calls.specs.Table.{entry_part};

use crate::entry::Entry;
use crate::table::Table;
use dpl_groups::{Groups, find_groups};
use dpl_list::Items;
use std::alloc::{AllocError, Global};

/// Adds the place of the definition that an entry calls.
fn put_place(places: &mut Vec<usize>, table: &Table, entry: &Entry) -> Result<(), AllocError>
    ensures { OnOk result (places.new.items ≡ places.old.items
        ++ lists.called_places (keys table.now.definitions) (entry_part entry.now ∷ [])) }
{
    let Entry::Called { number, .. } = entry else {
        return Ok(());
    };
    match table.place(*number) {
        Some(place) => {
            places.push(place)?;
            Ok(())
        }
        None => Ok(()),
    }
}

/// The places of the definitions that these entries call.
fn called_places(
    alloc: Global,
    table: &Table,
    entries: &[Entry],
) -> Result<Items<usize>, AllocError>
    ensures { IfOk result (λ r.
        r ≡ lists.called_places (keys table.now.definitions) (map entry_part entries.now)) }
{
    let mut places = Vec::new(alloc);
    for entry in entries {
        put_place(&mut places, table, entry)?;
    }
    Ok(Items::new(places))
}

/// For each definition the definitions that it calls, by their places.
fn calls_of(alloc: Global, table: &Table) -> Result<Vec<Items<usize>>, AllocError>
    ensures { IfOk result (λ v. v.items ≡ graph_of table.now) }
{
    let mut lists = Vec::new(alloc);
    for body in table.definitions.values() {
        lists.push(called_places(alloc, table, body.as_slice())?)?;
    }
    Ok(lists)
}

/// The groups of definitions that call one another.
///
/// The time grows with the number of entries.
#[tactic(auto, using(crate::proofs::Edges::is_graph))]
pub fn groups_of(alloc: Global, table: &Table) -> Result<Groups, AllocError>
    ensures { IfOk result (λ r. AreGroups (graph_of table.now) r.labels r.heads) }
{
    let calls = calls_of(alloc, table)?;
    find_groups(alloc, calls.as_slice())
}
