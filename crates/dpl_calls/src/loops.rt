// Calls of what is not there, and calls that lead back to where they stand.
ghost use Rattle.std.specs.Prelude.{◌≡◌, All, List, Option, length};
ghost use Rattle.indexmap.specs.IndexMap.{keys};
ghost use Rattle.dpl_rules.specs.declared.what.What.TheVariants.{Missing, Loop};
ghost use Rattle.dpl_groups.specs.Groups.{AreGroups};
ghost use Rattle.dpl_calls.specs.declared.table.CallSite.{CallSite};
ghost use Rattle.dpl_calls.specs.Loops as loops;
ghost use Rattle.dpl_calls.specs.Loops.{first_site};
ghost use Rattle.dpl_calls.specs.Places.{graph_of};
ghost use Rattle.dpl_calls.specs.Table.{bodies_of, entries_of};
ghost use Rattle.dpl_calls.specs.Found as found;
ghost use Rattle.dpl_calls.specs.Found.{AreCalls, FindsAt, IsSite, call_in, calls_in, first_number};

use crate::entry::Entry;
use crate::table::{CallSite, Table};
use dpl_groups::Groups;

/// The smaller number, where there is one.
fn earlier(a: Option<u32>, b: Option<u32>) -> Option<u32>
    ensures { result ≡ found.earlier a b }
{
    match (a, b) {
        (Some(a), Some(b)) => Some(a.min(b)),
        (Some(a), None) => Some(a),
        (None, b) => b,
    }
}

#[tactic(auto, using(crate::proofs::Absent::present))]
fn is_missing(table: &Table, site: &CallSite) -> bool
    ensures { result ≡ loops.is_missing (keys table.now.definitions) site.now }
{
    !table.definitions.contains_key(&site.called)
}

/// The number of an entry that is a call and names no definition.
fn missing_at(table: &Table, definition: Option<u64>, entry: &Entry) -> Option<u32>
    ensures { result ≡ first_number (loops.is_missing (keys table.now.definitions))
        (call_in definition entry.now) }
{
    let Entry::Called { at, number, .. } = entry else {
        return None;
    };
    let site = CallSite {
        at: *at,
        definition,
        called: *number,
    };
    if is_missing(table, &site) {
        return Some(*at);
    }
    None
}

/// The number of the first of these entries that is a call and names no definition.
fn missing_in(table: &Table, definition: Option<u64>, entries: &[Entry]) -> Option<u32>
    ensures { result ≡ first_number (loops.is_missing (keys table.now.definitions))
        (calls_in definition entries.now) }
{
    for entry in entries {
        let missing = missing_at(table, definition, entry);
        if missing.is_some() {
            return missing;
        }
    }
    None
}

/// The number of the first call that names no definition.
pub fn missing(table: &Table) -> Option<u32>
    ensures { (sites : List CallSite) → AreCalls table.now sites →
        FindsAt Missing result (first_site (loops.is_missing (keys table.now.definitions))
        Missing sites) }
{
    let mut first = missing_in(table, None, table.top.as_slice());
    for number in table.definitions.keys() {
        let here = missing_in(table, Some(*number), table.body(*number));
        first = earlier(first, here);
    }
    first
}

/// Whether a call leads back: both definitions are in one group.
fn is_looped(table: &Table, groups: &Groups, site: &CallSite) -> bool
    requires groups { AreGroups (graph_of table.now) groups.now.labels groups.now.heads }
    requires site { IsSite (bodies_of table.now) site.now }
    ensures { result ≡ loops.is_looped (length (keys table.now.definitions)) (bodies_of table.now)
        site.now }
{
    let Some(definition) = site.definition else {
        return false;
    };
    let Some(from) = table.place(definition) else {
        return false;
    };
    let Some(to) = table.place(site.called) else {
        return false;
    };
    let labels = groups.labels.as_slice();
    labels[from] == labels[to]
}

/// The number of an entry that is a call and leads back.
fn looped_at(table: &Table, groups: &Groups, definition: Option<u64>, entry: &Entry) -> Option<u32>
    requires groups { AreGroups (graph_of table.now) groups.now.labels groups.now.heads }
    requires entry { All (IsSite (bodies_of table.now)) (call_in definition entry.now) }
    ensures { result ≡ first_number (loops.is_looped (length (keys table.now.definitions))
        (bodies_of table.now)) (call_in definition entry.now) }
{
    let Entry::Called { at, number, .. } = entry else {
        return None;
    };
    let site = CallSite {
        at: *at,
        definition,
        called: *number,
    };
    if is_looped(table, groups, &site) {
        return Some(*at);
    }
    None
}

/// The number of the first of a definition's entries that is a call and leads back.
fn looped_in(
    table: &Table,
    groups: &Groups,
    definition: Option<u64>,
    entries: &[Entry],
) -> Option<u32>
    requires groups { AreGroups (graph_of table.now) groups.now.labels groups.now.heads }
    requires entries { entries.now ≡ entries_of table.now definition }
    ensures { result ≡ first_number (loops.is_looped (length (keys table.now.definitions))
        (bodies_of table.now)) (calls_in definition entries.now) }
{
    for entry in entries {
        let looped = looped_at(table, groups, definition, entry);
        if looped.is_some() {
            return looped;
        }
    }
    None
}

/// The number of the first call that leads back to the definition that it stands in.
pub fn looped(table: &Table, groups: &Groups) -> Option<u32>
    requires groups { AreGroups (graph_of table.now) groups.now.labels groups.now.heads }
    ensures { (sites : List CallSite) → AreCalls table.now sites →
        FindsAt Loop result
        (first_site (loops.is_looped (length (keys table.now.definitions)) (bodies_of table.now))
        Loop sites) }
{
    let mut first = looped_in(table, groups, None, table.top.as_slice());
    for number in table.definitions.keys() {
        let here = looped_in(table, groups, Some(*number), table.body(*number));
        first = earlier(first, here);
    }
    first
}

/// What a Loop is. It is a fact about `is_looped`; nothing runs.
pub fn calling_rules()
    ensures { loops.LoopsLeadBack }
{}
