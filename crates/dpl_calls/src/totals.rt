// How many calls are carried out and how many primitives come, without carrying the calls out.
ghost use Rattle.std.specs.Prelude.{◌≡◌, ◌≤◌, ◌<◌, ◌+◌, ◌^◌, map, sum_by, IfOk, None, length};
ghost use Rattle.indexmap.specs.IndexMap.{keys};
ghost use Rattle.dpl_groups.specs.Groups.{AreGroups};
ghost use Rattle.dpl_calls.specs.Parts.Part.{Drawn};
ghost use Rattle.dpl_calls.specs.Totals.{total_of, own_weight, shown};
ghost use Rattle.dpl_calls.specs.Table.{entry_part, bodies_of};
ghost use Rattle.dpl_calls.specs.Places.{graph_of};
ghost use Rattle.dpl_calls.specs.Counted.{own_of, kept_of, kept_total, HasNoLoop, AreTotals};

use crate::entry::Entry;
use crate::figure::Figure;
use crate::table::Table;
use dpl_groups::Groups;
use std::alloc::{AllocError, Global};

/// What is counted: the calls that are carried out, or the primitives, a polygon as many times as it has points.
#[derive(Clone, Copy, Debug, PartialEq, Eq)]
pub enum Count {
    Calls,
    Weight,
}

/// The greatest count that is shown.
const MOST: u64 = 1_000_000_000_000;

/// How many primitives a figure counts as.
fn weight(figure: &Figure) -> u64
    ensures value { result ≡ own_weight (Drawn figure.now) }
    ensures small { result < 2 ^ 63 }
{
    match figure {
        Figure::Rectangle(_) => 1,
        Figure::Polygon(corners) => corners.as_slice().len() as u64,
    }
}

fn own(count: Count, entry: &Entry) -> u64
    ensures value { result ≡ own_of count (entry_part entry.now) }
    ensures small { result < 2 ^ 63 }
{
    match (count, entry) {
        (Count::Calls, Entry::Drawn(_)) => 0,
        (Count::Calls, Entry::Called { .. }) => 1,
        (Count::Weight, Entry::Drawn(figure)) => weight(figure.get()),
        (Count::Weight, Entry::Called { .. }) => 0,
    }
}

/// The total that is kept for the definition with this number.
fn kept(table: &Table, totals: &[u64], number: u64) -> u64
    requires { length totals.now ≡ length table.now.definitions.entries }
    ensures value { result ≡ shown (kept_of (keys table.now.definitions) totals.now number) }
    ensures small { result ≤ 10 ^ 12 }
{
    match table.place(number) {
        Some(place) => totals[place].min(MOST),
        None => 0,
    }
}

/// What an entry counts; it may be more than is shown.
fn entry_total(count: Count, table: &Table, totals: &[u64], entry: &Entry) -> u64
    requires { length totals.now ≡ length table.now.definitions.entries }
    ensures value { shown result
        ≡ shown (kept_total (own_of count) (kept_of (keys table.now.definitions) totals.now)
        (entry_part entry.now)) }
    ensures small { result < 2 ^ 63 + 2 ^ 40 }
{
    let alone = own(count, entry);
    match entry {
        Entry::Drawn(_) => alone,
        Entry::Called { number, .. } => alone + kept(table, totals, *number),
    }
}

/// What entries count together.
fn entries_total(count: Count, table: &Table, totals: &[u64], entries: &[Entry]) -> u64
    requires { length totals.now ≡ length table.now.definitions.entries }
    ensures value { result ≡ shown
        (sum_by (kept_total (own_of count) (kept_of (keys table.now.definitions) totals.now))
        (map entry_part entries.now)) }
    ensures small { result ≤ 10 ^ 12 }
{
    let mut sum = 0u64;
    for entry in entries {
        sum = (sum + entry_total(count, table, totals, entry)).min(MOST);
    }
    sum
}

/// The totals of all definitions, each after those that it calls.
fn totals(
    alloc: Global,
    count: Count,
    table: &Table,
    groups: &Groups,
) -> Result<Vec<u64>, AllocError>
    requires groups { AreGroups (graph_of table.now) groups.now.labels groups.now.heads }
    requires loops { HasNoLoop (graph_of table.now) groups.now.labels }
    ensures value { IfOk result (λ v. AreTotals count table.now v.items) }
    ensures len { IfOk result (λ v. length v.items ≡ length table.now.definitions.entries) }
{
    let mut totals = vec![in alloc; 0u64; table.definitions.len()]?;
    for head in groups.heads.as_slice() {
        totals[*head] = entries_total(count, table, &totals, table.body_at(*head));
    }
    Ok(totals)
}

/// What the whole layout counts, at most the greatest count that is shown.
///
/// The time grows with the number of entries.
pub fn total(alloc: Global, count: Count, table: &Table, groups: &Groups) -> Result<u64, AllocError>
    requires groups { AreGroups (graph_of table.now) groups.now.labels groups.now.heads }
    requires loops { HasNoLoop (graph_of table.now) groups.now.labels }
    ensures { IfOk result (λ n.
        n ≡ shown (total_of (own_of count) (length table.now.definitions.entries
        + 1) (bodies_of table.now) (bodies_of table.now None))) }
{
    let totals = totals(alloc, count, table, groups)?;
    Ok(entries_total(count, table, &totals, table.top.as_slice()))
}
