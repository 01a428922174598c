//! Time passes: tops grow and fall, and nothing else changes.

ghost use Rattle.std.specs.Prelude.{◌≡◌, ◌≢◌, ℕ, ◌+◌, ◌-◌, ◌*◌, ◌<◌, ◌≤◌, ◌^◌, true, length, max, slice_index_or};
ghost use Rattle.dpl_laminar.specs.Families.{IsFamily};
ghost use Rattle.dpl_laminar.specs.Storing.{sets_of};
ghost use Rattle.dpl_dual.specs.declared.crosses.Dual.{Dual};
ghost use Rattle.dpl_tree.specs.declared.tree.Label.TheVariants.{Free};
ghost use Rattle.dpl_tree.specs.steps.Forests.{free, inner, outer, gain, drop_of};
ghost use Rattle.dpl_tree.specs.Views.{place_of, place_in};
ghost use Rattle.dpl_flood.specs.Dues.{NoneRests};
ghost use Rattle.dpl_flood.specs.Forested.{IsForested};
ghost use Rattle.dpl_flood.specs.Queues.{IsFirst};
ghost use Rattle.dpl_flood.specs.Seas.{ArePassed, tide_of};
ghost use Rattle.dpl_flood.specs.StateLaws.{ArePassedOver};
ghost use Rattle.dpl_flood.specs.States.{sea_of, IsState, AreKeys};

use crate::queue::Queue;
use crate::state::State;
use dpl_dual::Dual;
use dpl_laminar::{Family, Steps};
use dpl_tree::Label;
use std::sync::ledger::Ledger;

/// How the set of a number stands.
fn label_at(labels: &[Label], set: usize) -> Label
    requires { set < length labels.now }
    ensures { result ≡ slice_index_or labels.now set Free }
{
    labels[set]
}

/// A set gains or loses what passes of time, as it stands.
fn pass_one<L: Ledger>(family: &mut Family, label: Label, set: u32, span: u64, steps: &mut Steps<L>)
    requires live { place_of label ≢ free → (sets_of family.old).live set ≡ true }
    requires family { IsFamily (sets_of family.old) }
    requires span { span ≤ 2 ^ 50 }
    requires enough { place_of label ≡ inner → span ≤ (sets_of family.old).value set }
    requires room { place_of label ≡ outer → (sets_of family.old).value set + span ≤ 2 ^ 50 }
    ensures value { (sets_of family.new).value set + drop_of (place_of label) * span ≡
        (sets_of family.old).value set + gain (place_of label) * span }
    ensures others { (i : ℕ) → i ≢ set → (sets_of family.new).value i ≡ (sets_of family.old).value i }
    ensures rest { sets_of family.new ≡ record (sets_of family.old) { value = (sets_of family.new).value } }
    ensures family { IsFamily (sets_of family.new) }
    ensures steps { steps.new ≤ steps.old + 1 }
{
    match label {
        Label::Outer => {
            family.raise(set, span as i64, steps);
        }
        Label::Inner => {
            family.raise(set, -(span as i64), steps);
        }
        Label::Free => {}
    }
}

/// Each set gains or loses what passes of time. Where none passes it costs nothing.
fn pass_all<L: Ledger>(family: &mut Family, labels: &[Label], span: u64, steps: &mut Steps<L>)
    requires labels { length labels.now ≡ 2 * (sets_of family.old).size }
    requires family { IsFamily (sets_of family.old) }
    requires span { span ≤ 2 ^ 50 }
    requires live { (i : ℕ) → i < 2 * (sets_of family.old).size → place_in labels.now i ≢ free →
        (sets_of family.old).live i ≡ true }
    requires enough { (i : ℕ) → i < 2 * (sets_of family.old).size → place_in labels.now i ≡ inner →
        span ≤ (sets_of family.old).value i }
    requires room { (i : ℕ) → i < 2 * (sets_of family.old).size → place_in labels.now i ≡ outer →
        (sets_of family.old).value i + span ≤ 2 ^ 50 }
    ensures values { (i : ℕ) → i < 2 * (sets_of family.old).size →
        (sets_of family.new).value i + drop_of (place_in labels.now i) * span ≡
        (sets_of family.old).value i + gain (place_in labels.now i) * span }
    ensures others { (i : ℕ) → 2 * (sets_of family.old).size ≤ i →
        (sets_of family.new).value i ≡ (sets_of family.old).value i }
    ensures rest { sets_of family.new ≡ record (sets_of family.old) { value = (sets_of family.new).value } }
    ensures family { IsFamily (sets_of family.new) }
    ensures steps { steps.new ≤ steps.old + length labels.now }
{
    if span == 0 {
        return;
    }
    for i in 0..labels.len() {
        pass_one(family, label_at(labels, i), i as u32, span, steps);
    }
}

/// Time passes to a later one, where no top that falls has less than it loses.
fn pass<L: Ledger>(state: &mut State, time: u64, steps: &mut Steps<L>)
    requires state { (d : Dual) × IsState d state.old }
    requires later { state.old.time ≤ time }
    requires early { time ≤ 2 ^ 50 }
    requires enough { (k : ℕ) → (sea_of state.old).loss k ≡ 1 →
        time - state.old.time ≤ (sets_of state.old.family).value k }
    ensures values { ArePassed (sea_of state.old) time (sets_of state.new.family).value }
    ensures over { ArePassedOver state.old state.new time (sets_of state.new.family).value }
    ensures family { IsFamily (sets_of state.new.family) }
    ensures steps { steps.new ≤ steps.old + 2 * (sets_of state.old.family).size }
{
    let span = time - state.time;
    pass_all(&mut state.family, &state.tree.labels, span, steps);
    state.time = time;
}

/// Time passes up to the first key, where nothing rests. Keys of sets that fall no more may be past: then none passes.
pub fn advance<L: Ledger>(state: &mut State, dual: &Dual, queue: &Queue, steps: &mut Steps<L>)
    requires state { IsState dual.now state.old }
    requires keys { AreKeys dual.now state.old queue.now }
    requires awake { NoneRests (tide_of dual.now (sea_of state.old)) }
    requires some { 0 < length queue.now }
    requires early { (key : ℕ) → IsFirst queue.now key → key ≤ 2 ^ 50 }
    ensures time { (key : ℕ) → IsFirst queue.now key → state.new.time ≡ max state.old.time key }
    ensures values { ArePassed (sea_of state.old) state.new.time (sets_of state.new.family).value }
    ensures over { ArePassedOver state.old state.new state.new.time (sets_of state.new.family).value }
    ensures state { IsState dual.now state.new }
    ensures forest { IsForested dual.now state.old → IsForested dual.now state.new }
    ensures keys { AreKeys dual.now state.new queue.now }
    ensures steps { steps.new ≤ steps.old + 2 * (sets_of state.old.family).size }
{
    let time = state.time.max(queue.first());
    pass(state, time, steps);
}
