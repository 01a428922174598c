//! What moats are at one moment, as a program keeps them.

ghost use Rattle.std.specs.Prelude.{ℕ, ◌≡◌, ◌<◌, ◌*◌, ◌==◌, true, false, length, slice_index, slice_index_or};
ghost use Rattle.dpl_laminar.specs.Families.{has};
ghost use Rattle.dpl_laminar.specs.Storing.{sets_of};
ghost use Rattle.dpl_dual.specs.declared.crosses.Dual.{Dual};
ghost use Rattle.dpl_tree.specs.declared.tree.Label.TheVariants.{Free};
ghost use Rattle.dpl_pack.specs.Tides.{place_of};
ghost use Rattle.dpl_flood.specs.Holdings.{stack_of};
ghost use Rattle.dpl_flood.specs.Queues.{never};
ghost use Rattle.dpl_flood.specs.Seas.{due_of, span_of, span_at};
ghost use Rattle.dpl_flood.specs.Standings.{StandsOn, IsStanding};
ghost use Rattle.dpl_flood.specs.States.{IsState, sea_of, fall_of, stands_among};

use crate::arena::Arena;
use crate::held::Held;
use crate::joins::Joins;
use crate::standing::{Standing, due};
use crate::ways::way_of;
use dpl_dual::Dual;
use dpl_laminar::Family;
use dpl_list::Items;
use dpl_tree::{Label, Tree};

/// Moats around the odd faces of a part, and how they move.
#[derive(Drop)]
pub struct State {
    pub family: Family,
    /// By member its face.
    pub seats: Items<u32>,
    /// How the tops stand in trees.
    pub tree: Tree,
    /// By member its mate, where it keeps the pair of its top.
    pub mates: Vec<Option<u32>>,
    /// By set whether it rests.
    pub rests: Vec<bool>,
    /// By member what the sets strictly inside its top have.
    pub inners: Vec<u64>,
    pub held: Held,
    pub arena: Arena,
    /// What two tops that met have over their way.
    pub joins: Joins,
    pub time: u64,
}

impl State {
    /// How a set stands in the trees.
    fn label(&self, set: u32) -> Label
        requires { set < length self.now.tree.labels.items }
        ensures { result ≡ slice_index_or self.now.tree.labels.items set Free }
    {
        self.tree.label(set)
    }

    /// Whether a set rests.
    pub fn is_resting(&self, set: u32) -> bool
        requires { set < length self.now.rests.items }
        ensures { result ≡ slice_index_or self.now.rests.items set false }
    {
        self.rests[set as usize]
    }

    /// What the sets strictly inside its top have for a member.
    fn inner(&self, member: u32) -> u64
        requires { member < length self.now.inners.items }
        ensures { result ≡ slice_index self.now.inners.items member }
    {
        self.inners[member as usize]
    }

    /// Where it is that is so far from the seat of a member.
    fn standing_on(&self, member: u32, far: u64) -> Standing
        requires state { (d : Dual) × IsState d self.now }
        requires member { member < (sets_of self.now.family).size }
        ensures { IsStanding (sea_of self.now) member far result }
    {
        let top = self.family.tops(member);
        let total = self.inner(member) + self.family.value(top);
        Standing {
            top,
            reach: total.saturating_sub(far),
            label: self.label(top),
            rests: self.is_resting(top),
        }
    }

    /// Where a face stands: none in open water.
    pub fn standing(&self, face: u32) -> Option<Standing>
        requires { (d : Dual) × IsState d self.now }
        ensures { StandsOn (sea_of self.now) face result }
    {
        match self.held.node(face) {
            Some(node) => {
                let node = self.arena.node(node);
                Some(self.standing_on(node.member, node.far))
            }
            None => None,
        }
    }

    /// Whether a face stands on a top.
    pub fn is_on(&self, face: u32, top: u32) -> bool
        requires state { (d : Dual) × IsState d self.now }
        requires top { top < 2 * (sets_of self.now.family).size }
        ensures { result ≡ (place_of (sets_of self.now.family) ((sea_of self.now).point face) == top) }
    {
        match self.standing(face) {
            Some(standing) => standing.top == top,
            None => false,
        }
    }

    /// Whether the faces that a set took stand on a top.
    pub fn is_stack_on(&self, set: u32, top: u32) -> bool
        requires state { (d : Dual) × IsState d self.now }
        requires set { set < 2 * (sets_of self.now.family).size }
        requires top { top < 2 * (sets_of self.now.family).size }
        ensures { (g : ℕ) → has (stack_of self.now.held set) g ≡ true →
            result ≡ (place_of (sets_of self.now.family) ((sea_of self.now).point g) == top) }
    {
        match self.held.last(set) {
            Some(face) => self.is_on(face, top),
            None => false,
        }
    }

    /// Whether a face stands on one of these tops.
    fn is_among(&self, face: u32, tops: &[bool]) -> bool
        requires state { (d : Dual) × IsState d self.now }
        requires tops { length tops.now ≡ 2 * (sets_of self.now.family).size }
        ensures { result ≡ stands_among (sea_of self.now) tops.now face }
    {
        match self.standing(face) {
            Some(standing) => tops[standing.top as usize],
            None => false,
        }
    }

    /// Whether the faces that a set took stand on one of these tops.
    pub fn is_stack_among(&self, set: u32, tops: &[bool]) -> bool
        requires state { (d : Dual) × IsState d self.now }
        requires set { set < 2 * (sets_of self.now.family).size }
        requires tops { length tops.now ≡ 2 * (sets_of self.now.family).size }
        ensures { (g : ℕ) → has (stack_of self.now.held set) g ≡ true →
            result ≡ stands_among (sea_of self.now) tops.now g }
    {
        match self.held.last(set) {
            Some(face) => self.is_among(face, tops),
            None => false,
        }
    }

    /// When something comes on a way.
    pub fn look(&self, dual: &Dual, way: u32) -> u64
        requires state { IsState dual.now self.now }
        requires way { way < length dual.now.crosses }
        ensures { result ≡ due_of dual.now (sea_of self.now) never way }
    {
        let way = way_of(dual.crosses.as_slice(), way);
        due(
            self.standing(way.f),
            self.standing(way.g),
            way.length,
            self.time,
        )
    }

    /// How far a moat reaches beyond a face.
    fn reach(&self, face: u32) -> u64
        requires { (d : Dual) × IsState d self.now }
        ensures { result ≡ span_at (sea_of self.now) ((sea_of self.now).point face) }
    {
        match self.standing(face) {
            Some(standing) => standing.reach,
            None => 0,
        }
    }

    /// How long a top that falls has until it leaves its last face, or where it has none until its end.
    fn span(&self, set: u32) -> u64
        requires state { (d : Dual) × IsState d self.now }
        requires set { set < 2 * (sets_of self.now.family).size }
        requires live { (sets_of self.now.family).live set ≡ true }
        ensures { result ≡ span_of (sea_of self.now) (stack_of self.now.held) set }
    {
        match self.held.last(set) {
            Some(face) => self.reach(face),
            None => self.family.value(set),
        }
    }

    /// When a top that falls leaves its last face or ends. For another set it is the greatest number.
    pub fn fall(&self, set: u32) -> u64
        requires state { (d : Dual) × IsState d self.now }
        requires set { set < 2 * (sets_of self.now.family).size }
        ensures { result ≡ fall_of (sea_of self.now) (stack_of self.now.held) set }
    {
        match self.label(set) {
            Label::Inner => self.time + self.span(set),
            _ => u64::MAX,
        }
    }
}
