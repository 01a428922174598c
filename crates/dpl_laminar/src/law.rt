//! Why the values of a family bound every pairing from below.

ghost use Rattle.dpl_laminar.specs.Pairings.{ValuesBoundPairings, FamiliesBoundPairings};

/// Weak duality. In a perfect pairing some pair leaves each odd set, so its load counts the value
/// of the set. Where no load is more than the distance, the distances of the pairs add up to at
/// least the sum of the values. The call does nothing.
pub fn values_bound_pairings()
    ensures sets { ValuesBoundPairings }
    ensures families { FamiliesBoundPairings }
{}
