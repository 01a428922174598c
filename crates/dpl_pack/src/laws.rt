//! Why a flood bounds every pairing from below.

ghost use Rattle.dpl_pack.specs.FloodLaws.{LoadsAreApart, FloodsBoundLoads, LoadsMakeFloods, TightPairsAddUp, TightFloodsAreLeast};
ghost use Rattle.dpl_pack.specs.TideLaws.{TurnsMovePoints, TurnsKeepWays, TurnsKeepFloods, ShoresAreWater, NamesKeepFloods, FoldsKeepFloods, GivingWayKeepsFloods};

/// A family is a tree: from the seat of each member a way leads out to open water, through the sets
/// that hold the member. What takes the faces into the tree and stretches no way shows that no load is
/// above any chain, and where that is so there is such a map. Pairs over tight chains of which just one
/// leaves each set are then the shortest. The call does nothing.
pub fn floods_bound_pairings()
    ensures apart { LoadsAreApart }
    ensures within { FloodsBoundLoads }
    ensures floods { LoadsMakeFloods }
    ensures equal { TightPairsAddUp }
    ensures least { TightFloodsAreLeast }
{}

/// A flood stays one while time passes and sets come and go. Only time moves points: the tops of two
/// points grow and fall, and each way that has room for that stays long enough. What a top takes or
/// leaves at its shore does not move, and neither does anything where a set without a value is made of
/// tops or taken apart. The call does nothing.
pub fn tides_keep_floods()
    ensures points { TurnsMovePoints }
    ensures ways { TurnsKeepWays }
    ensures floods { TurnsKeepFloods }
    ensures shores { ShoresAreWater }
    ensures names { NamesKeepFloods }
    ensures folds { FoldsKeepFloods }
    ensures opened { GivingWayKeepsFloods }
{}
