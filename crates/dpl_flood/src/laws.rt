//! Why moats that grow stay moats, and why no key is too late.

ghost use Rattle.dpl_flood.specs.DueLaws.{TimeKeepsSeas, RatesGiveValues, TimeIsSmall, StartsAreSeas, StartsAreDue, TimeKeepsTold, TimeKeepsNow, TakesFall, LeavesFall};
ghost use Rattle.dpl_flood.specs.DueLaws.{EventsKeepDue, EventsKeepNow, GrowsKeepSeas, CeasesKeepSeas, ThawsKeepSeas, FoldsKeepSeas, GivingWayKeepsSeas, TakesKeepSeas, LeavesKeepSeas};
ghost use Rattle.dpl_flood.specs.DueLaws.{KeysAreDue, KeysAreLast, KeysAreComputed, RoomsAreComputed, EarlyKeysFall, KeysHaveCome, TopsMeet, TopsTake, SinglesClose, KeysComeUp, SomethingComes};
ghost use Rattle.dpl_flood.specs.DueLaws.{StacksTellTops, TopsAreTold, TopsComeUp, TimeKeepsStacks, TakesKeepStacks, LeavesKeepStacks, SetsKeepStacks};
ghost use Rattle.dpl_flood.specs.DueLaws.{TimeKeepsNames, GrowsKeepNames, RatesKeepNames, FoldsKeepNames, GivingWayKeepsNames, ShiftsKeepNames};
ghost use Rattle.dpl_flood.specs.StateLaws.{TakesKeepKeys, LeavesKeepKeys, SetsKeepKeys, SeasKeepKeys, TimeKeepsStates};
ghost use Rattle.dpl_flood.specs.TreeLaws.{ForestsGrow, ForestsCease, ForestsFold, FirstKeepsOthers, WalksKeepOthers, ForestsGive};

/// Tops grow and fall, and as long as no key is passed each way stays long enough, no top loses more
/// than it has or a face that it holds, and the keys serve on. While there are two trees, twice the
/// time is at most each chain between their roots. The call does nothing.
pub fn time_keeps_seas()
    ensures starts { StartsAreSeas }
    ensures looked { StartsAreDue }
    ensures time { TimeKeepsSeas }
    ensures values { RatesGiveValues }
    ensures small { TimeIsSmall }
    ensures told { TimeKeepsTold }
    ensures now { TimeKeepsNow }
    ensures taken { TakesFall }
    ensures left { LeavesFall }
{}

/// No event moves a point. So what was due stays due if those ways are looked at where a rate rises
/// or a rest ends: at the faces of the top that begins to grow, of the children of a fold that fell,
/// of the children of an opened set that do not fall, of all that rested, and at a face that is taken
/// or left. Where trees end nothing is looked at. The call does nothing.
pub fn events_keep_seas()
    ensures due { EventsKeepDue }
    ensures now { EventsKeepNow }
    ensures grows { GrowsKeepSeas }
    ensures ends { CeasesKeepSeas }
    ensures thaws { ThawsKeepSeas }
    ensures folds { FoldsKeepSeas }
    ensures opened { GivingWayKeepsSeas }
    ensures takes { TakesKeepSeas }
    ensures leaves { LeavesKeepSeas }
{}

/// What is told of a way is a time before which nothing comes on it, and the last one. When that time
/// has come the way has no room left, so what leads over it between two tops is as long as their load,
/// and an open face lies at the shore. While there are two trees some key is set. The call does nothing.
pub fn keys_tell_events()
    ensures due { KeysAreDue }
    ensures last { KeysAreLast }
    ensures computed { KeysAreComputed }
    ensures rooms { RoomsAreComputed }
    ensures early { EarlyKeysFall }
    ensures come { KeysHaveCome }
    ensures meet { TopsMeet }
    ensures take { TopsTake }
    ensures close { SinglesClose }
    ensures up { KeysComeUp }
    ensures some { SomethingComes }
{}

/// The last face on the stack of a top that falls tells when the top leaves a face next, and its value
/// tells when it ends. The call does nothing.
pub fn stacks_tell_falls()
    ensures due { StacksTellTops }
    ensures told { TopsAreTold }
    ensures up { TopsComeUp }
    ensures time { TimeKeepsStacks }
    ensures takes { TakesKeepStacks }
    ensures leaves { LeavesKeepStacks }
    ensures sets { SetsKeepStacks }
{}

/// Where outer tops of trees grow, inner ones fall and free ones do neither, the events of trees are
/// those that keep what is due. The call does nothing.
pub fn trees_move_tops()
    ensures grows { ForestsGrow }
    ensures ends { ForestsCease }
    ensures folds { ForestsFold }
    ensures first { FirstKeepsOthers }
    ensures walks { WalksKeepOthers }
    ensures opened { ForestsGive }
{}

/// A member that names a tree has the time as its total and a top that grows, and two such members
/// have two tops. The call does nothing.
pub fn names_keep_time()
    ensures time { TimeKeepsNames }
    ensures grows { GrowsKeepNames }
    ensures rates { RatesKeepNames }
    ensures folds { FoldsKeepNames }
    ensures opened { GivingWayKeepsNames }
    ensures shifts { ShiftsKeepNames }
{}

/// Where a face is taken or left, and the keys around it are set anew, all keys tell again when something
/// comes, and none is before now. The key of a set may be set anew at any time, and while time passes up to
/// the first key a state stays one, with the same keys. The call does nothing.
pub fn states_keep_keys()
    ensures takes { TakesKeepKeys }
    ensures leaves { LeavesKeepKeys }
    ensures sets { SetsKeepKeys }
    ensures same { SeasKeepKeys }
    ensures time { TimeKeepsStates }
{}
