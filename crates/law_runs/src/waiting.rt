//! What holds of the number of items that wait.
ghost use Rattle.law_runs.specs.ItemCounts.{ItemsHaveOneNumber, NoneWaitsAtFirst};
ghost use Rattle.law_runs.specs.ItemCounts.{ArrivalsPutOne, OutputsPutOneOrNone};
ghost use Rattle.law_runs.specs.ItemCounts.{TakingLeavesOneLess, LinksMoveItems};
ghost use Rattle.law_runs.specs.ItemCounts.{BeginningsKeepItems, ReleasesLoseTheirItems};
ghost use Rattle.law_runs.specs.ItemCounts.{ChangesAddUp, BlocksTakeNone};
ghost use Rattle.law_runs.specs.StepItems.{StartsAreCounted, EventsPutWhatArrives};
ghost use Rattle.law_runs.specs.StepItems.{FiringsTakeWhatTheyAwait, CountsGoOn};

/// No queues have two numbers of items, and none waits where there are no instances.
pub fn items_have_one_number()
    ensures one { ItemsHaveOneNumber }
    ensures first { NoneWaitsAtFirst }
{}

/// An arrival puts one item into a queue; an output puts one, leaves the system or is lost.
pub fn outputs_put_one_or_none()
    ensures arrivals { ArrivalsPutOne }
    ensures outputs { OutputsPutOneOrNone }
{}

/// Where an item is taken, one less waits.
#[tactic(auto, using(crate::proofs::CountedItems::taking_leaves_one_less))]
pub fn taking_leaves_one_less()
    ensures { TakingLeavesOneLess }
{}

/// Links that are made or undone leave as many items.
#[tactic(auto, using(crate::proofs::CountedItems::links_move_items))]
pub fn links_move_items()
    ensures { LinksMoveItems }
{}

/// Where an instance is begun, as many items wait.
#[tactic(auto, using(crate::proofs::CountedItems::beginnings_keep_items))]
pub fn beginnings_keep_items()
    ensures { BeginningsKeepItems }
{}

/// With a released child go the items in its queues and in those of its descendants.
pub fn releases_lose_their_items()
    ensures { ReleasesLoseTheirItems }
{}

/// The number of items is what it was, and what was put, less what was taken and what went; of what
/// a block does, nothing takes an item.
pub fn changes_add_up()
    ensures numbers { ChangesAddUp }
    ensures blocks { BlocksTakeNone }
{}

/// An event puts what arrives, and a firing takes just what it awaits.
pub fn steps_put_and_take()
    ensures events { EventsPutWhatArrives }
    ensures firings { FiringsTakeWhatTheyAwait }
{}

/// From the start on the number of items is that of those which were put, less those which were
/// taken and those which went with their instances: it is so at the start, and events and firings
/// leave it so.
pub fn items_are_counted()
    ensures starts { StartsAreCounted }
    ensures steps { CountsGoOn }
{}
