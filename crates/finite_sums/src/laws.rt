//! Facts about all sums, which a proof can call for.
ghost use Rattle.finite_sums.specs.Laws.{
  ClassesCountOnce,
  SumsFollowBatches,
  SumsFollowEntries,
  TreesAreMaps,
};

/// A law: a map in order and the finite map that it is seen as have the same entries, and find the same under each text.
pub fn trees_are_maps<V>()
    ensures { TreesAreMaps V }
{}

/// A law: where one entry of a map is put or taken out, the sum over the map changes by what that entry adds.
pub fn sums_follow_entries<V>()
    ensures { SumsFollowEntries V }
{}

/// A law: two maps that agree off some keys have sums that differ by what the entries at those keys add.
pub fn sums_follow_batches<V>()
    ensures { SumsFollowBatches V }
{}

/// A law: where each addend is of at most one class, the sums of all classes weigh no more than all addends together.
pub fn classes_count_once<V>()
    ensures { ClassesCountOnce V }
{}
