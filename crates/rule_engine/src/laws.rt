//! Facts about all rules, which a proof can call for.
ghost use Rattle.rule_engine.specs.Conditions.{TextsAreCompared};
ghost use Rattle.rule_engine.specs.Laws.{RanksAreOneOrder, RulesAreRanked, RulesFollowOneAnother};

/// A law: rules whose ids differ have one order, by stage, score and id, whichever order they came in.
pub fn ranks_are_one_order()
    ensures { RanksAreOneOrder }
{}

/// A law: the rules of a book that run are exactly those that were not deleted and can be read, in their one order.
pub fn rules_are_ranked()
    ensures { RulesAreRanked }
{}

/// A law: a rule changes a transaction where all of its conditions hold on it, or one of them does, as the rule says. One without
/// conditions changes nothing, nor does one that can't be read. Each has what the rules before it made.
pub fn rules_follow_one_another()
    ensures { RulesFollowOneAnother }
{}

/// A law: texts are the same exactly where they match under Unicode's default caseless matching, and one text has another exactly where
/// that one stands in it as it is.
pub fn texts_are_compared()
    ensures { TextsAreCompared }
{}
