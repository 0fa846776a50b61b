//! Examples whose answers are known beforehand, each the contract of a function with no body.
ghost use Rattle.cc_tests_texts.specs.Examples.{EmptyRowIsState, SimpleFluentsAreFree, DeterminedNeedsCause, OneValueNeedsNoCause, CausesThatDifferClash, CausesMayStandInCircle, FalsityForbids, LampHasSoManyRules, LampTurns, LampStays, LampDoesNothingElse, LampTurnsTwice, LampEndsOnInTwoWays, KeysAreWritten, LampHistoryIsWritten, AttributeShowsNone, SortsHaveObjects, DeclarationsAreRefused, ConstantsAreGround, AttributesAreRefused, EmptyDomainsAreRefused, TestsDropEnvironments, LawsAreGround, LawsHaveForms, BracketsStandInTests, BracketsBindTheirVariable, HeadsMustBeThere, LawsStandForAllObjects, BracketsGoOverObjects, ActionsAreNotTogether, PairsAreInOrder};

fn empty_row_is_state()
    ensures { EmptyRowIsState }
{}

fn simple_fluents_are_free()
    ensures { SimpleFluentsAreFree }
{}

fn determined_needs_cause()
    ensures { DeterminedNeedsCause }
{}

fn one_value_needs_no_cause()
    ensures { OneValueNeedsNoCause }
{}

fn causes_that_differ_clash()
    ensures { CausesThatDifferClash }
{}

fn causes_may_stand_in_circle()
    ensures { CausesMayStandInCircle }
{}

fn falsity_forbids()
    ensures { FalsityForbids }
{}

fn lamp_has_so_many_rules()
    ensures { LampHasSoManyRules }
{}

fn lamp_turns()
    ensures { LampTurns }
{}

fn lamp_stays()
    ensures { LampStays }
{}

fn lamp_does_nothing_else()
    ensures { LampDoesNothingElse }
{}

fn lamp_turns_twice()
    ensures { LampTurnsTwice }
{}

fn lamp_ends_on_in_two_ways()
    ensures { LampEndsOnInTwoWays }
{}

fn keys_are_written()
    ensures { KeysAreWritten }
{}

fn lamp_history_is_written()
    ensures { LampHistoryIsWritten }
{}

fn attribute_shows_none()
    ensures { AttributeShowsNone }
{}

fn tests_drop_environments()
    ensures { TestsDropEnvironments }
{}

fn laws_are_ground()
    ensures { LawsAreGround }
{}

fn laws_have_forms()
    ensures { LawsHaveForms }
{}

fn brackets_stand_in_tests()
    ensures { BracketsStandInTests }
{}

fn brackets_bind_their_variable()
    ensures { BracketsBindTheirVariable }
{}

fn heads_must_be_there()
    ensures { HeadsMustBeThere }
{}

fn laws_stand_for_all_objects()
    ensures { LawsStandForAllObjects }
{}

fn brackets_go_over_objects()
    ensures { BracketsGoOverObjects }
{}

fn actions_are_not_together()
    ensures { ActionsAreNotTogether }
{}

fn pairs_are_in_order()
    ensures { PairsAreInOrder }
{}

fn sorts_have_objects()
    ensures { SortsHaveObjects }
{}

fn declarations_are_refused()
    ensures { DeclarationsAreRefused }
{}

fn constants_are_ground()
    ensures { ConstantsAreGround }
{}

fn empty_domains_are_refused()
    ensures { EmptyDomainsAreRefused }
{}

fn attributes_are_refused()
    ensures { AttributesAreRefused }
{}

#[test]
fn examples_hold() {
    empty_row_is_state();
    simple_fluents_are_free();
    determined_needs_cause();
    one_value_needs_no_cause();
    causes_that_differ_clash();
    causes_may_stand_in_circle();
    falsity_forbids();
    lamp_has_so_many_rules();
    lamp_turns();
    lamp_stays();
    lamp_does_nothing_else();
    lamp_turns_twice();
    lamp_ends_on_in_two_ways();
    keys_are_written();
    lamp_history_is_written();
    attribute_shows_none();
    tests_drop_environments();
    laws_stand_for_all_objects();
    brackets_go_over_objects();
    actions_are_not_together();
    pairs_are_in_order();
    sorts_have_objects();
    declarations_are_refused();
    constants_are_ground();
    attributes_are_refused();
    empty_domains_are_refused();
}
