//! Examples of clause lists, logs and runs whose answers are known beforehand, each the contract of a function with no body.
ghost use Rattle.cc_tests_texts.specs.SearchExamples.{LampHasFiveClauses, LampHasTwentySevenClauses, KeysAreClauses, FourAreOpen, FourteenAreOpen, LinesAreEarned, SectionsAreRight, EmptyLogsAreWrong, ClaimsThatHoldAreTold, ClaimsOfNothingAreTold, ClaimsThatFailAreTold, ListingsAreTold, EntriesAreWritten, DistancesAreMeant};

fn lamp_has_five_clauses()
    ensures { LampHasFiveClauses }
{}

fn lamp_has_twenty_seven_clauses()
    ensures { LampHasTwentySevenClauses }
{}

fn keys_are_clauses()
    ensures { KeysAreClauses }
{}

fn four_are_open()
    ensures { FourAreOpen }
{}

fn fourteen_are_open()
    ensures { FourteenAreOpen }
{}

fn lines_are_earned()
    ensures { LinesAreEarned }
{}

fn sections_are_right()
    ensures { SectionsAreRight }
{}

fn empty_logs_are_wrong()
    ensures { EmptyLogsAreWrong }
{}

fn claims_that_hold_are_told()
    ensures { ClaimsThatHoldAreTold }
{}

fn claims_of_nothing_are_told()
    ensures { ClaimsOfNothingAreTold }
{}

fn claims_that_fail_are_told()
    ensures { ClaimsThatFailAreTold }
{}

fn listings_are_told()
    ensures { ListingsAreTold }
{}

fn entries_are_written()
    ensures { EntriesAreWritten }
{}

fn distances_are_meant()
    ensures { DistancesAreMeant }
{}

#[test]
fn search_examples_are_as_they_should(_rt: HostRuntime) {
    lamp_has_five_clauses();
    lamp_has_twenty_seven_clauses();
    keys_are_clauses();
    four_are_open();
    fourteen_are_open();
    lines_are_earned();
    sections_are_right();
    empty_logs_are_wrong();
    claims_that_hold_are_told();
    claims_of_nothing_are_told();
    claims_that_fail_are_told();
    listings_are_told();
    entries_are_written();
    distances_are_meant();
}
