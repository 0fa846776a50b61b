//! Examples of numbers, sums and comparisons whose meaning is known beforehand, each the contract of a function with no body.
ghost use Rattle.cc_tests_texts.specs.NumberExamples.{NumbersAreObjects, RangesAreRefused, SumsAreJudged, CountersStop, ComparisonsAreGround, ListsAreCounted, SignsAreSpelled};

fn numbers_are_objects()
    ensures { NumbersAreObjects }
{}

fn ranges_are_refused()
    ensures { RangesAreRefused }
{}

fn sums_are_judged()
    ensures { SumsAreJudged }
{}

fn counters_stop()
    ensures { CountersStop }
{}

fn comparisons_are_ground()
    ensures { ComparisonsAreGround }
{}

fn lists_are_counted()
    ensures { ListsAreCounted }
{}

fn signs_are_spelled()
    ensures { SignsAreSpelled }
{}

#[test]
fn number_examples_are_as_they_should(_rt: HostRuntime) {
    numbers_are_objects();
    ranges_are_refused();
    sums_are_judged();
    counters_stop();
    comparisons_are_ground();
    lists_are_counted();
    signs_are_spelled();
}
