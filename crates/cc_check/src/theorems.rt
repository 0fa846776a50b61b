//! Theorems on the reading of logs, each the contract of a function that does nothing.
ghost use Rattle.cc_check.specs.Laws.{MisreadsAreVerdicts, SectionsGiveVerdicts, SilentSectionsHaveNoRows};

use cc_clauses::theorems::resolvents_are_sound;

/// A log that is refused before a section of it is looked at has that verdict.
pub fn misreads_are_verdicts()
    ensures { MisreadsAreVerdicts }
{}

/// What the sections of a log are judged to be is the verdict of the log.
pub fn sections_give_verdicts()
    ensures { SectionsGiveVerdicts }
{}

/// Where a section without blocks is right and ends with `empty`, its axioms have no row.
pub fn silent_sections_have_no_rows()
    ensures { SilentSectionsHaveNoRows }
{
    resolvents_are_sound();
}
