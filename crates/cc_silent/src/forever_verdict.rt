//! What a checker says of a log of an induction over horizons.
use cc_check::SilentVerdict;
use cc_defs::Cause;

/// What a checker says of a log of an induction over horizons.
#[derive(Clone, Copy, PartialEq, Eq)]
pub enum ForeverVerdict {
    /// Each line is right: so many horizons from the least one on have no history, nor has the step over as many.
    Accepted { steps: u32 },
    /// The first wrong line, from 1, and the first cause that it has.
    Refused { line: u32, cause: Cause },
}

impl From<SilentVerdict> for ForeverVerdict {
    ghost use Rattle.std.specs.Prelude.{◌≡◌};
    ghost use Rattle.cc_silent.specs.ForeverLogs.{HasSections, as_silent};

    ghost from_gives = { λ verdict found. HasSections verdict → as_silent found ≡ verdict };

    fn from(verdict: SilentVerdict) -> Self {
        match verdict {
            SilentVerdict::Accepted { sections } => ForeverVerdict::Accepted {
                steps: sections.saturating_sub(1),
            },
            SilentVerdict::Refused { line, cause } => ForeverVerdict::Refused { line, cause },
        }
    }
}
