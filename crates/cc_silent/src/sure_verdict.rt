//! What a checker says of a log of impossible atoms.
use cc_check::SilentVerdict;
use cc_defs::Cause;

/// What a checker says of a log of impossible atoms.
#[derive(Clone, Copy, PartialEq, Eq)]
pub enum SureVerdict {
    /// Each line is right, and so many sections show that their atoms are impossible.
    Accepted { impossible: u32 },
    /// The first wrong line, from 1, and the first cause that it has.
    Refused { line: u32, cause: Cause },
}

impl From<SilentVerdict> for SureVerdict {
    ghost use Rattle.std.specs.Prelude.{◌≡◌};
    ghost use Rattle.cc_silent.specs.SureLogs.{as_silent};

    ghost from_gives = { λ verdict found. as_silent found ≡ verdict };

    fn from(verdict: SilentVerdict) -> Self {
        match verdict {
            SilentVerdict::Accepted { sections } => SureVerdict::Accepted {
                impossible: sections,
            },
            SilentVerdict::Refused { line, cause } => SureVerdict::Refused { line, cause },
        }
    }
}

impl From<SureVerdict> for SilentVerdict {
    ghost use Rattle.std.specs.Prelude.{◌≡◌};
    ghost use Rattle.cc_silent.specs.SureLogs.{as_silent};

    ghost from_gives = { λ found verdict. verdict ≡ as_silent found };

    fn from(found: SureVerdict) -> Self {
        match found {
            SureVerdict::Accepted { impossible } => SilentVerdict::Accepted {
                sections: impossible,
            },
            SureVerdict::Refused { line, cause } => SilentVerdict::Refused { line, cause },
        }
    }
}
