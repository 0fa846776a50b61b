//! What a checker says of a log of rivals.
use cc_check::SilentVerdict;
use cc_defs::Cause;

/// What a checker says of a log of rivals.
#[derive(Clone, Copy, PartialEq, Eq)]
pub enum GeneralVerdict {
    /// Each line is right, and so many sections show that their rows are histories.
    Accepted { histories: u32 },
    /// The first wrong line, from 1, and the first cause that it has.
    Refused { line: u32, cause: Cause },
}

impl From<SilentVerdict> for GeneralVerdict {
    ghost use Rattle.std.specs.Prelude.{◌≡◌};
    ghost use Rattle.cc_silent.specs.GeneralLogs.{as_silent};

    ghost from_gives = { λ verdict found. as_silent found ≡ verdict };

    fn from(verdict: SilentVerdict) -> Self {
        match verdict {
            SilentVerdict::Accepted { sections } => GeneralVerdict::Accepted {
                histories: sections,
            },
            SilentVerdict::Refused { line, cause } => GeneralVerdict::Refused { line, cause },
        }
    }
}

impl From<GeneralVerdict> for SilentVerdict {
    ghost use Rattle.std.specs.Prelude.{◌≡◌};
    ghost use Rattle.cc_silent.specs.GeneralLogs.{as_silent};

    ghost from_gives = { λ found verdict. verdict ≡ as_silent found };

    fn from(found: GeneralVerdict) -> Self {
        match found {
            GeneralVerdict::Accepted { histories } => SilentVerdict::Accepted {
                sections: histories,
            },
            GeneralVerdict::Refused { line, cause } => SilentVerdict::Refused { line, cause },
        }
    }
}
