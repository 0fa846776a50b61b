//! The judges of logs of silent sections: of a log of what is impossible, which sure mode writes (`check_sure`), of a log of rivals,
//! which general mode writes (`check_general`), and of a log of an induction over horizons, which forever mode writes (`check_forever`).
//! They stand on no crate of the search.
#![tactic(auto)]

mod forever;
mod forever_verdict;
mod general;
mod general_verdict;
mod parts;
mod sure;
mod sure_verdict;

pub use forever::{ForeverHeading, check_forever};
pub use forever_verdict::ForeverVerdict;
pub use general::check_general;
pub use general_verdict::GeneralVerdict;
pub use sure::{AtomHeading, check_sure};
pub use sure_verdict::SureVerdict;
