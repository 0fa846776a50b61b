//! What the modes besides list mode tell: causes, what is certain, histories where heads are of any form, what holds at every horizon,
//! models, and verdicts of silent sections, each line of an output by one call; and the one way in which a run is told, event by event,
//! up to its end.
#![tactic(auto)]

mod causes;
mod certain;
mod forever;
mod forever_voices;
mod generally;
mod models;
mod runs;
mod silent;
mod voice;
mod voices;

pub use causes::tell_causes;
pub use certain::tell_sure;
pub use forever::{AskedForever, JudgedForever, tell_forever, tell_forever_verdict};
pub use forever_voices::{ClaimVoice, PlanVoice};
pub use generally::tell_general;
pub use models::{Lister, give_heading, tell_clause, tell_end, tell_model};
pub use runs::tell_all;
pub use silent::tell_silent_verdict;
pub use voice::Voice;
pub use voices::{GeneralVoice, SureVoice};
