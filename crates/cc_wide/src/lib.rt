//! Causal laws whose heads are formulas of any form, and what they mean.
#![tactic(auto)]

mod ground;
mod law;

pub use ground::{WideGround, WideGroundLaw};
pub use law::{WideBase, WideLaw, WideLaws};
