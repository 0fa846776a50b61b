//! The modes besides list mode, each in a file of its own: what it does once the description is there, and the query and the key where it asks one; models are of a
//! CNF, which is read in its place.
pub(crate) mod check;
pub(crate) mod convert;
pub(crate) mod export;
pub(crate) mod forever;
pub(crate) mod forever_check;
pub(crate) mod general;
pub(crate) mod general_check;
pub(crate) mod make;
pub(crate) mod models;
pub(crate) mod models_check;
pub(crate) mod sure;
pub(crate) mod sure_check;
pub(crate) mod why;
