//! The outside: files that are read, and outputs that are written, as a trait that code above is generic over. Desks of it: the
//! machine's own, one in memory whose calls may be made to fail, one that drops a log which was not begun, and one that never fails. Reading a file whole, and giving bytes
//! whole.
#![tactic(auto)]

mod desk;
mod dropping;
mod files;
mod log_file;
mod memory;
mod real;
mod sheet;
mod still;
mod whole;

pub use desk::{Desk, Failed, To};
pub use dropping::DroppingDesk;
pub use files::Files;
pub use memory::MemoryDesk;
pub use real::{RealDesk, StandardStreams};
pub use still::StillDesk;
pub use whole::{ReadStop, give_all, read_all};
