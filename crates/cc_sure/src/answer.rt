//! What is answered of an atom.

/// What is answered of an atom: a position of a horizon, and a value of it.
#[derive(Clone, Copy)]
pub enum Answer {
    /// Every history has it.
    Certain,
    /// Some history has it, and another one has not. The number is that of the first example that has it, from 1.
    Possible { example: u32 },
    /// No history has it.
    Impossible,
}
