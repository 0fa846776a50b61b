//! Theorems on keys, each the contract of a function with no body.
ghost use Rattle.cc_print.specs.Laws.{OneKey, WrittenIsRead, WrittenApart};

/// A text is that of one key at most.
pub fn one_key()
    ensures { OneKey }
{}

/// The written text of a key whose numbers have at most nine digits is read as that key.
pub fn written_is_read()
    ensures { WrittenIsRead }
{}

/// Two keys, of any numbers that the program has, are equal where their written texts are.
pub fn written_apart()
    ensures { WrittenApart }
{}
