//! What the words ask for.
ghost use Rattle.std.specs.Prelude.{◌≡◌, IfOk, List, Option, map, option_and_then, string_bytes};
ghost use Rattle.cc_words.specs.Readings.{reading};
ghost use Rattle.cc_words.specs.Requests.{asked_of};
ghost use Rattle.cc_words.specs.Views.{plain_asked};
ghost use Rattle.cc_words.specs.Words.{IsPlain, Pair, Text, given_of};

use crate::asked::Asked;
use crate::parse::asked_by;
use crate::theorems::plain_words_read_as_they_stand;
use cc_defs::OutOfMemory;
use std::alloc::Global;

/// What the words ask for, without the program's name; `None` where they have no reading.
pub fn read<'a>(alloc: Global, words: &'a [String]) -> Result<Option<Asked<'a>>, OutOfMemory>
    // options with their values, and then a file, read as they stand
    ensures plain { (pairs : List Pair) (file : Option Text) →
        IsPlain pairs file (map string_bytes words.entry.now) →
        IfOk result (λ asked. plain_asked asked ≡ asked_of (given_of pairs file)) }
    // all words read as the command gives them, where it takes them
    ensures taken { IfOk result (λ asked.
        plain_asked asked ≡ option_and_then asked_of (reading (map string_bytes words.entry.now))) }
{
    plain_words_read_as_they_stand();
    asked_by(alloc, words)
}
