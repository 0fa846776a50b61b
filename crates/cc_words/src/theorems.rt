//! Theorems on the words, each the contract of a function that does nothing.
ghost use Rattle.cc_words.specs.Laws.{PlainWordsReadAsTheyStand};

/// Words of the plain form read as they stand: each option has its value, and the file is the last word.
pub fn plain_words_read_as_they_stand()
    ensures { PlainWordsReadAsTheyStand }
{}
