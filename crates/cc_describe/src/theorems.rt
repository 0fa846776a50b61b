//! Theorems over the definitions. Their functions call those that they rest on.
ghost use Rattle.cc_describe.specs.Places.{HasPlaces, OneListOfPlaces};

use cc_syntax::theorems::{one_tree, tree_or_refusal};
use cc_text::theorems::{cut_or_stop, cuts_or_stops, one_cut, one_stop, statements_are_tokens};

/// The files of a description have one list of places.
pub fn one_list_of_places()
    ensures { OneListOfPlaces }
{
    one_cut();
    one_stop();
    cuts_or_stops();
    one_tree();
}

/// The files of a description have a list of places, whatever is in them.
pub fn has_places()
    ensures { HasPlaces }
{
    cut_or_stop();
    statements_are_tokens();
    tree_or_refusal();
}
