//! Plain data of the causal calculator, and the definitions that every other crate cites: causal theories and
//! their models, the rules of a horizon, states, transitions, paths, histories of a query and the printed texts.
//! The definitions stand in `specs/`, and docs/definitions.md lists them. Its code is constructors and readers of the data, the digits
//! of a number, and the search by halves in a sorted index. What `run` is proved of rests on further definitions, which stand in the
//! specs of the crates that make the things they speak of: how a text is read (cc_laws, cc_describe), the words of the program
//! (cc_words) and what a run promises (cc_list, cc_run); docs/theorem.md leads through them.
#![tactic(auto)]

mod digits;
mod event;
mod formula;
mod index;
mod law;
mod list;
mod lists;
mod literal;
mod log;
mod node;
mod refusal;
mod rows;
mod sig;
mod signature;
pub mod theorems;
mod token;
mod tree;

pub use digits::{is_digit_byte, is_numeral, number_of_digits};
pub use event::{Ending, Event, Outcome, Told};
pub use formula::{Formula, Term};
pub use law::{BaseLaw, BaseLaws, Condition, Head, Law, Queries, Query, Range};
pub use list::List;
pub use lists::{Bytes, Key, Lits, Name, Names, Nums, Row, Text};
pub use literal::Lit;
pub use log::{Cause, EndWord, LogLine, LogVerdict, Version};
pub use node::{GroundHead, Node};
pub use refusal::{Fault, LimitAt, OutOfMemory, Refusal};
pub use rows::compare_rows;
pub use sig::Sig;
pub use signature::{At, Const, Kind, LawKind, Symbol};
pub use token::{Mark, Token, TokenKind};
pub use tree::{
    Addend, ConstItem, KindTree, KindWord, LawTree, ListItem, Member, ObjItem, Part, Piece,
    QueryItem, Shape, SortItem, Statement, SumTree, TermTree, Tree,
};
