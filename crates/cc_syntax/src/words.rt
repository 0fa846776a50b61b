//! Which words no declaration may use as a name.
ghost use Rattle.std.specs.Prelude.{◌≡◌};
ghost use Rattle.cc_defs.specs.Grammar.{is_reserved, is_value_word};

/// The words of laws, of terms, queries and directives, and of declarations of constants.
const RESERVED: [&str; 34] = [
    "caused",
    "if",
    "after",
    "default",
    "inertial",
    "exogenous",
    "constraint",
    "always",
    "nonexecutable",
    "causes",
    "may",
    "cause",
    "where",
    "noconcurrency",
    "true",
    "false",
    "none",
    "maxstep",
    "label",
    "claim",
    "sorts",
    "objects",
    "variables",
    "constants",
    "query",
    "include",
    "of",
    "simpleFluent",
    "inertialFluent",
    "sdFluent",
    "rigid",
    "action",
    "exogenousAction",
    "attribute",
];

/// Whether no declaration may use the word as a name.
pub(crate) fn is_reserved_word(text: &str) -> bool
    ensures { result ≡ is_reserved text.now }
{
    RESERVED.contains(&text)
}

/// Whether the word is a value, and so a term: `true`, `false` or `none`.
pub(crate) fn is_word_of_value(text: &str) -> bool
    ensures { result ≡ is_value_word text.now }
{
    matches!(text, "true" | "false" | "none")
}
