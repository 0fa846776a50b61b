//! Tokens of a text.
ghost use Rattle.std.specs.Prelude.{◌≡◌};

/// A mark of the language.
#[derive(Clone, Copy, PartialEq, Eq)]
pub enum Mark {
    /// `:-`
    Turn,
    /// `::`
    DoubleColon,
    /// `:`
    Colon,
    /// `;`
    Semicolon,
    /// `,`
    Comma,
    /// `..`
    DotDot,
    /// `.`
    Dot,
    /// `(`
    LeftParen,
    /// `)`
    RightParen,
    /// `[`
    LeftBracket,
    /// `]`
    RightBracket,
    /// `|`
    Bar,
    /// `/\`
    AllSign,
    /// `\/`
    AnySign,
    /// `\=`
    NotEqual,
    /// `&`
    And,
    /// `++`
    Or,
    /// `+`
    Plus,
    /// `->>`
    Arrow,
    /// `-`
    Minus,
    /// `<->`
    DoubleArrow,
    /// `<`
    Less,
    /// `=<`
    AtMost,
    /// `=`
    Equal,
    /// `>>`
    Above,
    /// `>=`
    AtLeast,
    /// `>`
    More,
}

/// What a token is.
#[derive(Clone, Copy, PartialEq, Eq)]
pub enum TokenKind {
    /// A letter, then letters, digits and `_`.
    Word,
    /// Digits.
    Number,
    /// A name in quotes.
    Quoted,
    Mark(Mark),
}

/// A token: what it is, the slice of the source that it is, and its line, from 1.
#[derive(Clone, Copy)]
pub struct Token<'s> {
    pub kind: TokenKind,
    pub text: &'s str,
    pub line: u32,
}

impl<'s> Token<'s> {
    /// The slice of the source, with its quotes where it is a quoted name.
    pub fn text(&self) -> &'s str
        ensures { result.now ≡ self.now.text.now }
    {
        self.text
    }

    /// Which kind of token it is.
    pub fn kind(&self) -> TokenKind
        ensures { result ≡ self.now.kind }
    {
        self.kind
    }
}
