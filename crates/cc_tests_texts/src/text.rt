//! Texts and their cuts, taken from the description of the language and not from the scanner.
ghost use Rattle.std.specs.Prelude.{◌≤◌, length};

use cc_defs::{Fault, LimitAt, Mark, Token, TokenKind};
use cc_text::{Tokens, theorems};
use std::alloc::Global;
use std::test::Fail;

/// The marks, as the language lists them.
const MARKS: [(&str, Mark); 27] = [
    (":-", Mark::Turn),
    ("::", Mark::DoubleColon),
    (":", Mark::Colon),
    (";", Mark::Semicolon),
    (",", Mark::Comma),
    ("..", Mark::DotDot),
    (".", Mark::Dot),
    ("(", Mark::LeftParen),
    (")", Mark::RightParen),
    ("[", Mark::LeftBracket),
    ("]", Mark::RightBracket),
    ("|", Mark::Bar),
    ("/\\", Mark::AllSign),
    ("\\/", Mark::AnySign),
    ("\\=", Mark::NotEqual),
    ("&", Mark::And),
    ("++", Mark::Or),
    ("+", Mark::Plus),
    ("->>", Mark::Arrow),
    ("-", Mark::Minus),
    ("<->", Mark::DoubleArrow),
    ("<", Mark::Less),
    ("=<", Mark::AtMost),
    ("=", Mark::Equal),
    (">>", Mark::Above),
    (">=", Mark::AtLeast),
    (">", Mark::More),
];

/// Each token as its line and its text, and a `|` behind each statement.
fn shown(alloc: Global, bytes: &[u8]) -> Result<String, Fault>
    requires { length bytes.now ≤ 268435456 }
{
    let tokens = match Tokens::read(alloc, 7, bytes) {
        Ok(tokens) => tokens,
        Err(fault) => return Err(fault),
    };
    let mut text = String::new(alloc);
    for i in 0..tokens.count() {
        for token in tokens.statement(i) {
            text.push_str(&format!(in alloc; "{}:{} ", token.line, token.text())?)?;
        }
        text.push_str("|")?;
    }
    Ok(text)
}

/// How many bytes the longest mark at the front has.
fn longest_mark(bytes: &[u8]) -> usize {
    let mut longest = 0;
    for (mark, _) in MARKS {
        if bytes.starts_with(mark.as_bytes()) {
            longest = longest.max(mark.len());
        }
    }
    longest
}

/// How many bytes each mark of a text of marks has.
fn lengths_wanted(alloc: Global, bytes: &[u8]) -> Result<Vec<usize>, Fault> {
    let mut rest = bytes;
    let mut lengths = Vec::new(alloc);
    for _ in 0..bytes.len() {
        let length = longest_mark(rest);
        lengths.push(length)?;
        rest = rest.get(length..).unwrap_or(&[]);
        if rest.is_empty() {
            break;
        }
    }
    Ok(lengths)
}

/// How many bytes each token has.
fn lengths_of(alloc: Global, bytes: &[u8]) -> Result<Vec<usize>, Fault>
    requires { length bytes.now ≤ 268435456 }
{
    let tokens = match Tokens::read(alloc, 7, bytes) {
        Ok(tokens) => tokens,
        Err(fault) => return Err(fault),
    };
    let mut lengths = Vec::new(alloc);
    for i in 0..tokens.count() {
        for token in tokens.statement(i) {
            lengths.push(token.text().len())?;
        }
    }
    Ok(lengths)
}

/// Whether two marks that stand side by side are cut into the longest marks, one by one.
fn is_cut_at_marks(alloc: Global, first: &str, second: &str) -> Result<bool, Fault> {
    let text = format!(in alloc; "{first}{second}")?;
    let bytes = text.as_str().as_bytes();
    if bytes.len() > 6 {
        return Ok(false);
    }
    let lengths = lengths_of(alloc, bytes)?;
    let wanted = lengths_wanted(alloc, bytes)?;
    Ok(lengths.as_slice() == wanted.as_slice())
}

#[test]
fn each_mark_beside_each_other(rt: HostRuntime) -> Result<(), Fail> {
    for (first, _) in MARKS {
        for (second, _) in MARKS {
            assert!(rt;
                is_cut_at_marks(rt.alloc(), first, second)?,
                "{first}{second}"
            );
        }
    }
    Ok(())
}

/// Whether a text is one token of this kind.
fn is_one_token(alloc: Global, bytes: &[u8], kind: TokenKind) -> Result<bool, Fault> {
    if bytes.len() > 1000 {
        return Ok(false);
    }
    let tokens = Tokens::read(alloc, 0, bytes)?;
    if tokens.count() != 1 {
        return Ok(false);
    }
    let first: Token = tokens.statement(0)[0];
    Ok(first.kind() == kind && first.text().as_bytes() == bytes && tokens.line(0) == 1)
}

#[test]
fn each_mark_is_one_token(rt: HostRuntime) -> Result<(), Fail> {
    for (text, mark) in MARKS {
        let kind = TokenKind::Mark(mark);
        assert!(rt; is_one_token(rt.alloc(), text.as_bytes(), kind)?, "{text}");
    }
    Ok(())
}

/// Whether a text has these tokens.
fn has_tokens(alloc: Global, bytes: &[u8], tokens: &str) -> Result<bool, Fault> {
    if bytes.len() > 1000 {
        return Ok(false);
    }
    let text = shown(alloc, bytes)?;
    Ok(text.as_str() == tokens)
}

#[test]
fn texts_have_their_tokens(rt: HostRuntime) -> Result<(), Fail> {
    for (text, tokens) in [
        ("", ""),
        (" \t\r\n", ""),
        ("% only a comment", ""),
        ("0:-on", "1:0 1::- 1:on |"),
        ("0: -on", "1:0 1:: 1:- 1:on |"),
        ("p.\r\nq\r", "1:p 1:. |2:q |"),
        ("a. b", "1:a 1:. |1:b |"),
        (".a", "1:. |1:a |"),
        ("..a", "1:.. 1:a |"),
        ("1a_B2 a1", "1:1 1:a_B2 1:a1 |"),
        ("p%q.\nr.% s", "1:p 2:r 2:. |"),
        ("p %\n\n% 'x\n.\n q", "1:p 4:. |5:q |"),
        ("'%' 'it.'.", "1:'%' 1:'it.' 1:. |"),
        (
            ":- constants\n  p, q :: simpleFluent.\ncaused p\n  if q.",
            "1::- 1:constants 2:p 2:, 2:q 2::: 2:simpleFluent 2:. |3:caused 3:p 4:if 4:q 4:. |",
        ),
        ("% \u{e9}\u{4e2d}\u{1f600}\np.", "2:p 2:. |"),
    ] {
        assert!(rt; has_tokens(rt.alloc(), text.as_bytes(), tokens)?, "{text}");
    }
    assert!(rt; has_tokens(rt.alloc(), b"p %\x80\xff\x00", "1:p |")?);
    Ok(())
}

/// The number, the line and the limit of a text's refusal, and 0 where there is none.
fn refused(alloc: Global, bytes: &[u8]) -> (u8, u32, Option<LimitAt>)
    requires { length bytes.now ≤ 268435456 }
{
    match shown(alloc, bytes) {
        Err(Fault::Refused(refusal)) if refusal.file == 7 => {
            (refusal.number, refusal.line, refusal.limit)
        }
        _ => (0, 0, None),
    }
}

#[test]
fn texts_are_refused(rt: HostRuntime) {
    for (text, line) in [
        (":- sorts s#.", 1),
        ("p.\n\n ?", 3),
        ("_p", 1),
        ("p\n'q", 2),
        ("'", 1),
        ("''", 1),
        ("p 'q\nr'", 1),
        ("'\t'", 1),
        ("/ \\", 1),
        ("% \u{e9}\n\u{e9}", 2),
        ("p\u{b}", 1),
        ("# 1234567890", 1),
    ] {
        assert!(rt;
            refused(rt.alloc(), text.as_bytes()) == (2, line, None),
            "{text}"
        );
    }
    let first = refused(rt.alloc(), b"p\n1234567890 #".as_slice());
    assert!(rt; first == (14, 2, Some(LimitAt::NumberDigits)));
}

/// The byte so many times, between the same two pieces.
fn repeated(alloc: Global, around: &str, byte: u8, count: usize) -> Result<Vec<u8>, Fault> {
    let mut bytes = Vec::from_slice(alloc, around.as_bytes())?;
    for _ in 0..count {
        bytes.push(byte)?;
    }
    bytes.extend_from_slice(around.as_bytes())?;
    Ok(bytes)
}

#[test]
fn tokens_have_limits(rt: HostRuntime) -> Result<(), Fail> {
    for (around, byte, count, number, limit) in [
        ("", b'a', 255, 0, None),
        ("", b'a', 256, 14, Some(LimitAt::TokenBytes)),
        ("", b'7', 9, 0, None),
        ("", b'7', 10, 14, Some(LimitAt::NumberDigits)),
        ("'", b'a', 255, 0, None),
        ("'", b'a', 256, 14, Some(LimitAt::TokenBytes)),
        ("'", b'a', 254, 0, None),
        ("p\n", b'#', 300, 2, None),
    ] {
        let bytes = repeated(rt.alloc(), around, byte, count)?;
        if bytes.len() <= 1000 {
            let (found, _, why) = refused(rt.alloc(), bytes.as_slice());
            assert!(rt; (found, why) == (number, limit), "{count}");
        }
    }
    Ok(())
}

/// All printable bytes but the quote, in quotes.
fn printable_bytes(alloc: Global) -> Result<Vec<u8>, Fault> {
    let mut bytes = vec![in alloc; b'\'']?;
    for byte in 32u8..127 {
        if byte != b'\'' {
            bytes.push(byte)?;
        }
    }
    bytes.push(b'\'')?;
    Ok(bytes)
}

#[test]
fn printable_bytes_stand_in_quotes(rt: HostRuntime) -> Result<(), Fail> {
    let bytes = printable_bytes(rt.alloc())?;
    assert!(rt; bytes.len() == 96);
    assert!(rt; is_one_token(rt.alloc(), bytes.as_slice(), TokenKind::Quoted)?);
    Ok(())
}

#[test]
fn laws_are_called(_rt: HostRuntime) {
    theorems::one_cut();
    theorems::one_stop();
    theorems::cuts_or_stops();
    theorems::cut_or_stop();
    theorems::statements_are_tokens();
}
