//! Which names of files are taken.
ghost use Rattle.std.specs.Prelude.{◌≡◌};
ghost use Rattle.cc_words.specs.Requests as requests;
ghost use Rattle.cc_words.specs.Requests.{are_shown};

/// Whether a byte, behind another, is of no control character: of none of ASCII, and of none from U+0080 to U+009F, which are
/// the byte 194 and one up to 159.
fn is_shown(after: u8, byte: u8) -> bool
    ensures { result ≡ requests.is_shown after byte }
{
    32 <= byte && byte != 127 && !(after == 194 && byte <= 159)
}

/// Whether a name has no control character.
pub(crate) fn is_plain_name(name: &str) -> bool
    ensures { result ≡ are_shown 0 name.now }
{
    let mut after = 0;
    for byte in name.as_bytes() {
        if !is_shown(after, *byte) {
            return false;
        }
        after = *byte;
    }
    true
}
