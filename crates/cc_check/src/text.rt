//! The lines of a text.
ghost use Rattle.std.specs.Prelude.{◌<◌, length};
ghost use Rattle.cc_check.specs.Texts.{IsFirstLine};

/// The first line of a text, its line feed included, and what stands behind it. The last line may have no line feed.
pub fn first_line(text: &[u8]) -> (&[u8], &[u8])
    requires { 0 < length text.now }
    ensures { IsFirstLine text.now result.0.now result.1.now }
{
    for (i, byte) in text.iter().enumerate() {
        if *byte == b'\n' {
            return text.split_at(i + 1);
        }
    }
    text.split_at(text.len())
}
