//! The first lines of a text, and what follows them.
ghost use Rattle.std.specs.Prelude.{◌≡◌, length};
ghost use Rattle.nextest_places.specs.Lines.{after_lines, first_lines};

/// The first `count` lines of a text, and what follows them.
pub(crate) fn split_lines(text: &str, count: usize) -> (&str, &str)
    ensures front { result.0.now ≡ first_lines count text.now }
    ensures rest { result.1.now ≡ after_lines count text.now }
{
    text.split_at(end_of(text, count))
}

/// Where the first `count` lines of a text end.
fn end_of(text: &str, count: usize) -> usize
    ensures { result ≡ length (first_lines count text.now) }
{
    let bytes = text.as_bytes();
    let mut left = count;
    for (i, byte) in bytes.iter().enumerate() {
        if left == 0 {
            return i;
        }
        if *byte == b'\n' {
            left -= 1;
        }
    }
    bytes.len()
}
