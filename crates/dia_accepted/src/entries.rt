//! The entries of a list: what of a line precedes a comment.
ghost use Rattle.std.specs.Prelude.{◌≡◌};
ghost use Rattle.dia_accepted.specs.Words.{before_hash, ends_blank, entry_text};

/// The entry of a line: what precedes a comment, without the white space at its end.
pub fn entry_text(line: &str) -> &str
    ensures { result.now ≡ entry_text line.now }
{
    let front = before_hash(line);
    if ends_blank(front) {
        front.trim_end()
    } else {
        line.trim_end()
    }
}

fn before_hash(line: &str) -> &str
    ensures { result.now ≡ before_hash line.now }
{
    match line.split_once('#') {
        Some((front, _)) => front,
        None => line,
    }
}

fn ends_blank(text: &str) -> bool
    ensures { result ≡ ends_blank text.now }
{
    text.trim_end().len() < text.len() || text.len() == 0
}
