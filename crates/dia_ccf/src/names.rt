//! Names.
ghost use Rattle.std.specs.Prelude.{◌≡◌, ◌↔◌, IsTrue, map};
ghost use Rattle.std.specs.Char.{to_ascii_lowercase};
ghost use Rattle.dia_ccf.specs.Names.{is_name, same_bytes};

use crate::lexer::is_name_run;
use dia_terms::MAX_NAME;

/// Whether the text is a name of a dictionary: at most [`MAX_NAME`] ASCII letters, digits and dashes, of which
/// the first is no dash and one at least is a letter, and not `AVP`. That a name may begin with a digit is our
/// profile: RFC 6733 section 3.2 has a letter there. A [`Source`](crate::Source) holds no other names.
pub fn is_name(text: &str) -> bool
    ensures { IsTrue result ↔ IsTrue (is_name text.now) }
{
    is_name_run(text.as_bytes()) && text.len() <= MAX_NAME && !is_same(text, "AVP")
}

/// Whether two texts are the same.
pub(crate) fn is_same(a: &str, b: &str) -> bool
    ensures { result ≡ same_bytes a.now b.now }
{
    a == b
}

/// Whether two texts are the same but for the case of their ASCII letters.
pub(crate) fn is_same_word(a: &str, b: &str) -> bool
    ensures { result ≡ same_bytes (map to_ascii_lowercase a.now) (map to_ascii_lowercase b.now) }
{
    a.eq_ignore_ascii_case(b)
}
