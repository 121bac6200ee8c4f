//! Words of dictionaries' texts.

ghost use Rattle.std.specs.Prelude.{◌≡◌};
ghost use Rattle.dia_compared_json.specs.Objects.{p_word};

use dia_book::Pxy;

/// What the P flag may be.
pub fn p_word(p: Pxy) -> &'static str
    ensures { result.now ≡ p_word p }
{
    match p {
        Pxy::Clear => "clear",
        Pxy::Set => "set",
        Pxy::Either => "either",
    }
}
