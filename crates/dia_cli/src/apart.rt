//! Options that don't go together.

ghost use Rattle.std.specs.Prelude.{◌≡◌};
ghost use Rattle.dia_cli.specs.Apart.{first_option, mask_apart, second_option, show_apart};

/// Two options of a command that don't go together.
#[derive(Clone, Copy, Debug)]
pub enum Apart {
    /// Of `check`: `--lines` and `--stream`.
    LinesAndStream,
    /// `--all` and `--lines`.
    AllAndLines,
    /// `--all` and `--stream`.
    AllAndStream,
    /// `--all` and `--json`.
    AllAndJson,
    /// Of `show`: `--as-text` and `--names`.
    AsTextAndNames,
    /// `--as-text` and `--values`.
    AsTextAndValues,
    /// `--as-text` and `--lines`.
    AsTextAndLines,
    /// `--as-text` and `--json`.
    AsTextAndJson,
    /// Of `mask`: `--only` and `--keep`.
    OnlyAndKeep,
    /// `--only` and `--mask`.
    OnlyAndMask,
    /// Of `examples`: `--text` and `--json`.
    TextAndJson,
}

impl Apart {
    /// The name of the first option.
    pub fn first(self) -> &'static str
        ensures { result.now ≡ first_option self }
    {
        match self {
            Apart::LinesAndStream => "lines",
            Apart::AllAndLines | Apart::AllAndStream | Apart::AllAndJson => "all",
            Apart::AsTextAndNames
            | Apart::AsTextAndValues
            | Apart::AsTextAndLines
            | Apart::AsTextAndJson => "as-text",
            Apart::OnlyAndKeep | Apart::OnlyAndMask => "only",
            Apart::TextAndJson => "text",
        }
    }

    /// The name of the second option.
    pub fn second(self) -> &'static str
        ensures { result.now ≡ second_option self }
    {
        match self {
            Apart::LinesAndStream | Apart::AllAndStream => "stream",
            Apart::AsTextAndNames => "names",
            Apart::AsTextAndValues => "values",
            Apart::AllAndLines | Apart::AsTextAndLines => "lines",
            Apart::AllAndJson | Apart::AsTextAndJson | Apart::TextAndJson => "json",
            Apart::OnlyAndKeep => "keep",
            Apart::OnlyAndMask => "mask",
        }
    }
}

/// The first two of the given options of `show` that don't go together.
pub(crate) fn show_apart(
    as_text: bool,
    names: bool,
    values: bool,
    lines: bool,
    json: bool,
) -> Option<Apart>
    ensures { result ≡ show_apart as_text names values lines json }
{
    match (as_text, names, values, lines, json) {
        (true, true, _, _, _) => Some(Apart::AsTextAndNames),
        (true, false, true, _, _) => Some(Apart::AsTextAndValues),
        (true, false, false, true, _) => Some(Apart::AsTextAndLines),
        (true, false, false, false, true) => Some(Apart::AsTextAndJson),
        _ => None,
    }
}

/// The first two of the given options of `mask` that don't go together.
pub(crate) fn mask_apart(keep: bool, mask: bool, only: bool) -> Option<Apart>
    ensures { result ≡ mask_apart keep mask only }
{
    match (only, keep, mask) {
        (true, true, _) => Some(Apart::OnlyAndKeep),
        (true, false, true) => Some(Apart::OnlyAndMask),
        _ => None,
    }
}
