//! What commands are for, and what their P flag may be (RFC 6733 section 3.2).
ghost use Rattle.std.specs.Prelude.{◌≡◌};
ghost use Rattle.dia_compat.specs.PairTests.{same_code_and_class, serves, serves_app};
ghost use Rattle.dia_compat.specs.PairTests.{p_of, p_within, is_proxiable};

use dia_book::{DefHead, Pxy};

/// Whether two commands are of one code and class.
pub(super) fn same_code_and_class(a: &DefHead, b: &DefHead) -> bool
    ensures { result ≡ same_code_and_class a.now b.now }
{
    match a {
        DefHead::Group(_) => false,
        DefHead::Command { code, class, .. } => match b {
            DefHead::Group(_) => false,
            DefHead::Command {
                code: other_code,
                class: other_class,
                ..
            } => code == other_code && class == other_class,
            DefHead::Error { .. } => false,
        },
        DefHead::Error { .. } => match b {
            DefHead::Group(_) => false,
            DefHead::Command { .. } => false,
            DefHead::Error { .. } => true,
        },
    }
}

/// Whether messages of the first command are selected for the second, where no command is for them alone.
pub(super) fn serves(a: &DefHead, b: &DefHead) -> bool
    ensures { result ≡ serves a.now b.now }
{
    match a {
        DefHead::Group(_) => false,
        DefHead::Command {
            code,
            class,
            app,
            ..
        } => match b {
            DefHead::Group(_) => false,
            DefHead::Command {
                code: other_code,
                class: other_class,
                app: other_app,
                ..
            } => code == other_code && class == other_class && serves_app(*app, *other_app),
            DefHead::Error { .. } => false,
        },
        DefHead::Error { .. } => match b {
            DefHead::Group(_) => false,
            DefHead::Command { .. } => false,
            DefHead::Error { .. } => true,
        },
    }
}

fn serves_app(app: Option<u32>, other: Option<u32>) -> bool
    ensures { result ≡ serves_app app other }
{
    match other {
        None => true,
        Some(_) => app == other,
    }
}

/// Whether each value of P that the first command allows is allowed by the second.
pub(super) fn is_proxiable(a: &DefHead, b: &DefHead) -> bool
    ensures { result ≡ is_proxiable a.now b.now }
{
    match p_of(a) {
        Some(p) => match p_of(b) {
            Some(other) => p_within(p, other),
            None => false,
        },
        None => true,
    }
}

fn p_of(head: &DefHead) -> Option<Pxy>
    ensures { result ≡ p_of head.now }
{
    match head {
        DefHead::Group(_) => None,
        DefHead::Command { p, .. } => Some(*p),
        DefHead::Error { p } => Some(*p),
    }
}

fn p_within(p: Pxy, other: Pxy) -> bool
    ensures { result ≡ p_within p other }
{
    match other {
        Pxy::Either => true,
        Pxy::Clear => match p {
            Pxy::Clear => true,
            Pxy::Set => false,
            Pxy::Either => false,
        },
        Pxy::Set => match p {
            Pxy::Clear => false,
            Pxy::Set => true,
            Pxy::Either => false,
        },
    }
}
