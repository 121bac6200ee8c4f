//! The heads of commands, and the applications by which their messages are looked at.
ghost use Rattle.std.specs.Prelude.{◌≡◌, ◌<◌, ◌++◌, ◌∷◌, [], length, filter};
ghost use Rattle.std.specs.Prelude.{IfOk, IfSome, OnOk, slice_get};
ghost use Rattle.dia_book.specs.Dictionary.{definitions};
ghost use Rattle.dia_breaking.specs.Headers.{allows, head_in};
ghost use Rattle.dia_breaking.specs.RecordedApps.{AreOpenApps, AreRecordedApps, selects};

use crate::apps::BothApps;
use crate::headers::{selects, unnamed_app};
use dia_book::{Book, Class, DefHead, DefId, Pxy};
use std::alloc::{AllocError, Global};

/// The head of a command.
#[derive(Clone, Copy)]
pub(crate) struct Head {
    pub code: u32,
    pub class: Class,
    pub app: Option<u32>,
    pub p: Pxy,
}

impl Head {
    /// The head of a definition. The head of an error has the code 0 and the application 0; a group has no head.
    pub fn of(head: DefHead) -> Option<Head>
        ensures { result ≡ head_in head }
    {
        match head {
            DefHead::Group(_) => None,
            DefHead::Command {
                code,
                class,
                app,
                p,
            } => Some(Head {
                code,
                class,
                app,
                p,
            }),
            DefHead::Error { p } => Some(Head {
                code: 0,
                class: Class::Error,
                app: Some(0),
                p,
            }),
        }
    }
}

/// The head of a command of the dictionary.
pub(crate) fn head_of<B: Book>(book: &B, def: DefId) -> Option<Head>
    requires { def < length (definitions (B.meaning book.now)) }
    ensures { IfSome (slice_get (definitions (B.meaning book.now)) def) (λ d. result ≡ head_in d.head) }
{
    Head::of(book.def(def).head)
}

/// Whether the P flag may have this value.
pub(crate) fn allows(p: Pxy, set: bool) -> bool
    ensures { result ≡ allows p set }
{
    match p {
        Pxy::Clear => !set,
        Pxy::Set => set,
        Pxy::Either => true,
    }
}

/// The applications by which the messages of a command are looked at. Where the head names one, it is that one alone. Else they
/// are the applications that B alone names, and the least application that neither dictionary names.
pub(crate) fn recorded_apps<A: Book>(
    alloc: Global,
    a: &A,
    both: &BothApps,
    command: DefId,
    head: &Head,
) -> Result<Vec<u32>, AllocError>
    ensures { IfOk result (λ apps. AreRecordedApps (A.meaning a.now) both.now command head.now apps.items) }
{
    match head.app {
        Some(app) => {
            let mut apps = Vec::new(alloc);
            apps.push(app)?;
            Ok(apps)
        }
        None => open_apps(alloc, a, both, command, head),
    }
}

/// The applications of a head that names none: those that B alone names, and the least that neither dictionary names.
fn open_apps<A: Book>(
    alloc: Global,
    a: &A,
    both: &BothApps,
    command: DefId,
    head: &Head,
) -> Result<Vec<u32>, AllocError>
    ensures { IfOk result (λ apps. AreOpenApps (A.meaning a.now) both.now command head.now apps.items) }
{
    let others = both.second.of(alloc, head.code, head.class)?;
    let mut apps = own_apps(alloc, a, command, head, &others)?;
    if let Some(app) = unnamed_app(alloc, both, head)? {
        apps.push(app)?;
    }
    Ok(apps)
}

/// The applications among `others` for which A selects the command.
fn own_apps<A: Book>(
    alloc: Global,
    a: &A,
    command: DefId,
    head: &Head,
    others: &[u32],
) -> Result<Vec<u32>, AllocError>
    ensures { IfOk result (λ apps. apps.items ≡ filter (selects (A.meaning a.now) command head.now) others.now) }
{
    let mut apps = Vec::new(alloc);
    for app in others {
        push_own(&mut apps, a, command, head, *app)?;
    }
    Ok(apps)
}

fn push_own<A: Book>(
    apps: &mut Vec<u32>,
    a: &A,
    command: DefId,
    head: &Head,
    app: u32,
) -> Result<(), AllocError>
    ensures { OnOk result (apps.new.items ≡ apps.old.items ++ filter (selects (A.meaning a.now) command head.now) (app ∷ [])) }
{
    if selects(a, command, head, app) {
        apps.push(app)?;
    }
    Ok(())
}
