//! Applications that commands are selected for, and one that no command names.
ghost use Rattle.std.specs.Prelude.{◌≡◌, ◌++◌, ◌||◌, nat_eq, IfOk};
ghost use Rattle.std.specs.List.{list_any};
ghost use Rattle.dia_breaking.specs.Headers.{apps_of};
ghost use Rattle.dia_breaking.specs.RecordedApps.{IsLeastUnnamed, selects};

use crate::apps::BothApps;
use crate::heads::Head;
use crate::keys::least_missing;
use dia_book::{Book, DefId};
use std::alloc::{AllocError, Global};

/// Whether A selects the command for messages of an application.
pub(crate) fn selects<A: Book>(a: &A, command: DefId, head: &Head, app: u32) -> bool
    ensures { result ≡ selects (A.meaning a.now) command head.now app }
{
    match a.select(head.code, head.class, app) {
        Some(def) => def == command,
        None => false,
    }
}

/// The least application that no command of the code and the class names in either dictionary; none where they name all.
pub(crate) fn unnamed_app(
    alloc: Global,
    both: &BothApps,
    head: &Head,
) -> Result<Option<u32>, AllocError>
    ensures { IfOk result (IsLeastUnnamed
        (apps_of both.now.first head.now.code head.now.class) (apps_of both.now.second head.now.code head.now.class)) }
{
    let first = both.first.of(alloc, head.code, head.class)?;
    let second = both.second.of(alloc, head.code, head.class)?;
    least_unnamed(alloc, &first, &second)
}

/// The least application that is in neither list; none where they have all.
fn least_unnamed(alloc: Global, first: &[u32], second: &[u32]) -> Result<Option<u32>, AllocError>
    ensures { IfOk result (IsLeastUnnamed first.now second.now) }
{
    let app = least_missing(joined(alloc, first, second)?)?;
    if is_named(first, second, app) {
        Ok(None)
    } else {
        Ok(Some(app))
    }
}

fn joined(alloc: Global, first: &[u32], second: &[u32]) -> Result<Vec<u32>, AllocError>
    ensures { IfOk result (λ all. all.items ≡ first.now ++ second.now) }
{
    let mut all = Vec::new(alloc);
    all.extend_from_slice(first)?;
    all.extend_from_slice(second)?;
    Ok(all)
}

fn is_named(first: &[u32], second: &[u32], app: u32) -> bool
    ensures { result ≡ (list_any (λ n. nat_eq n app) first.now || list_any (λ n. nat_eq n app) second.now) }
{
    first.contains(&app) || second.contains(&app)
}
