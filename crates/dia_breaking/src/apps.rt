//! The applications that the commands of a dictionary name.
ghost use Rattle.std.specs.Prelude.{◌≡◌, ◌++◌, ◌∷◌, [], IfOk, OnOk, ℕ, nat_eq, unwrap_or};
ghost use Rattle.std.specs.List.{filter_map};
ghost use Rattle.std.specs.Option.{option_map};
ghost use Rattle.std.specs.HashMap.{get};
ghost use Rattle.dia_breaking.specs.Headers.{app_row, row_app, apps_of, AreApps};

use dia_book::{Book, Class, DefHead};
use std::alloc::{AllocError, Global};
use std::collections::HashMap;

/// Of each code, the classes and applications that the commands of a dictionary name.
#[derive(Drop)]
pub(crate) struct Apps {
    pub by_code: HashMap<u32, Vec<(Class, u32)>>,
}

impl Apps {
    pub fn new<B: Book>(alloc: Global, book: &B) -> Result<Self, AllocError>
        ensures { IfOk result (AreApps (B.meaning book.now)) }
    {
        let mut by_code = HashMap::new(alloc);
        for index in 0..book.commands() {
            push_app(&mut by_code, book.def(book.command_at(index)).head)?;
        }
        Ok(Apps { by_code })
    }

    /// The applications that commands of the code and the class name.
    pub fn of(&self, alloc: Global, code: u32, class: Class) -> Result<Vec<u32>, AllocError>
        ensures { IfOk result (λ apps. apps.items ≡ apps_of self.now code class) }
    {
        match self.by_code.get(&code) {
            Some(rows) => apps_in(alloc, rows, class),
            None => Ok(Vec::new(alloc)),
        }
    }
}

fn push_app(by_code: &mut HashMap<u32, Vec<(Class, u32)>>, head: DefHead) -> Result<(), AllocError>
    ensures { OnOk result ((code : ℕ) → unwrap_or (option_map (λ v. v.items) (get nat_eq by_code.new code)) []
        ≡ unwrap_or (option_map (λ v. v.items) (get nat_eq by_code.old code)) [] ++ filter_map (app_row code) (head ∷ [])) }
{
    if let DefHead::Command {
        code,
        class,
        app: Some(app),
        ..
    } = head
    {
        by_code.entry(code)?.or_default().push((class, app))?;
    }
    Ok(())
}

fn apps_in(alloc: Global, rows: &[(Class, u32)], class: Class) -> Result<Vec<u32>, AllocError>
    ensures { IfOk result (λ apps. apps.items ≡ filter_map (row_app class) rows.now) }
{
    let mut apps = Vec::new(alloc);
    for row in rows {
        push_row(&mut apps, *row, class)?;
    }
    Ok(apps)
}

fn push_row(apps: &mut Vec<u32>, row: (Class, u32), class: Class) -> Result<(), AllocError>
    ensures { OnOk result (apps.new.items ≡ apps.old.items ++ filter_map (row_app class) (row ∷ [])) }
{
    if row.0 == class {
        apps.push(row.1)?;
    }
    Ok(())
}

/// The applications of both dictionaries.
#[derive(Drop)]
pub(crate) struct BothApps {
    pub first: Apps,
    pub second: Apps,
}

impl BothApps {
    pub fn new<A: Book, B: Book>(alloc: Global, a: &A, b: &B) -> Result<Box<Self>, AllocError>
        ensures first { IfOk result (λ both. AreApps (A.meaning a.now) both.value.first) }
        ensures second { IfOk result (λ both. AreApps (B.meaning b.now) both.value.second) }
    {
        let first = Apps::new(alloc, a)?;
        let second = Apps::new(alloc, b)?;
        Ok(Box::new(alloc, BothApps { first, second })?)
    }
}
