//! By which definitions of B the levels of a command are read: by that for the application of the messages; and where B refuses
//! that application, by the one that B alone names.
ghost use Rattle.std.specs.Prelude.{◌≡◌, ◌++◌, ◌∷◌, [], ℕ, IfOk, OnOk, map, nat_eq, option_to_list, unwrap_or};
ghost use Rattle.std.specs.List.{filter_map};
ghost use Rattle.std.specs.Option.{option_map};
ghost use Rattle.std.specs.HashMap.{get};
ghost use Rattle.dia_breaking.specs.Readings.{AreOtherApps, AreReadings, apps_by, as_sent, names, new_app};
ghost use Rattle.dia_breaking.specs.Readings.{new_apps, of_class, one_other, only, reading_after};
ghost use Rattle.dia_breaking.specs.Upgrades.{sides_of};

use crate::books::command_of;
use crate::heads::{Head, recorded_apps};
use crate::sites::other_head;
use crate::upgrade::Upgrade;
use dia_book::{Book, Class, DefHead, DefId};
use std::alloc::{AllocError, Global};
use std::collections::HashMap;

/// Messages of an application, and the application of B's definition by which their level is read.
#[derive(Clone, Copy)]
pub(crate) struct Reading {
    pub app: u32,
    pub read_as: u32,
}

/// Of each code, the applications that commands of B of one class name, and commands of A don't.
#[derive(Drop)]
pub(crate) struct NewApps {
    pub by_code: HashMap<u32, Vec<u32>>,
}

impl NewApps {
    pub fn new<A: Book, B: Book>(
        alloc: Global,
        a: &A,
        b: &B,
        class: Class,
    ) -> Result<Self, AllocError>
        ensures { IfOk result
            (λ made. (code : ℕ) → apps_by made code ≡ new_apps (A.meaning a.now) (B.meaning b.now) code class) }
    {
        let mut by_code = HashMap::new(alloc);
        for index in 0..b.commands() {
            push_new(&mut by_code, a, class, b.def(b.command_at(index)).head)?;
        }
        Ok(NewApps { by_code })
    }

    /// The application of the code, if there is one alone.
    pub fn one(&self, code: u32) -> Option<u32>
        ensures { result ≡ only (apps_by self.now code) }
    {
        match self.by_code.get(&code) {
            Some(apps) => only(apps),
            None => None,
        }
    }
}

/// Adds the application that a command of B names, if the command is of the class, and A names the application for none.
fn push_new<A: Book>(
    by_code: &mut HashMap<u32, Vec<u32>>,
    a: &A,
    class: Class,
    head: DefHead,
) -> Result<(), AllocError>
    ensures { OnOk result ((code : ℕ) → unwrap_or (option_map (λ v. v.items) (get nat_eq by_code.new code)) []
        ≡ unwrap_or (option_map (λ v. v.items) (get nat_eq by_code.old code)) []
        ++ filter_map (new_app (A.meaning a.now) code class) (head ∷ [])) }
{
    if let Some(other) = Head::of(head) {
        if let Some(app) = other.app {
            if class == other.class && !names(a, &other) {
                by_code.entry(other.code)?.or_default().push(app)?;
            }
        }
    }
    Ok(())
}

/// Whether A's definition for messages of B's command names the application that B's does.
fn names<A: Book>(a: &A, other: &Head) -> bool
    ensures { result ≡ names (A.meaning a.now) other.now }
{
    let Some(app) = other.app else {
        return false;
    };
    match other_head(a, other, app) {
        Some(own) => own.app == Some(app),
        None => false,
    }
}

/// The only member.
fn only(apps: &[u32]) -> Option<u32>
    ensures { result ≡ only apps.now }
{
    if apps.len() == 1 {
        apps.first().copied()
    } else {
        None
    }
}

/// The applications that B alone names, for each class.
#[derive(Drop)]
pub(crate) struct OtherApps {
    pub requests: NewApps,
    pub answers: NewApps,
    pub errors: NewApps,
}

impl OtherApps {
    pub fn new<A: Book, B: Book>(alloc: Global, a: &A, b: &B) -> Result<Box<Self>, AllocError>
        ensures { IfOk result (λ others. AreOtherApps (A.meaning a.now) (B.meaning b.now) others.value) }
    {
        let requests = NewApps::new(alloc, a, b, Class::Request)?;
        let answers = NewApps::new(alloc, a, b, Class::Answer)?;
        let errors = NewApps::new(alloc, a, b, Class::Error)?;
        let others = OtherApps {
            requests,
            answers,
            errors,
        };
        Ok(Box::new(alloc, others)?)
    }

    /// The application of the code and the class, if there is one alone.
    fn one(&self, code: u32, class: Class) -> Option<u32>
        ensures { result ≡ only (apps_by (of_class self.now class) code) }
    {
        match class {
            Class::Request => self.requests.one(code),
            Class::Answer => self.answers.one(code),
            Class::Error => self.errors.one(code),
        }
    }
}

/// The readings of a command with this head.
pub(crate) fn readings_of<A: Book, B: Book>(
    alloc: Global,
    upgrade: &Upgrade<'_, A, B>,
    command: DefId,
    head: &Head,
) -> Result<Vec<Reading>, AllocError>
    ensures { IfOk result (λ readings. AreReadings (sides_of upgrade.now).sender (sides_of upgrade.now).receiver
        upgrade.now.apps.value command head.now readings.items) }
{
    let apps = recorded_apps(alloc, upgrade.lengths.book, &upgrade.apps, command, head)?;
    let mut readings = all_as_sent(alloc, &apps)?;
    push_after(&mut readings, upgrade, head)?;
    Ok(readings)
}

/// Messages of each application are read by B's definition for it.
fn all_as_sent(alloc: Global, apps: &[u32]) -> Result<Vec<Reading>, AllocError>
    ensures { IfOk result (λ readings. readings.items ≡ map as_sent apps.now) }
{
    apps.iter().map(|app| as_sent(*app)).collect(alloc)
}

fn as_sent(app: u32) -> Reading
    ensures { result ≡ as_sent app }
{
    Reading { app, read_as: app }
}

/// Adds that messages of the head's application are read by the one other, if B refuses them and there is one.
fn push_after<A: Book, B: Book>(
    readings: &mut Vec<Reading>,
    upgrade: &Upgrade<'_, A, B>,
    head: &Head,
) -> Result<(), AllocError>
    ensures { OnOk result (readings.new.items ≡ readings.old.items
        ++ option_to_list (reading_after (sides_of upgrade.now).sender (sides_of upgrade.now).receiver head.now)) }
{
    if let Some(reading) = reading_after(upgrade, head) {
        readings.push(reading)?;
    }
    Ok(())
}

fn reading_after<A: Book, B: Book>(upgrade: &Upgrade<'_, A, B>, head: &Head) -> Option<Reading>
    ensures { result ≡ reading_after (sides_of upgrade.now).sender (sides_of upgrade.now).receiver head.now }
{
    let app = head.app?;
    if command_of(upgrade.b, head.code, head.class, app).is_some() {
        return None;
    }
    let read_as = one_other(upgrade, head)?;
    Some(Reading { app, read_as })
}

/// The one application that B alone names for the code and the class of the head.
fn one_other<A: Book, B: Book>(upgrade: &Upgrade<'_, A, B>, head: &Head) -> Option<u32>
    ensures { result ≡ one_other (sides_of upgrade.now).sender (sides_of upgrade.now).receiver head.now }
{
    upgrade.new_apps.one(head.code, head.class)
}
