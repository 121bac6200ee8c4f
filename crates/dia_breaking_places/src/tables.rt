//! Look-ups of definitions and declarations by text.

ghost use Rattle.std.specs.Prelude.{◌≡◌, IfOk, OnOk, List, ℕ, Some, None, if◌then◌else◌, string_bytes};
ghost use Rattle.dia_ccf.specs.declared.source.Decl.{Decl as AnyDecl};
ghost use Rattle.dia_ccf.specs.declared.source.Def.{Def as AnyDef};
ghost use Rattle.std.specs.BTreeMap.{get_by_text};
ghost use Rattle.std.specs.Option.{option_map, option_or};
ghost use Rattle.std.specs.Str.{bytes_eq};
ghost use Rattle.dia_breaking_places.specs.Tables.{IsIndexOf, first_by};
ghost use Rattle.dia_breaking_places.specs.Texts.{decl_text, def_text};
ghost use Rattle.dia_breaking_places.specs.declared.texts.By.TheVariants.{Name, Number, Code};

use crate::texts::{By, decl_text, def_text};
use dia_ccf::{Decl, Def};
use std::alloc::{AllocError, Global};
use std::collections::BTreeMap;

/// Definitions, with the first place of each text.
#[derive(Drop)]
pub(crate) struct DefTable<'s> {
    defs: &'s [Def],
    names: BTreeMap<String, usize>,
    numbers: BTreeMap<String, usize>,
    codes: BTreeMap<String, usize>,
    ghost names_are: { IsIndexOf (def_text Name) defs.now names },
    ghost numbers_are: { IsIndexOf (def_text Number) defs.now numbers },
    ghost codes_are: { IsIndexOf (def_text Code) defs.now codes },
}

/// Declarations of AVPs, with the first place of each text.
#[derive(Drop)]
pub(crate) struct DeclTable<'s> {
    decls: &'s [Decl],
    names: BTreeMap<String, usize>,
    numbers: BTreeMap<String, usize>,
    ghost names_are: { IsIndexOf (decl_text Name) decls.now names },
    ghost numbers_are: { IsIndexOf (decl_text Number) decls.now numbers },
}

impl<'s> DefTable<'s> {
    pub fn new(alloc: Global, defs: &'s [Def]) -> Result<Self, AllocError>
        ensures { IfOk result (λ made. made.defs.now ≡ defs.now) }
    {
        Ok(DefTable {
            defs,
            names: defs_by(alloc, defs, By::Name)?,
            numbers: defs_by(alloc, defs, By::Number)?,
            codes: defs_by(alloc, defs, By::Code)?,
        })
    }

    /// The first definition of a name.
    pub fn named(&self, name: &str) -> Option<&'s Def>
        ensures { option_map (λ d. d.now) result ≡ first_by (def_text By.Name) self.now.defs.now name.now }
    {
        def_in(self.defs, &self.names, name)
    }

    /// The first definition of a number.
    pub fn numbered(&self, number: &str) -> Option<&'s Def>
        ensures { option_map (λ d. d.now) result ≡ first_by (def_text By.Number) self.now.defs.now number.now }
    {
        def_in(self.defs, &self.numbers, number)
    }

    /// The first definition of a code and a class.
    pub fn coded(&self, code: &str) -> Option<&'s Def>
        ensures { option_map (λ d. d.now) result ≡ first_by (def_text By.Code) self.now.defs.now code.now }
    {
        def_in(self.defs, &self.codes, code)
    }
}

impl<'s> DeclTable<'s> {
    pub fn new(alloc: Global, decls: &'s [Decl]) -> Result<Self, AllocError>
        ensures { IfOk result (λ made. made.decls.now ≡ decls.now) }
    {
        Ok(DeclTable {
            decls,
            names: decls_by(alloc, decls, By::Name)?,
            numbers: decls_by(alloc, decls, By::Number)?,
        })
    }

    /// The first declaration of a name.
    pub fn named(&self, name: &str) -> Option<&'s Decl>
        ensures { option_map (λ d. d.now) result ≡ first_by (decl_text By.Name) self.now.decls.now name.now }
    {
        decl_in(self.decls, &self.names, name)
    }

    /// The first declaration of a number.
    pub fn numbered(&self, number: &str) -> Option<&'s Decl>
        ensures { option_map (λ d. d.now) result ≡ first_by (decl_text By.Number) self.now.decls.now number.now }
    {
        decl_in(self.decls, &self.numbers, number)
    }
}

fn def_in<'s>(defs: &'s [Def], places: &BTreeMap<String, usize>, text: &str) -> Option<&'s Def>
    ensures { (f : AnyDef → List ℕ) → IsIndexOf f defs.now places.now
        → option_map (λ d. d.now) result ≡ first_by f defs.now text.now }
{
    match places.get(text) {
        Some(place) => defs.get(*place),
        None => None,
    }
}

fn decl_in<'s>(decls: &'s [Decl], places: &BTreeMap<String, usize>, text: &str) -> Option<&'s Decl>
    ensures { (f : AnyDecl → List ℕ) → IsIndexOf f decls.now places.now
        → option_map (λ d. d.now) result ≡ first_by f decls.now text.now }
{
    match places.get(text) {
        Some(place) => decls.get(*place),
        None => None,
    }
}

/// The first place of each text of the definitions.
fn defs_by(alloc: Global, defs: &[Def], by: By) -> Result<BTreeMap<String, usize>, AllocError>
    ensures { IfOk result (IsIndexOf (def_text by) defs.now) }
{
    let mut places = BTreeMap::new(alloc);
    for (place, def) in defs.iter().enumerate() {
        let text = def_text(alloc, def, by)?;
        add_first(&mut places, text, place)?;
    }
    Ok(places)
}

/// The first place of each text of the declarations.
fn decls_by(alloc: Global, decls: &[Decl], by: By) -> Result<BTreeMap<String, usize>, AllocError>
    ensures { IfOk result (IsIndexOf (decl_text by) decls.now) }
{
    let mut places = BTreeMap::new(alloc);
    for (place, decl) in decls.iter().enumerate() {
        let text = decl_text(alloc, decl, by)?;
        add_first(&mut places, text, place)?;
    }
    Ok(places)
}

/// Adds the place of a text that has none.
fn add_first(
    places: &mut BTreeMap<String, usize>,
    text: String,
    place: usize,
) -> Result<(), AllocError>
    ensures { OnOk result ((q : List ℕ) → get_by_text places.new q
        ≡ option_or (get_by_text places.old q) (if bytes_eq (string_bytes text) q then Some place else None)) }
{
    if !places.contains_key(text.as_str()) {
        places.insert(text, place)?;
    }
    Ok(())
}
