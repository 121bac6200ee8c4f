//! The commands that a proposal is for.
ghost use Rattle.std.specs.Prelude.{◌≡◌, ◌<◌, [], IfOk, IfErr, OnOk, Some};
ghost use Rattle.std.specs.Prelude.{length, map, position, slice_get, string_bytes};
ghost use Rattle.std.specs.Str.{bytes_eq};
ghost use Rattle.dia_book.specs.Dictionary.{PlainDefinition};
ghost use Rattle.dia_compat.specs.Proposed.{IsRefusal};
ghost use Rattle.dia_compat.specs.NamedCommands.{AddsOnce, NamedSoFar};
ghost use Rattle.dia_compat.specs.ReachedKeys.{has, AreRest};

use crate::comparing::{Commands, Sides};
use crate::proposing::ProposeFault;
use crate::proposing::reaching::Reached;
use crate::proposing::wanting::push_pairs;
use dia_book::Book;
use indexmap::IndexSet;
use std::alloc::{AllocError, Global};

/// The commands of the first that were named, by their places, with their pairs and the AVPs that they let in.
#[derive(Drop)]
pub(crate) struct NamedCommands {
    places: IndexSet<usize>,
    pub(crate) pairs: Vec<(String, String)>,
    pub(crate) reached: Reached,
}

impl NamedCommands {
    /// No command yet, with room for as many AVPs.
    pub(crate) fn new<A: Book, B: Book>(
        alloc: Global,
        sides: &Sides<'_, A, B>,
        most: usize,
    ) -> Result<NamedCommands, AllocError>
        ensures places { IfOk result (λ n. n.places.keys ≡ []) }
        ensures pairs { IfOk result (λ n. n.pairs.items ≡ []) }
        ensures reached { IfOk result (λ n. n.reached.waiting.items ≡ []) }
        ensures none { IfOk result (λ n. n.reached.keys.keys ≡ []) }
        ensures rest { IfOk result (λ n. AreRest sides.now n.reached) }
    {
        Ok(NamedCommands {
            places: IndexSet::new(alloc),
            pairs: Vec::new(alloc),
            reached: Reached::new(alloc, sides, most)?,
        })
    }

    /// Adds the commands of these names, each at its first mention. `places` has the names of the first's commands, each at its
    /// place.
    pub(crate) fn add_all<A: Book, B: Book>(
        &mut self,
        alloc: Global,
        commands: &Commands<'_, A, B>,
        places: &IndexSet<&str>,
        names: &[String],
    ) -> Result<(), ProposeFault>
        requires places { map (λ n. n.now) places.now.keys
            ≡ map (λ c. c.name) commands.now.first.commands }
        requires new { NamedSoFar commands.now [] (map (λ n. string_bytes n) names.now) self.old }
        ensures ok { OnOk result
            (NamedSoFar commands.now (map (λ n. string_bytes n) names.now) [] self.new) }
        ensures refusal { IfErr result
            (IsRefusal commands.now.first (map (λ n. string_bytes n) names.now)) }
    {
        // Called for its law: both dictionaries are sound.
        let _ = commands.sides();
        for name in names {
            let text = name.as_str();
            let Some(place) = place_of_name(places, text) else {
                let name = String::from_str(alloc, text)?;
                return Err(ProposeFault::UnknownCommand { name });
            };
            self.add(alloc, commands, place)?;
        }
        Ok(())
    }

    /// Adds the command of the first at a place, unless it was named before.
    fn add<A: Book, B: Book>(
        &mut self,
        alloc: Global,
        commands: &Commands<'_, A, B>,
        place: usize,
    ) -> Result<(), AllocError>
        requires within { place < length commands.now.first.commands }
        requires rest { AreRest commands.now self.old.reached }
        ensures { (c : PlainDefinition) → slice_get commands.now.first.commands place ≡ Some c
            → OnOk result (AddsOnce commands.now place c self.old self.new) }
    {
        if self.places.contains(&place) {
            return Ok(());
        }
        let sides = commands.sides();
        let a = sides.first();
        let def = a.command_at(place);
        push_pairs(alloc, commands, a.def(def), &mut self.pairs)?;
        self.reached
            .come_to_admitted(alloc, sides, &sides.first_rules(def))?;
        self.places.insert(place)?;
        Ok(())
    }
}

/// The place of a name in the set.
fn place_of_name(names: &IndexSet<&str>, name: &str) -> Option<usize>
    ensures { result ≡ position (λ n. bytes_eq name.now n.now) names.now.keys }
{
    names.get_index_of(&name)
}
