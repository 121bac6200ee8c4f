//! The differences from which something comes.

ghost use Rattle.std.specs.Prelude.{◌≡◌, ◌||◌, IfOk, OnOk, find, false, map};
ghost use Rattle.std.specs.HashSet.{contains};
ghost use Rattle.std.specs.List.{list_any};
ghost use Rattle.std.specs.Option.{option_map};
ghost use Rattle.dia_differences.specs.declared.lines.What.{What as AnyWhat};
ghost use Rattle.dia_differences.specs.Lines.{no_effects};
ghost use Rattle.dia_diff.specs.Marked.{effects_by, is_marked};
ghost use Rattle.dia_diff.specs.Marks.{is_meant};
ghost use Rattle.dia_diff.specs.Subjects.{same_subject};

use crate::subjects::{Subject, any_of, put_all, subjects_of};
use dia_differences::{Effects, What};
use std::alloc::{AllocError, Global};
use std::collections::HashSet;

/// Differences, by what they are about.
#[derive(Drop)]
pub(crate) struct Marks {
    pub all: bool,
    pub subjects: HashSet<Subject>,
}

impl Marks {
    /// No differences.
    pub fn new(alloc: Global) -> Self
        ensures { (w : AnyWhat) → is_marked result w ≡ false }
    {
        Marks {
            all: false,
            subjects: HashSet::new(alloc),
        }
    }

    /// Adds the differences about the first of the lists with a subject of a set, and where none has one, all.
    pub fn mark(
        &mut self,
        present: &HashSet<Subject>,
        lists: &[Vec<Subject>],
    ) -> Result<(), AllocError>
        ensures { OnOk result ((w : AnyWhat) → is_marked self.new w
            ≡ (is_marked self.old w || is_meant (contains same_subject present.now) (map (λ list. list.items) lists.now) w)) }
    {
        match first_there(present, lists) {
            Some(list) => put_all(&mut self.subjects, list),
            None => {
                self.all = true;
                Ok(())
            }
        }
    }

    /// Whether a difference about these is one of them.
    fn has(&self, subjects: &[Subject]) -> bool
        ensures { result ≡ (self.now.all || list_any (contains same_subject self.now.subjects) subjects.now) }
    {
        self.all || any_of(&self.subjects, subjects)
    }
}

/// Differences, by what comes of them.
#[derive(Drop)]
pub(crate) struct EffectMarks {
    pub breaks: Marks,
    pub other_format: Marks,
    pub ignored: Marks,
}

impl EffectMarks {
    /// No differences.
    pub fn new(alloc: Global) -> Self
        ensures { (w : AnyWhat) → effects_by result w ≡ no_effects }
    {
        EffectMarks {
            breaks: Marks::new(alloc),
            other_format: Marks::new(alloc),
            ignored: Marks::new(alloc),
        }
    }

    /// What comes of a difference.
    pub fn effects_of(&self, alloc: Global, what: What) -> Result<Effects, AllocError>
        ensures { IfOk result (λ effects. effects ≡ effects_by self.now what) }
    {
        let subjects = subjects_of(alloc, what)?;
        Ok(Effects {
            breaks: self.breaks.has(&subjects),
            other_format: self.other_format.has(&subjects),
            ignored: self.ignored.has(&subjects),
        })
    }
}

/// The first of the lists with a subject of a set.
fn first_there<'a>(present: &HashSet<Subject>, lists: &'a [Vec<Subject>]) -> Option<&'a [Subject]>
    ensures { option_map (λ list. list.now) result
        ≡ find (list_any (contains same_subject present.now)) (map (λ list. list.items) lists.now) }
{
    for list in lists {
        if any_of(present, list) {
            return Some(list.as_slice());
        }
    }
    None
}
