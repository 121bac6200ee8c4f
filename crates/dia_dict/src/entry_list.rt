ghost use Rattle.std.specs.Prelude.{◌≡◌, length};
ghost use Rattle.std.specs.List.{range_with_len};
ghost use Rattle.dia_dict.specs.PlainMeaning.{numbers};

use dia_book::{Definition, MRule};
use dia_data::Format;
use dia_wire::Key;
use std::alloc::{AllocError, Global};

/// An AVP; a Grouped one names its definition among the groups.
#[derive(Drop)]
pub(crate) struct Row {
    pub name: String,
    pub key: Key,
    pub format: Format,
    pub rule: MRule,
    pub group: Option<usize>,
}

/// A copy says the same.
impl Clone for Row {
    ghost use Rattle.dia_dict.specs.PlainMeaning.{IsCopyOfRow};

    ghost is_clone = { λ old new. IsCopyOfRow old new };

    fn clone(&self) -> Result<Row, AllocError> {
        Ok(Row {
            name: self.name.clone()?,
            key: self.key,
            format: self.format.clone()?,
            rule: self.rule,
            group: self.group,
        })
    }
}

/// The entries of a dictionary in order, with the definitions of the Grouped ones.
#[derive(Drop)]
pub(crate) struct EntryList {
    pub rows: Vec<Row>,
    pub groups: Vec<Definition>,
    // groups are numbered in the order of the rows that name them
    pub ghost numbered: { numbers rows.items ≡ range_with_len 0 (length groups.items) },
}

/// A copy has the same entries.
impl Clone for EntryList {
    ghost use Rattle.std.specs.Prelude.{◌≡◌};
    ghost use Rattle.dia_dict.specs.PlainMeaning.{entries_of};

    ghost is_clone = { λ old new. entries_of new.rows.items new.groups.items
        ≡ entries_of old.rows.items old.groups.items };

    fn clone(&self) -> Result<EntryList, AllocError> {
        Ok(EntryList {
            rows: self.rows.clone()?,
            groups: self.groups.clone()?,
        })
    }
}

impl EntryList {
    ghost use Rattle.std.specs.Prelude.{[], ◌∷◌, ◌++◌, OnOk, Some, None, string_bytes};
    ghost use Rattle.dia_data.specs.Plain.{plain_format};
    ghost use Rattle.dia_book.specs.Dictionary.{plain_definition};
    ghost use Rattle.dia_dict.specs.PlainMeaning.{entries_of};

    pub(crate) fn new(alloc: Global) -> Self
        ensures { entries_of result.rows.items result.groups.items ≡ [] }
    {
        EntryList {
            rows: Vec::new(alloc),
            groups: Vec::new(alloc),
        }
    }

    /// Adds an AVP without a definition.
    pub(crate) fn push(
        &mut self,
        name: String,
        key: Key,
        format: Format,
        rule: MRule,
    ) -> Result<(), AllocError>
        ensures { OnOk result (entries_of self.new.rows.items self.new.groups.items
            ≡ entries_of self.old.rows.items self.old.groups.items
            ++ record {
              name = string_bytes name;
              key = key;
              format = plain_format format;
              rule = rule;
              group = None;
            } ∷ []) }
    {
        self.rows.push(Row {
            name,
            key,
            format,
            rule,
            group: None,
        })?;
        Ok(())
    }

    /// Adds an AVP with its definition.
    pub(crate) fn push_group(
        &mut self,
        name: String,
        key: Key,
        format: Format,
        rule: MRule,
        definition: Definition,
    ) -> Result<(), AllocError>
        ensures { OnOk result (entries_of self.new.rows.items self.new.groups.items
            ≡ entries_of self.old.rows.items self.old.groups.items
            ++ record {
              name = string_bytes name;
              key = key;
              format = plain_format format;
              rule = rule;
              group = Some (plain_definition definition);
            } ∷ []) }
    {
        let number = self.groups.len();
        self.rows.reserve(1)?;
        self.groups.push(definition)?;
        self.rows
            .push(Row {
                name,
                key,
                format,
                rule,
                group: Some(number),
            })
            .unwrap();
        Ok(())
    }
}
