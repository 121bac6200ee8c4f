use crate::fault::RowFault;
use crate::words::{Row, push_plain};
use std::alloc::{AllocError, Global};

/// A text that has a name.
#[derive(Drop)]
struct Named {
    name: String,
    text: Vec<u8>,
}

/// The texts that have names.
#[derive(Drop)]
pub struct Names {
    list: Vec<Named>,
    alloc: Global,
}

impl Names {
    pub fn new(alloc: Global) -> Names {
        Names {
            list: Vec::new(alloc),
            alloc,
        }
    }

    /// Names a text.
    pub fn define(&mut self, name: &str, text: Vec<u8>) -> Result<(), AllocError> {
        let name = String::from_str(self.alloc, name)?;
        self.list.push(Named { name, text })?;
        Ok(())
    }

    /// The row that a line is, unless it is empty, a comment, or names a text.
    pub fn row<'a>(&mut self, line: &'a str) -> Result<Option<Row<'a>>, RowFault> {
        let line = line.trim();
        if line.is_empty() || line.starts_with('#') {
            return Ok(None);
        }
        match line.strip_prefix("let ") {
            Some(definition) => {
                self.learn(definition)?;
                Ok(None)
            }
            None => Ok(Some(Row::new(line)?)),
        }
    }

    /// Reads the definitions of a text without rows.
    pub fn learn_all(&mut self, text: &str) -> Result<(), RowFault> {
        for line in text.lines() {
            if self.row(line)?.is_some() {
                return Err(RowFault::Row);
            }
        }
        Ok(())
    }

    fn learn(&mut self, definition: &str) -> Result<(), RowFault> {
        let (name, text) = definition.split_once(" =").ok_or(RowFault::Row)?;
        let text = self.text(text.trim())?;
        self.define(name.trim(), text)?;
        Ok(())
    }

    /// A text with its names and escapes written out.
    pub fn text(&self, text: &str) -> Result<Vec<u8>, RowFault> {
        let mut bytes = Vec::new(self.alloc);
        let mut parts = text.split('$');
        if let Some(first) = parts.next() {
            push_plain(&mut bytes, first)?;
        }
        for part in parts {
            self.push_part(&mut bytes, part)?;
        }
        Ok(bytes)
    }

    /// Pushes what a name at the front stands for, and the text behind it.
    fn push_part(&self, bytes: &mut Vec<u8>, part: &str) -> Result<(), RowFault> {
        let rest = part.trim_start_matches(is_of_name);
        let name = part.strip_suffix(rest).ok_or(RowFault::Name)?;
        self.push_named(bytes, name)?;
        push_plain(bytes, rest)
    }

    /// Pushes what a name stands for, as often as the count behind it says.
    fn push_named(&self, bytes: &mut Vec<u8>, name: &str) -> Result<(), RowFault> {
        match name.split_once('*') {
            Some((name, count)) => {
                let count: u32 = count.parse().map_err(|_| RowFault::Name)?;
                push_times(bytes, self.find(name)?, count)?;
            }
            None => bytes.extend_from_slice(self.find(name)?)?,
        }
        Ok(())
    }

    /// The text of a name, the last that was given it.
    fn find(&self, name: &str) -> Result<&[u8], RowFault> {
        for named in self.list.iter().rev() {
            if named.name.as_str() == name {
                return Ok(named.text.as_slice());
            }
        }
        Err(RowFault::Name)
    }
}

fn push_times(bytes: &mut Vec<u8>, text: &[u8], count: u32) -> Result<(), AllocError> {
    for _ in 0..count {
        bytes.extend_from_slice(text)?;
    }
    Ok(())
}

fn is_of_name(sign: char) -> bool {
    sign.is_ascii_alphanumeric() || sign == '_' || sign == '*'
}
