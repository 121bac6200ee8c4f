//! All lines, in their order.
ghost use Rattle.std.specs.Prelude.{◌≡◌, ◌↔◌, IfOk, [], length};
ghost use Rattle.dia_differences.specs.Lines.{Adds, AreDifferences};
ghost use Rattle.dia_differences.specs.Partners.{matches_of, paired};
ghost use Rattle.dia_differences.specs.Same.{IsSameDictionary};

use crate::avps::{push_added_avps, push_avps};
use crate::commands::{push_added_commands, push_commands};
use crate::lines::Line;
use crate::partners::Partners;
use dia_book::Book;
use std::alloc::{AllocError, Global};

/// The lines in their order: the AVPs of the first dictionary in its order, then those that the second alone has; and then the
/// same of commands. After the lines of an AVP or a command come those of its rules. There is none if and only if both
/// dictionaries mean the same.
pub fn lines_of<A: Book, B: Book>(
    alloc: Global,
    a: &A,
    b: &B,
    partners: &Partners,
) -> Result<Vec<Line>, AllocError>
    requires { paired partners.now ≡ matches_of (A.meaning a.now) (B.meaning b.now) }
    ensures differences { IfOk result
        (λ lines. Adds [] lines.items (AreDifferences (A.meaning a.now) (B.meaning b.now))) }
    ensures none { IfOk result
        (λ lines. (length lines.items ≡ 0) ↔ IsSameDictionary (A.meaning a.now) (B.meaning b.now)) }
{
    let mut lines = Vec::new(alloc);
    push_avps(&mut lines, a, b, partners)?;
    push_added_avps(&mut lines, b, partners, a.entries())?;
    push_commands(&mut lines, a, b, partners)?;
    push_added_commands(&mut lines, b, partners, a.commands())?;
    Ok(lines)
}
