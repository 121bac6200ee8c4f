//! The text of Diameter dictionaries (the Command Code Format of RFC 6733 section 3.2).
//!
//! `parse` reads a text, and `render` writes what was read in one form:
//!
//! ```text
//! let text = "%avp Origin-Host 264 DiameterIdentity must <DWR> ::= <Diameter-Header:280,REQ> {Origin-Host}";
//! let source = parse(alloc, text)?;
//! assert_eq!(rt; source.avps.len(), 1);
//! assert_eq!(rt; source.commands.len(), 1);
//! let canonical = "%avp Origin-Host 264 DiameterIdentity must\n<DWR> ::= < Diameter Header: 280, REQ >\n  { Origin-Host }\n";
//! assert_eq!(rt; render(alloc, &source)?.as_str(), canonical);
//!
//! let fault = parse(alloc, "%avp Origin-Host\nDiameterIdentity").err();
//! assert!(rt; matches!(fault, Some(CcfFault::Syntax { token: 3, line: 2 })));
//! ```
#![tactic(auto)]

mod fault;
mod lexemes;
mod lexer;
mod limits;
mod names;
mod parsing;
mod reading;
mod refused;
mod rendering;
mod source;
mod wanted;

pub use dia_terms::{FormatName, MAX_NAME, MRule, Pxy, RuleKind};
pub use fault::CcfFault;
pub use lexemes::{Kind, Lexeme, first_name, next_lexeme};
pub use limits::MAX_TEXT;
pub use names::is_name;
pub use parsing::{one_fault, one_source, parse, read};
pub use refused::{Misfit, Refused};
pub use rendering::render;
pub use source::{Decl, Def, Head, Qual, Rule, Source};
pub use wanted::{InDeclaration, InDefinition, InHead, InRules, Wanted};
