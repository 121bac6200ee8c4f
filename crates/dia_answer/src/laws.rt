//! Laws of answers.

ghost use Rattle.std.specs.Prelude.{◌≡◌, ◌≢◌, ◌↔◌, ℕ, List, Result};
ghost use Rattle.dia_terms.specs.declared.Unknown.{Unknown as AnyUnknown};
ghost use Rattle.dia_terms.specs.declared.Levels.{Levels as AnyLevels};
ghost use Rattle.dia_wire.specs.declared.Header.{Header as AnyHeader};
ghost use Rattle.dia_book.specs.Dictionary.{Dictionary, IsDictionary};
ghost use Rattle.dia_valid.specs.Valid.{IsValid};
ghost use Rattle.dia_dict.specs.Base.{base};
ghost use Rattle.dia_answer.specs.declared.forms.Made.{Made as AnyMade};
ghost use Rattle.dia_answer.specs.declared.forms.NoAnswer.{NoAnswer as AnyNoAnswer};
ghost use Rattle.dia_answer.specs.Requests.{IsRequestHead};
ghost use Rattle.dia_answer.specs.Names.{IsName};
ghost use Rattle.dia_answer.specs.OwnErrors.{CanBeWritten, HasErrorsOfBase};
ghost use Rattle.dia_answer.specs.Reports.{AreSame, HasBody, HasFirstForm, IsAnswered, IsValidBy, form_dictionary};
ghost use Rattle.dia_answer.specs.Strict.{AreNoGroups, HasFittingFailed};

use crate::forms::Form;

/// By the base dictionary the answer to a CER is an error message: a CEA has a Host-IP-Address (RFC 6733 section 5.3.2), which
/// no answer copies.
pub fn cer_gets_error_message()
    ensures { (u : AnyUnknown) (most : AnyLevels) (host realm request : List ℕ) (made : AnyMade)
        (header : AnyHeader) → IsRequestHead header request → header.code ≡ 257
        → HasBody base u most host realm request made
        → IsValidBy base u most made.form made.bytes.items → made.form ≢ Form.Own }
{}

/// By the dictionary of its form, in which Failed-AVP may be a group, an answer is valid exactly where its Failed-AVP fits (RFC
/// 6733 section 7.5), if Result-Code, Origin-Host and Origin-Realm are no groups.
pub fn valid_where_failed_fits()
    ensures { (d : Dictionary) (u : AnyUnknown) (most : AnyLevels) (host realm request : List ℕ) (made : AnyMade)
        → IsDictionary (form_dictionary made.form d) → AreNoGroups (form_dictionary made.form d)
        → HasBody d u most host realm request made → IsValidBy d u most made.form made.bytes.items
        → IsValid (form_dictionary made.form d) u most made.bytes.items
        ↔ HasFittingFailed (form_dictionary made.form d) u most made.bytes.items }
{}

/// The base dictionary's error message is never the answer where the dictionary's own has the same header and rules, reads what
/// each answer has as the base protocol does, and has room in a message.
pub fn own_error_message()
    ensures { (d : Dictionary) (u : AnyUnknown) (most : AnyLevels) (host realm request : List ℕ) (made : AnyMade)
        → IsDictionary d → HasErrorsOfBase d → IsName host → IsName realm
        → (first : HasFirstForm d u most host realm request made) → CanBeWritten d first.parts → made.form ≢ Form.Base }
{}

/// A request gets one answer: what `answer` answers of the same bytes by the same dictionary, with the same policy and limit of
/// levels and of a node with the same names, is the same bytes, of the same form and for the same fault, or the same reason
/// for there being none.
pub fn one_answer()
    ensures { (d : Dictionary) (u : AnyUnknown) (most : AnyLevels) (host realm request : List ℕ)
        (one other : Result AnyMade AnyNoAnswer) → IsDictionary d
        → IsAnswered d u most host realm request one → IsAnswered d u most host realm request other
        → AreSame one other }
{}
