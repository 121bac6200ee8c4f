//! What holds of all tables and dictionaries: texts of tables, inclusion, answers and proposals.
ghost use Rattle.std.specs.Prelude.{◌≡◌, ◌≢◌, ℕ, List, map};
ghost use Rattle.dia_wire.specs.Wire.{PlainAvp, key_of};
ghost use Rattle.dia_book.specs.declared.DRule.{DRule as AnyRule};
ghost use Rattle.dia_book.specs.Dictionary.{AreRules, Dictionary, IsDictionary};
ghost use Rattle.dia_terms.specs.declared.Unknown.{Unknown as AnyPolicy};
ghost use Rattle.dia_terms.specs.declared.Levels.{Levels as AnyLevels};
ghost use Rattle.dia_valid.specs.Valid.{AllFit, Placed};
ghost use Rattle.dia_compat.specs.TableText.{PlainTable, IsTable, IsTableFault};
ghost use Rattle.dia_compat.specs.WrittenTable.{IsWritable};
ghost use Rattle.dia_compat.specs.declared.table.TableFault.{TableFault as AnyFault};
ghost use Rattle.dia_compat.specs.Below.{DefBelow};
ghost use Rattle.dia_compat.specs.Closed.{IsClosed, IsIncluded, IsTableAnswer, IsPairKey};
ghost use Rattle.dia_compat.specs.Proposed.{IsProposal, IsLeast, ListsAll};
ghost use Rattle.dia_compat.specs.declared.checking.Answer.{Answer as AnyAnswer};
ghost use Rattle.dia_compat.specs.declared.checking.PairKind.{PairKind as AnyKind};
ghost use Rattle.dia_compat.specs.declared.checking.Test.{Test as AnyTest};

use crate::checking::Answer;
use crate::table::TableFault;

/// A text is that of one table.
pub fn one_table()
    ensures { (text : List ℕ) (a b : PlainTable) → IsTable text a → IsTable text b → a ≡ b }
{}

/// A text has one fault at most, and is then that of no table.
pub fn one_table_fault()
    ensures one { (text : List ℕ) (a b : AnyFault) → IsTableFault text a → IsTableFault text b
        → a ≢ TableFault.NoMemory → b ≢ TableFault.NoMemory → a ≡ b }
    ensures none { (text : List ℕ) (a : AnyFault) (table : PlainTable) → IsTableFault text a
        → a ≢ TableFault.NoMemory → ¬ IsTable text table }
{}

/// A table that some text says has names that are names, and is within the limits.
pub fn read_tables_are_writable()
    ensures { (text : List ℕ) (table : PlainTable) → IsTable text table → IsWritable table }
{}

/// Where every pair of a table passes every test, each message that is valid under the first dictionary, of a command that the
/// table lists, is valid under the second, as a message of a command paired with it.
pub fn closed_is_included()
    ensures { (da db : Dictionary) (u : AnyPolicy) (table : PlainTable)
        → IsDictionary da → IsDictionary db → IsClosed da db u table
        → IsIncluded da db u table }
{}

/// Where a table is closed, and a definition of the first dictionary passes each test against one of the second, a level that
/// is right by the first is right by the second: its AVPs are where the rules say, and each fits, at every depth of groups.
pub fn level_is_included()
    ensures { (da db : Dictionary) (u : AnyPolicy) (table : PlainTable) (most : AnyLevels)
        (a b : List AnyRule) (avps : List PlainAvp) → IsDictionary da → IsDictionary db
        → IsClosed da db u table → AreRules a → AreRules b
        → DefBelow da db u (IsPairKey da db table) a b
        → Placed a (map key_of avps) → AllFit da u most avps
        → Placed b (map key_of avps) × AllFit db u most avps }
{}

/// Where a definition of the first dictionary passes each test against one of the second, AVPs that fit by the first and are
/// where its definition says are where the second's says. Nothing is asked of the table's other pairs.
pub fn level_is_placed()
    ensures { (da db : Dictionary) (u : AnyPolicy) (table : PlainTable) (most : AnyLevels)
        (a b : List AnyRule) (avps : List PlainAvp) → AreRules a → AreRules b
        → DefBelow da db u (IsPairKey da db table) a b → Placed a (map key_of avps)
        → AllFit da u most avps → Placed b (map key_of avps) }
{}

/// Two dictionaries, a policy and a table have one answer.
pub fn one_comparison()
    ensures { (da db : Dictionary) (u : AnyPolicy) (table : PlainTable) (x y : AnyAnswer)
        → IsTableAnswer da db u table x → IsTableAnswer da db u table y → x ≡ y }
{}

/// Where the least table does not pass, no table that lists the named commands passes.
pub fn no_table_passes()
    ensures { (da db : Dictionary) (u : AnyPolicy)
        (names : List (List ℕ)) (table other : PlainTable)
        (kind : AnyKind) (pair : ℕ) (reason : AnyTest) → IsLeast da db u names table
        → IsTableAnswer da db u table (Answer.No kind pair reason) → ListsAll names other
        → ¬ IsClosed da db u other }
{}

/// Two dictionaries, a policy and names have one proposal.
pub fn one_proposal()
    ensures { (da db : Dictionary) (u : AnyPolicy) (names : List (List ℕ)) (a b : PlainTable)
        → IsDictionary da → IsDictionary db → IsProposal da db u names a
        → IsProposal da db u names b → a ≡ b }
{}
