//! What holds of the definitions alone.
ghost use Rattle.std.specs.Prelude.{◌≡◌, List, ℕ};
ghost use Rattle.values.specs.declared.fault.Fault.{Fault};
ghost use Rattle.values.specs.declared.fault.Fault.TheVariants.{NoMemory};
ghost use Rattle.sql_reader.specs.StatementTexts.{IsAllowed, IsRefusedStatement, SpellsAt, SpellsStatement};
ghost use Rattle.sql_reader_syntax.specs.StatementTree.{StatementTree};

/// A text spells at most one statement, whatever levels it has.
pub fn one_statement()
    ensures { (text : List ℕ) (levels others : ℕ) (first second : StatementTree) → SpellsAt levels text first
        → SpellsAt others text second → first ≡ second }
{}

/// A text that spells a statement within the limits is refused by nothing but want of memory.
pub fn allowed_is_taken()
    ensures { (text : List ℕ) (tree : StatementTree) (fault : Fault) → SpellsStatement text tree → IsAllowed text tree
        → IsRefusedStatement text fault → fault ≡ NoMemory }
{}
