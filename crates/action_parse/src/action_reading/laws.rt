//! Laws of the definitions.
ghost use Rattle.std.specs.Prelude.{◌≡◌, ℕ, List};
ghost use Rattle.action_program.specs.Named.{ExprTree, Stmts};
ghost use Rattle.action_parse.specs.action_reading.Written.{IsProgramOf, IsConditionOf};

/// A text is the text of one program at most, and of one condition at most.
pub fn one_tree()
    ensures program { (bytes : List ℕ) → (t u : Stmts) → IsProgramOf bytes t → IsProgramOf bytes u
        → t ≡ u }
    ensures condition { (bytes : List ℕ)
        → (d e : ExprTree)
        → IsConditionOf bytes d
        → IsConditionOf bytes e
        → d ≡ e }
{}
