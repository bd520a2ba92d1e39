//! What rules and texts are of, whatever they are. These functions do nothing: each is its law.

ghost use Rattle.std.specs.Prelude.{◌≡◌, ℕ, List};
ghost use Rattle.mon_text.specs.BadLines.{IsFirstBadLine};
ghost use Rattle.mon_table.specs.declared.rule.Rule.{Rule};
ghost use Rattle.mon_table.specs.Tables.{AllNormal};
ghost use Rattle.mon_shows.specs.Views.{Viewing};
ghost use Rattle.mon_table_file.specs.Filling.{AreApart, IsTableOf};
ghost use Rattle.mon_table_file.specs.TableFile.{IsTableFile, IsTableText};

/// Rules have at most one table, and have one where no two of them have one identity.
pub fn rules_have_one_table()
    ensures some { (rules : List Rule) → AllNormal rules → AreApart rules → (t : List Rule) × IsTableOf rules t }
    ensures one { (rules t u : List Rule) → IsTableOf rules t → IsTableOf rules u → t ≡ u }
{}

/// A text is the file of at most one view and table.
pub fn a_file_is_of_one()
    ensures { (text : List ℕ) (v w : Viewing) (t u : List Rule) → IsTableFile text v t → IsTableFile text w u → (v ≡ w) × (t ≡ u) }
{}

/// A text has at most one first bad line, so the offset that `read_table` gives is a function of the text.
pub fn one_line_is_the_first_bad_one()
    ensures { (text : List ℕ) (a b : ℕ) → IsFirstBadLine IsTableText text a → IsFirstBadLine IsTableText text b → a ≡ b }
{}
