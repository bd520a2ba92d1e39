//! What the place of a fault means. These functions do nothing: each is its law.

ghost use Rattle.std.specs.Prelude.{◌≡◌, ℕ, List, Err};
ghost use Rattle.mon_text.specs.BadLines.{IsFirstBadLine};
ghost use Rattle.mon_trace.specs.Broken.{IsTrace};
ghost use Rattle.mon_trace.specs.Grammar.{trace_of};

/// Where a text is no trace, its first bad line begins at the offset that the grammar gives.
pub fn a_fault_is_the_first_bad_line()
    ensures { (text : List ℕ) (offset : ℕ) → trace_of text ≡ Err offset → IsFirstBadLine IsTrace text offset }
{}
