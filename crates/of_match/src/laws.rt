//! What joins matches and their bytes, whatever the match.

ghost use Rattle.std.specs.Prelude.{◌≡◌};
ghost use Rattle.mon_header.specs.Matching.{Matching, IsNormal};
ghost use Rattle.mon_header.specs.Order.{match_before, is_less};
ghost use Rattle.of_match.specs.Layout.{match_of, spelled};

/// What is written is read again.
pub fn written_is_read()
    ensures { (m : Matching) → IsNormal m → match_of (spelled m) ≡ m }
{}

/// One match stands before another exactly where the first of their bytes that differs is less.
pub fn order_is_of_bytes()
    ensures { (a b : Matching) → IsNormal a → IsNormal b → match_before a b ≡ is_less (spelled a) (spelled b) }
{}
