//! What the words on matches mean, whatever the match. These functions do nothing: each is its law.

ghost use Rattle.std.specs.Prelude.{◌≡◌, ◌↔◌, Bool, IsTrue, false, List, length};
ghost use Rattle.mon_header.specs.declared.class.Class.{Class};
ghost use Rattle.mon_header.specs.declared.header.Header.{Header};
ghost use Rattle.mon_header.specs.Wild.{packed, unpacked};
ghost use Rattle.mon_header.specs.Matching.{Matching, InRange, IsNormal, normal, covers, overlaps};
ghost use Rattle.mon_header.specs.Order.{match_before};
ghost use Rattle.mon_header.specs.Laws.{ShareHeader, TakesAllOf};
ghost use Rattle.mon_header.specs.Classes.{is_in_class, in_class};
ghost use Rattle.mon_header.specs.Places.{header_size, header_bits, header_of};

/// Two matches overlap exactly where some header is taken by both.
#[tactic(auto, using(crate::proofs::Sharing::sharing))]
pub fn overlapping_is_a_shared_header()
    ensures { (a b : Matching) → IsNormal a → IsNormal b → IsTrue (overlaps a b) ↔ ShareHeader a b }
{}

/// A match covers another exactly where it takes each header that the other takes.
#[tactic(auto, using(crate::proofs::Covering::covering))]
pub fn covering_is_taking_all()
    ensures { (w n : Matching) → IsNormal w → IsNormal n → IsTrue (covers w n) ↔ TakesAllOf w n }
{}

/// The normalised form is unchanged when it is normalised again.
#[tactic(auto, using(crate::proofs::Keeping::keeping))]
pub fn normal_is_kept()
    ensures { (m : Matching) → IsNormal m → normal (unpacked (packed m.wild)) m.fields ≡ m }
{}

/// No match stands before itself, what stands before another stands before all that follow it, and of two different
/// matches one stands before the other.
#[tactic(auto, using(crate::proofs::Sorting::ordering))]
pub fn order_is_strict_and_total()
    ensures itself { (a : Matching) → match_before a a ≡ false }
    ensures onward { (a b c : Matching) → IsTrue (match_before a b) → IsTrue (match_before b c) → IsTrue (match_before a c) }
    ensures neither { (a b : Matching) → IsNormal a → IsNormal b → match_before a b ≡ false → match_before b a ≡ false → a ≡ b }
{}

/// A header within range is read from its 264 bits, 264 bits are those of the header that is read from them, and what
/// is read is within range.
#[tactic(auto, using(crate::proofs::Spelling::spelling))]
pub fn bits_are_the_header()
    ensures count { (h : Header) → length (header_bits h) ≡ header_size }
    ensures read { (h : Header) → InRange h → header_of (header_bits h) ≡ h }
    ensures written { (bits : List Bool) → length bits ≡ header_size → header_bits (header_of bits) ≡ bits }
    ensures range { (bits : List Bool) → InRange (header_of bits) }
{}

/// A header that a frame can have is in one class, and its numbers fit their fields.
#[tactic(auto, using(crate::proofs::Classing::classing))]
pub fn classes_are_apart()
    ensures some { (h : Header) → IsTrue (in_class h) ↔ ((c : Class) × IsTrue (is_in_class c h)) }
    ensures one { (c d : Class) (h : Header) → IsTrue (is_in_class c h) → IsTrue (is_in_class d h) → c ≡ d }
    ensures range { (c : Class) (h : Header) → IsTrue (is_in_class c h) → InRange h }
{}
