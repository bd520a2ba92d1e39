//! What actions keep, whatever the header. These functions do nothing: each is its law.

ghost use Rattle.std.specs.Prelude.{◌≡◌, ◌↔◌, true, List, ℕ};
ghost use Rattle.mon_header.specs.declared.class.Class.{Class};
ghost use Rattle.mon_header.specs.declared.header.Header.{Header};
ghost use Rattle.mon_header.specs.declared.action.Action.{Action};
ghost use Rattle.mon_header.specs.Actions.{AllFit};
ghost use Rattle.mon_header.specs.Classes.{is_in_class};
ghost use Rattle.mon_header.specs.Places.{bit_at};
ghost use Rattle.mon_outcome.specs.Acting.{apply};
ghost use Rattle.mon_outcome.specs.declared.rewrite.Rewrite.{Rewrite};
ghost use Rattle.mon_outcome.specs.declared.emission.Emission.{Emission};
ghost use Rattle.mon_outcome.specs.Emitting.{emissions, same_emission, AllShow};
ghost use Rattle.mon_outcome.specs.Filling.{filled, bit_of, filled_bit};

/// A header of a class is one of that class after all actions.
pub fn apply_keeps_the_class()
    ensures { (actions : List Action) (c : Class) (h : Header)
        → AllFit actions → is_in_class c h ≡ true → is_in_class c (apply actions h) ≡ true }
{}

/// What actions emit of a header of a class shows headers of that class.
pub fn emissions_keep_the_class()
    ensures { (actions : List Action) (c : Class) (h : Header)
        → AllFit actions → is_in_class c h ≡ true → AllShow c (emissions actions h) }
{}

/// Two emissions agree in each number exactly where they are equal.
pub fn same_emissions_are_equal()
    ensures { (a b : Emission) → (same_emission a b ≡ true) ↔ (a ≡ b) }
{}

/// The bits of the header that a rewrite makes are the rewrite's where it fixes them, and else those of the header.
pub fn filled_bits_are_bits()
    ensures { (r : Rewrite) (h : Header) (place : ℕ)
        → bit_at (filled r h) place ≡ filled_bit (bit_of r place) (bit_at h place) }
{}
