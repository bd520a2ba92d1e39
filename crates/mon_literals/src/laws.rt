//! What the literals and clauses mean, whatever they are of. These functions do nothing: each is its law.

ghost use Rattle.std.specs.Prelude.{◌≡◌, ◌<◌, ◌^◌, ◌++◌, ℕ, Bool, true, false, not, ◌==◌, ◌&&◌, List, Some, None};
ghost use Rattle.std.specs.List.{list_all};
ghost use Rattle.mon_cnf.specs.declared.clause.Lit.{Lit};
ghost use Rattle.mon_cnf.specs.Truth.{values_of, lit_true, clause_true, formula_true, Within, WithinAll};
ghost use Rattle.mon_header.specs.declared.class.Class.{Class};
ghost use Rattle.mon_header.specs.declared.header.Header.{Header};
ghost use Rattle.mon_header.specs.Classes.{fits, is_in_class};
ghost use Rattle.mon_header.specs.Matching.{Matching, IsNormal, matches};
ghost use Rattle.mon_header.specs.Places.{header_size, header_bits};
ghost use Rattle.mon_header.specs.Same.{same_header};
ghost use Rattle.mon_outcome.specs.declared.rewrite.Rewrite.{Rewrite};
ghost use Rattle.mon_outcome.specs.Filling.{filled};
ghost use Rattle.mon_shows.specs.Views.{Viewing, IsView, has_link, craftable};
ghost use Rattle.mon_literals.specs.Bearing.{Bears, borne};
ghost use Rattle.mon_literals.specs.Clauses.{denied, alone};
ghost use Rattle.mon_literals.specs.Patterns.{pattern_of};
ghost use Rattle.mon_literals.specs.Conditions.{class_clauses};
ghost use Rattle.mon_literals.specs.Differing.{FitsFields, differ};

/// Each assignment bears the header of its first values, as many as a header has bits, and no other, and the bits of a header bear it, whatever
/// stands behind them.
pub fn values_bear_one_header()
    ensures some { (v : ℕ → Bool) → Bears v (borne v) }
    ensures one { (v : ℕ → Bool) (h : Header) → Bears v h → borne v ≡ h }
    ensures own { (h : Header) (rest : List Bool) → fits h ≡ true → Bears (values_of (header_bits h ++ rest)) h }
{}

/// The denial of literals is true where not all of them are, and clauses of one literal each where all of them are.
pub fn clauses_of_literals()
    ensures denied { (v : ℕ → Bool) (ls : List Lit) → clause_true v (denied ls) ≡ not (list_all (lit_true v) ls) }
    ensures alone { (v : ℕ → Bool) (ls : List Lit) → formula_true v (alone ls) ≡ list_all (lit_true v) ls }
{}

/// The literals of a match are all true exactly where the match takes the header.
pub fn patterns_are_matches()
    ensures { (v : ℕ → Bool) (h : Header) (m : Matching) → Bears v h → IsNormal m → list_all (lit_true v) (pattern_of m) ≡ matches m h }
{}

/// The clauses of a class and of a link's port are true exactly where a probe can have the header, and it is in the
/// class and came in at the port.
pub fn class_clauses_are_the_class()
    ensures { (v : ℕ → Bool) (h : Header) (view : Viewing) (c : Class) (in_port : ℕ) → Bears v h → IsView view → in_port < 2 ^ 16
        → has_link in_port view.links ≡ true
        → formula_true v (class_clauses view c in_port) ≡ (craftable view h && (is_in_class c h && (h.in_port == in_port))) }
{}

/// The clause of two rewrites is true exactly where what they make of the header differs, and there is none only where
/// that always does.
pub fn clauses_that_differ()
    ensures sometimes { (v : ℕ → Bool) (h : Header) (a b : Rewrite) (d : List Lit) → Bears v h → FitsFields a → FitsFields b
        → differ a b ≡ Some d → clause_true v d ≡ not (same_header (filled a h) (filled b h)) }
    ensures always { (v : ℕ → Bool) (h : Header) (a b : Rewrite) → Bears v h → FitsFields a → FitsFields b
        → differ a b ≡ None → same_header (filled a h) (filled b h) ≡ false }
{}

/// The literals are of the variables of a header's bits.
#[tactic(auto, using(crate::proofs::Reaching::reaching))]
pub fn literals_are_of_bits()
    ensures pattern { (m : Matching) → Within header_size (pattern_of m) }
    ensures class { (view : Viewing) (c : Class) (in_port : ℕ) → WithinAll header_size (class_clauses view c in_port) }
    ensures differ { (a b : Rewrite) (d : List Lit) → differ a b ≡ Some d → Within header_size d }
{}
