//! What the words on tables mean, whatever the table. These functions do nothing: each is its law.

ghost use Rattle.std.specs.Prelude.{◌≡◌, ◌↔◌, ◌<◌, ◌⊎◌, ◌&&◌, ◌||◌, not, nat_le, ℕ, Bool, List, [], true, map, length, slice_index_or, IsTrue};
ghost use Rattle.std.specs.List.{filter, list_all, AllByRecursion};
ghost use Rattle.mon_list.specs.Has.{Has};
ghost use Rattle.mon_header.specs.declared.header.Header.{Header};
ghost use Rattle.mon_header.specs.Matching.{Matching, IsNormal, matches};
ghost use Rattle.mon_table.specs.declared.rule.Rule.{Rule};
ghost use Rattle.mon_table.specs.declared.edit.Edit.{Edit};
ghost use Rattle.mon_table.specs.Rules.{Identity, identity_of, same_identity, rank};
ghost use Rattle.mon_table.specs.Tables.{InOrder, IsTable, places, slice, tied};
ghost use Rattle.mon_table.specs.Edits.{edited, after, undone, IsRight};
ghost use Rattle.mon_table.specs.Winners.{winners, may_miss, left, AllSure};
ghost use Rattle.mon_table.specs.Laws.{IsPut, IsLeft};

/// Two rules have one identity exactly where their matches and effective priorities are equal.
pub fn identity_is_match_and_rank()
    ensures { (a b : Identity) → IsTrue (same_identity a b) ↔ (a ≡ b) }
{}

/// A table has at most one rule of an identity.
pub fn one_rule_has_an_identity()
    ensures { (t : List Rule) (r s : Rule) → InOrder t → Has t r → Has t s → IsTrue (same_identity (identity_of r) (identity_of s)) → r ≡ s }
{}

/// Two tables that have the same rules are equal.
pub fn a_table_is_its_rules()
    ensures { (t u : List Rule) → InOrder t → InOrder u → ((r : Rule) → Has t r ↔ Has u r) → t ≡ u }
{}

/// After an edit a table has the rule that was put, and those of other identities that it had. It is a table again.
pub fn an_edit_keeps_the_others()
    ensures members { (t : List Rule) (x : Edit) (r : Rule) → Has (after t x) r ↔ (IsPut x r ⊎ IsLeft t x r) }
    ensures table { (t : List Rule) (x : Edit) → IsTable t → IsNormal (edited x).matching → IsTable (after t x) }
{}

/// An edit that says rightly what stood in its place, and is taken back, leaves the table that it came to.
pub fn an_edit_is_taken_back()
    ensures { (t : List Rule) (x : Edit) → IsTable t → IsNormal (edited x).matching → IsRight t x → undone (after t x) x ≡ t }
{}

/// The places that a lookup gives are places of the table, and show the rules that pass its test, in table order.
pub fn places_show_the_rules()
    ensures within { (test : Rule → Bool) (t : List Rule) → AllByRecursion (λ k. k < length t) (places test t) }
    ensures shown { (test : Rule → Bool) (t : List Rule) (d : Rule) → map (λ k. slice_index_or t k d) (places test t) ≡ filter test t }
{}

/// Where unsure rules are gone, those win of what is left that win of the whole and are left, and both may miss the
/// same headers.
pub fn what_is_gone_hid_nothing()
    ensures winners { (t : List Rule) (goes : Rule → Bool) (h : Header) → winners (left goes t) h ≡ left goes (winners t h) }
    ensures misses { (t : List Rule) (goes : Rule → Bool) (h : Header) → may_miss (left goes t) h ≡ may_miss t h }
{}

/// Without unsure rules those win that match and whose effective priority no rule that matches exceeds, and a packet
/// may miss exactly where none wins.
pub fn sure_rules_win_by_priority()
    ensures winners { (t : List Rule) (h : Header) → AllSure t → winners t h ≡ filter (λ r. matches r.matching h && list_all (λ s. not (matches s.matching h) || nat_le (rank s) (rank r)) t) t }
    ensures misses { (t : List Rule) (h : Header) → InOrder t → AllSure t → IsTrue (may_miss t h) ↔ (winners t h ≡ []) }
{}

/// Where no rule wins a packet may miss.
pub fn what_none_wins_may_miss()
    ensures { (t : List Rule) (h : Header) → InOrder t → winners t h ≡ [] → IsTrue (may_miss t h) }
{}

/// The rules that overlap a match say all that the table says: who wins for a header that the match takes and whether it
/// may miss, both of these after an edit, and whether a rule with that match is tied.
#[tactic(auto, using(crate::proofs::Slicing::slicing))]
pub fn a_slice_says_the_same()
    ensures winners { (t : List Rule) (m : Matching) (h : Header) → InOrder t → IsTrue (matches m h) → winners (slice m t) h ≡ winners t h }
    ensures edited { (t : List Rule) (m : Matching) (h : Header) (x : Edit) → IsTable t → IsNormal (edited x).matching → IsTrue (matches m h) → winners (after (slice m t) x) h ≡ winners (after t x) h }
    ensures misses { (t : List Rule) (m : Matching) (h : Header) → IsTrue (matches m h) → may_miss (slice m t) h ≡ may_miss t h }
    ensures edited_misses { (t : List Rule) (m : Matching) (h : Header) (x : Edit) → IsTrue (matches m h) → may_miss (after (slice m t) x) h ≡ may_miss (after t x) h }
    ensures tied { (t : List Rule) (r : Rule) → tied (slice r.matching t) r ≡ tied t r }
{}
