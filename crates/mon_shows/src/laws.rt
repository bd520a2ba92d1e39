//! What is seen of an emission tells which one it was, what a table without an update is, and what is never shown. These
//! functions do nothing: each is its law.

ghost use Rattle.std.specs.Prelude.{◌≡◌, true, false, Bool, List, Option, Some, None, IsTrue};
ghost use Rattle.mon_header.specs.declared.header.Header.{Header};
ghost use Rattle.mon_header.specs.declared.action.Action.{Action};
ghost use Rattle.mon_table.specs.declared.rule.Rule.{Rule};
ghost use Rattle.mon_table.specs.declared.edit.Edit.{Edit};
ghost use Rattle.mon_table.specs.Edits.{undone};
ghost use Rattle.mon_table.specs.Rules.{identity_of};
ghost use Rattle.mon_table.specs.Tables.{InOrder, rule_of};
ghost use Rattle.mon_table.specs.Winners.{left};
ghost use Rattle.mon_outcome.specs.declared.emission.Emission.{Emission};
ghost use Rattle.mon_outcome.specs.Emitting.{emissions, is_among, shown};
ghost use Rattle.mon_shows.specs.declared.seen.Seen.{Seen};
ghost use Rattle.mon_shows.specs.declared.target.Target.{Target};
ghost use Rattle.mon_shows.specs.Links.{FarEndsDiffer, LeadAway};
ghost use Rattle.mon_shows.specs.Views.{Viewing, observed};
ghost use Rattle.mon_shows.specs.Separation.{with_update, without_update, must_show, may_show, separates};
ghost use Rattle.mon_shows.specs.Under.{Under};

/// In a view whose links have different far ends, none of them at the view's own switch, two emissions that came in at
/// one port and of which the same is seen are equal.
pub fn what_is_seen_tells_the_emission()
    ensures { (v : Viewing) (a b : Emission) (s : Seen) → FarEndsDiffer v.links → LeadAway v.switch v.links
        → (shown a).in_port ≡ (shown b).in_port → observed v a ≡ Some s → observed v b ≡ Some s → a ≡ b }
{}

/// What actions emit of a header shows the port at which it came in. So all emissions of one header came in at one port.
pub fn emissions_keep_the_in_port()
    ensures { (actions : List Action) (h : Header) (e : Emission)
        → is_among e (emissions actions h) ≡ true → (shown e).in_port ≡ h.in_port }
{}

/// The table without the update of a put of a sure rule, or of a cut, is the one with that edit undone.
pub fn an_update_is_an_edit()
    ensures put { (t : List Rule) (r : Rule) (old : Option Rule) → r.unsure ≡ false → without_update t (Target.Put r old) ≡ undone t (Edit.Put r old) }
    ensures cut { (t : List Rule) (r : Rule) → without_update t (Target.Cut r) ≡ undone t (Edit.Cut r) }
{}

/// What a table may show of a header, one that it is under may show. What is left of a table where unsure rules are gone
/// is under the whole.
#[tactic(auto, using(crate::proofs::Showing::showing))]
pub fn what_is_under_shows_no_more()
    ensures shown { (h : Header) (t u : List Rule) (e : Emission) → Under h t u → IsTrue (may_show t h e) → IsTrue (may_show u h e) }
    ensures gone { (t : List Rule) (goes : Rule → Bool) (h : Header) → Under h (left goes t) t }
    ensures must { (t : List Rule) (h : Header) (e : Emission) → IsTrue (must_show t h e) → IsTrue (may_show t h e) }
{}

/// What separates does so whichever unsure rules are gone: what is left of the table with the update must show it, and
/// what is left of the one without cannot.
pub fn what_separates_does_whichever_rules_are_gone()
    ensures with_it { (v : Viewing) (t : List Rule) (x : Target) (goes : Rule → Bool) (h : Header) (e : Emission)
        → InOrder (with_update t x) → IsTrue (separates v t x h e) → IsTrue (must_show (left goes (with_update t x)) h e) }
    ensures without_it { (v : Viewing) (t : List Rule) (x : Target) (goes : Rule → Bool) (h : Header) (e : Emission)
        → IsTrue (separates v t x h e) → may_show (left goes (without_update t x)) h e ≡ false }
{}

/// The cut of an unsure entry is never shown: it looks as if its timeout had taken it.
pub fn the_cut_of_an_unsure_entry_is_never_shown()
    ensures { (v : Viewing) (t : List Rule) (r : Rule) (h : Header) (e : Emission)
        → rule_of (identity_of r) t ≡ None → r.unsure ≡ true → separates v t (Target.Cut r) h e ≡ false }
{}

/// A put over an entry with the same actions is never shown, whether one of the two is unsure or not.
pub fn a_put_over_a_twin_is_never_shown()
    ensures { (v : Viewing) (t : List Rule) (r old : Rule) (h : Header) (e : Emission)
        → identity_of old ≡ identity_of r → old.actions ≡ r.actions → separates v t (Target.Put r (Some old)) h e ≡ false }
{}
