//! Which tables make a job, and which of them ask the same. These functions do nothing: each is its law.

ghost use Rattle.std.specs.Prelude.{◌≡◌, ◌↔◌, List, Option};
ghost use Rattle.mon_header.specs.declared.header.Header.{Header};
ghost use Rattle.mon_header.specs.Matching.{IsNormal};
ghost use Rattle.mon_table.specs.declared.rule.Rule.{Rule};
ghost use Rattle.mon_table.specs.declared.edit.Edit.{Edit};
ghost use Rattle.mon_table.specs.Tables.{IsTable, slice};
ghost use Rattle.mon_table.specs.Edits.{after, IsRight};
ghost use Rattle.mon_outcome.specs.declared.emission.Emission.{Emission};
ghost use Rattle.mon_shows.specs.declared.target.Target.{Target};
ghost use Rattle.mon_shows.specs.Views.{Viewing};
ghost use Rattle.mon_shows.specs.Separation.{separates};
ghost use Rattle.mon_job.specs.Jobs.{Task, updated, sliced, ReplacesItsOwn, IsJob};
ghost use Rattle.mon_job.specs.Verdicts.{IsTrueOf};
ghost use Rattle.mon_job.specs.declared.verdict.Says.{Says};

/// The table after an edit and the edit as a target make a job, where a put says rightly what stood in its place.
pub fn an_edit_makes_a_job()
    ensures put { (t : List Rule) (r : Rule) (old : Option Rule) → IsRight t (Edit.Put r old) → IsJob (after t (Edit.Put r old)) (Target.Put r old) }
    ensures cut { (t : List Rule) (r : Rule) → IsJob (after t (Edit.Cut r)) (Target.Cut r) }
{}

/// The rules that overlap the match of the target's rule make a job where the whole table does.
pub fn a_slice_makes_a_job()
    ensures { (t : List Rule) (x : Target) → IsJob t x → IsJob (slice (updated x).matching t) x }
{}

/// They ask the same: what separates there separates in the whole table, and a verdict is true of both or of neither.
pub fn a_slice_asks_the_same()
    ensures separates { (v : Viewing) (t : List Rule) (x : Target) (h : Header) (e : Emission)
        → IsTable t → IsNormal (updated x).matching → ReplacesItsOwn x
        → separates v (slice (updated x).matching t) x h e ≡ separates v t x h e }
    ensures verdicts { (j : Task) (says : Says)
        → IsTable j.table → IsNormal (updated j.target).matching → ReplacesItsOwn j.target
        → IsTrueOf (sliced j) says ↔ IsTrueOf j says }
{}
