//! What a plan and its check say of a table. These functions do nothing: each is its law.

ghost use Rattle.std.specs.Prelude.{◌≡◌, ◌↔◌, ◌+◌, ℕ, List, length};
ghost use Rattle.mon_list.specs.Has.{Has};
ghost use Rattle.mon_header.specs.declared.header.Header.{Header};
ghost use Rattle.mon_table.specs.declared.rule.Rule.{Rule};
ghost use Rattle.mon_table.specs.Tables.{IsTable};
ghost use Rattle.mon_outcome.specs.declared.emission.Emission.{Emission};
ghost use Rattle.mon_certificate.specs.declared.certificate.Certificate.{Certificate};
ghost use Rattle.mon_shows.specs.Views.{Viewing};
ghost use Rattle.mon_solve.specs.Accepting.{is_accepted};
ghost use Rattle.mon_plan.specs.declared.check.Checked.{Checked};
ghost use Rattle.mon_plan.specs.declared.summary.Summary.{Summary};
ghost use Rattle.mon_plan.specs.Planning.{watch_of, job_of, AreCertificates, AreAccepted};
ghost use Rattle.mon_plan.specs.Checking.{checked, IsRefusedAt};
ghost use Rattle.mon_plan.specs.Counting.{IsSummary};

/// A probe and a tie are accepted of a rule's job, which bears a slice of the table, exactly where they are of the whole
/// table. The logs of a refutation belong to the clauses of the slice.
pub fn a_slice_accepts_the_same()
    ensures probe { (v : Viewing) (t : List Rule) (r : Rule) (h : Header) (e : Emission) → IsTable t → Has t r
        → is_accepted (job_of v t r) (Certificate.Probe h e) ≡ is_accepted (watch_of v t r) (Certificate.Probe h e) }
    ensures overlap { (v : Viewing) (t : List Rule) (r : Rule) → is_accepted (job_of v t r) Certificate.Overlap ≡ is_accepted (watch_of v t r) Certificate.Overlap }
{}

/// Certificates are accepted exactly where there are as many as rules and each is, and refused exactly at the first
/// place where one isn't, or at the end of the shorter list where all before are.
pub fn a_check_says()
    ensures accepted { (v : Viewing) (t : List Rule) (cs : List Certificate) (n : ℕ)
        → (checked v t cs ≡ Checked.Accepted n) ↔ ((n ≡ length t) × AreAccepted v t cs) }
    ensures refused { (v : Viewing) (t : List Rule) (cs : List Certificate) (n : ℕ)
        → (checked v t cs ≡ Checked.Refused n) ↔ IsRefusedAt v t cs n }
{}

/// What is planned is accepted.
pub fn a_plan_is_accepted()
    ensures { (v : Viewing) (t : List Rule) (cs : List Certificate) → AreCertificates v t cs → checked v t cs ≡ Checked.Accepted (length t) }
{}

/// A table has one summary, and its last three counts sum to its first.
pub fn a_table_has_one_summary()
    ensures one { (v : Viewing) (t : List Rule) (a b : Summary) → IsSummary v t a → IsSummary v t b → a ≡ b }
    ensures sum { (v : Viewing) (t : List Rule) (s : Summary) → IsSummary v t s → s.rules ≡ s.probes + s.indistinguishable + s.overlap }
{}
