//! What the edits of a message make of a table, and how they go on, whatever the table. These functions do nothing: each is
//! its law.

ghost use Rattle.std.specs.Prelude.{◌≡◌, ◌↔◌, ◌⊎◌, ◌||◌, ◌∷◌, [], ℕ, List, IsTrue, if◌then◌else◌};
ghost use Rattle.std.specs.List.{AllByRecursion};
ghost use Rattle.mon_list.specs.Has.{Has};
ghost use Rattle.mon_header.specs.Matching.{IsNormal};
ghost use Rattle.mon_table.specs.declared.rule.Rule.{Rule};
ghost use Rattle.mon_table.specs.Tables.{InOrder, IsTable};
ghost use Rattle.mon_table.specs.Edits.{after_all};
ghost use Rattle.of_msgs.specs.declared.flow_mod.FlowMod.{FlowMod};
ghost use Rattle.of_msgs.specs.FlowMods.{IsFlowMod, IsFlowModFrame, with_flags};
ghost use Rattle.mon_edits.specs.Naming.{has_timeout, is_add, is_deletion, named, adds_entry};
ghost use Rattle.mon_edits.specs.Edits.{rule_in, edits_of};
ghost use Rattle.mon_edits.specs.Frames.{is_cut, with_removal, frames_of};
ghost use Rattle.mon_edits.specs.Laws.{AllRight, IsOther, IsTaken, IsChanged, changes_entries};

/// A message takes entries out exactly where its command is a deletion.
pub fn edits_suit_the_command()
    ensures { (t : List Rule) (m : FlowMod) → AllByRecursion (λ e. is_cut e ≡ is_deletion m.command) (edits_of t m) }
{}

/// Each edit says rightly what stands in its place, in the table that the edits before it leave.
pub fn edits_say_what_stood_there()
    ensures { (t : List Rule) (m : FlowMod) → IsTable t → IsNormal m.matching → AllRight t (edits_of t m) }
{}

/// After a message that adds an entry or is an ADD a table has the message's rule, and those of other identities that
/// it had.
pub fn an_add_puts_its_rule()
    ensures { (t : List Rule) (m : FlowMod) (r : Rule) → IsTrue (is_add m.command || adds_entry t m) → Has (after_all t (edits_of t m)) r ↔ ((r ≡ rule_in m) ⊎ IsOther t m r) }
{}

/// After a modification that names some entry a table has each entry that it names with the message's actions, and
/// every other one as it was.
pub fn a_modification_changes_what_it_names()
    ensures { (t : List Rule) (m : FlowMod) (r : Rule) → InOrder t → IsTrue (changes_entries t m) → Has (after_all t (edits_of t m)) r ↔ (IsChanged m (named t m) r ⊎ (Has t r × (Has (named t m) r → ⊥))) }
{}

/// After a deletion a table has what it had, but for the entries that the message names with its out_port.
pub fn a_deletion_leaves_what_it_does_not_take()
    ensures { (t : List Rule) (m : FlowMod) (r : Rule) → InOrder t → IsTrue (is_deletion m.command) → Has (after_all t (edits_of t m)) r ↔ (Has t r × (IsTaken t m r → ⊥)) }
{}

/// An ADD goes to the switch as the frame in which it came, byte for byte, but that one with a timeout bears SEND_FLOW_REM
/// besides its flags.
pub fn an_add_goes_on_as_it_came()
    ensures { (t : List Rule) (m : FlowMod) (bytes : List ℕ) → IsFlowModFrame bytes → IsFlowMod bytes m → IsTrue (is_add m.command)
        → frames_of m (edits_of t m) bytes ≡ with_flags (if has_timeout m then with_removal m.flags else m.flags) bytes ∷ [] }
{}
