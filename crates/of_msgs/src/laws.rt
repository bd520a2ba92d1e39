//! What reading a FLOW_MOD gives, and what is written of it, whatever the bytes. These functions do nothing: each is its law.

ghost use Rattle.std.specs.Prelude.{◌≡◌, ◌≢◌, ◌⊎◌, ◌↔◌, ◌≤◌, ℕ, List, length, Result};
ghost use Rattle.of_msgs.specs.declared.fault.ModFault.{ModFault};
ghost use Rattle.of_msgs.specs.declared.fault.ModFault.TheVariants as faults;
ghost use Rattle.of_msgs.specs.declared.flow_mod.FlowMod.{FlowMod};
ghost use Rattle.of_msgs.specs.FlowMods.{IsFlowMod, IsFlowModFrame, ReadsFlowMod, flow_mod_of, with_flags};
ghost use Rattle.of_msgs.specs.ReadMods.{flow_mod_in};

/// A reader of FLOW_MODs can answer one thing only for the same bytes, unless memory runs out. This answer is a message
/// exactly where the bytes are one, never that memory ran out, and a fault of bytes that a frame has room for only where
/// they have it.
#[tactic(auto, using(crate::proofs::Determined::reading))]
pub fn reading_is_a_function()
    ensures determined { (bytes : List ℕ) (answer : Result FlowMod ModFault) → ReadsFlowMod bytes answer → (answer ≡ Err faults.OutOfMemory) ⊎ (answer ≡ flow_mod_in bytes) }
    ensures message { (bytes : List ℕ) (m : FlowMod) → (flow_mod_in bytes ≡ Ok m) ↔ IsFlowMod bytes m }
    ensures reads { (bytes : List ℕ) → length bytes ≤ 65535 → ReadsFlowMod bytes (flow_mod_in bytes) }
    ensures finds_memory { (bytes : List ℕ) → flow_mod_in bytes ≢ Err faults.OutOfMemory }
{}

/// A FLOW_MOD that was read is written as the frame in which it came, byte for byte; with other flags, as that frame with
/// those.
pub fn what_was_read_is_written()
    ensures same { (bytes : List ℕ) (m : FlowMod) → IsFlowModFrame bytes → IsFlowMod bytes m → flow_mod_of m ≡ bytes }
    ensures flagged { (bytes : List ℕ) (m : FlowMod) (set : ℕ) → IsFlowModFrame bytes → IsFlowMod bytes m
        → flow_mod_of (record m { flags = set }) ≡ with_flags set bytes }
{}
