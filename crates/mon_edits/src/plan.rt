//! From a FLOW_MOD to the edits of the table.

ghost use Rattle.std.specs.Prelude.{◌≡◌, ◌∷◌, [], false, map, IfOk};
ghost use Rattle.std.specs.List.{filter};
ghost use Rattle.mon_edits.specs.Naming.{is_emergency, covered, at_identity};
ghost use Rattle.mon_edits.specs.Edits.{rule_in, changed_rule, changed, or_added, is_output, has_output, is_taken, taken, added, edits_of};
ghost use Rattle.mon_edits.specs.Refusals.{refusal, Plans};

use crate::naming::{entry, has_timeout};
use crate::refusal::{ModRefusal, refusal};
use mon_header::{Action, Actions, covers};
use mon_list::{Items, OutOfMemory};
use mon_table::{Edit, Rule, Table};
use of_msgs::{Command, FlowMod, ports};
use std::alloc::Global;

/// The edits of a message, in the order in which they pass.
pub type Edits = Items<Edit>;

/// The rule that the message spells: unsure where the message has a timeout.
fn rule_in(alloc: Global, m: &FlowMod) -> Result<Rule, OutOfMemory>
    ensures { IfOk result (λ r. r ≡ rule_in m.now) }
{
    let actions = m.actions.copied(alloc)?;
    Ok(Rule {
        matching: m.matching,
        priority: m.priority,
        actions,
        unsure: has_timeout(m),
    })
}

/// The message's actions put into an entry. The rule is unsure where the message has a timeout, or the entry was.
fn changed(alloc: Global, m: &FlowMod, entry: &Rule) -> Result<Edit, OutOfMemory>
    ensures { IfOk result (λ e. e ≡ changed m.now entry.now) }
{
    let actions = m.actions.copied(alloc)?;
    let old = entry.copied(alloc)?;
    Ok(Edit::Put {
        rule: Rule {
            matching: entry.matching,
            priority: entry.priority,
            actions,
            unsure: has_timeout(m) || entry.unsure,
        },
        old: Some(old),
    })
}

/// The message's actions put into each entry that its match covers.
fn changed_where_covered(
    alloc: Global,
    table: &Table,
    m: &FlowMod,
) -> Result<Vec<Edit>, OutOfMemory>
    ensures { IfOk result (λ edits. edits.items ≡ map (changed m.now) (covered table.now m.now)) }
{
    let mut edits = Vec::new(alloc);
    for place in 0..table.len() {
        let entry = table.rule(place);
        if covers(&m.matching, &entry.matching) {
            edits.push(changed(alloc, m, entry)?)?;
        }
    }
    Ok(edits)
}

/// The message's actions put into the entry of its identity.
fn changed_at_identity(alloc: Global, table: &Table, m: &FlowMod) -> Result<Vec<Edit>, OutOfMemory>
    ensures { IfOk result (λ edits. edits.items ≡ map (changed m.now) (at_identity table.now m.now)) }
{
    let mut edits = Vec::new(alloc);
    if let Some(entry) = entry(table, m) {
        edits.push(changed(alloc, m, entry)?)?;
    }
    Ok(edits)
}

/// The edits of a modification: where it changes none, it adds its rule.
fn or_added(alloc: Global, m: &FlowMod, mut edits: Vec<Edit>) -> Result<Vec<Edit>, OutOfMemory>
    ensures { IfOk result (λ all. all.items ≡ or_added m.now edits.items) }
{
    if edits.is_empty() {
        edits.push(Edit::Put {
            rule: rule_in(alloc, m)?,
            old: None,
        })?;
    }
    Ok(edits)
}

/// Whether an action is an OUTPUT to the port.
fn is_output(port: u16, action: &Action) -> bool
    ensures { result ≡ is_output port action.now }
{
    match action {
        Action::Output { port: to, .. } => *to == port,
        _ => false,
    }
}

/// Whether some action is an OUTPUT to the port.
fn has_output(port: u16, actions: &Actions) -> bool
    ensures { result ≡ has_output port actions.now }
{
    actions.items().iter().any(|action| is_output(port, action))
}

/// Whether the deletion takes an entry that it names.
fn is_taken(m: &FlowMod, entry: &Rule) -> bool
    ensures { result ≡ is_taken m.now entry.now }
{
    m.out_port == ports::NONE || has_output(m.out_port, &entry.actions)
}

/// Each entry that the message's match covers and that goes.
fn taken_where_covered(alloc: Global, table: &Table, m: &FlowMod) -> Result<Vec<Edit>, OutOfMemory>
    ensures { IfOk result (λ edits. edits.items ≡ map taken (filter (is_taken m.now) (covered table.now m.now))) }
{
    let mut edits = Vec::new(alloc);
    for place in 0..table.len() {
        let entry = table.rule(place);
        if !covers(&m.matching, &entry.matching) {
            continue;
        }
        if is_taken(m, entry) {
            let rule = entry.copied(alloc)?;
            edits.push(Edit::Cut { rule })?;
        }
    }
    Ok(edits)
}

/// The entry of the message's identity, if it goes.
fn taken_at_identity(alloc: Global, table: &Table, m: &FlowMod) -> Result<Vec<Edit>, OutOfMemory>
    ensures { IfOk result (λ edits. edits.items ≡ map taken (filter (is_taken m.now) (at_identity table.now m.now))) }
{
    let mut edits = Vec::new(alloc);
    if let Some(entry) = entry(table, m) {
        if is_taken(m, entry) {
            let rule = entry.copied(alloc)?;
            edits.push(Edit::Cut { rule })?;
        }
    }
    Ok(edits)
}

/// The rule of an ADD, with the entry that it replaces.
fn added(alloc: Global, table: &Table, m: &FlowMod) -> Result<Vec<Edit>, OutOfMemory>
    ensures { IfOk result (λ edits. edits.items ≡ added table.now m.now ∷ []) }
{
    let rule = rule_in(alloc, m)?;
    let old = match entry(table, m) {
        Some(entry) => Some(entry.copied(alloc)?),
        None => None,
    };
    Ok(vec![in alloc; Edit::Put { rule, old }]?)
}

/// The edits of a message that is not refused.
fn edits_of(alloc: Global, table: &Table, m: &FlowMod) -> Result<Vec<Edit>, OutOfMemory>
    ensures { IfOk result (λ edits. edits.items ≡ edits_of table.now m.now) }
{
    match m.command {
        Command::Add => added(alloc, table, m),
        Command::Modify => or_added(alloc, m, changed_where_covered(alloc, table, m)?),
        Command::ModifyStrict => or_added(alloc, m, changed_at_identity(alloc, table, m)?),
        Command::Delete => taken_where_covered(alloc, table, m),
        Command::DeleteStrict => taken_at_identity(alloc, table, m),
    }
}

/// The edits of a FLOW_MOD in table order, or the first reason for which it is refused (OpenFlow 1.0.0, modify flow
/// entry message). `table` has the controller's entries, `catching` the proxy's own, and `cuts` is the number of
/// unsettled cuts, which still take room on the switch. A message for the emergency table is not planned.
pub fn plan_mod(
    alloc: Global,
    table: &Table,
    catching: &Table,
    cuts: u32,
    m: &FlowMod,
) -> Result<Edits, ModRefusal>
    requires { is_emergency m.now ≡ false }
    ensures { Plans (refusal table.now catching.now cuts m.now) (edits_of table.now m.now) result }
{
    if let Some(refused) = refusal(table, catching, cuts, m) {
        return Err(refused);
    }
    Ok(Edits::of(edits_of(alloc, table, m)?))
}
