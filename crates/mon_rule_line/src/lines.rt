//! The lines of a session's table.

ghost use Rattle.std.specs.Prelude.{◌≡◌, string_bytes, IfOk};
ghost use Rattle.mon_rule_line.specs.RuleWords.{actions_text, unsure_text};
ghost use Rattle.mon_rule_line.specs.TableLines.{table_line};

use mon_list::OutOfMemory;
use mon_table::Rule;
use mon_text::digits;
use of_action::write_actions;
use of_match::write_match;
use std::alloc::Global;

/// The digits of the bytes of actions, and a dash where there are none.
fn actions_text(alloc: Global, bytes: &[u8]) -> Result<String, OutOfMemory>
    ensures { IfOk result (λ text. string_bytes text ≡ actions_text bytes.now) }
{
    match bytes {
        [] => Ok(String::from_str(alloc, "-")?),
        [_, ..] => digits(alloc, bytes),
    }
}

/// The word of a rule that a timeout may take, and nothing for a sure one.
fn unsure_text(alloc: Global, unsure: bool) -> Result<String, OutOfMemory>
    ensures { IfOk result (λ text. string_bytes text ≡ unsure_text unsure) }
{
    if unsure {
        return Ok(String::from_str(alloc, " unsure")?);
    }
    Ok(String::new(alloc))
}

/// The line of one rule of a session's table, with its line feed: `table`, the number of the session, the rule's
/// priority field, the 40 bytes of its match (OpenFlow 1.0.0, flow match structures) and the bytes of its actions (flow
/// action structures). Numbers are decimal and bytes are lower hexadecimal digits; a rule without actions has `-` in
/// their place, and one that a timeout may take ends in ` unsure`.
pub fn table_line(alloc: Global, session: u64, rule: &Rule) -> Result<String, OutOfMemory>
    ensures { IfOk result (λ text. string_bytes text ≡ table_line session rule.now) }
{
    let priority = rule.priority;
    let matching = digits(alloc, &write_match(&rule.matching))?;
    let actions = actions_text(alloc, &write_actions(alloc, &rule.actions)?)?;
    let unsure = unsure_text(alloc, rule.unsure)?;
    let line = format!(in alloc; "table {session} {priority} {matching} {actions}{unsure}\n")?;
    Ok(line)
}
