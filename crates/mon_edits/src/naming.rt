//! What a FLOW_MOD names.

ghost use Rattle.std.specs.Prelude.{◌≡◌};
ghost use Rattle.std.specs.Option.{option_copied};
ghost use Rattle.mon_table.specs.Tables.{rule_of};
ghost use Rattle.mon_edits.specs.Naming.{is_emergency, checks_overlap, has_timeout, is_add, is_strict, is_deletion, identity_in, is_none, covered, adds_entry};

use mon_header::covers;
use mon_table::{Rule, Table};
use of_msgs::{Command, FlowMod, flags};

/// Whether the message is for the emergency table (OpenFlow 1.0.0, modify flow entry message). Such a message passes as
/// it came, and is neither planned nor split.
pub fn is_emergency(m: &FlowMod) -> bool
    ensures { result ≡ is_emergency m.now }
{
    m.flags / flags::EMERG % 2 == 1
}

/// Whether the message asks to look for an overlap.
pub(crate) fn checks_overlap(m: &FlowMod) -> bool
    ensures { result ≡ checks_overlap m.now }
{
    m.flags / flags::CHECK_OVERLAP % 2 == 1
}

/// Whether the message has a timeout, so that its entry goes by itself.
pub(crate) fn has_timeout(m: &FlowMod) -> bool
    ensures { result ≡ has_timeout m.now }
{
    m.idle != 0 || m.hard != 0
}

/// Whether the command is an ADD.
pub(crate) fn is_add(command: Command) -> bool
    ensures { result ≡ is_add command }
{
    match command {
        Command::Add => true,
        Command::Modify | Command::ModifyStrict => false,
        Command::Delete | Command::DeleteStrict => false,
    }
}

/// Whether the command looks at one identity alone.
pub(crate) fn is_strict(command: Command) -> bool
    ensures { result ≡ is_strict command }
{
    match command {
        Command::ModifyStrict | Command::DeleteStrict => true,
        Command::Add | Command::Modify | Command::Delete => false,
    }
}

/// Whether the command takes entries out.
pub fn is_deletion(command: Command) -> bool
    ensures { result ≡ is_deletion command }
{
    match command {
        Command::Delete | Command::DeleteStrict => true,
        Command::Add | Command::Modify | Command::ModifyStrict => false,
    }
}

/// The entry of the message's match and effective priority.
pub(crate) fn entry<'a>(table: &'a Table, m: &FlowMod) -> Option<&'a Rule>
    ensures { option_copied result ≡ rule_of (identity_in m.now) table.now }
{
    match table.place(&m.matching, m.priority) {
        Some(place) => Some(table.rule(place)),
        None => None,
    }
}

/// Whether the message's match covers that of no entry.
fn covers_none(table: &Table, m: &FlowMod) -> bool
    ensures { result ≡ is_none (covered table.now m.now) }
{
    for place in 0..table.len() {
        if covers(&m.matching, &table.rule(place).matching) {
            return false;
        }
    }
    true
}

/// Whether the message adds an entry: it is no deletion, and names none.
pub(crate) fn adds_entry(table: &Table, m: &FlowMod) -> bool
    ensures { result ≡ adds_entry table.now m.now }
{
    match m.command {
        Command::Add | Command::ModifyStrict => entry(table, m).is_none(),
        Command::Modify => covers_none(table, m),
        Command::Delete | Command::DeleteStrict => false,
    }
}
