//! The tables at the end of a replay.

ghost use Rattle.std.specs.Prelude.{◌≡◌, ◌++◌, OnOk};
ghost use Rattle.mon_core.specs.History.{armed};
ghost use Rattle.mon_rule_line.specs.TableLines.{table_lines};
ghost use Rattle.monocle.specs.Replay.{lines_of_tables};

use mon_core::Core;
use mon_table::Table;
use mon_trace::table_line;
use mon_world::OutOfMemory;
use std::alloc::Global;

/// Adds a line for each entry of a session's table, in table order.
fn push_table(
    alloc: Global,
    session: u64,
    table: &Table,
    bytes: &mut Vec<u8>,
) -> Result<(), OutOfMemory>
    ensures { OnOk result (bytes.new.items ≡ bytes.old.items ++ table_lines session table.now) }
{
    for place in 0..table.len() {
        let line = table_line(alloc, session, table.rule(place))?;
        bytes.extend_from_slice(line.as_bytes())?;
    }
    Ok(())
}

/// Adds the lines of the tables of all armed sessions, by rising number.
pub(crate) fn push_tables(
    alloc: Global,
    core: &Core,
    bytes: &mut Vec<u8>,
) -> Result<(), OutOfMemory>
    ensures { OnOk result (bytes.new.items ≡ bytes.old.items ++ lines_of_tables (armed core.now)) }
{
    for place in 0..u32::MAX {
        match core.armed(place) {
            Some((session, table)) => push_table(alloc, session, table, bytes)?,
            None => return Ok(()),
        }
    }
    // A place is a `u32`: more sessions have none, long after memory ends.
    Err(OutOfMemory)
}
