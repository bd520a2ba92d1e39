//! Reading a table file.

ghost use Rattle.std.specs.Prelude.{◌≡◌, List, IfOk};
ghost use Rattle.std.specs.Result.{IfErr};
ghost use Rattle.mon_text.specs.Faults.{FileReadsAs, FailsIn, OnBadFrom};
ghost use Rattle.mon_table.specs.declared.rule.Rule.{Rule};
ghost use Rattle.mon_shows.specs.Views.{Viewing};
ghost use Rattle.mon_table_file.specs.TableFile.{IsTableFile, IsTableText};
ghost use Rattle.mon_table_file.specs.Sections.{IsBrokenFrom};

use crate::sections::{head_at, links_at, rules_at};
use mon_shows::View;
use mon_table::Table;
use mon_text::{FileFault, LineFault};
use std::alloc::Global;

/// The view and the table of all lines.
fn file_at(alloc: Global, text: &[u8]) -> Result<(View, Table), LineFault<'_>>
    ensures found { IfOk result (λ x. IsTableFile text.now x.0 x.1) }
    ensures breaks { IfErr result (λ fault. OnBadFrom fault (IsBrokenFrom text.now)) }
{
    let (head, linked) = head_at(alloc, text)?;
    let (links, ruled) = links_at(alloc, &head, linked)?;
    let table = rules_at(alloc, head.second, ruled)?;
    let view = View {
        switch: head.switch,
        tag: head.tag,
        tags: head.tags,
        links,
        miss: head.miss,
    };
    Ok((view, table))
}

/// The view and the table of a table file: the lines
///
/// - `monocle-table 1` or `monocle-table 2`,
/// - `switch DATAPATH TAG`,
/// - `tags` and after it 1 to 64 numbers of 1 to 4094, strictly ascending, the switch's tag among them,
/// - `miss N`,
/// - `link PORT DATAPATH PORT TAG` by strictly rising first port, with another of the tags than the switch's,
/// - `rule PRIORITY MATCH ACTIONS`, at most 4096 in any order, no two of one identity. In a file of the second version
///   ` unsure` may end such a line: a timeout may take this rule.
///
/// A DATAPATH has 16 digits and a PORT is 1 to 65280; the N of `miss` and a PRIORITY are 0 to 65535. A MATCH has 80 digits
/// and may be in any form (OpenFlow 1.0.0, flow match structures). ACTIONS are the digits of at most 512 bytes of whole
/// actions (flow action structures), or `-`. Digits are lower hexadecimal, numbers decimal without leading zeros; one
/// space parts two words, and a line feed ends each line. A text in any other form is `Bad`, from its first bad line on.
pub fn read_table(alloc: Global, text: &[u8]) -> Result<(View, Table), FileFault>
    // The text is a table file of what is read.
    ensures found { IfOk result (λ x. IsTableFile text.now x.0 x.1) }
    // A table file is read as what it is of, unless memory runs out. So a text is bad only where it is of nothing.
    ensures only { (v : Viewing) (t : List Rule) → IsTableFile text.now v t → FileReadsAs (λ x. (x.0 ≡ v) × (x.1 ≡ t)) result }
    // What is refused is bad at the first bad line.
    ensures fails { FailsIn IsTableText text.now result }
{
    match file_at(alloc, text) {
        Ok(found) => Ok(found),
        Err(fault) => Err(fault.within(text)),
    }
}
