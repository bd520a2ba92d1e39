//! Where `plan` and `check` take their table from.

ghost use Rattle.std.specs.Prelude.{◌≡◌, ◌≤◌, [], ◌∷◌, ℕ, List, Err, true, IfSome, IfOk, OnOk, IsErrOf};
ghost use Rattle.std.specs.Result.{IfErr};
ghost use Rattle.mon_world.specs.Causes.{Rose};
ghost use Rattle.mon_table.specs.declared.rule.Rule.{Rule};
ghost use Rattle.mon_shows.specs.Views.{Viewing};
ghost use Rattle.mon_table_file.specs.TableFile.{IsTableFile, IsTableText};
ghost use Rattle.mon_text.specs.BadLines.{IsFirstBadLine};
ghost use Rattle.monocle.specs.Planning.{Gives};
ghost use Rattle.mon_words.specs.declared.command.Source.TheVariants.{File};
ghost use Rattle.mon_world.specs.declared.calls.Call.TheVariants.{Read};
ghost use Rattle.monocle.specs.Calls.{Quiet, Called};
ghost use Rattle.monocle.specs.Ending.{IsSourceEnd, reads_of};

use crate::saying::{bad_text, content_of, out_of_memory, refused};
use mon_plan::{FileFault, generate, read_table};
use mon_shows::View;
use mon_table::Table;
use mon_words::Source;
use mon_world::Desk;
use std::alloc::Global;

/// The view and the table of a table file.
fn table_in(alloc: Global, text: &[u8]) -> Result<(View, Table), FileFault>
    ensures found { IfOk result (λ x. IsTableFile text.now x.0 x.1) }
    ensures bad { (offset : ℕ) → result ≡ Err (FileFault.Bad offset) → (v : Viewing) (t : List Rule) → IsTableFile text.now v t → ⊥ }
    ensures at { (offset : ℕ) → result ≡ Err (FileFault.Bad offset) → IsFirstBadLine IsTableText text.now offset }
{
    read_table(alloc, text)
}

/// The view and the table of the file of this name. Where there is none, says why, and gives the status: 3 where the file
/// can't be read, 5 where it is no table and from which byte on, 7 for want of memory.
fn table_of_file<D: Desk>(alloc: Global, name: &str, desk: &mut D) -> Result<(View, Table), u8>
    ensures gives { IfOk result (λ x. IfSome (D.files desk.old) (λ files. Gives files (File name.now) x.0 x.1)) }
    ensures quiet { OnOk result (Quiet (Read name.now true ∷ []) (D.said desk.old) (D.said desk.new) (D.calls desk.old) (D.calls desk.new)) }
    ensures ended { IfErr result (λ status. Called (IsSourceEnd (D.files desk.old) (File name.now) status) (D.said desk.old) (D.said desk.new) (D.calls desk.old) (D.calls desk.new)) }
    ensures read { IsErrOf result 3 → Rose (D.read_faults desk.old) (D.read_faults desk.new) }
    ensures files { D.files desk.new ≡ D.files desk.old }
    ensures written { D.written desk.new ≡ D.written desk.old }
    ensures reads { D.read_faults desk.old ≤ D.read_faults desk.new }
    ensures writes { D.write_faults desk.new ≡ D.write_faults desk.old }
{
    let text = content_of(alloc, name, desk)?;
    match table_in(alloc, &text) {
        Ok(found) => Ok(found),
        Err(FileFault::Bad { offset }) => match bad_text(alloc, "monocle: table", offset) {
            Ok(said) => Err(refused(alloc, desk, 5, said.as_bytes())),
            Err(_) => Err(out_of_memory(alloc, desk)),
        },
        Err(FileFault::OutOfMemory) => Err(out_of_memory(alloc, desk)),
    }
}

/// The view and the table of a source. Where there is none, says why, and gives the status: 3 where the file can't be
/// read, 5 where it is no table, 7 for want of memory.
pub(crate) fn table_of<D: Desk>(
    alloc: Global,
    source: &Source,
    desk: &mut D,
) -> Result<(View, Table), u8>
    ensures gives { IfOk result (λ x. IfSome (D.files desk.old) (λ files. Gives files source.now x.0 x.1)) }
    ensures quiet { OnOk result (Quiet (reads_of source.now) (D.said desk.old) (D.said desk.new) (D.calls desk.old) (D.calls desk.new)) }
    ensures ended { IfErr result (λ status. Called (IsSourceEnd (D.files desk.old) source.now status) (D.said desk.old) (D.said desk.new) (D.calls desk.old) (D.calls desk.new)) }
    ensures read { IsErrOf result 3 → Rose (D.read_faults desk.old) (D.read_faults desk.new) }
    ensures files { D.files desk.new ≡ D.files desk.old }
    ensures written { D.written desk.new ≡ D.written desk.old }
    ensures reads { D.read_faults desk.old ≤ D.read_faults desk.new }
    ensures writes { D.write_faults desk.new ≡ D.write_faults desk.old }
{
    match source {
        Source::File(name) => table_of_file(alloc, name.as_str(), desk),
        Source::Generate { n, seed } => match generate(alloc, *n, *seed) {
            Ok(found) => Ok(found),
            Err(_) => Err(out_of_memory(alloc, desk)),
        },
    }
}
