//! All sessions.

ghost use Rattle.std.specs.Prelude.{◌≡◌, ◌≤◌, length, replicate, slice_get, Some, Ok, Err, IfOk, IsErrOf, MatchOption};
ghost use Rattle.mon_topo.specs.declared.fault.TopoFault.{TopoFault};
ghost use Rattle.mon_topo.specs.declared.fault.TopoFault.TheVariants as topo;
ghost use Rattle.mon_topo.specs.Colour.{coloured};
ghost use Rattle.mon_topo.specs.Tags.{IsInUse};
ghost use Rattle.mon_turns.specs.Core.{armed, SLOTS};
ghost use Rattle.mon_turns.specs.Starting.{IsNew};

use crate::connection::Connection;
use crate::fault::CoreFault;
use crate::numbers::Numbers;
use crate::waiting::Waiting;
use mon_list::OutOfMemory;
use mon_settings::Settings;
use mon_table::Table;
use mon_topo::{Tags, TopoFault, Topology, colour};
use std::alloc::Global;
use std::collections::VecDeque;
use std::marker::Model;

/// How many sessions may be open at once.
pub(crate) const SLOTS: u32 = 64;

/// All open sessions, by rising number, and what they share.
#[derive(Drop)]
pub struct Core {
    pub(crate) key: u64,
    pub(crate) alarm_ticks: u32,
    pub(crate) retry_ticks: u32,
    pub(crate) watch_ticks: u32,
    pub(crate) topology: Topology,
    pub(crate) tags: Tags,
    /// The numbers that were used before the first event.
    pub(crate) before: Numbers,
    /// Those that are used by now.
    pub(crate) used: Numbers,
    pub(crate) sessions: Vec<Connection>,
    pub(crate) versions: Vec<u64>,
    pub(crate) jobs: VecDeque<Waiting>,
}

impl Model for Core {
    ghost use Rattle.std.specs.Prelude.{◌≡◌, length};
    ghost use Rattle.mon_turns.specs.Core.{Cored};

    ghost Value = { Cored };

    ghost view = { λ c. record {
      run = record {
        key = c.key;
        topology = c.topology;
        given = c.tags.given;
        in_use = c.tags.in_use;
        retry_ticks = c.retry_ticks;
        alarm_ticks = c.alarm_ticks;
        watch_ticks = c.watch_ticks;
        openings = c.before.session;
        last_serial = c.before.serial;
        last_job = c.before.job;
      };
      state = record {
        sessions = c.sessions.items;
        versions = c.versions.items;
        openings = c.used.session;
        last_serial = c.used.serial;
        last_job = c.used.job;
        jobs = c.jobs.items;
      };
    } };

    ghost invariant = { λ c. length c.versions.items ≡ 64 };
}

/// The first version of each slot.
fn first_versions(alloc: Global) -> Result<Vec<u64>, OutOfMemory>
    ensures { IfOk result (λ versions. versions.items ≡ replicate SLOTS 0) }
{
    let versions = vec![in alloc; 0; SLOTS as usize]?;
    Ok(versions)
}

/// The tags of the settings' switches, refused as `colour` refuses.
fn tags_of(alloc: Global, settings: &Settings) -> Result<Tags, CoreFault>
    ensures tagged { IfOk result (λ tags. coloured settings.now.topology settings.now.tags ≡ Ok tags.given) }
    ensures used { IfOk result (λ tags. IsInUse tags.given tags.in_use) }
    ensures refused { (fault : TopoFault) → IsErrOf result (CoreFault.Topo fault) → coloured settings.now.topology settings.now.tags ≡ Err fault }
    ensures no_memory { IsErrOf result (CoreFault.Topo topo.OutOfMemory) → ⊥ }
{
    match colour(alloc, &settings.topology, settings.tags.items()) {
        Ok(tags) => Ok(tags),
        Err(TopoFault::OutOfMemory) => Err(CoreFault::OutOfMemory),
        Err(fault) => Err(CoreFault::Topo(fault)),
    }
}

impl Core {
    /// A core without a session, in which sessions, serials and jobs are numbered on from those that were used before. It
    /// is refused as `colour` refuses the topology and the tags of the settings.
    pub fn new(
        alloc: Global,
        settings: Settings,
        key: u64,
        numbers: Numbers,
    ) -> Result<Core, CoreFault>
        ensures made { IfOk result (λ core. IsNew settings key numbers core.run core.state) }
        ensures refused { (fault : TopoFault) → IsErrOf result (CoreFault.Topo fault) → coloured settings.topology settings.tags ≡ Err fault }
        ensures no_memory { IsErrOf result (CoreFault.Topo topo.OutOfMemory) → ⊥ }
    {
        let tags = tags_of(alloc, &settings)?;
        let Ok(versions) = first_versions(alloc) else {
            return Err(CoreFault::OutOfMemory);
        };
        Ok(Core {
            key,
            alarm_ticks: settings.alarm_ticks,
            retry_ticks: settings.retry_ticks,
            watch_ticks: settings.watch_ticks,
            topology: settings.topology,
            tags,
            before: numbers,
            used: numbers,
            sessions: Vec::new(alloc),
            versions,
            jobs: VecDeque::new(alloc),
        })
    }

    /// The number of the armed session at a place, and the entries that its controller should have on its switch. Places
    /// count from 0 by rising number; there is None where there are no more. It takes no memory.
    pub fn armed(&self, place: u32) -> Option<(u64, &Table)>
        ensures { MatchOption result (length (armed self.now.state) ≤ place) (λ found. slice_get (armed self.now.state) place ≡ Some (found.0, found.1.now)) }
    {
        let mut ahead = place;
        for connection in self.sessions.iter() {
            if !connection.session.armed() {
                continue;
            }
            if ahead == 0 {
                return Some((connection.session.number(), connection.session.table()));
            }
            ahead -= 1;
        }
        None
    }
}
