//! What a controller's proxy can see of a switch through its neighbours, and which packet tells two tables apart.
//!
//! A `View` is a switch with the links to those neighbours that catch its probes. `craftable` says which headers a probe
//! may have, `caught` which emissions come back, and `observed` what the PACKET_IN that comes back shows. `separates`
//! joins them: a probe with this header shows by this emission that an update is in the table, since the table must give
//! it, and the table without the update cannot, whichever unsure rules are gone. Two winners of one priority are never
//! certain: the standard leaves open which of them the switch takes.
//!
//! Only the copy of a view takes memory. So `separates` makes no second table: the tables with the update for sure and
//! without it are each an `Altered`, a view of the one it has, where a rule is left out, replaced or counted in. It stops
//! behind the first effective priority at which a sure rule matches.
#![tactic(auto)]

mod altered;
mod entry;
pub mod laws;
mod lookup;
mod near;
mod seen;
mod separate;
mod sight;
mod target;
mod view;

pub use altered::{Altered, with_update, without_update};
pub use entry::Entry;
pub use mon_list::OutOfMemory;
pub use near::{Near, Nears};
pub use seen::Seen;
pub use separate::separates;
pub use sight::{caught, craftable, observed};
pub use target::Target;
pub use view::View;
