//! Certificates.

use mon_header::Header;
use mon_list::Items;
use mon_outcome::Emission;
use mon_refute::Logs;

/// What is said of a rule that is watched.
#[derive(Drop)]
pub enum Certificate {
    /// A probe with this header shows the rule by this emission.
    Probe(Header, Emission),
    /// No probe shows it: one refutation for each case in which one could, in the order of the cases.
    Nothing(Logs),
    /// It is tied: another rule of its effective priority overlaps its match, so lookups in the overlap are unsure.
    Overlap,
}

/// The certificates of a table, one for each rule, in table order.
pub type Certificates = Items<Certificate>;
