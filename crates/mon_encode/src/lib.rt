//! Which packet shows an update, as clauses: the cases of a job, and a formula for each, exact in both directions.
//!
//! A case fixes what a solver need not look for: the class of the probe's header and the port at which it comes in, the
//! rule that wins in the table, or that none does, and which of its emissions is to be seen. `cases` lists all of them:
//! each header and emission that separate belong to one. `encode` says in clauses what is left: the header is in the
//! class, the winner beats all other rules, and the table without the update cannot show the emission. So a model of
//! the formula decodes to what separates (`decode_model`), and what separates has a model (`encode_header`). Where no
//! case has a model, nothing shows the update.
//!
//! The variables are the 264 bits of a header, and two helpers for each rule of the table without the update: the first
//! may be true only where the rule matches, the second only where it or a rule before it does. Since the rules stand by
//! falling effective priority, the second helper of one rule says at once that some rule above all later, lower ones
//! matches. So a formula is as long as the table's matches and the ways in which its rules can emit, with no clause for a
//! pair of rules. Helpers are bound in one direction only: none is used in the other.
//!
//! A header's emission, and whether it comes back, is known but for the bits of the header, since the header bears the
//! view's tag. So a case that can never show anything (an unknown action, a part of the packet, a tag that is not
//! caught) has the empty clause alone.
//!
//! A call goes through the job's table a fixed number of times, and through the rules' actions and matches as often. The
//! table without the update is a view of the table, and no copy. What grows is a case's formula, the list of cases, and
//! for a while the literals of one rule.
#![tactic(auto)]

mod case;
mod chain;
mod clauses;
mod decoding;
mod encoding;
mod hidden;
mod listing;
mod showing;
mod winning;

pub use case::{Case, Cases};
pub use decoding::{decode_model, encode_header};
pub use encoding::encode;
pub use listing::cases;
pub use mon_list::OutOfMemory;
