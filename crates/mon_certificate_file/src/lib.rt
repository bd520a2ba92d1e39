//! Certificate files: what a planner says of each rule of a table, as a text that travels with the table's file.
//!
//! A certificate is worth nothing until it is checked, so such a file may come from anyone. `read_certificates` reads
//! exactly the texts that `specs/CertificateFile.antt` spells out and refuses all others; `write_certificates` spells
//! certificates, and a text is of one list of them only (`spelling_is_of_one`), so what is written is read back. Headers
//! stand in their 264 bits (`specs/Headers.antt`, `bytes_have_the_bits`).
//!
//! A file is read in one pass, in time linear in its length, and without a copy of the text.
#![tactic(auto)]

mod headers;
mod laws;
mod lines;
mod reading;
mod writing;

pub use laws::{bytes_have_the_bits, one_line_is_the_first_bad_one, spelling_is_of_one};
pub use mon_certificate::{Certificate, Certificates};
pub use mon_list::OutOfMemory;
pub use mon_text::FileFault;
pub use reading::read_certificates;
pub use writing::write_certificates;

#[cfg(test)]
mod tests;
