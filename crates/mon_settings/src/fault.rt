//! What is wrong with settings.

ghost use Rattle.std.specs.Prelude.{◌≡◌};
ghost use Rattle.mon_settings.specs.Members.{element_path};
ghost use Rattle.mon_settings.specs.Faults.{HasPath};

use mon_list::Items;
use std::alloc::Global;

/// The path of a member, in UTF-8: its name, or for an element of a list the name, a slash and the place from 0.
pub type PathBytes = Items<u8>;

/// Why a text is no settings.
#[derive(Drop)]
pub enum SettingsFault {
    /// The first wrong member or element has this path. It is `.` where the text is no JSON object.
    BadSettings { path: PathBytes },
    /// No memory was left.
    OutOfMemory,
}

/// The fault of the member of this name.
pub fn bad(alloc: Global, name: &str) -> SettingsFault
    ensures { HasPath result name.now }
{
    match Vec::from_slice(alloc, name.as_bytes()) {
        Ok(path) => SettingsFault::BadSettings {
            path: PathBytes::of(path),
        },
        Err(_) => SettingsFault::OutOfMemory,
    }
}

/// The fault of the element at a place of the member of this name.
pub fn bad_element(alloc: Global, name: &str, place: u64) -> SettingsFault
    ensures { HasPath result (element_path name.now place) }
{
    match format!(in alloc; "{name}/{place}") {
        Ok(path) => SettingsFault::BadSettings {
            path: PathBytes::of(path.into_bytes()),
        },
        Err(_) => SettingsFault::OutOfMemory,
    }
}
