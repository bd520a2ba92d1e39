//! Members that are numbers or addresses.

ghost use Rattle.std.specs.Prelude.{◌≡◌, ◌≤◌, IfSome, option_and_then};
ghost use Rattle.serde_json.specs.View.{view};
ghost use Rattle.serde_json.specs.Find.{get, as_str};
ghost use Rattle.mon_settings.specs.Texts.{address_of};
ghost use Rattle.mon_settings.specs.Members.{number_in, number_member, address_member};
ghost use Rattle.mon_settings.specs.Faults.{Gives};

use crate::address::{Address, address_of};
use crate::fault::{SettingsFault, bad};
use serde_json::Value;
use std::alloc::Global;

/// The whole number from `low` to `high` that a value is.
pub fn number_in(value: &Value, low: u32, high: u32) -> Option<u32>
    ensures value { result ≡ number_in low high (view value.now) }
    ensures most { IfSome result (λ n. n ≤ high) }
{
    let n = value.as_u64()?;
    if u64::from(low) <= n && n <= u64::from(high) {
        Some(n as u32)
    } else {
        None
    }
}

/// The number that the member of this name is.
fn number_named(value: &Value, name: &str, low: u32, high: u32) -> Option<u32>
    ensures { result ≡ option_and_then (number_in low high) (get name.now (view value.now)) }
{
    number_in(value.get(name)?, low, high)
}

/// The member of this name, which must be a whole number from `low` to `high`.
pub fn number_member(
    alloc: Global,
    value: &Value,
    name: &str,
    low: u32,
    high: u32,
) -> Result<u32, SettingsFault>
    ensures { Gives result (number_member name.now low high (view value.now)) }
{
    match number_named(value, name, low, high) {
        Some(n) => Ok(n),
        None => Err(bad(alloc, name)),
    }
}

/// The address that the member of this name is.
fn address_named(value: &Value, name: &str) -> Option<Address>
    ensures { result ≡ option_and_then address_of (option_and_then as_str (get name.now (view value.now))) }
{
    let text = value.get(name)?.as_str()?;
    address_of(text.as_bytes())
}

/// The member of this name, which must be the text of an address.
pub fn address_member(alloc: Global, value: &Value, name: &str) -> Result<Address, SettingsFault>
    ensures { Gives result (address_member name.now (view value.now)) }
{
    match address_named(value, name) {
        Some(address) => Ok(address),
        None => Err(bad(alloc, name)),
    }
}
