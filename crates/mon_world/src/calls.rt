//! What a desk was called for.

ghost use Rattle.std.specs.Prelude.{◌≡◌, List, ℕ, [], ◌∷◌, Option, None, IfOk, OnErr};
ghost use Rattle.mon_world.specs.Files.{Adds};
ghost use Rattle.mon_world.specs.declared.calls.Call.{Call};
ghost use Rattle.mon_world.specs.declared.calls.Call.TheVariants.{Read, Write, Say};

use crate::text::Text;
use mon_list::{Items, OutOfMemory};
use std::alloc::Global;

/// A call of a desk: its name, and whether it did what it was asked to, or the text that it was to say.
#[derive(Drop)]
pub enum Call {
    Read { name: Text, done: bool },
    Write { done: bool },
    Say { text: Items<u8> },
}

/// Calls, in order.
pub type Calls = Items<Call>;

/// A read of a name.
pub(crate) fn read_of(alloc: Global, name: &str, done: bool) -> Result<Call, OutOfMemory>
    ensures { IfOk result (λ call. call ≡ Read name.now done) }
{
    let name = Text::new(alloc, name)?;
    Ok(Call::Read { name, done })
}

/// A text that was to be said.
pub(crate) fn say_of(alloc: Global, text: &[u8]) -> Result<Call, OutOfMemory>
    ensures { IfOk result (λ call. call ≡ Say text.now) }
{
    let text = Items::of(Vec::from_slice(alloc, text)?);
    Ok(Call::Say { text })
}

/// The calls with one more behind them, or None from when there is no memory for one.
pub(crate) fn with_call(calls: Option<Calls>, call: Result<Call, OutOfMemory>) -> Option<Calls>
    ensures added { IfOk call (λ call. Adds (call ∷ []) calls result) }
    ensures ended { OnErr call (result ≡ None) }
{
    let mut calls = calls?;
    let call = call.ok()?;
    match calls.push(call) {
        Ok(()) => Some(calls),
        Err(_) => None,
    }
}
