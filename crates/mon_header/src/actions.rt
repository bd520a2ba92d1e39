//! Lists of actions.

ghost use Rattle.std.specs.Prelude.{◌≡◌, ◌↔◌, ◌<◌, ◌^◌, ◌++◌, ◌∷◌, [], List, ℕ, OnOk, OnErr, IfOk, IsTrue};
ghost use Rattle.mon_header.specs.Actions.{FitsAction, AllFit};

use crate::action::{Action, same_action};
use mon_list::OutOfMemory;
use std::alloc::Global;
use std::marker::Model;

/// The actions of a rule, in order. Addresses in them are below 2^48.
#[derive(Drop)]
pub struct Actions {
    items: Vec<Action>,
}

impl Model for Actions {
    ghost use Rattle.std.specs.Prelude.{List};
    ghost use Rattle.mon_header.specs.declared.action.Action.{Action};
    ghost use Rattle.mon_header.specs.Actions.{AllFit};

    ghost Value = { List Action };

    ghost view = { λ l. l.items.items };

    ghost invariant = { λ l. AllFit l.items.items };
}

impl Actions {
    /// No action, which drops a packet. It takes no memory yet.
    pub fn new(alloc: Global) -> Actions
        ensures { result ≡ [] }
    {
        Actions {
            items: Vec::new(alloc),
        }
    }

    /// Does nothing: its clause is what the type keeps.
    pub fn keeps(&self)
        ensures { AllFit self.now }
    {
        let _ = &self.items;
    }

    /// Appends one action, or changes nothing for want of memory.
    pub fn push(&mut self, action: Action) -> Result<(), OutOfMemory>
        requires { FitsAction action }
        ensures pushed { OnOk result (self.new ≡ self.old ++ action ∷ []) }
        ensures same { OnErr result (self.new ≡ self.old) }
    {
        self.items.push(action)?;
        Ok(())
    }

    /// The actions, in order.
    pub fn items(&self) -> &[Action]
        ensures value { result.now ≡ self.now }
        ensures fit { AllFit self.now }
    {
        &self.items
    }

    /// The same actions once more, in order.
    pub fn copied(&self, alloc: Global) -> Result<Actions, OutOfMemory>
        ensures { IfOk result (λ l. l ≡ self.now) }
    {
        let mut items = Vec::new(alloc);
        for action in &self.items {
            items.push(action.copied(alloc)?)?;
        }
        Ok(Actions { items })
    }

    /// Hands the actions out.
    pub fn into_items(self) -> Vec<Action>
        ensures { result.items ≡ self }
    {
        self.items
    }
}

/// Whether two runs of actions are equal, place by place.
fn same_items(xs: &[Action], ys: &[Action]) -> bool
    ensures { IsTrue result ↔ (xs.now ≡ ys.now) }
{
    if xs.len() != ys.len() {
        return false;
    }
    for (i, x) in xs.iter().enumerate() {
        if !same_action(x, &ys[i]) {
            return false;
        }
    }
    true
}

/// Whether two lists have the same actions in the same order.
pub fn same_actions(a: &Actions, b: &Actions) -> bool
    ensures { IsTrue result ↔ (a.now ≡ b.now) }
{
    same_items(a.items(), b.items())
}
