//! Which variable is decided next: one that the latest conflicts came to most often, with the value that it had last.
//!
//! A heap of the undecided variables by their activity, which each conflict raises by more than the one before it. The order
//! only says where to look, so nothing is proved of it.

ghost use Rattle.std.specs.Prelude.{IfSome};
ghost use Rattle.mon_trail.specs.Marks.{IsOpen};

use mon_cnf::Lit;
use mon_list::OutOfMemory;
use mon_trail::Mark;
use std::alloc::Global;

/// The place of a variable that isn't in the heap.
const OUT: usize = usize::MAX;

/// Activities above this are scaled down.
const HIGH: f64 = 1e100;

/// The variables by activity.
#[derive(Drop)]
pub struct Order {
    /// The variables of the heap: none is more active than the one at half its place.
    heap: Vec<u32>,
    /// For each variable, its place in the heap, or OUT.
    places: Vec<usize>,
    activity: Vec<f64>,
    /// The value that each variable had last.
    values: Vec<bool>,
    /// What a variable's activity is raised by.
    step: f64,
}

impl Order {
    /// All of so many variables are undecided.
    pub fn new(alloc: Global, vars: u32) -> Result<Order, OutOfMemory> {
        let mut heap = Vec::new(alloc);
        let mut places = Vec::new(alloc);
        for var in 0..vars {
            heap.push(var)?;
            places.push(var as usize)?;
        }
        Ok(Order {
            heap,
            places,
            activity: vec![in alloc; 0.0; vars as usize]?,
            values: vec![in alloc; false; vars as usize]?,
            step: 1.0,
        })
    }

    fn activity(&self, var: u32) -> f64 {
        match self.activity.get(var as usize) {
            None => 0.0,
            Some(activity) => *activity,
        }
    }

    /// Puts a variable at a place of the heap.
    fn put(&mut self, at: usize, var: u32) {
        if let Some(there) = self.heap.get_mut(at) {
            *there = var;
        }
        if let Some(place) = self.places.get_mut(var as usize) {
            *place = at;
        }
    }

    /// Moves a variable up from a place of the heap.
    fn rise(&mut self, from: usize, var: u32) {
        let mut at = from;
        while at > 0 {
            let half = (at - 1) / 2;
            let Some(above) = self.heap.get(half).copied() else {
                break;
            };
            if self.activity(above) >= self.activity(var) {
                break;
            }
            self.put(at, above);
            at = half;
        }
        self.put(at, var);
    }

    /// The more active one of the two places below a place, if there are any.
    fn below(&self, at: usize) -> Option<usize> {
        let one = at.checked_mul(2)?.checked_add(1)?;
        let left = self.heap.get(one).copied()?;
        let two = one.checked_add(1)?;
        match self.heap.get(two).copied() {
            Some(right) if self.activity(right) > self.activity(left) => Some(two),
            _ => Some(one),
        }
    }

    /// Moves a variable down from a place of the heap.
    fn sink(&mut self, from: usize, var: u32) {
        let mut at = from;
        for _ in 0..64 {
            let Some(next) = self.below(at) else {
                break;
            };
            let Some(under) = self.heap.get(next).copied() else {
                break;
            };
            if self.activity(var) >= self.activity(under) {
                break;
            }
            self.put(at, under);
            at = next;
        }
        self.put(at, var);
    }

    /// Takes the most active variable out of the heap.
    fn pop(&mut self) -> Option<u32> {
        let top = self.heap.first().copied()?;
        let last = self.heap.pop()?;
        if let Some(place) = self.places.get_mut(top as usize) {
            *place = OUT;
        }
        if !self.heap.is_empty() {
            self.sink(0, last);
        }
        Some(top)
    }

    /// The literal isn't decided any more.
    pub fn free(&mut self, literal: Lit) -> Result<(), OutOfMemory> {
        if let Some(value) = self.values.get_mut(literal.var as usize) {
            *value = literal.positive;
        }
        if self.places.get(literal.var as usize).copied() == Some(OUT) {
            let at = self.heap.len();
            self.heap.push(literal.var)?;
            self.rise(at, literal.var);
        }
        Ok(())
    }

    /// Scales all activities down.
    fn scale(&mut self) {
        for activity in self.activity.iter_mut() {
            *activity *= 1e-100;
        }
        self.step *= 1e-100;
    }

    /// A conflict came to the variable.
    pub fn bump(&mut self, var: u32) {
        let mut high = false;
        if let Some(activity) = self.activity.get_mut(var as usize) {
            *activity += self.step;
            high = *activity > HIGH;
        }
        if high {
            self.scale();
        }
        if let Some(place) = self.places.get(var as usize).copied()
            && place != OUT
        {
            self.rise(place, var);
        }
    }

    /// A conflict is over: the next one counts more.
    pub fn age(&mut self) {
        self.step /= 0.95;
    }

    /// The undecided literal to decide next, if one is left.
    pub fn next(&mut self, marks: &[Mark]) -> Option<Lit>
        ensures { IfSome result (IsOpen marks.now) }
    {
        for _ in 0..marks.len() {
            let var = self.pop()?;
            if let Some(Mark::Free) = marks.get(var as usize) {
                return Some(Lit {
                    var,
                    positive: self.values.get(var as usize).copied() == Some(true),
                });
            }
        }
        None
    }
}
