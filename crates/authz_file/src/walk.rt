use crate::graph::named_at;
use dsv_base::{List, NoMemory};
use std::alloc::Global;

/// A place that the walk stands at, and how many of those that it names were gone to.
#[derive(Clone, Copy, Debug)]
struct Call {
    place: usize,
    gone: usize,
}

/// Tarjan's search for the strongly connected parts of a graph, with a stack of its own. Nothing is
/// promised of what it finds: who uses it checks it.
#[derive(Drop)]
struct Walk {
    /// Per place the number at which it was come to, from 1; 0 before.
    found: Vec<usize>,
    /// Per place the least such number that was seen from it.
    low: Vec<usize>,
    /// Per place the number of its part, from 1; 0 before.
    parts: Vec<usize>,
    /// The places whose part isn't known.
    waiting: Vec<usize>,
    calls: Vec<Call>,
    found_count: usize,
    part_count: usize,
}

fn number_at(numbers: &Vec<usize>, place: usize) -> usize {
    numbers.get(place).copied().unwrap_or(0)
}

fn set_number(numbers: &mut Vec<usize>, place: usize, number: usize) {
    if let Some(old) = numbers.get_mut(place) {
        *old = number;
    }
}

impl Walk {
    fn new(alloc: Global, size: usize) -> Result<Walk, NoMemory> {
        Ok(Walk {
            found: vec![in alloc; 0usize; size]?,
            low: vec![in alloc; 0usize; size]?,
            parts: vec![in alloc; 0usize; size]?,
            waiting: Vec::new(alloc),
            calls: Vec::new(alloc),
            found_count: 0,
            part_count: 0,
        })
    }

    /// Comes to a place for the first time.
    fn enter(&mut self, place: usize) -> Result<(), NoMemory> {
        self.found_count = self.found_count.saturating_add(1);
        set_number(&mut self.found, place, self.found_count);
        set_number(&mut self.low, place, self.found_count);
        self.waiting.push(place)?;
        self.calls.push(Call { place, gone: 0 })?;
        Ok(())
    }

    /// From this place one is seen that was found at this number.
    fn see(&mut self, place: usize, number: usize) {
        let least = number_at(&self.low, place).min(number);
        set_number(&mut self.low, place, least);
    }

    /// Goes from one place to another that it names.
    fn go(&mut self, place: usize, next: usize) -> Result<(), NoMemory> {
        let found = number_at(&self.found, next);
        if found == 0 {
            return self.enter(next);
        }
        if number_at(&self.parts, next) == 0 {
            self.see(place, found);
        }
        Ok(())
    }

    /// All places that wait, down to this one, are a part.
    fn close(&mut self, place: usize) {
        self.part_count = self.part_count.saturating_add(1);
        for _ in 0..self.waiting.len() {
            match self.waiting.pop() {
                Some(last) => {
                    set_number(&mut self.parts, last, self.part_count);
                    if last == place {
                        return;
                    }
                }
                None => return,
            }
        }
    }

    /// Leaves a place all of whose targets were gone to.
    fn leave(&mut self, place: usize) {
        let low = number_at(&self.low, place);
        if low == number_at(&self.found, place) {
            self.close(place);
        }
        if let Some(call) = self.calls.last() {
            let above = call.place;
            self.see(above, low);
        }
    }

    /// One step; whether there was one to make.
    fn step(&mut self, graph: &[List<usize>]) -> Result<bool, NoMemory> {
        let call = match self.calls.pop() {
            Some(call) => call,
            None => return Ok(false),
        };
        match named_at(graph, call.place).get(call.gone) {
            Some(next) => {
                let gone = call.gone.saturating_add(1);
                self.calls.push(Call {
                    place: call.place,
                    gone,
                })?;
                self.go(call.place, *next)?;
            }
            None => self.leave(call.place),
        }
        Ok(true)
    }

    /// Goes to all that is reached from a place, unless it was found before.
    fn walk_from(&mut self, graph: &[List<usize>], place: usize) -> Result<(), NoMemory> {
        if number_at(&self.found, place) != 0 {
            return Ok(());
        }
        self.enter(place)?;
        // It ends with the last call; the range stands for a proof that it does.
        for _ in 0..u64::MAX {
            if !self.step(graph)? {
                return Ok(());
            }
        }
        Ok(())
    }
}

/// Numbers of the strongly connected parts, meant to fall along the graph and to be equal only
/// within a part.
pub(crate) fn parts_of(alloc: Global, graph: &[List<usize>]) -> Result<Vec<usize>, NoMemory> {
    let mut walk = Walk::new(alloc, graph.len())?;
    for place in 0..graph.len() {
        walk.walk_from(graph, place)?;
    }
    let Walk { parts, .. } = walk;
    Ok(parts)
}
