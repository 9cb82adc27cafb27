//! The heights of classes: the height of a class is the number of classes on a longest way down from it.
ghost use Rattle.std.specs.Prelude.{◌≡◌, ◌<◌, ◌≤◌, ◌+◌, ◌-◌, ℕ, length, slice_index, IfOk, OnOk};
ghost use Rattle.simon_bound.specs.Heights.{IsAcyclic, AreHeights, Holds, work, IsGreatest};

use crate::steps::Steps;
use std::alloc::Global;
use syn_words::Memory;

/// A search along the steps, depth first.
#[derive(Drop)]
pub(crate) struct Search {
    /// The place of the next step of each class.
    pub(crate) cursors: Vec<usize>,
    /// The height of each class whose steps were all followed, and 0 for the others.
    pub(crate) heights: Vec<u32>,
    /// The classes whose steps are being followed, each led to by a step of the one before.
    pub(crate) path: Vec<u32>,
}

impl Search {
    fn new(alloc: Global, nodes: u32, steps: &Steps) -> Result<Search, Memory>
        requires { IsAcyclic nodes steps.now.starts.items steps.now.classes.items }
        ensures { IfOk result (Holds nodes steps.now.starts.items steps.now.classes.items) }
    {
        let mut path = Vec::new(alloc);
        path.push(0)?;
        Ok(Search {
            cursors: Vec::from_slice(alloc, steps.starts.as_slice())?,
            heights: vec![in alloc; 0; nodes as usize]?,
            path,
        })
    }

    /// Follows the next step of the last class of the path, or gives it its height.
    fn step(&mut self, nodes: u32, steps: &Steps) -> Result<(), Memory>
        requires acyclic { IsAcyclic nodes steps.now.starts.items steps.now.classes.items }
        requires holds { Holds nodes steps.now.starts.items steps.now.classes.items self.old }
        requires some { 0 < length self.old.path.items }
        ensures holds { OnOk result
            (Holds nodes steps.now.starts.items steps.now.classes.items self.new) }
        ensures less { OnOk result (work nodes steps.now.classes.items self.new
            < work nodes steps.now.classes.items self.old) }
    {
        let class = self.path[self.path.len() - 1];
        let place = self.cursors[class as usize];
        if place >= steps.starts[class as usize + 1] {
            self.finish(nodes, steps, class);
            return Ok(());
        }
        let next = steps.classes[place];
        self.cursors[class as usize] = place + 1;
        if self.heights[next as usize] > 0 {
            return Ok(());
        }
        self.path.push(next)?;
        Ok(())
    }

    /// Gives the last class of the path its height: all its steps lead to classes with a height.
    fn finish(&mut self, nodes: u32, steps: &Steps, class: u32)
        requires acyclic { IsAcyclic nodes steps.now.starts.items steps.now.classes.items }
        requires holds { Holds nodes steps.now.starts.items steps.now.classes.items self.old }
        requires some { 0 < length self.old.path.items }
        requires last { class ≡ slice_index self.old.path.items (length self.old.path.items - 1) }
        requires done { slice_index steps.now.starts.items (class + 1)
            ≤ slice_index self.old.cursors.items class }
        ensures holds { Holds nodes steps.now.starts.items steps.now.classes.items self.new }
        ensures less { work nodes steps.now.classes.items self.new
            < work nodes steps.now.classes.items self.old }
    {
        let greatest = greatest_height(self.heights.as_slice(), steps.row(class));
        self.heights[class as usize] = greatest + 1;
        self.path.pop();
    }
}

/// The height of each class that steps lead to from the class of element 0, and of this class. Takes a time that is
/// linear in the number of classes and steps. Condition: no steps lead from a class back to it.
pub(crate) fn heights_of(alloc: Global, nodes: u32, steps: &Steps) -> Result<Vec<u32>, Memory>
    requires { IsAcyclic nodes steps.now.starts.items steps.now.classes.items }
    ensures heights { IfOk result (λ h. AreHeights nodes steps.now.starts.items
        steps.now.classes.items h.items) }
    ensures first { IfOk result (λ h. 0 < slice_index h.items 0) }
{
    let mut search = Search::new(alloc, nodes, steps)?;
    while !search.path.is_empty() {
        search.step(nodes, steps)?;
    }
    Ok(search.heights)
}

/// The greatest height of a class in a row, or 0.
fn greatest_height(heights: &[u32], row: &[u32]) -> u32
    requires { (k : ℕ) → k < length row.now → slice_index row.now k < length heights.now }
    ensures { IsGreatest heights.now row.now (length row.now) result }
{
    let mut greatest = 0;
    for class in row {
        greatest = greatest.max(heights[*class as usize]);
    }
    greatest
}
