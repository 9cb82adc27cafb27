//! The least longest way down from the class of element 0.
ghost use Rattle.std.specs.Prelude.{◌≡◌, ◌<◌, ◌^◌, ℕ, length, slice_index, IfOk};
ghost use Rattle.simon_bound.specs.Heights.{IsAcyclic, AreHeights, IsDescent, IsLeastOf};

use crate::steps::Steps;
use std::alloc::Global;
use syn_words::Memory;

/// From class 0 on the labels of a longest way down, each the least that can come next. Condition: the heights are
/// those of the classes.
pub(crate) fn descend(
    alloc: Global,
    nodes: u32,
    steps: &Steps,
    heights: &[u32],
) -> Result<Vec<u32>, Memory>
    requires acyclic { IsAcyclic nodes steps.now.starts.items steps.now.classes.items }
    requires heights { AreHeights nodes steps.now.starts.items steps.now.classes.items
        heights.now }
    requires first { 0 < slice_index heights.now 0 }
    ensures descent { IfOk result (λ path. IsDescent nodes steps.now.starts.items
        steps.now.classes.items heights.now path.items) }
    ensures whole { IfOk result (λ path. length path.items ≡ slice_index heights.now 0) }
{
    let mut path = Vec::new(alloc);
    let mut class = 0;
    path.push(class)?;
    while heights[class as usize] > 1 {
        class = least_of_height(heights, steps.row(class), heights[class as usize] - 1);
        path.push(class)?;
    }
    Ok(path)
}

/// The least class in a row that has a height. Condition: there is one.
fn least_of_height(heights: &[u32], row: &[u32], height: u32) -> u32
    requires few { length heights.now < 2 ^ 32 }
    requires within { (k : ℕ) → k < length row.now → slice_index row.now k < length heights.now }
    requires some { (k : ℕ) × (k < length row.now)
        × (slice_index heights.now (slice_index row.now k) ≡ height) }
    ensures { IsLeastOf heights.now row.now (length row.now) height result }
{
    let mut least = heights.len() as u32;
    for class in row {
        if heights[*class as usize] == height {
            least = least.min(*class);
        }
    }
    least
}
