//! The graph of the classes of J: a letter leads from a member of one class into another class.
ghost use Rattle.std.specs.Prelude.{◌≡◌, ◌≢◌, ◌<◌, ◌≤◌, ◌+◌, length, slice_index, IfOk, OnOk};
ghost use Rattle.simon_bound.specs.MemberLists.{AreMemberLists};
ghost use Rattle.simon_bound.specs.Steps.{AreSteps, Gains, IsStep, IsStepDown, row_at};

use crate::members::{Members, members_of};
use cayley_tables::Cayley;
use green_relations::Green;
use std::alloc::Global;
use syn_words::Memory;

/// For each class the labels of the classes that a letter leads to from one of its members.
#[derive(Drop)]
pub(crate) struct Steps {
    /// Where the row of each label starts, and where the last row ends.
    pub(crate) starts: Vec<usize>,
    /// The rows, one after another.
    pub(crate) classes: Vec<u32>,
}

impl Steps {
    /// The labels that a step leads to from a class. Condition: the row lies in the list.
    pub(crate) fn row(&self, class: u32) -> &[u32]
        requires class { class + 1 < length self.now.starts.items }
        requires order { slice_index self.now.starts.items class
            ≤ slice_index self.now.starts.items (class + 1) }
        requires inside { slice_index self.now.starts.items (class + 1)
            ≤ length self.now.classes.items }
        ensures { result.now ≡ row_at self.now.starts.items self.now.classes.items class }
    {
        &self.classes[self.starts[class as usize]..self.starts[class as usize + 1]]
    }
}

/// The steps between the classes of J. Takes a time that is linear in the number of elements and letters.
/// Condition: there is a label for each element.
pub(crate) fn steps_of(alloc: Global, cayley: &Cayley, green: &Green) -> Result<Steps, Memory>
    requires { length green.now.r ≡ length cayley.now.words }
    ensures { IfOk result (λ s. AreSteps cayley.now green.now.j (length cayley.now.words)
        s.starts.items s.classes.items) }
{
    let members = members_of(alloc, green)?;
    let mut starts = Vec::with_capacity(alloc, cayley.len() as usize + 1)?;
    let mut classes = Vec::new(alloc);
    starts.push(0)?;
    for class in 0..cayley.len() {
        push_class(cayley, green, &members, class, &mut classes)?;
        starts.push(classes.len())?;
    }
    Ok(Steps { starts, classes })
}

/// Puts the steps from a class behind those that are there.
fn push_class(
    cayley: &Cayley,
    green: &Green,
    members: &Members,
    class: u32,
    classes: &mut Vec<u32>,
) -> Result<(), Memory>
    requires labels { length green.now.r ≡ length cayley.now.words }
    requires members { AreMemberLists green.now.j (length green.now.r) (length green.now.r)
        members.now.lasts.items members.now.before.items }
    requires class { class < length cayley.now.words }
    ensures { OnOk result (Gains (IsStepDown cayley.now green.now.j 0 class) classes.old.items
        classes.new.items) }
{
    let mut rest = members.lasts[class as usize];
    while rest > 0 {
        let member = rest - 1;
        push_member(cayley, green, member, classes)?;
        rest = members.before[member as usize];
    }
    Ok(())
}

/// Puts the steps from an element behind those that are there.
fn push_member(
    cayley: &Cayley,
    green: &Green,
    member: u32,
    classes: &mut Vec<u32>,
) -> Result<(), Memory>
    requires labels { length green.now.r ≡ length cayley.now.words }
    requires member { member < length cayley.now.words }
    ensures { OnOk result (Gains (IsStep cayley.now green.now.j cayley.now.right.letters member)
        classes.old.items classes.new.items) }
{
    let own = green.j_class(member);
    for letter in 0..cayley.letters() as u8 {
        let behind = green.j_class(cayley.right(member, letter));
        push_other(own, behind, classes)?;
        let before = green.j_class(cayley.left(letter, member));
        push_other(own, before, classes)?;
    }
    Ok(())
}

/// Puts a class behind those that are there, unless it is the own one.
fn push_other(own: u32, class: u32, classes: &mut Vec<u32>) -> Result<(), Memory>
    ensures { OnOk result (Gains (λ t. (t ≡ class) × (own ≢ t)) classes.old.items
        classes.new.items) }
{
    if own != class {
        classes.push(class)?;
    }
    Ok(())
}
