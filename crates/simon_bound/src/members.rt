//! The members of the classes of J.
ghost use Rattle.std.specs.Prelude.{length, IfOk};
ghost use Rattle.simon_bound.specs.MemberLists.{AreMemberLists};

use green_relations::Green;
use std::alloc::Global;
use syn_words::Memory;

/// For each class the list of its members, last ones first.
#[derive(Drop)]
pub(crate) struct Members {
    /// One more than the last member of the class with each label, or 0 where there is none.
    pub(crate) lasts: Vec<u32>,
    /// One more than the last member before each element of its class, or 0 where there is none.
    pub(crate) before: Vec<u32>,
}

/// The members of each class of J.
pub(crate) fn members_of(alloc: Global, green: &Green) -> Result<Members, Memory>
    ensures { IfOk result (λ m. AreMemberLists green.now.j (length green.now.r)
        (length green.now.r) m.lasts.items m.before.items) }
{
    let size = green.len();
    let mut lasts = vec![in alloc; 0; size as usize]?;
    let mut before = Vec::with_capacity(alloc, size as usize)?;
    for element in 0..size {
        let label = green.j_class(element) as usize;
        before.push(lasts[label])?;
        lasts[label] = element + 1;
    }
    Ok(Members { lasts, before })
}
