//! Pairs in groups. A group is a list that is linked through one table for all, so that no group takes memory of its
//! own.
ghost use Rattle.std.specs.Prelude.{◌≡◌, ◌<◌, ◌∷◌, [], length, replicate, slice_set, slice_index_or};
ghost use Rattle.std.specs.Prelude.{IfOk, OnOk, All};
ghost use Rattle.star_free_theory.specs.Construction.{keep, is_some_pair};
ghost use Rattle.local_divisors.specs.Grouping.{IsTaken};
ghost use Rattle.local_divisors.specs.Instances.{AreGroups, IsRowPut};

use crate::instances::Product;
use std::alloc::Global;
use std::marker::Model;
use syn_words::Memory;

/// A pair, and where its group goes on: at 0 nowhere, and at k + 1 with link k.
#[derive(Clone, Copy)]
struct Link {
    left: u32,
    right: u32,
    next: usize,
}

/// For each of some numbers a group of pairs.
#[derive(Drop)]
pub(crate) struct Groups {
    heads: Vec<usize>,
    links: Vec<Link>,
}

impl Model for Groups {
    ghost use Rattle.std.specs.Prelude.{◌≤◌, ℕ, List, length, map, All};
    ghost use Rattle.local_divisors.specs.Grouping.{pairs_from, AreLinked};

    ghost Value = { List (List (ℕ × ℕ)) };

    ghost view = { λ g. map (pairs_from g.links.items) g.heads.items };

    ghost invariant = { λ g.
        AreLinked g.links.items × All (λ h. h ≤ length g.links.items) g.heads.items };
}

impl Groups {
    /// A number of groups with no pair, and memory for some pairs.
    fn bare(alloc: Global, count: usize, pairs: usize) -> Result<Groups, Memory>
        ensures { IfOk result (λ g. g ≡ replicate count []) }
    {
        let heads = vec![in alloc; 0; count]?;
        let links = Vec::with_capacity(alloc, pairs)?;
        Ok(Groups { heads, links })
    }

    /// Puts a pair before those of a group. Condition: there is such a group.
    fn put(&mut self, group: u32, left: u32, right: u32) -> Result<(), Memory>
        requires { group < length self.old }
        ensures { OnOk result (self.new
            ≡ slice_set self.old group ((left, right) ∷ slice_index_or self.old group [])) }
    {
        let next = self.heads[group as usize];
        self.links.push(Link { left, right, next })?;
        self.heads[group as usize] = self.links.len();
        Ok(())
    }

    /// Whether a group has a pair. Condition: there is such a group.
    fn has_pair(&self, group: u32) -> bool
        requires { group < length self.now }
        ensures { result ≡ is_some_pair (slice_index_or self.now group []) }
    {
        self.heads[group as usize] != 0
    }

    /// The pairs of a group. Condition: there is such a group.
    pub(crate) fn pairs(&self, group: u32) -> Pairs<'_>
        requires { group < length self.now }
        ensures { result ≡ slice_index_or self.now group [] }
    {
        Pairs {
            links: self.links.as_slice(),
            place: self.heads[group as usize],
        }
    }
}

/// The pairs of a group that are still to come.
#[derive(Drop)]
pub(crate) struct Pairs<'a> {
    links: &'a [Link],
    place: usize,
}

impl<'a> Model for Pairs<'a> {
    ghost use Rattle.std.specs.Prelude.{◌≤◌, ℕ, List, length};
    ghost use Rattle.local_divisors.specs.Grouping.{pairs_from, AreLinked};

    ghost Value = { List (ℕ × ℕ) };

    ghost view = { λ p. pairs_from p.links.now p.place };

    ghost invariant = { λ p. AreLinked p.links.now × (p.place ≤ length p.links.now) };
}

impl<'a> Pairs<'a> {
    /// The next pair, if there is one more.
    pub(crate) fn next(&mut self) -> Option<(u32, u32)>
        ensures { IsTaken self.old result self.new }
    {
        if self.place == 0 {
            return None;
        }
        let link = self.links[self.place - 1];
        self.place = link.next;
        Some((link.left, link.right))
    }
}

/// For each number the pairs of an r and a t that have it as their product, in the order of the pairs. The last pair
/// is put first.
pub(crate) fn grouped(
    alloc: Global,
    product: &Product<'_>,
    rs: &[u32],
    ts: &[u32],
) -> Result<Groups, Memory>
    requires first { All (λ x. x < product.now.table.side) rs.now }
    requires second { All (λ x. x < product.now.table.side) ts.now }
    ensures { IfOk result (λ g. AreGroups product.now rs.now ts.now g) }
{
    // A number that saturates is a size that there is no memory for.
    let pairs = rs.len().saturating_mul(ts.len());
    let mut groups = Groups::bare(alloc, product.side() as usize, pairs)?;
    for n in (0..rs.len()).rev() {
        put_row(product, rs[n], ts, &mut groups)?;
    }
    Ok(groups)
}

/// Puts the pairs of r with each t before those of their products.
fn put_row(product: &Product<'_>, r: u32, ts: &[u32], groups: &mut Groups) -> Result<(), Memory>
    requires first { r < product.now.table.side }
    requires second { All (λ x. x < product.now.table.side) ts.now }
    requires long { length groups.old ≡ product.now.table.side }
    ensures { OnOk result (IsRowPut product.now r ts.now groups.old groups.new) }
{
    for n in (0..ts.len()).rev() {
        groups.put(product.times(r, ts[n]), r, ts[n])?;
    }
    Ok(())
}

/// The elements that are the product of some pair. Condition: there is a group for each.
pub(crate) fn ends(alloc: Global, groups: &Groups, elements: &[u32]) -> Result<Vec<u32>, Memory>
    requires { All (λ x. x < length groups.now) elements.now }
    ensures { IfOk result (λ v. v.items
        ≡ keep (λ u. is_some_pair (slice_index_or groups.now u [])) elements.now) }
{
    let mut ends = Vec::with_capacity(alloc, elements.len())?;
    for &element in elements {
        if groups.has_pair(element) {
            ends.push(element)?;
        }
    }
    Ok(ends)
}
