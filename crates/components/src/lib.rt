//! The strong components of a graph whose nodes all have the same number of edges.
#![tactic(auto)]

mod rows;

ghost use Rattle.std.specs.Prelude.{◌≡◌, ℕ, ◌+◌, ◌-◌, ◌*◌, ◌<◌, ◌≤◌, List, length, slice_index};
ghost use Rattle.std.specs.Prelude.{IfOk, OnOk};
ghost use Rattle.components.specs.Components.{IsGraph, AreComponents, Reach, target};
ghost use Rattle.components.specs.Search.{IsIn, IsNamed, IsLinked};
ghost use Rattle.components.specs.Steps.{Holds, work, LastReaches, IsOpened, IsLater, IsJoined};
ghost use Rattle.components.specs.Steps.{IsMet};

pub use rows::side_by_side;
use std::alloc::Global;
use syn_words::Memory;

/// A search along the edges. The open nodes stand in segments, each a part of one strong component
/// that an edge of the segment below leads to.
#[derive(Drop)]
struct Search {
    /// How many edges of each node were followed.
    cursors: Vec<u32>,
    /// One more than each node's place among the open ones, or 0 if it was not seen yet.
    places: Vec<usize>,
    /// The least node of each closed node's component, and the number of nodes for the others.
    labels: Vec<u32>,
    /// The open nodes.
    opened: Vec<u32>,
    /// Where each segment of the open nodes starts.
    starts: Vec<usize>,
    /// The places of the open nodes that may have edges left.
    waiting: Vec<usize>,
}

impl Search {
    fn new(alloc: Global, nodes: u32) -> Result<Search, Memory>
        ensures holds { IfOk result (λ s. (degree : ℕ) (targets : List ℕ)
            → Holds nodes degree targets s) }
        ensures none { IfOk result (λ s. length s.starts.items ≡ 0) }
    {
        Ok(Search {
            cursors: vec![in alloc; 0; nodes as usize]?,
            places: vec![in alloc; 0; nodes as usize]?,
            labels: vec![in alloc; nodes; nodes as usize]?,
            opened: Vec::new(alloc),
            starts: Vec::new(alloc),
            waiting: Vec::new(alloc),
        })
    }

    // Opens a node in a segment of its own.
    fn open(&mut self, nodes: u32, degree: u32, targets: &[u32], node: u32) -> Result<(), Memory>
        requires holds { Holds nodes degree targets.now self.old }
        requires node { node < nodes }
        requires unseen { slice_index self.old.places.items node ≡ 0 }
        requires free { nodes ≤ slice_index self.old.labels.items node }
        requires reached { LastReaches degree targets.now self.old.opened.items node }
        ensures opened { OnOk result (IsOpened node self.old self.new) }
        ensures holds { OnOk result (Holds nodes degree targets.now self.new) }
    {
        let place = self.opened.len();
        self.opened.push(node)?;
        self.starts.push(place)?;
        self.waiting.push(place)?;
        self.places[node as usize] = place + 1;
        Ok(())
    }

    // Sees to it that the node that an edge of the node at a place leads to is closed, or open and
    // in no lower segment.
    fn meet(
        &mut self,
        nodes: u32,
        degree: u32,
        targets: &[u32],
        place: usize,
        next: u32,
    ) -> Result<(), Memory>
        requires holds { Holds nodes degree targets.now self.old }
        requires next { next < nodes }
        requires place { place < length self.old.opened.items }
        requires top { slice_index self.old.starts.items (length self.old.starts.items - 1)
            ≤ place }
        requires leads { Reach degree (target degree targets.now)
            (slice_index self.old.opened.items place) next }
        ensures holds { OnOk result (Holds nodes degree targets.now self.new) }
        ensures met { OnOk result (IsMet nodes place next self.old self.new) }
    {
        if self.labels[next as usize] < nodes {
            return Ok(());
        }
        let seen = self.places[next as usize];
        if seen == 0 {
            self.open(nodes, degree, targets, next)?;
            return Ok(());
        }
        join(
            &mut self.starts,
            degree,
            targets,
            self.opened.as_slice(),
            seen - 1,
        );
        Ok(())
    }

    // Follows the next edge of the last waiting node, which stands in the last segment, or ends its
    // wait.
    fn follow(
        &mut self,
        nodes: u32,
        degree: u32,
        targets: &[u32],
        place: usize,
    ) -> Result<(), Memory>
        requires graph { IsGraph nodes degree targets.now }
        requires holds { Holds nodes degree targets.now self.old }
        requires some { 0 < length self.old.waiting.items }
        requires last { place ≡ slice_index self.old.waiting.items
            (length self.old.waiting.items - 1) }
        requires top { slice_index self.old.starts.items (length self.old.starts.items - 1)
            ≤ place }
        ensures holds { OnOk result (Holds nodes degree targets.now self.new) }
        ensures less { OnOk result (work nodes degree self.new < work nodes degree self.old) }
        ensures later { OnOk result (IsLater nodes self.old self.new) }
    {
        let node = self.opened[place];
        let edge = self.cursors[node as usize];
        if edge >= degree {
            self.waiting.pop();
            return Ok(());
        }
        let next = targets[node as usize * degree as usize + edge as usize];
        self.meet(nodes, degree, targets, place, next)?;
        self.cursors[node as usize] = edge + 1;
        Ok(())
    }

    // Closes the nodes of the last segment, which have no edge left.
    fn close(&mut self, nodes: u32, degree: u32, targets: &[u32], start: usize)
        requires graph { IsGraph nodes degree targets.now }
        requires holds { Holds nodes degree targets.now self.old }
        requires some { 0 < length self.old.starts.items }
        requires last { start ≡ slice_index self.old.starts.items
            (length self.old.starts.items - 1) }
        requires done { (q : ℕ) → q < length self.old.waiting.items
            → slice_index self.old.waiting.items q < start }
        ensures holds { Holds nodes degree targets.now self.new }
        ensures less { work nodes degree self.new < work nodes degree self.old }
        ensures later { IsLater nodes self.old self.new }
    {
        let (_, segment) = self.opened.as_slice().split_at(start);
        let least = least_of(segment);
        name_all(&mut self.labels, segment, least);
        self.opened.truncate(start);
        self.starts.pop();
    }

    fn step(&mut self, nodes: u32, degree: u32, targets: &[u32]) -> Result<(), Memory>
        requires graph { IsGraph nodes degree targets.now }
        requires holds { Holds nodes degree targets.now self.old }
        requires some { 0 < length self.old.starts.items }
        ensures holds { OnOk result (Holds nodes degree targets.now self.new) }
        ensures less { OnOk result (work nodes degree self.new < work nodes degree self.old) }
        ensures later { OnOk result (IsLater nodes self.old self.new) }
    {
        let start = self.starts[self.starts.len() - 1];
        if let Some(last) = self.waiting.last() {
            let place = *last;
            if place >= start {
                self.follow(nodes, degree, targets, place)?;
                return Ok(());
            }
        }
        self.close(nodes, degree, targets, start);
        Ok(())
    }

    // Closes a node, with all that it reaches.
    fn explore(&mut self, nodes: u32, degree: u32, targets: &[u32], root: u32) -> Result<(), Memory>
        requires graph { IsGraph nodes degree targets.now }
        requires holds { Holds nodes degree targets.now self.old }
        requires none { length self.old.starts.items ≡ 0 }
        requires root { root < nodes }
        ensures holds { OnOk result (Holds nodes degree targets.now self.new) }
        ensures none { OnOk result (length self.new.starts.items ≡ 0) }
        ensures root { OnOk result (slice_index self.new.labels.items root < nodes) }
        ensures later { OnOk result (IsLater nodes self.old self.new) }
    {
        if self.labels[root as usize] < nodes {
            return Ok(());
        }
        self.open(nodes, degree, targets, root)?;
        while !self.starts.is_empty() {
            self.step(nodes, degree, targets)?;
        }
        Ok(())
    }
}

/// The strong component of each node, named by its least node. Edge `a` of node `i` leads to
/// `targets[i * degree + a]`. Takes a time that is linear in the number of edges and nodes.
pub fn strong_components(
    alloc: Global,
    nodes: u32,
    degree: u32,
    targets: &[u32],
) -> Result<Vec<u32>, Memory>
    requires { IsGraph nodes degree targets.now }
    ensures { IfOk result (λ labels. AreComponents nodes degree targets.now labels.items) }
{
    let mut search = Search::new(alloc, nodes)?;
    for root in 0..nodes {
        search.explore(nodes, degree, targets, root)?;
    }
    Ok(search.labels)
}

// Drops the starts above a place that the last open node reaches, so that all from its segment on
// are one segment.
fn join(starts: &mut Vec<usize>, degree: u32, targets: &[u32], opened: &[u32], place: usize)
    requires linked { IsLinked degree (target degree targets.now) opened.now starts.old.items }
    requires place { place < length opened.now }
    requires reached { LastReaches degree targets.now opened.now (slice_index opened.now place) }
    ensures { IsJoined degree targets.now opened.now place starts.old.items starts.new.items }
{
    while starts[starts.len() - 1] > place {
        starts.pop();
    }
}

fn least_of(nodes: &[u32]) -> u32
    requires { 0 < length nodes.now }
    ensures among { IsIn nodes.now result }
    ensures least { (k : ℕ) → k < length nodes.now → result ≤ slice_index nodes.now k }
{
    let mut least = nodes[0];
    for node in nodes {
        if *node < least {
            least = *node;
        }
    }
    least
}

fn name_all(labels: &mut Vec<u32>, nodes: &[u32], name: u32)
    requires { (k : ℕ) → k < length nodes.now → slice_index nodes.now k < length labels.old.items }
    ensures { IsNamed nodes.now name labels.old.items labels.new.items }
{
    for node in nodes {
        labels[*node as usize] = name;
    }
}
