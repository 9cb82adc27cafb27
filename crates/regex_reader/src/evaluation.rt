//! What begins, ends and follows in an expression, from its nodes in Polish notation.
ghost use Rattle.std.specs.Prelude.{◌≡◌, ℕ, false, if◌then◌else◌, ◌+◌, ◌≤◌, ◌<◌, ◌∷◌, [], ◌^◌, length, reverse, IfOk, OnOk};
ghost use Rattle.expression_theory.specs.Polish as notation;
ghost use Rattle.regex_reader.specs.Parts.{IsPart, IsFollowing, IsEvaluated, CanRead, CanCombine, HasCombined, CanJoin, HasJoined, CanRepeat, HasRepeated};
ghost use Rattle.expression_theory.specs.Expression.{Tree, Opt};
ghost use Rattle.regex_reader.specs.Marks.{widest, Table, is_marked};

use crate::marks::Marks;
use crate::parts::{Part, behind, either, have_words};
use expression_theory::Node;
use std::alloc::Global;
use syn_words::Memory;

/// Takes the last part.
fn take_one(parts: &mut Vec<Part>) -> Part
    requires { 1 ≤ length parts.old.items }
    ensures { reverse parts.old.items ≡ result ∷ reverse parts.new.items }
{
    parts.pop().unwrap()
}

/// Takes the last two parts: the left one was put last.
fn take_two(parts: &mut Vec<Part>) -> (Part, Part)
    requires { 2 ≤ length parts.old.items }
    ensures { reverse parts.old.items ≡ result.0 ∷ (result.1 ∷ reverse parts.new.items) }
{
    let left = take_one(parts);
    let right = take_one(parts);
    (left, right)
}

/// Reads `0` or `1`.
fn read_bare(parts: &mut Vec<Part>, has_empty: bool) -> Result<(), Memory>
    ensures { OnOk result ((n : ℕ) (table : Table)
        → HasCombined
        (if has_empty then Node.One else Node.Zero) n parts.old.items table n parts.new.items table) }
{
    let part = Part::bare(*parts.allocator(), has_empty, 0);
    parts.push(part)?;
    Ok(())
}

/// Reads a position whose number is given.
fn read_position(parts: &mut Vec<Part>, position: u32) -> Result<(), Memory>
    ensures { OnOk result ((a : ℕ) (table : Table)
        → HasCombined (Node.Letter a)
        (position + 1) parts.old.items table position parts.new.items table) }
{
    let part = Part::one_position(*parts.allocator(), position)?;
    parts.push(part)?;
    Ok(())
}

/// Reads a union.
fn read_or(parts: &mut Vec<Part>, marks: &Marks, position: u32) -> Result<(), Memory>
    requires { CanCombine 2 position parts.old.items marks.now }
    ensures { OnOk result
        (HasCombined Node.Or position parts.old.items marks.now position parts.new.items marks.now) }
{
    let (left, right) = take_two(parts);
    let part = either(left, right)?;
    parts.push(part)?;
    Ok(())
}

/// Puts two parts one behind the other, whose first position has the number `position`.
fn join(
    alloc: Global,
    left: Part,
    right: Part,
    marks: &mut Marks,
    position: u32,
) -> Result<Part, Memory>
    requires { CanJoin position left right marks.old }
    ensures joined { IfOk result (λ r. HasJoined position left right marks.old r marks.new) }
    ensures width { marks.new.width ≡ marks.old.width }
{
    if !have_words(&left, &right) {
        let positions = left.positions() + right.positions();
        marks.clear_rows(position, position + positions);
        return Ok(Part::bare(alloc, false, positions));
    }
    marks.add_pairs(left.last(), right.first())?;
    let part = behind(left, right)?;
    Ok(part)
}

/// Reads a concatenation.
fn read_cat(parts: &mut Vec<Part>, marks: &mut Marks, position: u32) -> Result<(), Memory>
    requires { CanCombine 2 position parts.old.items marks.old }
    ensures combined { OnOk result
        (HasCombined Node.Cat position parts.old.items marks.old position parts.new.items marks.new) }
    ensures width { marks.new.width ≡ marks.old.width }
{
    let (left, right) = take_two(parts);
    let part = join(*parts.allocator(), left, right, marks, position)?;
    parts.push(part)?;
    Ok(())
}

/// The part once or more: each position that can begin a word then follows each that can end one.
fn repeated(part: Part, marks: &mut Marks) -> Result<Part, Memory>
    requires { CanRepeat part marks.old }
    ensures repeated { IfOk result (λ r. HasRepeated part marks.old r marks.new) }
    ensures width { marks.new.width ≡ marks.old.width }
{
    if !part.is_closed() {
        marks.add_pairs(part.last(), part.first())?;
    }
    Ok(part.closed())
}

/// The part once or not.
fn optional(part: Part) -> Part
    ensures { (n : ℕ) (t : Tree) → IsPart n t part → IsPart n (Opt t) result }
{
    part.with_empty()
}

/// Reads `*`.
fn read_star(parts: &mut Vec<Part>, marks: &mut Marks, position: u32) -> Result<(), Memory>
    requires { CanCombine 1 position parts.old.items marks.old }
    ensures combined { OnOk result
        (HasCombined Node.Star position parts.old.items marks.old position parts.new.items
        marks.new) }
    ensures width { marks.new.width ≡ marks.old.width }
{
    let part = take_one(parts);
    let once_or_more = repeated(part, marks)?;
    let part = optional(once_or_more);
    parts.push(part)?;
    Ok(())
}

/// Reads `+`.
fn read_plus(parts: &mut Vec<Part>, marks: &mut Marks, position: u32) -> Result<(), Memory>
    requires { CanCombine 1 position parts.old.items marks.old }
    ensures combined { OnOk result
        (HasCombined Node.Plus position parts.old.items marks.old position parts.new.items
        marks.new) }
    ensures width { marks.new.width ≡ marks.old.width }
{
    let part = take_one(parts);
    let part = repeated(part, marks)?;
    parts.push(part)?;
    Ok(())
}

/// Reads `?`.
fn read_opt(parts: &mut Vec<Part>, marks: &Marks, position: u32) -> Result<(), Memory>
    requires { CanCombine 1 position parts.old.items marks.now }
    ensures { OnOk result
        (HasCombined Node.Opt position parts.old.items marks.now position parts.new.items marks.now) }
{
    let part = take_one(parts);
    let part = optional(part);
    parts.push(part)?;
    Ok(())
}

/// Reads the first of the nodes, where those behind it have been read. Returns the number of the first position.
fn read_first(
    nodes: &[Node],
    parts: &mut Vec<Part>,
    marks: &mut Marks,
    position: u32,
) -> Result<u32, Memory>
    requires { CanRead nodes.now position parts.old.items marks.old }
    ensures evaluated { IfOk result
        (λ n. IsEvaluated (notation.trees nodes.now) n parts.new.items marks.new) }
    ensures width { marks.new.width ≡ marks.old.width }
{
    match nodes[0] {
        Node::Zero => read_bare(parts, false)?,
        Node::One => read_bare(parts, true)?,
        Node::Letter(_) => {
            read_position(parts, position - 1)?;
            return Ok(position - 1);
        }
        Node::Or => read_or(parts, marks, position)?,
        Node::Cat => read_cat(parts, marks, position)?,
        Node::Star => read_star(parts, marks, position)?,
        Node::Plus => read_plus(parts, marks, position)?,
        Node::Opt => read_opt(parts, marks, position)?,
    }
    Ok(position)
}

/// Reads all nodes, the last one first.
fn read_all(nodes: &[Node], parts: &mut Vec<Part>, marks: &mut Marks) -> Result<(), Memory>
    requires notation { notation.IsNotation nodes.now }
    requires room { marks.old.width ≡ length (notation.letters nodes.now) + 1 }
    requires narrow { marks.old.width ≤ widest }
    requires bare { (p q : ℕ) → is_marked marks.old p q ≡ false }
    requires none { parts.old.items ≡ [] }
    ensures evaluated { OnOk result
        (IsEvaluated (notation.trees nodes.now) 1 parts.new.items marks.new) }
    ensures width { marks.new.width ≡ marks.old.width }
{
    let mut position = marks.width() as u32;
    let mut place = nodes.len();
    while place > 0 {
        place -= 1;
        let (_, rest) = nodes.split_at(place);
        position = read_first(rest, parts, marks, position)?;
    }
    Ok(())
}

/// What begins and ends in the expression whose Polish notation is given, and what follows in it.
pub fn evaluate(alloc: Global, nodes: &[Node], marks: &mut Marks) -> Result<Part, Memory>
    requires notation { notation.IsNotation nodes.now }
    requires room { marks.old.width ≡ length (notation.letters nodes.now) + 1 }
    requires narrow { marks.old.width ≤ widest }
    requires bare { (p q : ℕ) → is_marked marks.old p q ≡ false }
    requires tree { (t : Tree) × (nodes.now ≡ notation.polish t) }
    ensures part { IfOk result (λ r. (t : Tree) → nodes.now ≡ notation.polish t
        → IsPart 1 t r) }
    ensures marks { OnOk result ((t : Tree) → nodes.now ≡ notation.polish t
        → IsFollowing 1 (t ∷ []) marks.new) }
    ensures width { marks.new.width ≡ marks.old.width }
{
    let mut parts = Vec::new(alloc);
    read_all(nodes, &mut parts, marks)?;
    Ok(take_one(&mut parts))
}
