//! The finite monoids of instances, in flat tables.
ghost use Rattle.std.specs.Prelude.{◌≡◌, ◌<◌, ◌≤◌, ℕ, length, slice_index, IfOk, OnOk, All};
ghost use Rattle.language_theory.specs.Automaton.{is_marked};
ghost use Rattle.star_free_theory.specs.Instance.{Among};
ghost use Rattle.star_free_theory.specs.Construction.{first_other, without, keep, local_elements};
ghost use Rattle.local_divisors.specs.Instances.{Multiplication, IsMultiplication, times, middle};
ghost use Rattle.local_divisors.specs.Instances.{AreMiddles, AreLocalFactors};
ghost use Rattle.local_divisors.specs.Instances.{IsSearch, GoesOn, IsNoted, AreSpanMarks};

use parallel_table::{MOST_SIDE, Table};
use std::alloc::Global;
use std::marker::Model;
use syn_words::Memory;

/// The product of an instance: that of a table, where another number stands for each second factor.
#[derive(Drop)]
pub(crate) struct Product<'a> {
    table: &'a Table,
    factors: Vec<u32>,
}

impl<'a> Model for Product<'a> {
    ghost use Rattle.local_divisors.specs.Instances.{Multiplication, IsMultiplication};

    ghost Value = { Multiplication };

    ghost view = { λ p. record { table = p.table.now; factors = p.factors.items } };

    ghost invariant = { λ p. IsMultiplication
        (record { table = p.table.now; factors = p.factors.items }) };
}

impl<'a> Product<'a> {
    pub(crate) fn new(table: &'a Table, factors: Vec<u32>) -> Product<'a>
        requires { IsMultiplication (record { table = table.now; factors = factors.items }) }
        ensures { result ≡ record { table = table.now; factors = factors.items } }
    {
        Product { table, factors }
    }

    /// The product with other second factors. Condition: each number has one in range.
    pub(crate) fn with(&self, factors: Vec<u32>) -> Product<'a>
        requires long { length factors.items ≡ self.now.table.side }
        requires within { (y : ℕ) → y < self.now.table.side
            → slice_index factors.items y < self.now.table.side }
        ensures { result ≡ record { table = self.now.table; factors = factors.items } }
    {
        Product {
            table: self.table,
            factors,
        }
    }

    /// The number of numbers that can be multiplied.
    pub(crate) fn side(&self) -> u32
        ensures side { result ≡ self.now.table.side }
        ensures few { result ≤ MOST_SIDE }
        ensures product { IsMultiplication self.now }
    {
        self.table.side()
    }

    /// The product of x and y. Condition: both are in range.
    pub(crate) fn times(&self, x: u32, y: u32) -> u32
        requires first { x < self.now.table.side }
        requires second { y < self.now.table.side }
        ensures times { result ≡ times self.now x y }
        ensures within { result < self.now.table.side }
    {
        self.table.at(x, self.factors[y as usize])
    }

    /// What stands for y as a second factor. Condition: it is in range.
    fn factor(&self, y: u32) -> u32
        requires { y < self.now.table.side }
        ensures factor { result ≡ slice_index self.now.factors y }
        ensures within { result < self.now.table.side }
    {
        self.factors[y as usize]
    }

    /// `m s m`. Condition: both are in range.
    fn middle(&self, m: u32, s: u32) -> u32
        requires first { m < self.now.table.side }
        requires second { s < self.now.table.side }
        ensures middle { result ≡ middle self.now m s }
        ensures within { result < self.now.table.side }
    {
        self.times(self.times(m, s), m)
    }
}

/// The first letter whose image is not the identity, or 0. Condition: each letter has an image.
pub(crate) fn chosen(letters: &[u32], images: &[u32], identity: u32) -> u32
    requires { All (λ a. a < length images.now) letters.now }
    ensures { result ≡ first_other (slice_index images.now) identity letters.now }
{
    for &letter in letters {
        if images[letter as usize] != identity {
            return letter;
        }
    }
    0
}

/// The letters but for one.
pub(crate) fn others(alloc: Global, letters: &[u32], chosen: u32) -> Result<Vec<u32>, Memory>
    ensures { IfOk result (λ v. v.items ≡ without chosen letters.now) }
{
    let mut others = Vec::with_capacity(alloc, letters.len())?;
    for &letter in letters {
        if letter != chosen {
            others.push(letter)?;
        }
    }
    Ok(others)
}

/// The marked ones of some elements. Condition: there is a mark for each.
pub(crate) fn marked(alloc: Global, elements: &[u32], marks: &[bool]) -> Result<Vec<u32>, Memory>
    requires { All (λ x. x < length marks.now) elements.now }
    ensures { IfOk result (λ v. v.items ≡ keep (is_marked marks.now) elements.now) }
{
    let mut marked = Vec::with_capacity(alloc, elements.len())?;
    for &element in elements {
        if marks[element as usize] {
            marked.push(element)?;
        }
    }
    Ok(marked)
}

/// The elements of the local divisor at m: m itself, and all `m s m`, in order.
pub(crate) fn divisor(
    alloc: Global,
    product: &Product<'_>,
    elements: &[u32],
    m: u32,
) -> Result<Vec<u32>, Memory>
    requires elements { All (λ x. x < product.now.table.side) elements.now }
    requires m { m < product.now.table.side }
    ensures { IfOk result (λ v. v.items ≡ local_elements (times product.now) m elements.now) }
{
    let mut marks = vec![in alloc; false; product.side() as usize]?;
    marks[m as usize] = true;
    for &element in elements {
        marks[product.middle(m, element) as usize] = true;
    }
    let divisor = marked(alloc, elements, marks.as_slice())?;
    Ok(divisor)
}

/// `m x m` for each number x.
pub(crate) fn middles(alloc: Global, product: &Product<'_>, m: u32) -> Result<Vec<u32>, Memory>
    requires { m < product.now.table.side }
    ensures { IfOk result (λ v. AreMiddles product.now m v.items) }
{
    let mut middles = Vec::with_capacity(alloc, product.side() as usize)?;
    for x in 0..product.side() {
        middles.push(product.middle(m, x))?;
    }
    Ok(middles)
}

/// The factors of the local product at m: for `m y` a factor of the product.
pub(crate) fn local_factors(
    alloc: Global,
    product: &Product<'_>,
    elements: &[u32],
    m: u32,
) -> Result<Vec<u32>, Memory>
    requires elements { All (λ x. x < product.now.table.side) elements.now }
    requires m { m < product.now.table.side }
    ensures { IfOk result (λ v. AreLocalFactors product.now m elements.now v.items) }
{
    let mut factors = vec![in alloc; 0; product.side() as usize]?;
    for &element in elements {
        factors[product.times(m, element) as usize] = product.factor(element);
    }
    Ok(factors)
}

/// Marks of the products of letters' images: the submonoid that these generate.
pub(crate) fn span_marks(
    alloc: Global,
    product: &Product<'_>,
    identity: u32,
    letters: &[u32],
    images: &[u32],
) -> Result<Vec<bool>, Memory>
    requires identity { identity < product.now.table.side }
    requires letters { All (λ a. a < length images.now) letters.now }
    requires images { All (λ x. x < product.now.table.side) images.now }
    ensures { IfOk result (λ v. AreSpanMarks product.now identity letters.now images.now v.items) }
{
    let mut marks = vec![in alloc; false; product.side() as usize]?;
    marks[identity as usize] = true;
    let mut found = Vec::new(alloc);
    found.push(identity)?;
    let mut place = 0;
    while place < found.len() {
        let element = found[place];
        multiply(product, letters, images, element, &mut marks, &mut found)?;
        place += 1;
    }
    Ok(marks)
}

/// Finds the products of letters' images with an element.
fn multiply(
    product: &Product<'_>,
    letters: &[u32],
    images: &[u32],
    element: u32,
    marks: &mut Vec<bool>,
    found: &mut Vec<u32>,
) -> Result<(), Memory>
    requires element { element < product.now.table.side }
    requires long { length marks.old.items ≡ product.now.table.side }
    requires letters { All (λ a. a < length images.now) letters.now }
    requires images { All (λ x. x < product.now.table.side) images.now }
    ensures long { OnOk result (length marks.new.items ≡ product.now.table.side) }
    ensures search { OnOk result ((one : ℕ)
        → IsSearch product.now one letters.now images.now found.old.items marks.old.items
        → Among found.old.items element
        → IsSearch product.now one letters.now images.now found.new.items marks.new.items
        × GoesOn product.now letters.now images.now element found.old.items found.new.items) }
{
    for &letter in letters {
        let next = product.times(images[letter as usize], element);
        note(next, marks, found)?;
    }
    Ok(())
}

/// Notes an element, if it is not marked yet.
fn note(element: u32, marks: &mut Vec<bool>, found: &mut Vec<u32>) -> Result<(), Memory>
    requires { element < length marks.old.items }
    ensures { OnOk result
        (IsNoted element found.old.items marks.old.items found.new.items marks.new.items) }
{
    if marks[element as usize] {
        return Ok(());
    }
    marks[element as usize] = true;
    found.push(element)?;
    Ok(())
}
