//! Full transformations, against a plain closure over all products, and two workers in a batch at once.
ghost use Rattle.std.specs.Prelude.{◌≤◌};

use crate::counting::CountingGate;
use froidure_pin::{EnumFault, Enumerated, Generators, enumerate};
use indexmap::IndexSet;
use std::alloc::Global;
use std::hint::spin_loop;
use std::sync::atomic::{AtomicU64, Ordering};
use std::test::Fail;
use syn_outside::{Gate, OpenGate};
use syn_words::Memory;

/// All maps of some points: letter 0 takes each point to the next and the last to 0, letter 1 swaps points 0 and 1, and
/// letter 2 takes 1 to 0 and leaves the others.
fn full_transformations(alloc: Global, points: u32) -> Result<Generators, Memory>
    requires some { 2 ≤ points }
    requires few { points ≤ 4096 }
{
    let mut generators = Generators::new(alloc, points, 3)?;
    for point in 0..points {
        generators.set(0, point, (point + 1) % points);
    }
    generators.set(1, 0, 1);
    generators.set(1, 1, 0);
    generators.set(2, 1, 0);
    Ok(generators)
}

/// A map of four points.
type Map = [u32; 4];

/// The maps of the three letters of the full transformations of 4 points.
const LETTERS: [Map; 3] = [[1, 2, 3, 0], [1, 0, 2, 3], [0, 0, 2, 3]];

/// One map and then another.
fn followed_by(first: Map, second: Map) -> Map {
    first.map(|point| second.get(point as usize).copied().unwrap_or(point))
}

/// The map of a row of images.
fn map_of(row: &[u32]) -> Map {
    [0, 1, 2, 3].map(|point: usize| row.get(point).copied().unwrap_or(4))
}

/// The images of the four points as the digits of one number.
fn code(map: Map) -> u32 {
    let [first, second, third, fourth] = map;
    first
        .wrapping_mul(1000)
        .wrapping_add(second.wrapping_mul(100))
        .wrapping_add(third.wrapping_mul(10))
        .wrapping_add(fourth)
}

/// Puts a map behind the others if its code is new.
fn see(map: Map, maps: &mut Vec<Map>, codes: &mut IndexSet<u32>) -> Result<(), Memory> {
    if codes.insert(code(map))? {
        maps.push(map)?;
    }
    Ok(())
}

/// Sees both products of the map at a place with each map up to it.
fn see_products(
    place: usize,
    maps: &mut Vec<Map>,
    codes: &mut IndexSet<u32>,
) -> Result<(), Memory> {
    for earlier in 0..=place {
        let map = maps.get(place).copied().unwrap_or([0, 1, 2, 3]);
        let by = maps.get(earlier).copied().unwrap_or(map);
        see(followed_by(map, by), maps, codes)?;
        see(followed_by(by, map), maps, codes)?;
    }
    Ok(())
}

/// The codes of all products of the letters and of what was found, until nothing is new.
fn plain_closure(alloc: Global) -> Result<IndexSet<u32>, Memory> {
    let mut maps = Vec::new(alloc);
    let mut codes = IndexSet::new(alloc);
    see([0, 1, 2, 3], &mut maps, &mut codes)?;
    for letter in LETTERS {
        see(letter, &mut maps, &mut codes)?;
    }
    let mut left = 0;
    while left < maps.len() && maps.len() <= 256 {
        see_products(left, &mut maps, &mut codes)?;
        left += 1;
    }
    Ok(codes)
}

/// Whether both graphs multiply as maps do: on the right by a letter that follows, on the left by one that comes first.
fn multiplies_as_maps(all: &Enumerated) -> bool {
    for element in 0..all.cayley.len() {
        let map = map_of(all.rows.row(element));
        for letter in 0..all.cayley.letters() {
            let by = LETTERS.get(letter as usize).copied().unwrap_or(map);
            let right = all.cayley.right(element, letter as u8);
            let left = all.cayley.left(letter as u8, element);
            if map_of(all.rows.row(right)) != followed_by(map, by)
                || map_of(all.rows.row(left)) != followed_by(by, map)
            {
                return false;
            }
        }
    }
    true
}

/// Whether the elements of an enumeration are those of the plain closure, and both graphs multiply as maps do.
fn is_the_closure(all: &Enumerated, closure: &IndexSet<u32>) -> bool {
    for element in 0..all.cayley.len() {
        if !closure.contains(&code(map_of(all.rows.row(element)))) {
            return false;
        }
    }
    all.cayley.len() as usize == closure.len() && multiplies_as_maps(all)
}

#[test]
fn full_transformations_4(rt: HostRuntime) -> Result<(), Fail> {
    let alloc = rt.alloc();
    let generators = full_transformations(alloc, 4)?;
    let closure = plain_closure(alloc)?;
    assert_eq!(rt; closure.len(), 256);
    for workers in [1, 2, 7, 64] {
        let all = enumerate(&rt, alloc, &generators, 256, workers, &OpenGate)?;
        assert!(rt; is_the_closure(&all, &closure));
    }
    Ok(())
}

#[test]
fn keeps_the_limit(rt: HostRuntime) -> Result<(), Fail> {
    let generators = full_transformations(rt.alloc(), 4)?;
    let few = enumerate(&rt, rt.alloc(), &generators, 255, 1, &OpenGate);
    assert_eq!(rt; few.err(), Some(EnumFault::ElementLimit));
    Ok(())
}

/// The number of elements that are their own squares.
fn idempotents(enumerated: &Enumerated) -> u32 {
    let cayley = &enumerated.cayley;
    let mut count: u32 = 0;
    for element in 0..cayley.len() {
        if cayley.product(element, element) == element {
            count = count.saturating_add(1);
        }
    }
    count
}

#[test]
fn full_transformations_6(rt: HostRuntime) -> Result<(), Fail> {
    let alloc = rt.alloc();
    let generators = full_transformations(alloc, 6)?;
    let all = enumerate(&rt, alloc, &generators, 46_656, 2, &OpenGate)?;
    assert_eq!(rt; all.cayley.len(), 46_656);
    assert_eq!(rt; idempotents(&all), 1_057);
    Ok(())
}

/// Of six letters that leave the only point alone, 64 workers make the six rows of the one batch: six of them.
#[test]
fn six_parts_of_one_batch(rt: HostRuntime) -> Result<(), Fail> {
    let generators = Generators::new(rt.alloc(), 1, 6)?;
    let gate = CountingGate::new();
    let all = enumerate(&rt, rt.alloc(), &generators, 1, 64, &gate)?;
    assert_eq!(rt; all.cayley.len(), 1);
    assert!(rt; gate.is_six_once());
    Ok(())
}

#[test]
fn keeps_a_large_limit(rt: HostRuntime) -> Result<(), Fail> {
    let generators = full_transformations(rt.alloc(), 6)?;
    let few = enumerate(&rt, rt.alloc(), &generators, 46_655, 1, &OpenGate);
    assert_eq!(rt; few.err(), Some(EnumFault::ElementLimit));
    Ok(())
}

/// A gate at which each of two parts waits for the other one, in each batch: as long as it takes to see that the other
/// has come as often, or for a bounded time.
#[derive(Drop)]
struct MeetingGate {
    first: AtomicU64,
    second: AtomicU64,
    missed: AtomicU64,
}

impl Gate for MeetingGate {
    fn enter(&self, part: u64) {
        let (own, other) = match part {
            0 => (&self.first, &self.second),
            _ => (&self.second, &self.first),
        };
        let times = own.fetch_add(1, Ordering::SeqCst).wrapping_add(1);
        for _ in 0..100_000_000 {
            if other.load(Ordering::SeqCst) >= times {
                return;
            }
            spin_loop();
        }
        self.missed.fetch_add(1, Ordering::SeqCst);
    }
}

/// Both parts of each batch are inside it at once: neither goes on to its rows before the other has come. The batches
/// are those of the words of length 0 to 8, since the words of length 9 need no row.
#[test]
fn two_workers_meet(rt: HostRuntime) -> Result<(), Fail> {
    let alloc = rt.alloc();
    let generators = full_transformations(alloc, 4)?;
    let gate = MeetingGate {
        first: AtomicU64::new(0),
        second: AtomicU64::new(0),
        missed: AtomicU64::new(0),
    };
    let all = enumerate(&rt, alloc, &generators, 256, 2, &gate)?;
    assert_eq!(rt; all.cayley.len(), 256);
    assert_eq!(rt; gate.missed.load(Ordering::SeqCst), 0);
    assert_eq!(rt; gate.first.load(Ordering::SeqCst), 9);
    assert_eq!(rt; gate.second.load(Ordering::SeqCst), 9);
    Ok(())
}
