//! Sets of numbers.
ghost use Rattle.std.specs.Prelude.{◌≡◌, length, IfOk};

use number_set::NumberSet;
use std::alloc::Global;
use std::test::Fail;
use syn_words::Memory;

/// The members of a set, in rising order.
fn listed(alloc: Global, set: &NumberSet) -> Result<Vec<u32>, Memory> {
    let mut numbers = Vec::new(alloc);
    let mut members = set.members();
    for _ in 0..set.size() {
        let Some(number) = members.next() else {
            return Ok(numbers);
        };
        numbers.push(number)?;
    }
    Ok(numbers)
}

#[test]
fn walks_members(rt: HostRuntime) -> Result<(), Fail> {
    let mut set = NumberSet::empty(rt.alloc(), 320)?;
    assert_eq!(rt; set.members().next(), None);
    set.insert(319);
    set.insert(0);
    set.insert(64);
    set.insert(63);
    set.insert(64);
    set.insert(257);
    assert_eq!(rt;
        listed(rt.alloc(), &set)?.as_slice(),
        [0, 63, 64, 257, 319].as_slice()
    );
    assert_eq!(rt; set.contains(64), true);
    assert_eq!(rt; set.contains(65), false);
    assert_eq!(rt; NumberSet::empty(rt.alloc(), 0)?.members().next(), None);
    Ok(())
}

#[test]
fn equals_sets_of_one_size(rt: HostRuntime) -> Result<(), Fail> {
    let set = NumberSet::from_marks(rt.alloc(), &[false, true, false])?;
    assert_eq!(rt; set == set.copy()?, true);
    assert_eq!(rt; set == set.bare()?, false);
    assert_eq!(rt;
        set == NumberSet::from_marks(rt.alloc(), &[false, true])?,
        false
    );
    Ok(())
}

/// The set of a size with some members.
fn having(alloc: Global, size: u32, numbers: &[u32]) -> Result<NumberSet, Memory>
    ensures { IfOk result (λ s. length s ≡ size) }
{
    let mut set = NumberSet::empty(alloc, size)?;
    for &number in numbers {
        if number < set.size() {
            set.insert(number);
        }
    }
    Ok(set)
}

/// The members of a set of 130 numbers, with those of a set of another size put into it.
fn union_of(alloc: Global, numbers: &[u32], size: u32, more: &[u32]) -> Result<Vec<u32>, Memory> {
    let mut set = having(alloc, 130, numbers)?;
    let other = having(alloc, size, more)?;
    if other.size() <= set.size() {
        set.union_with(&other);
    }
    listed(alloc, &set)
}

#[test]
fn unites_sets(rt: HostRuntime) -> Result<(), Fail> {
    let rows: [(&[u32], u32, &[u32], &[u32]); 6] = [
        (
            &[0, 63, 128],
            130,
            &[63, 64, 127, 129],
            &[0, 63, 64, 127, 128, 129],
        ),
        (&[64], 130, &[0, 129], &[0, 64, 129]),
        (&[0, 129], 130, &[64], &[0, 64, 129]),
        (&[], 70, &[1, 64, 69], &[1, 64, 69]),
        (&[5], 130, &[], &[5]),
        (&[5, 128], 0, &[], &[5, 128]),
    ];
    for (numbers, size, more, all) in rows {
        assert_eq!(rt; union_of(rt.alloc(), numbers, size, more)?.as_slice(), all);
    }
    Ok(())
}

#[test]
fn intersects_sets(rt: HostRuntime) -> Result<(), Fail> {
    let first = having(rt.alloc(), 130, &[0, 63, 128])?;
    let rows: [(&[u32], &[u32]); 4] = [
        (&[63, 64, 127, 129], &[63]),
        (&[0, 63, 128], &[0, 63, 128]),
        (&[1, 62, 64, 129], &[]),
        (&[], &[]),
    ];
    for (numbers, common) in rows {
        let other = having(rt.alloc(), 130, numbers)?;
        let mut set = first.copy()?;
        set.intersect_with(&other);
        assert_eq!(rt; listed(rt.alloc(), &set)?.as_slice(), common);
        assert_eq!(rt; first.meets(&other), !common.is_empty());
    }
    Ok(())
}

#[test]
fn clears_sets(rt: HostRuntime) -> Result<(), Fail> {
    let mut set = having(rt.alloc(), 130, &[0, 63, 128])?;
    set.clear();
    assert_eq!(rt; set == NumberSet::empty(rt.alloc(), 130)?, true);
    set.insert(70);
    assert_eq!(rt; listed(rt.alloc(), &set)?.as_slice(), [70].as_slice());
    Ok(())
}
