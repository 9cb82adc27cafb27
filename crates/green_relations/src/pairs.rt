//! Classes that two lists of labels have in common.
ghost use Rattle.std.specs.Prelude.{◌≡◌, ◌<◌, ◌^◌, length, IfOk};
ghost use Rattle.green_relations.specs.Pairs.{ArePairMates, IsNoted};

use indexmap::IndexMap;
use std::alloc::Global;
use syn_words::Memory;

/// For each place the least one that has the same label in both lists. Condition: the lists have
/// one length, below 2^32.
pub(crate) fn pair_mates(alloc: Global, first: &[u32], second: &[u32]) -> Result<Vec<u32>, Memory>
    requires long { length second.now ≡ length first.now }
    requires few { length first.now < 2 ^ 32 }
    ensures { IfOk result
        (λ labels. ArePairMates first.now second.now (length first.now) labels.items) }
{
    let mut labels = Vec::with_capacity(alloc, first.len())?;
    let mut seen = IndexMap::new(alloc);
    for place in 0..first.len() as u32 {
        let pair = (first[place as usize], second[place as usize]);
        let label = first_place(&mut seen, pair, place)?;
        labels.push(label)?;
    }
    Ok(labels)
}

/// The place that was noted for a pair, or this one, which is then noted.
fn first_place(
    seen: &mut IndexMap<(u32, u32), u32>,
    pair: (u32, u32),
    place: u32,
) -> Result<u32, Memory>
    ensures { IfOk result (λ found. IsNoted pair place found seen.old seen.new) }
{
    match seen.get(&pair) {
        Some(mate) => Ok(*mate),
        None => {
            seen.insert(pair, place)?;
            Ok(place)
        }
    }
}
