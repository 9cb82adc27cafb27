//! Whether a language is locally testable.
ghost use Rattle.std.specs.Prelude.{◌≤◌, true, is_some, option_map, IfSome, IfOk};
ghost use Rattle.language_theory.specs.Nerode.{accepted};
ghost use Rattle.parallel_table.specs.ProductTables.{IsTableOf};
ghost use Rattle.syntactic_monoid.specs.SyntacticMonoid.{IsSyntacticMonoid};
ghost use Rattle.locally_testable.specs.Answer.{IsLocalAnswer, IsFound, Tells};

use answers::{LtAnswer, MOST_WORK};
use factor_keys::Factors;
use level_search::{Level, MOST_LEVEL, MOST_PAIRS, search};
use local_submonoids::{first_flaw, local_work, witness_of};
use parallel_table::Table;
use std::alloc::Global;
use subset_minimal::MinDfa;
use syn_words::Memory;
use syntactic_monoid::Syntactic;

/// Whether the language of a syntactic monoid and of a minimal automaton is locally testable.
///
/// `TableLimit` comes exactly where no table is given; else `WorkLimit` exactly where the local work is greater than
/// `MOST_WORK`: the sum of the squares of the sizes of the local submonoids `e M e`, over all idempotent classes e of
/// nonempty words. Else `No` comes exactly where some such `e M e` is not idempotent and commutative, with the least
/// witness. Else the answer is that of the search through the levels of `Factors` from 1 to `max_level`, each with at
/// most `max_pairs` pairs.
///
/// Conditions: the monoid is that of the automaton's language, a given table is filled for it,
/// `1 <= max_level <= MOST_LEVEL` and `max_pairs <= MOST_PAIRS`.
pub fn local(
    alloc: Global,
    monoid: &Syntactic,
    table: Option<&Table>,
    dfa: &MinDfa,
    max_level: u32,
    max_pairs: u32,
) -> Result<LtAnswer, Memory>
    requires language { IsSyntacticMonoid dfa.now.graph.letters (accepted dfa.now) monoid.now }
    requires table { IfSome (option_map (λ t. t.now) table) (λ t. IsTableOf monoid.now.graphs t) }
    requires from_first { 1 ≤ max_level }
    requires to_greatest { max_level ≤ MOST_LEVEL }
    requires pairs { max_pairs ≤ MOST_PAIRS }
    ensures answer { IfOk result (IsLocalAnswer dfa.now.graph.letters (accepted dfa.now)
        monoid.now.graphs.words (is_some table.entry) max_level max_pairs) }
    ensures tells { IfOk result (Tells dfa.now.graph.letters (accepted dfa.now)) }
{
    match table {
        None => Ok(LtAnswer::TableLimit),
        Some(table) => {
            let answer = local_by_table(alloc, monoid, table, dfa, max_level, max_pairs)?;
            Ok(answer)
        }
    }
}

/// The answer where there is a table of products. Conditions: as of `local`.
fn local_by_table(
    alloc: Global,
    monoid: &Syntactic,
    table: &Table,
    dfa: &MinDfa,
    max_level: u32,
    max_pairs: u32,
) -> Result<LtAnswer, Memory>
    requires language { IsSyntacticMonoid dfa.now.graph.letters (accepted dfa.now) monoid.now }
    requires table { IsTableOf monoid.now.graphs table.now }
    requires from_first { 1 ≤ max_level }
    requires to_greatest { max_level ≤ MOST_LEVEL }
    requires pairs { max_pairs ≤ MOST_PAIRS }
    ensures answer { IfOk result (IsLocalAnswer dfa.now.graph.letters (accepted dfa.now)
        monoid.now.graphs.words true max_level max_pairs) }
    ensures tells { IfOk result (Tells dfa.now.graph.letters (accepted dfa.now)) }
{
    // Its contract tells that this is the syntactic monoid of the language that it recognises.
    let _elements = monoid.cayley();
    if local_work(alloc, monoid, table)? > MOST_WORK {
        return Ok(LtAnswer::WorkLimit);
    }
    match first_flaw(alloc, monoid, table)? {
        Some((e, flaw)) => {
            let witness = witness_of(alloc, monoid, e, flaw)?;
            Ok(LtAnswer::No(witness))
        }
        None => {
            let answer = search_levels(alloc, dfa, max_level, max_pairs)?;
            Ok(answer)
        }
    }
}

/// The answer of the search through the levels of `Factors` from 1 on. Conditions: as of `search`.
fn search_levels(
    alloc: Global,
    dfa: &MinDfa,
    max_level: u32,
    max_pairs: u32,
) -> Result<LtAnswer, Memory>
    requires from_first { 1 ≤ max_level }
    requires to_greatest { max_level ≤ MOST_LEVEL }
    requires pairs { max_pairs ≤ MOST_PAIRS }
    ensures { IfOk result (IsFound dfa.now.graph.letters (accepted dfa.now) max_level max_pairs) }
{
    let mut factors = Factors::new(alloc);
    let found = search(alloc, dfa, &mut factors, 1, max_level, max_pairs)?;
    Ok(match found {
        Level::Yes(n) => LtAnswer::Yes(n),
        Level::Wide(n) => LtAnswer::Wide(n),
        Level::Pairs(n) => LtAnswer::Pairs(n),
        Level::NoneTo(n) => LtAnswer::NoneTo(n),
    })
}
