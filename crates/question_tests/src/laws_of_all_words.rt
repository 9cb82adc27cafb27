//! The laws of the questions, at one type: each is called once.
use crate::one_key::OneKey;
use language_theory::language::{Language, Relation};
use level_search::laws as level_search_laws;
use locally_testable::laws as locally_testable_laws;
use piecewise_testable::laws as piecewise_testable_laws;
use star_free::laws as star_free_laws;
use star_free_theory::{construction, lists};
use std::test::Fail;

/// All words as a language, and all of them related.
struct AllWords;

impl Language for AllWords {
    ghost has = { λ _. Unit {0} };
}

impl Relation for AllWords {
    ghost same = { λ _ _. Unit {0} };
}

/// The laws of `star_free_theory::construction`.
fn construction_hold() {
    construction::aperiodic_congruences_have_algebras::<AllWords>();
}

/// The laws of `star_free_theory::lists`.
fn lists_hold() {
    lists::a_language_that_never_settles_is_not_star_free::<AllWords>();
}

/// The laws of `star_free`.
fn star_free_hold() {
    star_free_laws::one_answer_on_powers::<AllWords>();
    star_free_laws::the_answer_is_unique::<AllWords>();
    star_free_laws::languages_with_the_same_words_have_one_answer::<AllWords, AllWords>();
}

/// The laws of `piecewise_testable`.
fn piecewise_testable_hold() {
    piecewise_testable_laws::a_witness_is_told_apart_at_every_level::<AllWords>();
    piecewise_testable_laws::yes_is_the_least_level_that_suffices::<AllWords>();
    piecewise_testable_laws::letters_tell_commutative_monoids::<AllWords, AllWords>();
    piecewise_testable_laws::a_language_has_one_answer::<AllWords>();
    piecewise_testable_laws::languages_with_the_same_words_have_one_answer::<AllWords, AllWords>();
    piecewise_testable_laws::the_minimal_automaton_fits_the_monoid::<AllWords>();
}

/// The laws of `locally_testable`.
fn locally_testable_hold() {
    locally_testable_laws::a_repeat_is_told_apart_at_every_level::<AllWords>();
    locally_testable_laws::a_swap_is_told_apart_at_every_level::<AllWords>();
    locally_testable_laws::a_witness_is_told_apart_at_every_level::<AllWords>();
    locally_testable_laws::a_level_makes_local_submonoids_semilattices::<AllWords>();
    locally_testable_laws::the_answer_is_unique::<AllWords>();
    locally_testable_laws::languages_with_the_same_words_have_one_answer::<AllWords, AllWords>();
}

/// The laws of `level_search`.
fn level_search_hold() {
    level_search_laws::the_answer_is_unique::<AllWords, OneKey>();
    level_search_laws::yes_is_the_least_level_that_suffices::<AllWords, OneKey>();
    level_search_laws::languages_with_the_same_words_have_one_answer::<
        AllWords,
        AllWords,
        OneKey,
    >();
}

#[test]
fn the_laws_of_questions_hold(_rt: HostRuntime) -> Result<(), Fail> {
    construction_hold();
    lists_hold();
    star_free_hold();
    piecewise_testable_hold();
    locally_testable_hold();
    level_search_hold();
    Ok(())
}
