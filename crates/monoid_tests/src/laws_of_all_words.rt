//! The laws of the theories below, at one type: each is called once.
use cayley_tables::laws as cayley_tables_laws;
use green_relations::laws as green_relations_laws;
use language_theory::language::{Language, Property, Relation};
use language_theory::{equivalences, minimal_automata, reduced_words, shortlex_graphs, words};
use monoid_theory::{green, powers, presentation, products, separation};
use std::test::Fail;
use syntactic_monoid::laws as syntactic_monoid_laws;

/// All words as a language, and all of them related.
struct AllWords;

impl Language for AllWords {
    ghost has = { λ _. Unit {0} };
}

impl Relation for AllWords {
    ghost same = { λ _ _. Unit {0} };
}

impl Property for AllWords {
    ghost holds = { λ _. Unit {0} };
}

/// The laws of `language_theory::equivalences`.
fn equivalences_hold() {
    equivalences::nerode_is_the_coarsest_right_congruence::<AllWords, AllWords>();
    equivalences::syntactic_is_the_coarsest_congruence::<AllWords, AllWords>();
    equivalences::syntactic_is_nerode_behind_words::<AllWords>();
    equivalences::agreeing_languages_have_one_congruence::<AllWords, AllWords>();
    equivalences::agreement_is_an_equivalence::<AllWords, AllWords, AllWords>();
}

/// The laws of `language_theory::minimal_automata`.
fn minimal_automata_hold() {
    minimal_automata::coarsest_quotient_is_minimal::<AllWords>();
    minimal_automata::one_minimal_automaton::<AllWords, AllWords>();
    minimal_automata::minimal_nodes_tell_words_apart::<AllWords>();
    minimal_automata::minimal_automata_accept_their_languages::<AllWords>();
}

/// The laws of `language_theory::reduced_words`.
fn reduced_words_hold() {
    reduced_words::one_list_of_representatives::<AllWords>();
    reduced_words::agreeing_relations_have_one_list::<AllWords, AllWords>();
    reduced_words::listed_words_are_the_reduced::<AllWords>();
    reduced_words::parts_of_reduced_words_are_reduced::<AllWords>();
    reduced_words::representatives_count_the_classes::<AllWords>();
    reduced_words::representatives_decide_the_relation::<AllWords>();
    reduced_words::links_are_unique::<AllWords>();
}

/// The laws of `language_theory::shortlex_graphs`.
fn shortlex_graphs_hold() {
    shortlex_graphs::one_shortlex_graph::<AllWords, AllWords>();
    shortlex_graphs::first_node_has_the_least_word::<AllWords>();
}

/// The laws of `language_theory::words`.
fn words_hold() {
    words::shortlex_allows_induction::<AllWords>();
}

/// The laws of `monoid_theory::green`.
fn green_hold() {
    green::greens_relations_are_equivalences::<AllWords>();
    green::r_and_l_are_in_j::<AllWords>();
    green::r_and_l_are_kept_by_products::<AllWords>();
    green::j_is_d_in_a_finite_monoid::<AllWords>();
    green::trivial_on_both_sides::<AllWords>();
    green::listed_words_tell_trivial_monoids::<AllWords>();
    green::greens_lemma::<AllWords>();
    green::cells_of_one_box_have_one_size::<AllWords>();
    green::ideals_are_walks::<AllWords>();
    green::agreeing_relations_have_the_same_ideals::<AllWords, AllWords>();
}

/// The laws of `monoid_theory::powers`.
fn powers_hold() {
    powers::index_and_period_are_unique::<AllWords>();
    powers::powers_repeat_with_the_period::<AllWords>();
    powers::powers_become_idempotent::<AllWords>();
    powers::related_words_have_the_same_powers::<AllWords>();
    powers::a_finite_monoid_is_aperiodic_or_loops::<AllWords>();
    powers::loops_never_settle::<AllWords>();
    powers::separated_powers_never_settle::<AllWords>();
    powers::aperiodic_powers_settle::<AllWords>();
    powers::agreeing_relations_have_the_same_powers::<AllWords, AllWords>();
}

/// The laws of `monoid_theory::presentation`.
fn presentation_hold() {
    presentation::rules_are_unique::<AllWords>();
    presentation::rules_by_places::<AllWords>();
    presentation::unreduced_words_have_a_rule::<AllWords>();
    presentation::replacements_make_words_smaller::<AllWords>();
    presentation::rules_present_the_monoid::<AllWords>();
    presentation::agreeing_relations_have_the_same_rules::<AllWords, AllWords>();
}

/// The laws of `monoid_theory::products`.
fn products_hold() {
    products::products_are_unique::<AllWords>();
    products::products_form_a_monoid::<AllWords>();
    products::letters_act_on_places::<AllWords>();
    products::walks_are_products::<AllWords>();
}

/// The laws of `monoid_theory::separation`.
fn separation_hold() {
    separation::separating_contexts_are_unique::<AllWords>();
    separation::words_are_congruent_or_separated::<AllWords>();
    separation::separating_contexts_by_nodes::<AllWords>();
}

/// The laws of `cayley_tables`.
fn cayley_tables_hold() {
    cayley_tables_laws::agreeing_relations_have_the_graphs::<AllWords>();
    cayley_tables_laws::graphs_of_a_congruence_lead_to_its_classes::<AllWords>();
    cayley_tables_laws::one_pair_of_graphs::<AllWords>();
}

/// The laws of `green_relations`.
fn green_relations_hold() {
    green_relations_laws::boxes_of_greens_classes_are_egg_boxes::<AllWords>();
    green_relations_laws::one_egg_box_diagram::<AllWords>();
    green_relations_laws::cells_of_a_box_have_one_size::<AllWords>();
    green_relations_laws::one_list_of_idempotents::<AllWords>();
    green_relations_laws::agreeing_relations_have_the_same_classes::<AllWords, AllWords>();
}

/// The laws of `syntactic_monoid`.
fn syntactic_monoid_hold() {
    syntactic_monoid_laws::one_syntactic_monoid::<AllWords>();
    syntactic_monoid_laws::languages_with_the_same_words_have_one_monoid::<AllWords, AllWords>();
}

#[test]
fn the_laws_of_monoids_hold(_rt: HostRuntime) -> Result<(), Fail> {
    equivalences_hold();
    minimal_automata_hold();
    reduced_words_hold();
    shortlex_graphs_hold();
    words_hold();
    green_hold();
    powers_hold();
    presentation_hold();
    products_hold();
    separation_hold();
    cayley_tables_hold();
    green_relations_hold();
    syntactic_monoid_hold();
    Ok(())
}
