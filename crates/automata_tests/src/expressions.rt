//! Texts whose answers are known from outside, and small position automata.
ghost use Rattle.std.specs.Prelude.{◌≤◌, length};

use automata::Nfa;
use regex_reader::{Expr, ExprFault, positions, read_expr};
use std::alloc::Global;
use syn_words::{Alphabet, Memory};

/// The alphabet of a and b.
fn ab(alloc: Global) -> Result<Alphabet, Memory> {
    Alphabet::from_text(alloc, b"ab").map_err(|_| Memory)
}

/// The number of nodes of an expression.
fn nodes(expr: &Expr) -> u32 {
    let parts = match expr {
        Expr::Zero | Expr::One | Expr::Letter(_) => 0,
        Expr::Or(left, right) | Expr::Cat(left, right) => nodes(left).wrapping_add(nodes(right)),
        Expr::Star(inner) | Expr::Plus(inner) | Expr::Opt(inner) => nodes(inner),
    };
    parts.wrapping_add(1)
}

/// The number of nodes that a text over a and b spells, or its fault.
fn count_nodes(alloc: Global, text: &[u8]) -> Result<u32, ExprFault> {
    let expr = read_expr(alloc, text, &ab(alloc)?)?;
    Ok(nodes(&expr))
}

/// Whether an automaton over a and b has these steps and no others.
fn has_only(nfa: &Nfa, steps: &[(u32, u8, u32)]) -> bool {
    for from in 0..nfa.states() {
        for letter in 0..2 {
            for to in 0..nfa.states() {
                if nfa.has_step(from, letter, to) != steps.contains(&(from, letter, to)) {
                    return false;
                }
            }
        }
    }
    true
}

/// The position automaton of a text over a and b.
fn automaton(alloc: Global, text: &[u8]) -> Result<Nfa, ExprFault> {
    let alphabet = ab(alloc)?;
    let expr = read_expr(alloc, text, &alphabet)?;
    Ok(positions(alloc, &expr, alphabet.len())?)
}

#[test]
fn refuses_texts(rt: HostRuntime) {
    let alloc = rt.alloc();
    for (text, at) in [
        ("", 0u64),
        ("*a", 0),
        ("a|", 2),
        ("(a", 2),
        ("()", 1),
        ("a)", 1),
        ("A", 0),
        ("a b ++ | ) c", 9),
    ] {
        let fault = count_nodes(alloc, text.as_bytes());
        assert!(rt;
            matches!(fault, Err(ExprFault::Unexpected { at: place }) if place == at),
            "at {text}"
        );
    }
    let fault = count_nodes(alloc, b"(ac)*");
    assert!(rt; matches!(fault, Err(ExprFault::UnknownLetter { at: 2 })));
}

#[test]
fn counts_nodes(rt: HostRuntime) -> Result<(), ExprFault> {
    let alloc = rt.alloc();
    for (text, nodes) in [
        ("a**", 3u32),
        ("a b", 3),
        ("(a|b)*\t", 4),
        ("a+b?|0", 7),
        ("1", 1),
    ] {
        assert_eq!(rt; count_nodes(alloc, text.as_bytes())?, nodes, "at {text}");
    }
    Ok(())
}

/// As many open parentheses as `depth`, a letter, and as many closed ones.
fn nested(alloc: Global, depth: u32) -> Result<Vec<u8>, Memory> {
    let mut text = Vec::new(alloc);
    for _ in 0..depth {
        text.push(b'(')?;
    }
    text.push(b'a')?;
    for _ in 0..depth {
        text.push(b')')?;
    }
    Ok(text)
}

/// A letter, and as many of one byte behind it.
fn followed(alloc: Global, by: u8, count: u32) -> Result<Vec<u8>, Memory> {
    let mut text = Vec::new(alloc);
    text.push(b'a')?;
    for _ in 0..count {
        text.push(by)?;
    }
    Ok(text)
}

#[test]
fn keeps_the_limit_of_nodes(rt: HostRuntime) -> Result<(), ExprFault> {
    let alloc = rt.alloc();
    let letters = followed(alloc, b'a', 1999)?;
    assert_eq!(rt; count_nodes(alloc, letters.as_slice())?, 3999);
    let letters = followed(alloc, b'a', 2000)?;
    let fault = count_nodes(alloc, letters.as_slice());
    assert!(rt; matches!(fault, Err(ExprFault::TooLarge { at: 2000 })));
    let stars = followed(alloc, b'*', 3999)?;
    assert_eq!(rt; count_nodes(alloc, stars.as_slice())?, 4000);
    Ok(())
}

#[test]
fn keeps_the_limit_of_depth(rt: HostRuntime) -> Result<(), ExprFault> {
    let alloc = rt.alloc();
    let deep = nested(alloc, 200)?;
    assert_eq!(rt; count_nodes(alloc, deep.as_slice())?, 1);
    let deeper = nested(alloc, 201)?;
    let fault = count_nodes(alloc, deeper.as_slice());
    assert!(rt; matches!(fault, Err(ExprFault::TooDeep { at: 200 })));
    Ok(())
}

#[test]
fn ab_star(rt: HostRuntime) -> Result<(), ExprFault> {
    let nfa = automaton(rt.alloc(), b"(ab)*")?;
    assert_eq!(rt; nfa.states(), 3);
    assert!(rt; has_only(&nfa, &[(0, 0, 1), (1, 1, 2), (2, 0, 1)]));
    Ok(())
}

#[test]
fn dead_position(rt: HostRuntime) -> Result<(), ExprFault> {
    let nfa = automaton(rt.alloc(), b"a0|b")?;
    assert_eq!(rt; nfa.states(), 3);
    assert!(rt; has_only(&nfa, &[(0, 1, 2)]));
    Ok(())
}
