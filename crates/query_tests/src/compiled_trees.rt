//! Compiled queries, which threads may share, and the laws on trees.

use query_grammar::laws as grammar;
use query_lexer::tokens;
use query_parser::parse;
use query_tree::discard;
use static_rules::compile;
use std::alloc::Global;
use std::test::Fail;

fn is_shared<T: Sync>(_value: &T) -> bool {
    true
}

/// Whether the text is a query whose compiled form may be shared.
fn shares(alloc: Global, text: &str) -> Result<bool, Fail> {
    let Ok(found) = tokens(alloc, text) else {
        return Ok(false);
    };
    let Ok(query) = parse(alloc, text, &found) else {
        return Ok(false);
    };
    let compiled = compile(alloc, &query);
    discard(query);
    match compiled {
        Ok(compiled) => {
            let shared = is_shared(&compiled);
            discard(compiled);
            Ok(shared)
        }
        Err(_) => Ok(false),
    }
}

#[test]
fn shares_a_compiled_tree(rt: HostRuntime) -> Result<(), Fail> {
    let shared = shares(rt.alloc(), "for $x in 1 to 3 return {\"n\" : $x}")?;
    assert!(rt; shared);
    Ok(())
}

#[test]
fn has_laws() {
    grammar::one_tree();
    grammar::tree_or_refusal();
    grammar::one_reading();
    grammar::nesting_is_bounded();
    grammar::commas_stand_apart();
}
