//! Names that are bound, and declared functions, and what is found of them.

use item_tree::Str;
use name_scopes::{Functions, Scope};
use std::alloc::Global;
use std::test::Fail;

/// Stands for no position.
const NONE: usize = 9;

// A name for each letter.
fn names(alloc: Global, letters: &str) -> Result<Vec<Str>, Fail> {
    let mut names = Vec::new(alloc);
    for letter in letters.chars() {
        names.push(name(alloc, letter)?)?;
    }
    Ok(names)
}

// It is long, so that it is kept in a block of its own.
fn name(alloc: Global, letter: char) -> Result<Str, Fail> {
    let text = format!(in alloc; "a-name-that-is-long-{letter}")?;
    Ok(Str::of(alloc, text.as_str())?)
}

// Each letter is bound to its position, and all but so many are unbound again. Then what a name
// stands for, what it stands for among the first `mark`, whether it is bound there after the first
// `base`, and how many names are bound.
fn found(
    alloc: Global,
    letters: &str,
    depth: usize,
    letter: char,
    base: usize,
    mark: usize,
) -> Result<String, Fail> {
    let names = names(alloc, letters)?;
    let name = name(alloc, letter)?;
    let mut scope = Scope::new(alloc);
    for name in &names {
        let at = scope.len();
        scope.push(name, at)?;
    }
    scope.truncate(depth);
    let latest = scope.latest(&name).unwrap_or(NONE);
    let below = scope.latest_below(&name, mark).unwrap_or(NONE);
    let between = scope.is_between(&name, base, mark);
    let len = scope.len();
    Ok(format!(in alloc; "{latest} {below} {between} {len}")?)
}

#[test]
fn finds_names(rt: HostRuntime) -> Result<(), Fail> {
    let alloc = rt.alloc();
    let rows = [
        ("", 0, 'a', 0, 0, "9 9 false 0"),
        ("a", 1, 'a', 0, 1, "0 0 true 1"),
        ("a", 1, 'a', 1, 1, "0 0 false 1"),
        ("a", 1, 'a', 0, 0, "0 9 false 1"),
        ("a", 1, 'b', 0, 1, "9 9 false 1"),
        ("abab", 4, 'a', 1, 3, "2 2 true 4"),
        ("abab", 4, 'a', 1, 2, "2 0 false 4"),
        ("abab", 4, 'b', 2, 4, "3 3 true 4"),
        ("abab", 4, 'b', 2, 8, "3 3 true 4"),
        ("abab", 2, 'a', 0, 4, "0 0 true 2"),
        ("abab", 1, 'b', 0, 4, "9 9 false 1"),
        ("abab", 0, 'a', 0, 4, "9 9 false 0"),
        ("abab", 6, 'a', 0, 4, "2 2 true 4"),
        ("aaaa", 4, 'a', 2, 3, "3 2 true 4"),
        ("aaaa", 3, 'a', 3, 2, "2 1 false 3"),
    ];
    for (letters, depth, letter, base, mark, want) in rows {
        assert_eq!(rt;
            found(alloc, letters, depth, letter, base, mark)?.as_str(),
            want,
            "{letter} in {letters} down to {depth}, from {base} to {mark}"
        );
    }
    Ok(())
}

// A function for each letter, which takes as many arguments as the digit says that stands with it.
// Then the position of a function, whether it is among the first so many, and how many there are,
// once before all are cleared and once after.
fn declared(
    alloc: Global,
    letters: &str,
    arities: &[usize],
    letter: char,
    arity: usize,
    count: usize,
) -> Result<String, Fail> {
    let names = names(alloc, letters)?;
    let name = name(alloc, letter)?;
    let mut functions = Functions::new(alloc);
    for (name, arity) in names.iter().zip(arities) {
        functions.push(name, *arity)?;
    }
    let at = functions.position(&name, arity).unwrap_or(NONE);
    let early = functions.is_among_first(count, &name, arity);
    let len = functions.len();
    functions.clear();
    let cleared = functions.position(&name, arity).unwrap_or(NONE);
    let none = functions.len();
    Ok(format!(in alloc; "{at} {early} {len}, {cleared} {none}")?)
}

#[test]
fn finds_functions(rt: HostRuntime) -> Result<(), Fail> {
    let alloc = rt.alloc();
    let rows = [
        ("", 'a', 0, 0, "9 false 0, 9 0"),
        ("abaaba", 'a', 0, 1, "0 true 6, 9 0"),
        ("abaaba", 'a', 0, 0, "0 false 6, 9 0"),
        ("abaaba", 'a', 1, 3, "2 true 6, 9 0"),
        ("abaaba", 'a', 1, 2, "2 false 6, 9 0"),
        ("abaaba", 'a', 2, 6, "5 true 6, 9 0"),
        ("abaaba", 'a', 3, 6, "9 false 6, 9 0"),
        ("abaaba", 'b', 0, 6, "1 true 6, 9 0"),
        ("abaaba", 'b', 1, 4, "4 false 6, 9 0"),
        ("abaaba", 'c', 0, 6, "9 false 6, 9 0"),
    ];
    for (letters, letter, arity, count, want) in rows {
        assert_eq!(rt;
            declared(alloc, letters, &[0, 0, 1, 0, 1, 2], letter, arity, count)?.as_str(),
            want,
            "{letter} of {arity} in {letters}, {count}"
        );
    }
    Ok(())
}
