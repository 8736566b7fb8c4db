//! For each name the places where it is bound, the latest last.

ghost use Rattle.std.specs.Prelude.{◌≡◌, ◌<◌, ◌≤◌, ◌++◌, ◌∷◌, [], ℕ, List, cond, length, OnOk, OnErr};
ghost use Rattle.std.specs.List.Sorted.{IsNonDecreasingBy, IsPartitionPoint};
ghost use Rattle.std.specs.Str.{bytes_eq};
ghost use Rattle.name_scopes.specs.inside.Stacks.{stack_at, without_last};
ghost use Rattle.name_scopes.specs.declared.stacks.Place.{Place};

use item_tree::NoMemory;
use std::alloc::Global;
use std::collections::BTreeMap;

/// A value, and how many names were bound before its own.
#[derive(Clone, Copy)]
pub(crate) struct Place<V> {
    pub at: usize,
    pub value: V,
}

/// One more place of a name, after its others. Where memory is short, all stays.
pub(crate) fn note<'q, V: Copy>(
    alloc: Global,
    stacks: &mut BTreeMap<&'q str, Vec<Place<V>>>,
    name: &'q str,
    place: Place<V>,
) -> Result<(), NoMemory>
    ensures ok { OnOk result ((q : List ℕ) → stack_at stacks.new q
        ≡ cond (bytes_eq name.now q) (stack_at stacks.old q ++ place ∷ [])
        (stack_at stacks.old q)) }
    ensures err { OnErr result ((q : List ℕ) → stack_at stacks.new q ≡ stack_at stacks.old q) }
{
    match stacks.get_mut(name) {
        Some(stack) => stack.push(place)?,
        None => {
            let mut stack = Vec::new(alloc);
            stack.push(place)?;
            stacks.insert(name, stack)?;
        }
    }
    Ok(())
}

/// Lets the last place of a name go.
pub(crate) fn forget<'q, V: Copy>(stacks: &mut BTreeMap<&'q str, Vec<Place<V>>>, name: &'q str)
    ensures { (q : List ℕ) → stack_at stacks.new q
        ≡ cond (bytes_eq name.now q) (without_last (stack_at stacks.old q))
        (stack_at stacks.old q) }
{
    if let Some(stack) = stacks.get_mut(name) {
        stack.pop();
    }
}

/// The places of a name.
pub(crate) fn stack_of<'a, 'q, V: Copy>(
    stacks: &'a BTreeMap<&'q str, Vec<Place<V>>>,
    name: &str,
) -> &'a [Place<V>]
    ensures { result.now ≡ stack_at stacks.now name.now }
{
    match stacks.get(name) {
        Some(stack) => stack.as_slice(),
        None => &[],
    }
}

/// How many of these places are among the first `mark` names.
pub(crate) fn count_before<V: Copy>(stack: &[Place<V>], mark: usize) -> usize
    requires { IsNonDecreasingBy (λ (p : Place V). p.at) stack.now }
    ensures bound { result ≤ length stack.now }
    ensures split { IsPartitionPoint (λ (p : Place V). p.at < mark) (λ (p : Place V). mark ≤ p.at)
        stack.now result }
{
    stack.partition_point(|p| p.at < mark)
}
