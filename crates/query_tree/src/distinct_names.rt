//! Different names, gathered in order of first appearance.

ghost use Rattle.std.specs.Prelude.{◌≡◌, [], ℕ, List, IfOk};
ghost use Rattle.std.specs.Ordering.{nat_cmp};
ghost use Rattle.std.specs.Cmp.Lexicographic.{slice_cmp};
ghost use Rattle.std.specs.List.{list_any};
ghost use Rattle.std.specs.Str.{bytes_eq};
ghost use Rattle.std.specs.BTreeSet.{contains};
ghost use Rattle.query_tree.specs.inside.Told.{with_name, with_names};

use item_tree::{NoMemory, Str};
use std::alloc::Global;
use std::collections::BTreeSet;

/// Different names, in order of first appearance.
#[derive(Drop)]
pub struct DistinctNames {
    /// The names.
    pub found: Vec<Str>,
    seen: BTreeSet<Str>,
    ghost same: { (q : List ℕ)
        → contains (slice_cmp nat_cmp) seen q ≡ list_any (λ n. bytes_eq n q) found.items },
}

impl DistinctNames {
    /// None yet.
    pub fn new(alloc: Global) -> DistinctNames
        ensures { result.found.items ≡ [] }
    {
        DistinctNames {
            found: Vec::new(alloc),
            seen: BTreeSet::new(alloc),
        }
    }

    // These names, and this one where it is new.
    fn with(self, name: &Str) -> Result<DistinctNames, NoMemory>
        ensures { IfOk result (λ n. n.found.items ≡ with_name self.found.items name.now) }
    {
        if self.seen.contains(name) {
            return Ok(self);
        }
        let DistinctNames {
            mut found,
            mut seen,
        } = self;
        found.push(name.copy()?)?;
        seen.insert(name.copy()?)?;
        Ok(DistinctNames { found, seen })
    }

    /// With these names, each where it is new.
    ///
    /// # Errors
    ///
    /// `NoMemory` where memory runs out.
    pub fn with_all(self, names: &[Str]) -> Result<DistinctNames, NoMemory>
        ensures { IfOk result (λ n. n.found.items ≡ with_names self.found.items names.now) }
    {
        let mut all = self;
        for name in names {
            all = all.with(name)?;
        }
        Ok(all)
    }

    /// The names as a list.
    pub fn into_list(self) -> Vec<Str>
        ensures { result.items ≡ self.found.items }
    {
        let DistinctNames { found, seen: _ } = self;
        found
    }
}
