//! Which of two items a minimum or a maximum takes.

ghost use Rattle.std.specs.Prelude.{◌≡◌, if◌then◌else◌, false, Some, None, Ok, IfOk, IfErr, OnOk, OnErr, option_map};
ghost use Rattle.item_tree.specs.Item.{datum, datums};
ghost use Rattle.value_rules.specs.Numbers.{unbound, kin_of, joined_kin, is_less, better, unless_mixed};
ghost use Rattle.value_rules.specs.Operands.{FailsWith};
ghost use Rattle.fn_numbers.specs.inside.Candidates.{kin_value, is_mixed, goes_before};

use crate::kinds::{Kin, is_mixed, joined_kin, kin_of};
use crate::results::one_item;
use item_tree::{Code, Item, NoMemory, OpFault, cmp_atoms};
use std::alloc::Global;
use std::cmp::Ordering;

/// Which item of a list is wanted.
#[derive(Clone, Copy, Debug)]
pub(crate) enum Extreme {
    Least,
    Greatest,
}

fn is_less(x: &Item, y: &Item) -> bool
    ensures { result ≡ is_less (datum x.now) (datum y.now) }
{
    matches!(cmp_atoms(x, y), Some(Ordering::Less))
}

fn goes_before(extreme: Extreme, x: &Item, y: &Item) -> bool
    ensures { result ≡ goes_before extreme (datum x.now) (datum y.now) }
{
    match extreme {
        Extreme::Least => is_less(x, y),
        Extreme::Greatest => is_less(y, x),
    }
}

/// The better one of what was found and a later item: the earlier one where neither goes before.
pub(crate) fn better<'a>(extreme: Extreme, found: Option<&'a Item>, item: &'a Item) -> &'a Item
    ensures { Some (datum result.now)
        ≡ better (goes_before extreme) (option_map (λ x. datum x.now) found.entry)
        (Some (datum item.now)) }
{
    match found {
        Some(x) if !goes_before(extreme, item, x) => x,
        _ => item,
    }
}

/// The kind of the items that were added, and the first of the best among them. Of such as do not
/// compare it means nothing which item is found.
#[derive(Debug, Drop)]
pub(crate) struct Candidate {
    kin: Kin,
    found: Option<Item>,
}

impl Candidate {
    /// Of no item.
    pub(crate) fn empty() -> Candidate
        ensures kin { kin_value result.kin ≡ unbound }
        ensures found { result.found ≡ None }
    {
        Candidate {
            kin: Kin::Unbound,
            found: None,
        }
    }

    /// Adds an item, of which it keeps a copy where none that was added is as good.
    pub(crate) fn add(&mut self, extreme: Extreme, item: &Item) -> Result<(), NoMemory>
        ensures kin { OnOk result (kin_value self.new.kin
            ≡ joined_kin (kin_value self.old.kin) (kin_of (datum item.now))) }
        ensures found { OnOk result (is_mixed (kin_value self.new.kin) ≡ false
            → option_map datum self.new.found
            ≡ better (goes_before extreme) (option_map datum self.old.found)
            (Some (datum item.now))) }
        ensures err { OnErr result (self.new ≡ self.old) }
    {
        let kin = joined_kin(self.kin, kin_of(item));
        if !is_mixed(kin) && is_improved(extreme, &self.found, item) {
            self.found = Some(item.copy()?);
        }
        self.kin = kin;
        Ok(())
    }

    /// Adds all that was added to a later one.
    pub(crate) fn merge(&mut self, extreme: Extreme, later: Candidate)
        ensures kin { kin_value self.new.kin
            ≡ joined_kin (kin_value self.old.kin) (kin_value later.kin) }
        ensures found { option_map datum self.new.found
            ≡ better (goes_before extreme) (option_map datum self.old.found)
            (option_map datum later.found) }
    {
        let Candidate { kin, found } = later;
        self.kin = joined_kin(self.kin, kin);
        if let Some(item) = found {
            if is_improved(extreme, &self.found, &item) {
                self.found = Some(item);
            }
        }
    }

    /// What was found, or the error that items do not compare.
    pub(crate) fn finish(self, alloc: Global) -> Result<Vec<Item>, OpFault>
        ensures value { IfOk result
            (λ xs. unless_mixed (kin_value self.kin) (option_map datum self.found)
            ≡ Ok (datums xs.items)) }
        ensures fault { IfErr result
            (FailsWith (unless_mixed (kin_value self.kin) (option_map datum self.found))) }
    {
        let Candidate { kin, found } = self;
        if is_mixed(kin) {
            return Err(OpFault::Raised(Code::FORG0006));
        }
        match found {
            None => Ok(Vec::new(alloc)),
            Some(item) => Ok(one_item(alloc, item)?),
        }
    }
}

fn is_improved(extreme: Extreme, found: &Option<Item>, item: &Item) -> bool
    ensures { better (goes_before extreme) (option_map datum found.now) (Some (datum item.now))
        ≡ (if result then Some (datum item.now) else option_map datum found.now) }
{
    match found {
        None => true,
        Some(x) => goes_before(extreme, item, x),
    }
}
