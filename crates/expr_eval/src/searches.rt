//! What is open of the search of a `some` or an `every`, as a list on the heap.

ghost use Rattle.std.specs.Prelude.{◌≡◌, ◌<◌, ◌^◌, length, ◌∷◌, Option, option_map, OnOk, Ok, slice_set};
ghost use Rattle.query_tree.specs.BoundViews.{bound_binds};
ghost use Rattle.query_meaning.specs.Checks.{typed};
ghost use Rattle.query_meaning.specs.Environment.{with_value};
ghost use Rattle.query_meaning.specs.inside.Gives.{Gives};
ghost use Rattle.query_meaning.specs.inside.Views.{items_of, tuple_of};
ghost use Rattle.item_tree.specs.Item.{datum};
ghost use Rattle.std.specs.Prelude.{[]};
ghost use Rattle.expr_eval.specs.Quantifiers.{slot_value, opening, first_value, behind_first, RaisesNone};
ghost use Rattle.expr_eval.specs.Searches.{open_of, innermost};

use clause_eval::{nothing, typed};
use item_tree::Item;
use query_meaning::{EvalFault, Value};
use query_tree::{Bind, BoundExpr, Slot, discard};
use seq_types::SeqType;
use std::alloc::Global;

pub(crate) type BoundBind = Bind<Slot, SeqType, BoundExpr>;

/// A binding that is open: its items are bound one after the other.
#[derive(Drop)]
pub(crate) struct Open<'b, 'a> {
    bind: &'b BoundBind,
    /// The bindings behind it.
    rest: &'b [BoundBind],
    /// What its slot had before it was opened.
    before: Value<'a>,
    items: Value<'a>,
    /// How many of the items were bound.
    taken: usize,
}

/// A search through the bindings of a quantifier.
#[derive(Drop)]
pub(crate) struct Search<'b, 'a> {
    /// The frame with what is bound.
    pub frame: Vec<Value<'a>>,
    /// The bindings that are open, the innermost last.
    pub bindings: Vec<Open<'b, 'a>>,
}

/// An item as the value of a variable, of whose type it is.
fn bound_item<'a>(bind: &BoundBind, x: &Item) -> Result<Value<'a>, EvalFault>
    ensures { Gives items_of result
        (typed bind.now.variable.place bind.now.of (datum x.now ∷ [])) }
{
    typed(bind.variable.place, &bind.of, Value::One(x.copy()?))
}

/// The value of a slot, once more.
fn slot_again<'a>(alloc: Global, frame: &[Value<'a>], slot: Slot) -> Result<Value<'a>, EvalFault>
    ensures { Gives items_of result (Ok (slot_value (tuple_of frame.now) slot)) }
{
    match slot {
        Slot::Local(n) => match frame.get(n as usize) {
            None => Ok(nothing()),
            Some(value) => value.again(alloc),
        },
        Slot::Global(_) => Ok(nothing()),
    }
}

/// Puts a value at a position of a list, if the list has it. It is generic, so that a check needs
/// no proof of its own for each kind of value that is dropped.
#[tactic(auto, using(clause_eval::proofs::Members::sets))]
fn put<T: Drop>(list: &mut Vec<T>, at: usize, value: T)
    ensures { list.new.items ≡ slice_set list.old.items at value }
{
    if at < list.len() {
        list[at] = value;
    }
}

/// Gives a slot of a frame this value.
#[tactic(auto, using(clause_eval::proofs::Members::sets))]
fn write<'a>(frame: &mut Vec<Value<'a>>, slot: Slot, value: Value<'a>)
    ensures { tuple_of frame.new.items
        ≡ with_value (tuple_of frame.old.items) slot (items_of value.entry) }
{
    match slot {
        Slot::Local(n) => put(frame, n as usize, value),
        Slot::Global(_) => {}
    }
}

impl<'b, 'a> Open<'b, 'a> {
    /// The next item as the value of the variable, if one is left. It is not left then.
    pub(crate) fn next_value(&mut self) -> Result<Option<Value<'a>>, EvalFault>
        ensures gives { Gives (option_map items_of) result (first_value (open_of self.old)) }
        ensures left { OnOk result (open_of self.new ≡ behind_first (open_of self.old)) }
    {
        let items = self.items.items();
        if self.taken >= items.len() {
            return Ok(None);
        }
        let value = bound_item(self.bind, &items[self.taken])?;
        self.taken += 1;
        Ok(Some(value))
    }

    /// The bindings behind it.
    pub(crate) fn rest(&self) -> &'b [BoundBind]
        ensures { bound_binds result.now ≡ (open_of self.now).behind }
    {
        self.rest
    }
}

impl<'b, 'a> Search<'b, 'a> {
    /// Opens a binding over these items.
    pub(crate) fn opens(
        &mut self,
        alloc: Global,
        bind: &'b BoundBind,
        rest: &'b [BoundBind],
        items: Value<'a>,
    ) -> Result<(), EvalFault>
        ensures bindings { OnOk result (innermost self.new.bindings.items ≡ opening
            bind.now.variable bind.now.of (bound_binds rest.now)
            (tuple_of self.old.frame.items) (items_of items.entry)
            ∷ innermost self.old.bindings.items) }
        ensures frame { OnOk result (self.new.frame.items ≡ self.old.frame.items) }
        ensures count { OnOk result (length (items_of items.entry) < 2 ^ 64) }
        ensures fails { RaisesNone result }
    {
        // No list has 2^64 items, so the search ends.
        let _count = items.items().len();
        let before = slot_again(alloc, &self.frame, bind.variable.name)?;
        self.bindings.push(Open {
            bind,
            rest,
            before,
            items,
            taken: 0,
        })?;
        Ok(())
    }

    /// Closes a binding that has no items left: its slot has again what it had before.
    pub(crate) fn closes(&mut self, binding: Open<'b, 'a>)
        ensures bindings { self.new.bindings.items ≡ self.old.bindings.items }
        ensures frame { tuple_of self.new.frame.items ≡ with_value (tuple_of self.old.frame.items)
            (open_of binding.entry).variable.name (open_of binding.entry).before }
    {
        let Open {
            bind,
            rest: _,
            before,
            items,
            taken: _,
        } = binding;
        discard(items);
        write(&mut self.frame, bind.variable.name, before);
    }

    /// Binds a value to the variable of a binding, which stays open.
    pub(crate) fn binds(&mut self, binding: Open<'b, 'a>, value: Value<'a>) -> Result<(), EvalFault>
        ensures bindings { OnOk result
            (innermost self.new.bindings.items
            ≡ open_of binding.entry ∷ innermost self.old.bindings.items) }
        ensures frame { OnOk result (tuple_of self.new.frame.items
            ≡ with_value (tuple_of self.old.frame.items) (open_of binding.entry).variable.name
            (items_of value.entry)) }
        ensures fails { RaisesNone result }
    {
        let slot = binding.bind.variable.name;
        self.bindings.push(binding)?;
        write(&mut self.frame, slot, value);
        Ok(())
    }
}
