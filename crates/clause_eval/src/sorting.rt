//! Tuples in the order of their keys.

ghost use Rattle.std.specs.Prelude.{◌≡◌, Ok};
ghost use Rattle.query_tree.specs.BoundViews.{bound_order_keys};
ghost use Rattle.order_runs.specs.Orders.{sorted, rows};
ghost use Rattle.query_meaning.specs.Orders.{columns_of};
ghost use Rattle.query_meaning.specs.inside.Gives.{Gives};
ghost use Rattle.clause_eval.specs.Frames.{tuples_of, keyed_list, entries_of};

use crate::tuples::Frame;
use item_tree::Item;
use order_runs::{Column, sort_keyed};
use query_meaning::EvalFault;
use query_tree::{BoundExpr, OrderKey};
use std::alloc::Global;

// The columns of an order.
fn columns_of(alloc: Global, keys: &[OrderKey<BoundExpr>]) -> Result<Vec<Column>, EvalFault>
    ensures { Gives (λ v. v.items) result (Ok (columns_of (bound_order_keys keys.now))) }
{
    let mut columns = Vec::with_capacity(alloc, keys.len())?;
    for key in keys {
        let descending = key.descending;
        let empty_greatest = key.empty_greatest;
        columns.push(Column {
            descending,
            empty_greatest,
        })?;
    }
    Ok(columns)
}

// The tuples by the columns of their keys, with ties in place.
fn sorted_entries<'a>(
    columns: &[Column],
    entries: Vec<(Vec<Option<Item>>, Frame<'a>)>,
) -> Result<Vec<(Vec<Option<Item>>, Frame<'a>)>, EvalFault>
    ensures { Gives (λ v. keyed_list v.items) result
        (Ok (sorted columns.now (keyed_list entries.entry.items))) }
{
    Ok(sort_keyed(columns, entries)?)
}

// The tuples without their keys.
fn frames_of<'a>(
    alloc: Global,
    entries: Vec<(Vec<Option<Item>>, Frame<'a>)>,
) -> Result<Vec<Frame<'a>>, EvalFault>
    ensures { Gives tuples_of result (Ok (rows (keyed_list entries.entry.items))) }
{
    let mut frames = Vec::with_capacity(alloc, entries.len())?;
    for entry in entries {
        let (_, frame) = entry;
        frames.push(frame)?;
    }
    Ok(frames)
}

/// The tuples in the order of their keys, with ties in place.
pub fn ordered_rows<'a>(
    alloc: Global,
    keys: &[OrderKey<BoundExpr>],
    entries: Vec<(Vec<Option<Item>>, Frame<'a>)>,
) -> Result<Vec<Frame<'a>>, EvalFault>
    ensures { Gives tuples_of result (Ok (rows
        (sorted (columns_of (bound_order_keys keys.now)) (entries_of entries.entry)))) }
{
    let columns = columns_of(alloc, keys)?;
    let entries = sorted_entries(columns.as_slice(), entries)?;
    frames_of(alloc, entries)
}
