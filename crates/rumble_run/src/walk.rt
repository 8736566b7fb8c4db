//! With what the body of a query is run along its plan.

ghost use Rattle.std.specs.Prelude.{◌<◌};

use item_tree::Item;
use query_meaning::{Library, Value};
use query_tree::Compiled;
use std::alloc::Global;

/// With what the body of a query is run along its plan.
#[derive(Drop)]
pub struct Walk<'a, 'r, R, G> {
    pub rt: &'r R,
    pub gate: &'r G,
    pub alloc: Global,
    pub query: &'a Compiled,
    pub library: &'a Library,
    pub globals: &'a [Vec<Item>],
    pub frame: &'a [Value<'a>],
    pub workers: u32,
    pub size: u64,
    ghost some_workers: { 0 < workers },
    ghost some_bytes: { 0 < size },
}
