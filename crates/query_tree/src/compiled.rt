//! Compiled queries.

ghost use Rattle.std.specs.Prelude.{◌≡◌, true};
ghost use Rattle.query_tree.specs.Compiled.{bound_trees, is_compiled, IsFramed};

use crate::BoundModule;
use std::marker::Model;

/// A compiled query in which all that is used is there:
///
/// - each slot is bound before it is read, and each target is there and takes so many arguments;
/// - a type of a cast is `string`, `integer`, `decimal`, `boolean` or `null`, at most one of them;
/// - each `$$` stands in a predicate or to the right of `!`;
/// - a declared variable reads only the variables before it, and calls no declared function;
/// - in each declaration, and in the body, each binding has a number of its own;
/// - every number of a local slot is below the width, which is that of each frame.
#[derive(Drop)]
pub struct Compiled {
    tree: BoundModule,
    width: usize,
}

impl Model for Compiled {
    ghost use Rattle.std.specs.Prelude.{◌≡◌, true};
    ghost use Rattle.query_tree.specs.Compiled.{CompiledTree, is_compiled, bound_trees};
    ghost use Rattle.query_tree.specs.contracts.expr.Expr as expr;
    ghost use Rattle.query_tree.specs.contracts.bound.Slot as slot;
    ghost use Rattle.query_tree.specs.contracts.bound.Target as target;
    ghost use Rattle.seq_types.specs.contracts.types.SeqType as types;
    ghost use Rattle.std.specs.Coded.{codes};

    ghost Value = { CompiledTree };

    ghost coded = { Prim.hlevel
        (codes, (expr.the_row slot.the_row target.the_row types.the_row).coded) };

    ghost view = { λ c. record { tree = c.tree; width = c.width } };

    ghost invariant = { λ c. is_compiled c.width (bound_trees c.tree) ≡ true };
}

impl Compiled {
    /// A compiled query of this tree, which passes the test for frames of this width.
    pub fn new(tree: BoundModule, width: usize) -> Compiled
        requires { is_compiled width (bound_trees tree) ≡ true }
        ensures { result ≡ record { tree = tree; width = width } }
    {
        Compiled { tree, width }
    }

    /// The tree. It passes the test, and it is bound over frames of the width, in which every slot
    /// may be read and written.
    pub fn module(&self) -> &BoundModule
        ensures tree { result.now ≡ self.now.tree }
        ensures compiled { is_compiled self.now.width (bound_trees self.now.tree) ≡ true }
        ensures framed { IsFramed self.now.width (bound_trees self.now.tree) }
    {
        &self.tree
    }

    /// How many slots a frame has.
    pub fn width(&self) -> usize
        ensures { result ≡ self.now.width }
    {
        self.width
    }
}
