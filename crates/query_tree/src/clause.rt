//! The clauses of a FLWOR.

use crate::{Expr, Placed};

/// A clause of a FLWOR expression. There is a clause of its own for each variable of a `for` or a
/// `let`. The place of the others is that of their first keyword.
#[cycle(ast)]
#[derive(Drop)]
pub enum Clause<V, F, T> {
    /// `for $x as t allowing empty at $i in e`
    For {
        variable: Placed<V>,
        of: Option<Placed<T>>,
        allowing_empty: bool,
        at: Option<Placed<V>>,
        source: Expr<V, F, T>,
    },
    /// `let $x as t := e`
    Let {
        variable: Placed<V>,
        of: Option<Placed<T>>,
        value: Expr<V, F, T>,
    },
    /// `where e`
    Where {
        place: u32,
        test: Expr<V, F, T>,
    },
    /// `group by $k := e`
    Group {
        place: u32,
        keys: Vec<GroupVar<V, Expr<V, F, T>>>,
    },
    /// `stable order by e descending empty greatest`
    Order {
        place: u32,
        stable: bool,
        keys: Vec<OrderKey<Expr<V, F, T>>>,
    },
    /// `count $c`
    Count {
        place: u32,
        variable: Placed<V>,
    },
}

/// A key of a grouping.
#[derive(Drop)]
pub enum GroupVar<V, E> {
    /// `$k`: a variable of the stream.
    Stream { variable: Placed<V> },
    /// `$k := e`
    Computed { variable: Placed<V>, value: E },
}

/// A key of an order.
#[derive(Drop)]
pub struct OrderKey<E> {
    pub value: E,
    pub descending: bool,
    pub empty_greatest: bool,
}
