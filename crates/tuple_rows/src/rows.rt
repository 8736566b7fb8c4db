//! Tables of tuples of one width.

ghost use Rattle.std.specs.Prelude.{◌≡◌, ◌<◌, IfOk, map};
ghost use Rattle.tuple_rows.specs.Tuples.{AllOfWidth, sequences, row_list};
ghost use Rattle.tuple_rows.specs.Cuts.{IsCut, EndsCut};

use crate::Tuple;
use item_tree::NoMemory;
use std::alloc::Global;
use std::marker::Model;
use std::mem;

/// A table of tuples of one width, seen as that width and the list of the tuples.
#[derive(Debug, Drop)]
pub struct Rows {
    width: usize,
    tuples: Vec<Tuple>,
}

impl Model for Rows {
    ghost use Rattle.tuple_rows.specs.Tuples.{Table, table_code, AllOfWidth, row_list};

    ghost Value = { Table };

    ghost coded = { table_code };

    ghost view = { λ a. record { width = a.width; tuples = row_list a.tuples.items } };

    ghost invariant = { λ a. AllOfWidth a.width (row_list a.tuples.items) };
}

impl Rows {
    ghost use Rattle.std.specs.Prelude.{◌≡◌, ◌<◌, [], ◌∷◌, ◌++◌, length, map, slice_get, option_map, OnOk, OnErr, IfOk, IfSome};
    ghost use Rattle.tuple_rows.specs.Tuples.{AllOfWidth, sequences, row_list};
    ghost use Rattle.tuple_rows.specs.Cuts.{IsCut};

    /// No tuples, of this width.
    pub fn new(alloc: Global, width: usize) -> Rows
        ensures { result ≡ record { width = width; tuples = [] } }
    {
        Rows {
            width,
            tuples: Vec::new(alloc),
        }
    }

    /// These tuples, which are of this width. They are not copied.
    pub fn of(width: usize, tuples: Vec<Tuple>) -> Rows
        requires { AllOfWidth width (row_list tuples.items) }
        ensures { result ≡ record { width = width; tuples = row_list tuples.items } }
    {
        Rows { width, tuples }
    }

    /// How many slots each tuple has.
    pub fn width(&self) -> usize
        ensures value { result ≡ self.now.width }
        ensures kept { AllOfWidth self.now.width self.now.tuples }
    {
        let _tuples = &self.tuples;
        self.width
    }

    /// One more tuple, which goes last. Where memory is short the table stays as it is.
    pub fn push(&mut self, tuple: Tuple) -> Result<(), NoMemory>
        requires { length (sequences tuple) ≡ self.old.width }
        ensures ok { OnOk result
            (self.new ≡ record self.old { tuples = self.old.tuples ++ sequences tuple ∷ [] }) }
        ensures err { OnErr result (self.new ≡ self.old) }
    {
        self.tuples.push(tuple)?;
        Ok(())
    }

    /// The tuples of a table of the same width behind those of this one. Where memory is short the
    /// table stays as it is. Tuples are moved and not copied.
    pub fn append(&mut self, later: Rows) -> Result<(), NoMemory>
        requires { later.width ≡ self.old.width }
        ensures ok { OnOk result
            (self.new ≡ record self.old { tuples = self.old.tuples ++ later.tuples }) }
        ensures err { OnErr result (self.new ≡ self.old) }
    {
        let Rows {
            width: _,
            mut tuples,
        } = later;
        self.tuples.append(&mut tuples)?;
        Ok(())
    }

    /// The number of tuples.
    pub fn len(&self) -> usize
        ensures { result ≡ length self.now.tuples }
    {
        self.tuples.len()
    }

    /// The tuple at this position, from 0. `None` exactly where there are not so many.
    pub fn get(&self, at: usize) -> Option<&Tuple>
        ensures { option_map (λ t. sequences t.now) result ≡ slice_get self.now.tuples at }
    {
        self.tuples.get(at)
    }

    /// The tuples in order, as a list of the caller's own.
    pub fn into_tuples(self) -> Vec<Tuple>
        ensures value { row_list result.items ≡ self.tuples }
        ensures kept { AllOfWidth self.width self.tuples }
    {
        let Rows { width: _, tuples } = self;
        tuples
    }

    /// The tuples in order, cut into tables of so many tuples each, the last one of what is left.
    /// No tuples make no tables. Tuples are moved and not copied.
    pub fn cut(self, alloc: Global, size: usize) -> Result<Vec<Rows>, NoMemory>
        requires { 0 < size }
        ensures { IfOk result (λ v. IsCut self.width size self.tuples v.items) }
    {
        let Rows { width, tuples } = self;
        cut_tuples(alloc, width, size, tuples)
    }
}

fn cut_tuples(
    alloc: Global,
    width: usize,
    size: usize,
    tuples: Vec<Tuple>,
) -> Result<Vec<Rows>, NoMemory>
    requires size { 0 < size }
    requires width { AllOfWidth width (row_list tuples.items) }
    ensures { IfOk result (λ v. IsCut width size (row_list tuples.items) v.items) }
{
    let mut whole = Vec::new(alloc);
    let mut piece = Vec::new(alloc);
    for tuple in tuples {
        piece.push(tuple)?;
        if piece.len() == size {
            let full = mem::replace(&mut piece, Vec::new(alloc));
            whole.push(Rows::of(width, full))?;
        }
    }
    with_last(width, whole, piece)
}

// The tables, with one more of what is left, if anything is.
fn with_last(width: usize, whole: Vec<Rows>, piece: Vec<Tuple>) -> Result<Vec<Rows>, NoMemory>
    requires { AllOfWidth width (row_list piece.items) }
    ensures { IfOk result (λ v. EndsCut width (row_list piece.items) whole.items v.items) }
{
    if piece.is_empty() {
        return Ok(whole);
    }
    let mut tables = whole;
    tables.push(Rows::of(width, piece))?;
    Ok(tables)
}
