//! Tables of tuples, and their pieces.

ghost use Rattle.std.specs.Prelude.{◌≡◌, length, IfOk};
ghost use Rattle.tuple_rows.specs.Tuples.{sequences};

use item_tree::{Item, Whole};
use std::alloc::Global;
use std::test::Fail;
use tuple_rows::{Rows, Tuple, laws};

// A tuple of one slot, which holds this number.
fn tuple(alloc: Global, n: u8) -> Result<Tuple, Fail>
    ensures { IfOk result (λ t. length (sequences t) ≡ 1) }
{
    let items = vec![in alloc; Item::Int(Whole::new(i128::from(n)))]?;
    Ok(Tuple {
        slots: vec![in alloc; items]?,
    })
}

fn table(alloc: Global, from: u8, to: u8) -> Result<Rows, Fail>
    ensures { IfOk result (λ r. r.width ≡ 1) }
{
    let mut rows = Rows::new(alloc, 1);
    for n in from..to {
        let next = tuple(alloc, n)?;
        if rows.push(next).is_err() {
            return Err(Fail::new("no memory"));
        }
    }
    Ok(rows)
}

// The numbers of a table, with commas behind.
fn numbers(alloc: Global, rows: Rows) -> Result<String, Fail> {
    let mut text = String::new(alloc);
    for tuple in &rows.into_tuples() {
        for slot in &tuple.slots {
            for item in slot {
                if let Item::Int(n) = item {
                    text.push_str(format!(in alloc; "{},", n.get())?.as_str())?;
                }
            }
        }
    }
    Ok(text)
}

#[test]
fn keeps_tuples_in_order(rt: HostRuntime) -> Result<(), Fail> {
    let alloc = rt.alloc();
    let mut rows = table(alloc, 0, 3)?;
    assert_eq!(rt; rows.width(), 1);
    assert_eq!(rt; rows.append(table(alloc, 7, 9)?).is_ok(), true);
    assert_eq!(rt; rows.len(), 5);
    assert_eq!(rt; rows.get(4).is_some(), true);
    assert_eq!(rt; rows.get(5).is_none(), true);
    assert_eq!(rt; numbers(alloc, rows)?.as_str(), "0,1,2,7,8,");
    Ok(())
}

#[test]
fn cuts_tables(rt: HostRuntime) -> Result<(), Fail> {
    let alloc = rt.alloc();
    let mut text = String::new(alloc);
    for count in 0..6u8 {
        let Ok(pieces) = table(alloc, 0, count)?.cut(alloc, 2) else {
            return Err(Fail::new("no memory"));
        };
        for piece in pieces {
            text.push_str(numbers(alloc, piece)?.as_str())?;
            text.push_str("|")?;
        }
        text.push_str(" ")?;
    }
    assert_eq!(rt;
        text.as_str(),
        " 0,| 0,1,| 0,1,|2,| 0,1,|2,3,| 0,1,|2,3,|4,| "
    );
    let last = Rows::of(0, Vec::new(alloc));
    assert_eq!(rt; last.len(), 0);
    laws::cuts_are_whole();
    Ok(())
}
