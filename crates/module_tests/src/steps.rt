//! Steps of loading, one by one, and the calls that they are made of.

use item_tree::Str;
use module_names::{
    Import, Source, Step, add_library, next_step, read_named, start_loading, without_mark,
};
use outside::{MemInputs, names_differ};
use std::alloc::Global;
use std::test::Fail;

fn source(alloc: Global, names: &[(&str, u32)]) -> Result<Source<()>, Fail> {
    let mut imports = Vec::new(alloc);
    for (name, place) in names {
        let name = Str::of(alloc, name)?;
        imports.push(Import {
            name,
            place: *place,
        })?;
    }
    Ok(Source {
        imports,
        body: None,
        rest: (),
    })
}

// The steps of a query with these imports, of which each other file has none.
fn steps(alloc: Global, names: &[(&str, u32)]) -> Result<String, Fail> {
    let mut shown = String::new(alloc);
    let query = Str::of(alloc, "q")?;
    let mut loading = start_loading(alloc, query, source(alloc, names)?)?;
    for _step in 0..10 {
        match next_step(&mut loading)? {
            Step::Taken => shown.push_str("taken/")?,
            Step::Wanted(import) => {
                let name = import.name.as_str();
                let place = import.place;
                shown.push_str(format!(in alloc; "{name} {place}/")?.as_str())?;
                add_library(&mut loading, import.name, source(alloc, &[])?)?;
            }
            Step::Refused(why) => {
                let code = why.code.text();
                let place = why.place;
                let file = why.file.as_str();
                shown.push_str(format!(in alloc; "{code} {place} {file}")?.as_str())?;
                return Ok(shown);
            }
            Step::Done => {
                shown.push_str("done")?;
                return Ok(shown);
            }
        }
    }
    Ok(shown)
}

#[test]
fn imports_are_taken_one_by_one(rt: HostRuntime) -> Result<(), Fail> {
    let cases: [(&[(&str, u32)], &str); 4] = [
        (&[], "taken/done"),
        (&[("a", 14)], "a 14/taken/taken/done"),
        (&[("a", 14), ("a", 33)], "a 14/taken/taken/taken/done"),
        (&[("a", 14), ("q", 33)], "a 14/taken/PJST0006 33 q"),
    ];
    for (row, (names, want)) in cases.into_iter().enumerate() {
        let shown = steps(rt.alloc(), names)?;
        assert_eq!(rt; shown.as_str(), want, "row {row}");
    }
    Ok(())
}

#[test]
fn files_are_read_whole(rt: HostRuntime) -> Result<(), Fail> {
    let alloc = rt.alloc();
    let mut files = Vec::new(alloc);
    files.push((
        Str::of(alloc, "a")?,
        Vec::from_slice(alloc, b"\xef\xbb\xbftext")?,
    ))?;
    assert!(rt; names_differ(&files));
    let mut inputs = MemInputs::steady(alloc, files)?;
    let found = read_named(alloc, &mut inputs, "a", 100).expect(&rt, "no fault");
    let bytes = found.expect(&rt, "a file");
    assert_eq!(rt; bytes.as_slice(), b"\xef\xbb\xbftext".as_slice());
    assert_eq!(rt; without_mark(&bytes), b"text".as_slice());
    let missing = read_named(alloc, &mut inputs, "b", 100).expect(&rt, "no fault");
    assert!(rt; missing.is_none());
    Ok(())
}
