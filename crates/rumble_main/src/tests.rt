//! Tests of what is kept of a pipe.

use crate::kept::{Kept, read_whole};
use outside::InputFile;
use std::test::Fail;

#[test]
fn keeps_what_was_read_once(rt: HostRuntime) -> Result<(), Fail> {
    let cases = [
        ("/dev/stdin", "12\n-7\n"),
        ("silent", ""),
        ("/dev/fd/63", "{}"),
    ];
    let mut kept = Kept::new(rt.alloc());
    for (name, text) in cases {
        assert!(rt; kept.find(name)?.is_none(), "{name}");
        let bytes = read_whole(rt.alloc(), &mut text.as_bytes())?;
        let mut file = kept.keep(name, bytes)?;
        assert_eq!(rt; file.len(), Ok(text.len() as u64), "{name}");
    }
    for (name, text) in cases {
        let Some(mut file) = kept.find(name)? else {
            panic!(rt; "nothing is kept of {name}");
        };
        let mut buffer = [0; 8];
        let Ok(count) = file.read_at(0, &mut buffer) else {
            panic!(rt; "{name} cannot be read");
        };
        assert_eq!(rt; &buffer[..count], text.as_bytes(), "{name}");
    }
    Ok(())
}
