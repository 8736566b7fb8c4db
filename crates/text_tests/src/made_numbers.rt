//! The lines that a trial makes from a number.

use line_maker::made_lines;
use std::test::Fail;

#[test]
fn makes_lines(rt: HostRuntime) -> Result<(), Fail> {
    // a number, how many lines, and the lines
    for (number, lines, text) in [
        (7, 0, ""),
        (
            1,
            4,
            "{\"id\":1,\"k\":\"g2\",\"v\":168.38}\n{\"id\":2,\"k\":\"g1\",\"v\":57.58}\n\
             {\"id\":3,\"k\":\"g0\",\"v\":101.13}\n{\"id\":4,\"k\":\"g1\",\"v\":175.15}\n",
        ),
    ] {
        let made = made_lines(rt.alloc(), number, lines)?;
        assert_eq!(rt; made.as_slice(), text.as_bytes());
    }
    let nine = made_lines(rt.alloc(), 1, 9)?;
    assert!(rt; nine.ends_with(b"\n[16212]\n"));
    Ok(())
}
