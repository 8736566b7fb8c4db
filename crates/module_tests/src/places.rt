//! Places in texts that are put together.

use module_names::locate;
use std::test::Fail;

#[test]
fn places_belong_to_files(rt: HostRuntime) -> Result<(), Fail> {
    for (lengths, place, want) in [
        ([5, 3, 2], 0, (0, 0)),
        ([5, 3, 2], 4, (0, 4)),
        ([5, 3, 2], 5, (1, 0)),
        ([5, 3, 2], 7, (1, 2)),
        ([5, 3, 2], 8, (2, 0)),
        ([5, 3, 2], 10, (2, 2)),
        ([0, 0, 4], 0, (2, 0)),
        ([4, 0, 0], 4, (2, 0)),
        ([4, 0, 1], 3, (0, 3)),
        ([4_294_967_295, 0, 0], 4_294_967_294, (0, 4_294_967_294)),
    ] {
        assert_eq!(rt; locate(&lengths, place), want, "at {place}");
    }
    assert_eq!(rt; locate(&[7], 7), (0, 7));
    Ok(())
}
