//! Names that no type has.

use seq_types::find_type;

#[test]
fn finds_no_type_by_other_names(rt: HostRuntime) {
    for name in [
        "",
        "items",
        "Item",
        "json",
        "json_item",
        "number",
        "datetime",
        "empty-sequence",
        "string\u{e9}",
        "i\u{ff}tem",
    ] {
        assert!(rt; find_type(name, false).is_none(), "{name}");
        assert!(rt; find_type(name, true).is_none(), "{name}()");
    }
}
