//! The names of files in memory.

ghost use Rattle.std.specs.Prelude.{◌≡◌, ◌↔◌, IsTrue, not};
ghost use Rattle.std.specs.Str.{chars, bytes_eq};
ghost use Rattle.std.specs.List.{list_all};
ghost use Rattle.outside.specs.World.{NamesDiffer};
ghost use Rattle.outside.specs.InMemory.{world_of};

use item_tree::Str;

/// Whether a file's name is this text.
pub(crate) fn is_named(file: &Str, name: &str) -> bool
    ensures { result ≡ bytes_eq file.now (chars name.now) }
{
    file.as_str() == name
}

// Whether none of the files has this name.
fn lacks_name(files: &[(Str, Vec<u8>)], name: &Str) -> bool
    ensures { result ≡ list_all (λ f. not (bytes_eq name.now f.0)) (world_of files.now) }
{
    for file in files {
        if is_named(name, file.0.as_str()) {
            return false;
        }
    }
    true
}

/// Whether no two of the files have one name, as the constructors of files in memory ask for.
pub fn names_differ(files: &[(Str, Vec<u8>)]) -> bool
    ensures { IsTrue result ↔ NamesDiffer (world_of files.now) }
{
    for (at, file) in files.iter().enumerate() {
        if !lacks_name(&files[at + 1..], &file.0) {
            return false;
        }
    }
    true
}
