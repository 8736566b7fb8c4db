//! Laws of the definitions. Each is the contract of a function that does nothing.

ghost use Rattle.std.specs.Prelude.{ℕ, List, Result};
ghost use Rattle.std.specs.Fn.{FnReturnsAt};
ghost use Rattle.outside.specs.World.{World};
ghost use Rattle.query_tree.specs.NamedViews.{NamedQuery};
ghost use Rattle.module_names.specs.Loaded.{FilesStandOnce};
ghost use Rattle.module_names.specs.Remaining.{AsksAreAnswered};
ghost use Rattle.module_names.specs.Rules.{RulesSayLoading};
ghost use Rattle.module_names.specs.Loading as loading;
ghost use Rattle.module_names.specs.Worlds.{Gives, HasSources};

use crate::{Source, Unread};

/// The files that are loaded are what the query reaches by imports, 64 at most, each once and
/// behind all that it imports; the query is the last, and the bodies of all others are `()`.
pub fn files_stand_once()
    ensures { FilesStandOnce }
{}

/// Loading comes to what its rules say, one by one, and they say nothing else.
pub fn rules_say_loading()
    ensures { RulesSayLoading }
{}

/// What remains once an import was answered is what remained before it; what remains at the start
/// is what loading comes to, and what remains without a file under way is what is done.
pub fn asks_are_answered()
    ensures { AsksAreAnswered NamedQuery }
{}

/// Where all answers of a reader to a text say the same, unless memory runs out, each world has its
/// sources. So what `load` says of sources is said of some.
pub fn world_has_sources<T, F: Fn(&str) -> Result<Source<T>, Unread>>(_read: &F)
    ensures { (given : List ℕ → Result (loading.Source T) loading.Unread) (world : World)
        → Gives (FnReturnsAt F.Fn _read.now) given → HasSources (FnReturnsAt F.Fn _read.now) world }
{}
