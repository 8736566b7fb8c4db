//! What the files of some names tell.

use item_tree::Str;
use outside::Inputs;
use piece_seats::FilesTold;

/// The files of these names, as the inputs tell them: their bytes, where the world is told, and
/// else nothing.
#[derive(Clone, Copy)]
pub struct NamedFiles<'i, 'n, I> {
    /// The inputs.
    pub inputs: &'i I,
    /// The names, in order.
    pub names: &'n [Str],
}

impl<'i, 'n, I: Inputs> FilesTold for NamedFiles<'i, 'n, I> {
    ghost use Rattle.driver_files.specs.Driver.{told_files};

    ghost told = { λ f. told_files (I.world f.inputs.now) f.names.now };
}
