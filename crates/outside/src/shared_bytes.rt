//! Bytes that several open files share.

ghost use Rattle.std.specs.Prelude.{◌≡◌, IfOk, length};
ghost use Rattle.outside.specs.World.{readable, filled};

use item_tree::NoMemory;
use std::alloc::Global;
use std::marker::Model;
use std::sync::Arc;

/// The bytes of a file in memory, shared by all who have it open.
#[derive(Drop)]
pub(crate) struct SharedBytes {
    bytes: Arc<Vec<u8>, Global>,
}

impl Model for SharedBytes {
    ghost use Rattle.std.specs.Prelude.{ℕ, List};
    ghost use Rattle.std.specs.Arc.{arc_value};

    ghost Value = { List ℕ };

    ghost view = { λ s. (arc_value s.bytes).items };
}

impl SharedBytes {
    pub(crate) fn new(alloc: Global, bytes: Vec<u8>) -> Result<SharedBytes, NoMemory>
        ensures { IfOk result (λ s. s ≡ bytes.items) }
    {
        let bytes = Arc::new(alloc, bytes)?;
        Ok(SharedBytes { bytes })
    }

    /// The same bytes once more, without a copy.
    pub(crate) fn share(&self) -> Result<SharedBytes, NoMemory>
        ensures { IfOk result (λ s. s ≡ self.now) }
    {
        let bytes = self.bytes.clone()?;
        Ok(SharedBytes { bytes })
    }

    pub(crate) fn len(&self) -> u64
        ensures { result ≡ length self.now }
    {
        self.bytes.len() as u64
    }

    /// Reads as many bytes from this place on as there are and as the slice has room for.
    pub(crate) fn read_at(&self, at: u64, into: &mut [u8]) -> usize
        ensures count { result ≡ readable self.now at (length into.old) }
        ensures bytes { into.new ≡ filled self.now at result into.old }
    {
        let bytes = self.bytes.as_slice();
        if at >= bytes.len() as u64 {
            return 0;
        }
        let rest = &bytes[at as usize..];
        let count = rest.len().min(into.len());
        into[..count].copy_from_slice(&rest[..count]);
        count
    }
}
