//! How many sets of files are opened.

ghost use Rattle.std.specs.Prelude.{◌≡◌, ◌<◌, ◌≤◌, ◌*◌};
ghost use Rattle.driver_files.specs.Seats.{seats_of, most_files};

// The most files that stand open, all in all.
const MOST_FILES: u64 = 512;

/// How many sets of this many files, 64 at most, are opened for so many workers and pieces.
pub(crate) fn seats_of(workers: u32, pieces: u64, files: usize) -> usize
    requires { files ≤ 64 }
    ensures value { result ≡ seats_of workers pieces files }
    ensures some { 0 < result }
    ensures few { files * result ≤ most_files }
{
    let most = MOST_FILES / files.max(1) as u64;
    u64::from(workers).min(pieces).min(most).max(1) as usize
}
