//! Closes the files of a driver.

ghost use Rattle.std.specs.Prelude.{◌≡◌, vec_len};
ghost use Rattle.driver_files.specs.Counts.{ClosesFiles};
ghost use Rattle.driver_files.specs.Driver.{files_in, failures, failures_in};

use outside::Inputs;

/// Closes these files. Their faults go into the count of the inputs.
pub fn close_set<I: Inputs>(inputs: &mut I, files: Vec<I::File>)
    ensures world { I.world inputs.new ≡ I.world inputs.old }
    ensures counts { ClosesFiles (vec_len files) (failures I.File.faults files.items)
        (I.counts inputs.old) (I.counts inputs.new) }
{
    for file in files {
        inputs.close_file(file);
    }
}

/// Closes all files of these sets. Their faults go into the count of the inputs.
pub fn close_driver<I: Inputs>(inputs: &mut I, sets: Vec<Vec<I::File>>)
    ensures world { I.world inputs.new ≡ I.world inputs.old }
    ensures counts { ClosesFiles (files_in sets.items) (failures_in I.File.faults sets.items)
        (I.counts inputs.old) (I.counts inputs.new) }
{
    for files in sets {
        close_set(inputs, files);
    }
}
