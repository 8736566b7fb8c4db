//! What is told of an ending or of a stop, and how an ending is written.

ghost use Rattle.std.specs.Prelude.{◌≡◌, ℕ, List, string_bytes};
ghost use Rattle.rumble_run.specs.Ends.{OutBy, err_by, Wrote};
ghost use Rattle.rumble_run.specs.inside.Seen.{IsSilent, EndsAs, status_of_stop};

use crate::ending::Ending;
use crate::status::{Status, Stop, status_of_stop};
use outside::{Sink, write_all};

/// Adds a text for the errors. Where this fails, nothing else changes.
pub(crate) fn tell<E: Sink>(err: &mut E, text: &str)
    ensures { Wrote text.now (E.wrote err.old) (E.wrote err.new) (E.faults err.old)
        (E.faults err.new) }
{
    let _told = write_all(err, text.as_bytes());
}

/// The text for the errors: that of a fault or of want of memory, and else the ending's.
pub(crate) fn text_by<'a>(text: &'a str, status: Status) -> &'a str
    ensures { result.now ≡ err_by text.now status }
{
    match status {
        Status::ReadFault => "read fault\n",
        Status::WriteFault => "write fault\n",
        Status::NoMemory => "no memory\n",
        _ => text,
    }
}

/// Tells why a call stopped, and answers the status of that.
pub(crate) fn stopped<E: Sink>(stop: Stop, err: &mut E) -> Status
    ensures status { result ≡ status_of_stop stop }
    ensures text { (text : List ℕ) → Wrote (err_by text result) (E.wrote err.old) (E.wrote err.new)
        (E.faults err.old) (E.faults err.new) }
{
    let status = status_of_stop(stop);
    tell(err, text_by("", status));
    status
}

/// Writes an ending without taking memory, and answers the status that it comes to.
pub(crate) fn finish<O: Sink, E: Sink>(ending: &Ending, out: &mut O, err: &mut E) -> Status
    requires { IsSilent ending.now.out.items ending.now.status }
    ensures status { EndsAs ending.now.status result (O.faults out.old) (O.faults out.new) }
    ensures output { OutBy ending.now.out.items result (O.wrote out.old) (O.wrote out.new) }
    ensures text { Wrote (err_by (string_bytes ending.now.err) result) (E.wrote err.old)
        (E.wrote err.new) (E.faults err.old) (E.faults err.new) }
{
    if write_all(out, &ending.out).is_err() {
        tell(err, text_by("", Status::WriteFault));
        return Status::WriteFault;
    }
    tell(err, ending.err.as_str());
    ending.status
}
