//! A job whose pieces do what a list says.

ghost use Rattle.std.specs.Prelude.{◌≡◌, length, ⊤};

use piece_board::{Job, JobFault};

// What a piece does.
#[derive(Clone, Copy)]
pub(crate) enum Act {
    Nothing,
    // Faults in this clause, where it is run.
    Fault(u32),
    // Fails on its seat.
    Fail,
    // Has no memory.
    Starve,
}

#[derive(Drop)]
pub(crate) struct Script<'a> {
    pub acts: &'a [Act],
    pub full: u32,
}

// A seat that counts its trouble.
#[derive(Clone, Copy)]
pub(crate) struct Seat {
    pub trouble: u64,
}

#[derive(Drop)]
pub(crate) struct Outcome {
    pub piece: u64,
    pub clause: Option<u32>,
}

#[derive(Drop)]
pub(crate) struct Broken;

impl<'a> Job for Script<'a> {
    type Seat = Seat;

    type Out = Outcome;

    type Fault = Broken;

    ghost total = { λ j. length j.acts.now };

    ghost full = { λ j. j.full };

    ghost fits = { λ j s. ⊤ };

    ghost good = { λ j p l o. o.piece ≡ p };

    ghost trouble = { λ s. s.trouble };

    ghost tells = { λ o. o.clause };

    fn run(&self, seat: &mut Seat, piece: u64, limit: u32) -> Result<Outcome, JobFault<Broken>> {
        let clause = match self.acts[piece as usize] {
            Act::Nothing => None,
            Act::Fault(clause) if clause < limit => Some(clause),
            Act::Fault(_) => None,
            Act::Fail => {
                seat.trouble = seat.trouble.saturating_add(1);
                return Err(JobFault::Job(Broken));
            }
            Act::Starve => return Err(JobFault::NoMemory),
        };
        Ok(Outcome { piece, clause })
    }

    fn told(out: &Outcome) -> Option<u32>
        ensures { result ≡ out.now.clause }
    {
        out.clause
    }
}
