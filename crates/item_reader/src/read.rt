//! Reads a line as an item.

ghost use Rattle.std.specs.Prelude.{◌≡◌, IfOk, IfErr};
ghost use Rattle.json_text.specs.inside.Build.{made, reading};
ghost use Rattle.item_reader.specs.View.{built_if};
ghost use Rattle.item_reader.specs.Outcomes.{Gives, Raises, AnswersLine};

use crate::LineFault;
use crate::build::{Progress, Trouble};
use crate::turn::{State, Turn};
use byte_lanes::is_blank;
use item_tree::{Item, NoMemory};
use std::alloc::Global;

/// A reader of lines. It keeps its room from line to line, as much as the greatest line took.
#[derive(Drop)]
pub struct Reader {
    alloc: Global,
    state: State,
}

impl Reader {
    /// A reader that has read nothing.
    pub fn new(alloc: Global) -> Reader {
        Reader {
            alloc,
            state: State::new(alloc),
        }
    }

    // Builds what the whole line says, and tells whether it is a text.
    fn read_text(&mut self, line: &[u8]) -> Result<bool, NoMemory>
        ensures { IfOk result (λ t. made line.now ≡ built_if t self.new.state.build) }
    {
        let alloc = self.alloc;
        self.state.restart();
        let mut rest = line;
        'tokens: loop {
            if let Some(behind) = self.state.take_row(alloc, rest)? {
                rest = self.state.pass_mark(behind);
                continue;
            }
            let (turn, behind) = self.state.take_next(alloc, rest)?;
            match turn {
                Turn::More => rest = self.state.pass_mark(behind),
                Turn::End => return Ok(true),
                Turn::NotJson => return Ok(false),
            }
        }
    }

    /// The item of a line, and none where the line is blank, as [`read_item`] gives it. What was
    /// read before changes nothing, whatever it was.
    pub fn read(&mut self, line: &[u8]) -> Result<Option<Item>, LineFault>
        // As the grammar and the meaning of JSON have it.
        ensures reads { AnswersLine line.now result }
        // As a reader computes it, which is the same.
        ensures ok { IfOk result (Gives (reading line.now)) }
        ensures err { IfErr result (Raises (reading line.now)) }
    {
        if is_blank(line) {
            return Ok(None);
        }
        let is_text = self.read_text(line)?;
        if !is_text {
            return Err(LineFault::NotJson);
        }
        match self.state.build.take_progress() {
            Progress::Done(item) => Ok(Some(item)),
            Progress::Troubled(Trouble::NumberOut) => Err(LineFault::NumberOut),
            Progress::Troubled(Trouble::TooDeep) => Err(LineFault::TooDeep),
            Progress::Open => unreachable!(),
        }
    }
}

/// The item of a line, and none where the line is blank.
///
/// A blank line has nothing but spaces, tabs and CRs. Any other line must be one text of JSON
/// (RFC 8259) in UTF-8, else it is `NotJson`. In a text that is well formed the first of two
/// troubles in text order decides: `NumberOut`, or `TooDeep`. Each byte is looked at a few times
/// at most, so it takes time linear in the line, times the logarithm of the number of keys in an
/// object, whatever the keys are.
pub fn read_item(alloc: Global, line: &[u8]) -> Result<Option<Item>, LineFault>
    // As the grammar and the meaning of JSON have it.
    ensures reads { AnswersLine line.now result }
    // As a reader computes it, which is the same.
    ensures ok { IfOk result (Gives (reading line.now)) }
    ensures err { IfErr result (Raises (reading line.now)) }
{
    Reader::new(alloc).read(line)
}
