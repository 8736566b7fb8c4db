//! The item that is being built.

ghost use Rattle.std.specs.Prelude.{◌≡◌, true, OnOk};
ghost use Rattle.item_tree.specs.Item.{datum};
ghost use Rattle.json_text.specs.inside.Build.{start, push_frame as push_frame_of, add as add_of, close as close_of, set_key as set_key_of, troubled};
ghost use Rattle.item_reader.specs.Levels.{empty_frame};
ghost use Rattle.item_reader.specs.View.{is_open as is_open_of, may_open, Does, frames_in, build_of, trouble_of};
ghost use Rattle.json_text.specs.inside.Fits.{BuildFits};

use crate::levels::Levels;
use item_tree::{Item, NoMemory, Str};
use std::alloc::Global;
use std::mem;

/// So many containers may be open at once.
const MOST_OPEN: usize = 128;

#[derive(Clone, Copy, Debug)]
pub enum Trouble {
    NumberOut,
    TooDeep,
}

#[derive(Drop)]
pub enum Progress {
    Open,
    Done(Item),
    Troubled(Trouble),
}

/// The containers that are open, and whether the item is done or the text has a
/// trouble, which stays.
#[derive(Drop)]
pub struct Build {
    levels: Levels,
    progress: Progress,
}

impl Build {
    pub fn new(alloc: Global) -> Build
        ensures { build_of result ≡ start }
    {
        Build {
            levels: Levels::new(alloc),
            progress: Progress::Open,
        }
    }

    /// Nothing is open, nor done.
    pub fn restart(&mut self)
        ensures { build_of self.new ≡ start }
    {
        self.levels.clear();
        self.progress = Progress::Open;
    }

    /// What has become of the text. Nothing is done from here on.
    pub fn take_progress(&mut self) -> Progress
        ensures { result ≡ self.old.progress }
    {
        mem::replace(&mut self.progress, Progress::Open)
    }

    #[inline(always)]
    fn is_open(&self) -> bool
        ensures { result ≡ is_open_of self.now.progress }
    {
        match self.progress {
            Progress::Open => true,
            Progress::Done(_) => false,
            Progress::Troubled(_) => false,
        }
    }

    /// Whether one more container may open.
    #[inline(always)]
    pub fn may_open(&self) -> bool
        ensures { result ≡ may_open (build_of self.now) }
    {
        self.is_open() && self.levels.len() < MOST_OPEN
    }

    #[inline(always)]
    pub fn open(&mut self, alloc: Global, is_array: bool) -> Result<(), NoMemory>
        ensures { OnOk result (Does (push_frame_of (empty_frame is_array)) self.old self.new) }
    {
        if !self.is_open() {
            return Ok(());
        }
        if self.levels.len() < MOST_OPEN {
            self.levels.open(alloc, is_array)?;
        } else {
            self.progress = Progress::Troubled(Trouble::TooDeep);
        }
        Ok(())
    }

    // A value that is complete goes into the innermost container, or it is the whole.
    #[inline(always)]
    fn add_open(&mut self, alloc: Global, item: Item) -> Result<(), NoMemory>
        requires { is_open_of self.old.progress ≡ true }
        ensures { OnOk result (build_of self.new ≡ add_of (datum item) (frames_in self.old)) }
    {
        if self.levels.len() == 0 {
            self.progress = Progress::Done(item);
        } else {
            self.levels.add(alloc, item)?;
        }
        Ok(())
    }

    #[inline(always)]
    pub fn add(&mut self, alloc: Global, item: Item) -> Result<(), NoMemory>
        ensures { OnOk result (Does (add_of (datum item)) self.old self.new) }
    {
        if !self.is_open() {
            return Ok(());
        }
        self.add_open(alloc, item)?;
        Ok(())
    }

    pub fn close(&mut self, alloc: Global) -> Result<(), NoMemory>
        requires { BuildFits (build_of self.old) }
        ensures { OnOk result (Does close_of self.old self.new) }
    {
        if !self.is_open() {
            return Ok(());
        }
        if self.levels.len() == 0 {
            return Ok(());
        }
        let item = self.levels.close(alloc)?;
        self.add_open(alloc, item)?;
        Ok(())
    }

    #[inline(always)]
    pub fn set_key(&mut self, text: Str)
        ensures { Does (set_key_of text) self.old self.new }
    {
        if !self.is_open() {
            return;
        }
        if self.levels.len() == 0 {
            return;
        }
        self.levels.set_key(text);
    }

    pub fn fail(&mut self, trouble: Trouble)
        ensures { Does (λ fs. troubled (trouble_of trouble)) self.old self.new }
    {
        if self.is_open() {
            self.progress = Progress::Troubled(trouble);
        }
    }
}
