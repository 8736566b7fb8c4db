//! The arrays and objects that are open.

ghost use Rattle.std.specs.Prelude.{◌≡◌, ◌<◌, ◌≤◌, ◌+◌, ◌∷◌, [], ℕ, true, false, IfOk, OnOk, length, take};
ghost use Rattle.item_tree.specs.Datum.{array_of_list, object_of_pairs};
ghost use Rattle.item_tree.specs.Item.{datum, datums};
ghost use Rattle.item_reader.specs.Levels.{value_of, frame_of, empty_frame, frames_of, add_inside, key_inside, with_first, HasRoom, Opens, OnLast, Closes, ClosesTo};
ghost use Rattle.json_text.specs.inside.Fits.{AllFit, PairsFit, FrameFits, FramesFit};

use item_tree::{Item, MakeFault, NoMemory, PairList, Str, array_from, object_from, push_last};
use std::alloc::Global;
use std::marker::Model;

/// A container that is open, or the room of one that was.
#[derive(Drop)]
pub(crate) struct Level {
    is_array: bool,
    items: Vec<Item>,
    pairs: PairList,
    /// The key of an object's value that comes next.
    key: Option<Str>,
}

/// The containers that are open. The room of those that close is kept for those that open later.
#[derive(Drop)]
pub struct Levels {
    levels: Vec<Level>,
    depth: usize,
}

impl Model for Levels {
    ghost use Rattle.std.specs.Prelude.{List, ◌≤◌, length, take};
    ghost use Rattle.json_text.specs.inside.Build.{Frame};
    ghost use Rattle.item_reader.specs.FrameCode.{frames_code};

    ghost Value = { List Frame };

    ghost coded = { frames_code };

    ghost use Rattle.item_reader.specs.Levels.{frames_of};

    ghost view = { λ a. frames_of (take a.depth a.levels.items) };

    ghost invariant = { λ a. a.depth ≤ length a.levels.items };
}

fn array_item(alloc: Global, items: &mut Vec<Item>) -> Result<Item, NoMemory>
    requires { (n : ℕ) × AllFit (n + 1) (datums items.old.items) }
    ensures { IfOk result (λ x. datum x ≡ array_of_list (datums items.old.items)) }
{
    match array_from(alloc, items) {
        Ok(item) => Ok(item),
        Err(MakeFault::NoMemory) => Err(NoMemory),
        Err(MakeFault::TooDeep) => unreachable!(),
        Err(MakeFault::KeyTwice { .. }) => unreachable!(),
    }
}

fn object_item(alloc: Global, pairs: &mut PairList) -> Result<Item, NoMemory>
    requires { (n : ℕ) × PairsFit (n + 1) pairs.old }
    ensures { IfOk result (λ x. datum x ≡ object_of_pairs pairs.old) }
{
    match object_from(alloc, pairs) {
        Ok(item) => Ok(item),
        Err(MakeFault::NoMemory) => Err(NoMemory),
        Err(MakeFault::TooDeep) => unreachable!(),
        Err(MakeFault::KeyTwice { .. }) => unreachable!(),
    }
}

impl Level {
    fn new(alloc: Global) -> Level
        ensures { frame_of result ≡ empty_frame true }
    {
        Level {
            is_array: true,
            items: Vec::new(alloc),
            pairs: PairList::new(alloc),
            key: None,
        }
    }

    #[inline(always)]
    fn open(&mut self, is_array: bool)
        ensures { frame_of self.new ≡ empty_frame is_array }
    {
        if is_array {
            self.open_array();
        } else {
            self.open_object();
        }
    }

    #[inline(always)]
    fn open_array(&mut self)
        ensures { frame_of self.new ≡ empty_frame true }
    {
        self.is_array = true;
        // Only an array that was left open in an earlier line has items here.
        if !self.items.is_empty() {
            self.items.clear();
        }
    }

    fn open_object(&mut self)
        ensures { frame_of self.new ≡ empty_frame false }
    {
        self.is_array = false;
        self.pairs.clear();
        self.key = None;
    }

    #[inline(always)]
    fn add(&mut self, alloc: Global, item: Item) -> Result<(), NoMemory>
        ensures { OnOk result (frame_of self.new ≡ add_inside (datum item) (frame_of self.old)) }
    {
        if self.is_array {
            return push_last(&mut self.items, item);
        }
        self.add_pair(alloc, item)
    }

    // The value of the key that was set last.
    #[inline(always)]
    fn add_pair(&mut self, alloc: Global, item: Item) -> Result<(), NoMemory>
        requires { self.old.is_array ≡ false }
        ensures { OnOk result (frame_of self.new ≡ add_inside (datum item) (frame_of self.old)) }
    {
        match self.key.take() {
            Some(key) => self.pairs.put(alloc, key, item),
            None => Ok(()),
        }
    }

    #[inline(always)]
    fn set_key(&mut self, text: Str)
        ensures { frame_of self.new ≡ key_inside text (frame_of self.old) }
    {
        if !self.is_array {
            self.key = Some(text);
        }
    }

    // The item of a container that closes, without spare room.
    fn item(&mut self, alloc: Global) -> Result<Item, NoMemory>
        requires { (n : ℕ) × FrameFits n (frame_of self.old) }
        ensures { IfOk result (λ x. datum x ≡ value_of (frame_of self.old)) }
    {
        if self.is_array {
            array_item(alloc, &mut self.items)
        } else {
            object_item(alloc, &mut self.pairs)
        }
    }
}

// Out of line, since a reader has most rooms from the lines before.
#[inline(never)]
fn more_room(alloc: Global, levels: &mut Vec<Level>) -> Result<(), NoMemory>
    ensures kept { length levels.old.items ≤ length levels.new.items }
    ensures ok { OnOk result
        (HasRoom (length levels.old.items) levels.old.items levels.new.items) }
{
    levels.push(Level::new(alloc))?;
    Ok(())
}

// There is room for one more container inside so many.
#[inline(always)]
fn have_room(alloc: Global, levels: &mut Vec<Level>, depth: usize) -> Result<(), NoMemory>
    requires { depth ≤ length levels.old.items }
    ensures kept { length levels.old.items ≤ length levels.new.items }
    ensures ok { OnOk result (HasRoom depth levels.old.items levels.new.items) }
{
    if depth == levels.len() {
        more_room(alloc, levels)?;
    }
    Ok(())
}

// One more container opens inside so many, in the room of an earlier one where there is one.
#[inline(always)]
fn open_at(
    alloc: Global,
    levels: &mut Vec<Level>,
    depth: usize,
    is_array: bool,
) -> Result<(), NoMemory>
    requires { depth ≤ length levels.old.items }
    ensures kept { length levels.old.items ≤ length levels.new.items }
    ensures ok { OnOk result
        (Opens depth (empty_frame is_array) levels.old.items levels.new.items) }
{
    have_room(alloc, levels, depth)?;
    let level = &mut levels[depth];
    level.open(is_array);
    Ok(())
}

// One more value in the innermost of so many containers.
#[inline(always)]
fn add_at(alloc: Global, levels: &mut Vec<Level>, last: usize, item: Item) -> Result<(), NoMemory>
    requires { last < length levels.old.items }
    ensures kept { length levels.new.items ≡ length levels.old.items }
    ensures ok { OnOk result
        (OnLast last (add_inside (datum item)) levels.old.items levels.new.items) }
{
    let level = &mut levels[last];
    level.add(alloc, item)?;
    Ok(())
}

// The key of the value that comes next in the innermost of so many containers.
#[inline(always)]
fn set_key_at(levels: &mut Vec<Level>, last: usize, text: Str)
    requires { last < length levels.old.items }
    ensures kept { length levels.new.items ≡ length levels.old.items }
    ensures set { OnLast last (key_inside text) levels.old.items levels.new.items }
{
    let level = &mut levels[last];
    level.set_key(text);
}

// The item of the innermost of so many containers.
fn item_at(alloc: Global, levels: &mut Vec<Level>, last: usize) -> Result<Item, NoMemory>
    requires inside { last < length levels.old.items }
    requires fits { FramesFit (frames_of (take (last + 1) levels.old.items)) }
    ensures kept { length levels.new.items ≡ length levels.old.items }
    ensures ok { IfOk result (λ x. Closes last (datum x) levels.old.items levels.new.items) }
{
    let level = &mut levels[last];
    let item = level.item(alloc)?;
    Ok(item)
}

impl Levels {
    /// No container is open.
    pub fn new(alloc: Global) -> Levels
        ensures { result ≡ [] }
    {
        Levels {
            levels: Vec::new(alloc),
            depth: 0,
        }
    }

    /// No container is open any more.
    pub fn clear(&mut self)
        ensures { self.new ≡ [] }
    {
        self.depth = 0;
    }

    /// How many are open.
    #[inline(always)]
    pub fn len(&self) -> usize
        ensures { result ≡ length self.now }
    {
        self.depth
    }

    /// An array or an object opens in the innermost one.
    #[inline(always)]
    pub fn open(&mut self, alloc: Global, is_array: bool) -> Result<(), NoMemory>
        ensures { OnOk result (self.new ≡ empty_frame is_array ∷ self.old) }
    {
        open_at(alloc, &mut self.levels, self.depth, is_array)?;
        self.depth += 1;
        Ok(())
    }

    /// One more value in the innermost one.
    #[inline(always)]
    pub fn add(&mut self, alloc: Global, item: Item) -> Result<(), NoMemory>
        requires { 0 < length self.old }
        ensures { OnOk result (self.new ≡ with_first (add_inside (datum item)) self.old) }
    {
        add_at(alloc, &mut self.levels, self.depth - 1, item)?;
        Ok(())
    }

    /// The key of the value that comes next in the innermost one.
    #[inline(always)]
    pub fn set_key(&mut self, text: Str)
        requires { 0 < length self.old }
        ensures { self.new ≡ with_first (key_inside text) self.old }
    {
        set_key_at(&mut self.levels, self.depth - 1, text);
    }

    /// The innermost one closes, and this is its item.
    pub fn close(&mut self, alloc: Global) -> Result<Item, NoMemory>
        requires some { 0 < length self.old }
        requires fits { FramesFit self.old }
        ensures { IfOk result (λ x. ClosesTo (datum x) self.old self.new) }
    {
        let item = item_at(alloc, &mut self.levels, self.depth - 1)?;
        self.depth -= 1;
        Ok(item)
    }
}
