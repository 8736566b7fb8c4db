//! The texts that a query is put together from.

ghost use Rattle.std.specs.Prelude.{◌≡◌, ◌<◌, ◌-◌, length, map, get_or, option_map, IfOk};
ghost use Rattle.item_reader.specs.Lines.{without_mark};
ghost use Rattle.module_names.specs.declared.file_bytes.Kept.{Kept};
ghost use Rattle.module_names.specs.declared.order.File.{File};
ghost use Rattle.query_files.specs.Merged.{query_text, query_start, place_in};
ghost use Rattle.query_files.specs.Found.{file_texts};
ghost use Rattle.query_files.specs.inside.Places.{text_length, library_at, place_of, place_at};

use item_tree::{NoMemory, Str};
use module_names::{File, Kept, locate};
use std::alloc::Global;
use std::marker::Model;

/// The texts of a query and of its libraries, in the order in which they are put together.
#[derive(Debug, Drop)]
pub struct Texts {
    files: Vec<File<Kept<()>>>,
    start: u32,
}

impl Model for Texts {
    ghost use Rattle.std.specs.Prelude.{◌≡◌, ◌<◌, length};
    ghost use Rattle.query_files.specs.Merged.{Texts, query_start};
    ghost use Rattle.query_files.specs.Found.{file_texts};

    ghost Value = { Texts };

    ghost view = { λ t. file_texts t.files.items };

    ghost invariant = { λ t. (t.start ≡ query_start (file_texts t.files.items))
        × (0 < length t.files.items) };
}

/// A place in one of the files.
#[derive(Clone, Copy, Debug)]
pub struct Located<'a> {
    /// The file's name, if it is a library.
    pub library: Option<&'a Str>,
    /// Its text after a byte order mark, and the place in it.
    pub text: &'a [u8],
    pub place: u32,
}

fn text(file: &File<Kept<()>>) -> &[u8]
    ensures { result.now ≡ without_mark file.now.source.rest.contents }
{
    file.source.rest.contents.text()
}

fn text_at(files: &[File<Kept<()>>], position: usize) -> &[u8]
    requires { position < length files.now }
    ensures { (d : File (Kept (Unit {0}))) → result.now
        ≡ without_mark (get_or files.now position d).source.rest.contents }
{
    text(&files[position])
}

// The text of the last file, which is the query.
fn last_text(files: &[File<Kept<()>>]) -> &[u8]
    requires { 0 < length files.now }
    ensures { result.now ≡ query_text (file_texts files.now) }
{
    text_at(files, files.len() - 1)
}

// How long the texts of these files are.
fn lengths(alloc: Global, files: &[File<Kept<()>>]) -> Result<Vec<u32>, NoMemory>
    ensures { IfOk result (λ v. v.items ≡ map text_length files.now) }
{
    let mut lengths = Vec::with_capacity(alloc, files.len())?;
    for file in files {
        let Ok(length) = u32::try_from(text(file).len()) else {
            return Err(NoMemory);
        };
        lengths.push(length)?;
    }
    Ok(lengths)
}

// The name of the file at this position, if it is a library: only the last one is none.
fn library_at(files: &[File<Kept<()>>], position: usize) -> Option<&Str>
    requires { position < length files.now }
    ensures { option_map (λ n. n.now) result ≡ library_at files.now position }
{
    if position + 1 < files.len() {
        Some(&files[position].name)
    } else {
        None
    }
}

// A place in the text of the file at this position.
fn located_at(files: &[File<Kept<()>>], position: usize, place: u32) -> Located<'_>
    requires { position < length files.now }
    ensures { (d : File (Kept (Unit {0}))) → place_of result ≡ place_at files.now position place d }
{
    Located {
        library: library_at(files, position),
        text: text_at(files, position),
        place,
    }
}

// Where a place stands, where the texts of these files are so long.
fn located_in<'a>(files: &'a [File<Kept<()>>], lengths: &[u32], place: u32) -> Located<'a>
    requires lengths { lengths.now ≡ map text_length files.now }
    requires some { 0 < length files.now }
    ensures { place_of result ≡ place_in (file_texts files.now) place }
{
    let (position, place) = locate(lengths, place);
    located_at(files, position, place)
}

impl Texts {
    /// The texts of these files, of which the last begins at this place.
    pub(crate) fn of(files: Vec<File<Kept<()>>>, start: u32) -> Texts
        requires start { start ≡ query_start (file_texts files.items) }
        requires some { 0 < length files.items }
        ensures { result ≡ file_texts files.items }
    {
        Texts { files, start }
    }

    /// The query's text, after a byte order mark.
    pub fn query(&self) -> &[u8]
        ensures { result.now ≡ query_text self.now }
    {
        last_text(&self.files)
    }

    /// The place of its first byte.
    pub fn query_start(&self) -> u32
        ensures { result ≡ query_start self.now }
    {
        self.start
    }

    /// Where a place stands that counts from the first byte of all texts.
    ///
    /// # Errors
    ///
    /// `NoMemory` where memory runs out.
    pub fn located(&self, alloc: Global, place: u32) -> Result<Located<'_>, NoMemory>
        ensures { IfOk result (λ l. place_of l ≡ place_in self.now place) }
    {
        let lengths = lengths(alloc, &self.files)?;
        Ok(located_in(&self.files, &lengths, place))
    }
}
