//! One turn of the machine.

ghost use Rattle.std.specs.Prelude.{◌≡◌, ◌∷◌, [], ℕ, List, true, false, IfOk, OnOk};
ghost use Rattle.item_tree.specs.Item.{datum};
ghost use Rattle.json_text.specs.inside.Machine.{token_at, token_from, string_token};
ghost use Rattle.json_text.specs.inside.Scan.{string_at};
ghost use Rattle.json_text.specs.inside.Machine as m;
ghost use Rattle.json_text.specs.inside.Build.{start};
ghost use Rattle.item_reader.specs.Tokens.{StandsFor};
ghost use Rattle.item_reader.specs.View.{build_of, mode_of, kinds_of};
ghost use Rattle.json_text.specs.inside.Fits.{BuildFits};
ghost use Rattle.item_reader.specs.Turns.{IsTurn, IsAdded, Steps, Opens, PassesNumber, Passes, GoesOn, TurnsBy, TurnsPart, GivesTurn, TakesRow, closing};

use crate::build::{Build, Trouble};
use crate::row::row_front;
use crate::string::{escaped_text, plain_text};
use crate::token::{Token, short_from, skip_spaces, uncons, value_from};
use byte_lanes::string_front;
use item_tree::{Item, NoMemory, Str, array_of_few};
use std::alloc::Global;

#[derive(Clone, Copy, Debug)]
pub enum Mode {
    Value(bool),
    Key(bool),
    Name,
    After,
}

#[derive(Drop)]
pub struct State {
    pub mode: Mode,
    /// Whether each container that is open is an array, the innermost last.
    pub kinds: Vec<bool>,
    pub build: Build,
    /// What a string with escapes spells is gathered here.
    content: Vec<u8>,
}

#[derive(Clone, Copy, Debug)]
pub enum Turn {
    More,
    End,
    NotJson,
}

impl State {
    pub fn new(alloc: Global) -> State
        ensures build { build_of result.build ≡ start }
        ensures kinds { kinds_of result.kinds.items ≡ [] }
        ensures mode { mode_of result.mode ≡ m.value false }
    {
        State {
            mode: Mode::Value(false),
            kinds: Vec::new(alloc),
            build: Build::new(alloc),
            content: Vec::new(alloc),
        }
    }

    /// A new text begins.
    pub fn restart(&mut self)
        ensures build { build_of self.new.build ≡ start }
        ensures kinds { kinds_of self.new.kinds.items ≡ [] }
        ensures mode { mode_of self.new.mode ≡ m.value false }
    {
        self.mode = Mode::Value(false);
        self.kinds.clear();
        self.build.restart();
    }

    #[inline(always)]
    #[tactic(auto, using(crate::proofs::Turning::kind_pushed))]
    fn open_array(&mut self, alloc: Global) -> Result<(), NoMemory>
        ensures { OnOk result (Opens true self.old self.new) }
    {
        self.build.open(alloc, true)?;
        self.kinds.push(true)?;
        self.mode = Mode::Value(true);
        Ok(())
    }

    #[tactic(auto, using(crate::proofs::Turning::kind_pushed))]
    fn open_object(&mut self, alloc: Global) -> Result<(), NoMemory>
        ensures { OnOk result (Opens false self.old self.new) }
    {
        self.build.open(alloc, false)?;
        self.kinds.push(false)?;
        self.mode = Mode::Key(true);
        Ok(())
    }

    // The innermost container closes, if it is of this kind.
    fn close(&mut self, alloc: Global, is_array: bool) -> Result<Turn, NoMemory>
        requires { BuildFits (build_of self.old.build) }
        ensures { IfOk result (λ r. IsTurn m.after self.old (closing is_array) r self.new) }
    {
        match self.kinds.pop() {
            Some(kind) => {
                if kind != is_array {
                    return Ok(Turn::NotJson);
                }
                self.build.close(alloc)?;
                self.mode = Mode::After;
                Ok(Turn::More)
            }
            None => Ok(Turn::NotJson),
        }
    }

    #[inline(always)]
    fn add(&mut self, alloc: Global, item: Item) -> Result<(), NoMemory>
        ensures { OnOk result (IsAdded self.old (datum item) self.new) }
    {
        self.build.add(alloc, item)?;
        self.mode = Mode::After;
        Ok(())
    }

    fn number_out(&mut self)
        ensures { PassesNumber self.old self.new }
    {
        self.build.fail(Trouble::NumberOut);
        self.mode = Mode::After;
    }

    #[inline(always)]
    fn set_key(&mut self, text: Str)
        ensures { Steps self.old (m.keyed text) m.name (kinds_of self.old.kinds.items) self.new }
    {
        self.build.set_key(text);
        self.mode = Mode::Name;
    }

    #[inline(always)]
    fn value_turn(&mut self, alloc: Global, may_end: bool, token: Token) -> Result<Turn, NoMemory>
        requires { BuildFits (build_of self.old.build) }
        ensures { TurnsBy (m.value may_end) self.old token result self.new }
    {
        match token {
            Token::OpenArray => self.open_array(alloc)?,
            Token::OpenObject => self.open_object(alloc)?,
            Token::Atom(item) => self.add(alloc, item)?,
            Token::NumberOut => self.number_out(),
            Token::CloseArray => {
                if may_end {
                    return self.close(alloc, true);
                }
                return Ok(Turn::NotJson);
            }
            Token::CloseObject | Token::Comma | Token::Colon | Token::End | Token::Bad => {
                return Ok(Turn::NotJson);
            }
        }
        Ok(Turn::More)
    }

    #[inline(always)]
    fn key_turn(&mut self, alloc: Global, may_end: bool, token: Token) -> Result<Turn, NoMemory>
        requires { BuildFits (build_of self.old.build) }
        ensures { TurnsBy (m.key may_end) self.old token result self.new }
    {
        match token {
            Token::CloseObject => {
                if may_end {
                    self.close(alloc, false)
                } else {
                    Ok(Turn::NotJson)
                }
            }
            Token::OpenArray
            | Token::CloseArray
            | Token::OpenObject
            | Token::Comma
            | Token::Colon
            | Token::Atom(_)
            | Token::NumberOut
            | Token::End
            | Token::Bad => Ok(Turn::NotJson),
        }
    }

    #[inline(always)]
    fn name_turn(&mut self, token: &Token) -> Turn
        ensures { (t : m.Token) → StandsFor token.now t → IsTurn m.name self.old t result self.new }
    {
        match token {
            Token::Colon => {
                self.mode = Mode::Value(false);
                Turn::More
            }
            _ => Turn::NotJson,
        }
    }

    // What may come behind a comma, where there may be one.
    #[inline(always)]
    fn behind_comma(&self) -> Option<Mode>
        ensures { GoesOn result (kinds_of self.now.kinds.items) }
    {
        match self.kinds.last() {
            None => None,
            Some(true) => Some(Mode::Value(false)),
            Some(false) => Some(Mode::Key(false)),
        }
    }

    #[inline(always)]
    fn go_on(&mut self) -> Turn
        ensures { IsTurn m.after self.old m.comma result self.new }
    {
        match self.behind_comma() {
            None => Turn::NotJson,
            Some(mode) => {
                self.mode = mode;
                Turn::More
            }
        }
    }

    #[inline(always)]
    fn end_turn(&self) -> Turn
        ensures { IsTurn m.after self.now m.end result self.now }
    {
        if self.kinds.is_empty() {
            Turn::End
        } else {
            Turn::NotJson
        }
    }

    #[inline(always)]
    fn after_turn(&mut self, alloc: Global, token: &Token) -> Result<Turn, NoMemory>
        requires { BuildFits (build_of self.old.build) }
        ensures { TurnsBy m.after self.old token.now result self.new }
    {
        match token {
            Token::Comma => Ok(self.go_on()),
            Token::CloseArray => self.close(alloc, true),
            Token::CloseObject => self.close(alloc, false),
            Token::End => Ok(self.end_turn()),
            _ => Ok(Turn::NotJson),
        }
    }

    #[inline(always)]
    fn pass_colon<'a>(&mut self, line: &'a [u8]) -> &'a [u8]
        requires { mode_of self.old.mode ≡ m.name }
        ensures { Passes self.old line.now self.new result.now }
    {
        let Some((mark, rest)) = uncons(line) else {
            return line;
        };
        if mark != b':' {
            return line;
        }
        self.mode = Mode::Value(false);
        rest
    }

    #[inline(always)]
    fn pass_comma<'a>(&mut self, line: &'a [u8]) -> &'a [u8]
        requires { mode_of self.old.mode ≡ m.after }
        ensures { Passes self.old line.now self.new result.now }
    {
        let Some((mark, rest)) = uncons(line) else {
            return line;
        };
        if mark != b',' {
            return line;
        }
        match self.behind_comma() {
            None => line,
            Some(mode) => {
                self.mode = mode;
                rest
            }
        }
    }

    /// Passes the colon that stands right behind a key, or the comma right behind a value, without
    /// a turn of its own. What is left comes to the same.
    #[inline(always)]
    pub fn pass_mark<'a>(&mut self, line: &'a [u8]) -> &'a [u8]
        ensures { Passes self.old line.now self.new result.now }
    {
        match self.mode {
            Mode::Name => self.pass_colon(line),
            Mode::After => self.pass_comma(line),
            Mode::Value(_) | Mode::Key(_) => line,
        }
    }

    // The turn of this token.
    #[inline(always)]
    fn take(&mut self, alloc: Global, token: Token) -> Result<Turn, NoMemory>
        requires { BuildFits (build_of self.old.build) }
        ensures { TurnsBy (mode_of self.old.mode) self.old token result self.new }
    {
        match self.mode {
            Mode::Value(may_end) => self.value_turn(alloc, may_end, token),
            Mode::Key(may_end) => self.key_turn(alloc, may_end, token),
            Mode::Name => Ok(self.name_turn(&token)),
            Mode::After => self.after_turn(alloc, &token),
        }
    }

    // The turn of this token, and what is behind it. It is inlined at each mark, where the token is
    // known, so that nothing is left to choose.
    #[inline(always)]
    fn take_part<'a>(
        &mut self,
        alloc: Global,
        token: Token,
        behind: &'a [u8],
    ) -> Result<(Turn, &'a [u8]), NoMemory>
        requires { BuildFits (build_of self.old.build) }
        ensures { TurnsPart self.old token behind.now result self.new }
    {
        let turn = self.take(alloc, token)?;
        Ok((turn, behind))
    }

    // The turn of a string of this text, and what is behind it.
    #[inline(always)]
    fn take_text<'a>(
        &mut self,
        alloc: Global,
        text: Str,
        behind: &'a [u8],
    ) -> Result<(Turn, &'a [u8]), NoMemory>
        ensures { GivesTurn self.old (m.characters text, behind.now) result self.new }
    {
        match self.mode {
            Mode::Value(_) => {
                self.add(alloc, Item::Text(text))?;
                Ok((Turn::More, behind))
            }
            Mode::Key(_) => {
                self.set_key(text);
                Ok((Turn::More, behind))
            }
            Mode::Name | Mode::After => Ok((Turn::NotJson, behind)),
        }
    }

    // The turn of a string whose opening quote is before the line, and what is behind it.
    fn take_string<'a>(
        &mut self,
        alloc: Global,
        line: &'a [u8],
    ) -> Result<(Turn, &'a [u8]), NoMemory>
        ensures { GivesTurn self.old (string_token (string_at line.now)) result self.new }
    {
        let (len, ascii) = string_front(line);
        if let Some((text, behind)) = plain_text(alloc, line, len, ascii)? {
            return self.take_text(alloc, text, behind);
        }
        match escaped_text(alloc, &mut self.content, line, len, ascii)? {
            Some((text, behind)) => self.take_text(alloc, text, behind),
            None => Ok((Turn::NotJson, &[])),
        }
    }

    // The turn of the token of a text that begins with this byte, which is no space.
    fn take_from<'a>(
        &mut self,
        alloc: Global,
        b: u8,
        rest: &'a [u8],
        line: &'a [u8],
    ) -> Result<(Turn, &'a [u8]), NoMemory>
        requires line { line.now ≡ b ∷ rest.now }
        requires fits { BuildFits (build_of self.old.build) }
        ensures { GivesTurn self.old (token_from b rest.now) result self.new }
    {
        if b == b'[' {
            return self.take_part(alloc, Token::OpenArray, rest);
        }
        if b == b']' {
            return self.take_part(alloc, Token::CloseArray, rest);
        }
        if b == b'{' {
            return self.take_part(alloc, Token::OpenObject, rest);
        }
        if b == b'}' {
            return self.take_part(alloc, Token::CloseObject, rest);
        }
        if b == b',' {
            return self.take_part(alloc, Token::Comma, rest);
        }
        if b == b':' {
            return self.take_part(alloc, Token::Colon, rest);
        }
        if b == b'"' {
            return self.take_string(alloc, rest);
        }
        // Most numbers are short and whole. Where their token is taken apart from the others,
        // nothing is left to choose here either.
        if let Some((token, behind)) = short_from(b, rest, line) {
            return self.take_part(alloc, token, behind);
        }
        let (token, behind) = value_from(b, rest, line);
        self.take_part(alloc, token, behind)
    }

    /// The turn of the token at the front, behind spaces, and what is behind it.
    pub fn take_next<'a>(
        &mut self,
        alloc: Global,
        line: &'a [u8],
    ) -> Result<(Turn, &'a [u8]), NoMemory>
        requires { BuildFits (build_of self.old.build) }
        ensures { GivesTurn self.old (token_at line.now) result self.new }
    {
        let left = skip_spaces(line);
        match uncons(left) {
            None => self.take_part(alloc, Token::End, &[]),
            Some((b, rest)) => self.take_from(alloc, b, rest, left),
        }
    }

    /// An array of a few short numbers at the front, where a value may come, goes in as one value,
    /// and no level opens for it. This is what is behind it. Where there is none, nothing is done.
    #[inline(always)]
    pub fn take_row<'a>(
        &mut self,
        alloc: Global,
        line: &'a [u8],
    ) -> Result<Option<&'a [u8]>, NoMemory>
        ensures { IfOk result (λ o. TakesRow self.old line.now o self.new) }
    {
        let Some((b'[', inside)) = uncons(line) else {
            return Ok(None);
        };
        let Mode::Value(_) = self.mode else {
            return Ok(None);
        };
        if !self.build.may_open() {
            return Ok(None);
        }
        match row_front(inside) {
            None => Ok(None),
            Some((numbers, behind)) => {
                let row = array_of_few(alloc, numbers)?;
                self.add(alloc, row)?;
                Ok(Some(behind))
            }
        }
    }
}
