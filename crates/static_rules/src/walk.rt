//! What a walk over a query sees, and what it has found.

ghost use Rattle.std.specs.Prelude.{◌≡◌, ℕ, ◌+◌, ◌-◌, ◌≤◌, not, ◌||◌, Some, None, List, [], ◌∷◌, ◌++◌, unwrap_or, is_some, length, take, drop, IfOk, OnOk};
ghost use Rattle.query_tree.specs.declared.bound.Slot.TheVariants.{Local};
ghost use Rattle.query_tree.specs.declared.bound.Target.TheVariants.{Own};
ghost use Rattle.static_rules.specs.Mentions.{mention_at, reads, reads_item, has_type, casts_to, calls, groups_by, position_mentions};
ghost use Rattle.query_tree.specs.Binders.{any_name};
ghost use Rattle.static_rules.specs.Compiling.{slot_of, with_slot, placed_type, any_binding, target_of, function_or_own, own_number};
ghost use Rattle.static_rules.specs.Walks.{State, bound_names, sooner, passed, tested, slot_found};
ghost use Rattle.item_tree.specs.Functions.{function_named};
ghost use Rattle.static_rules.specs.Views.{has_callee, has_name};
ghost use Rattle.static_rules.specs.Rules.{is_built_in};
ghost use Rattle.static_rules.specs.declared.rules.Rule.TheVariants.{UnknownFunction};
ghost use Rattle.query_tree.specs.NamedViews.{named_tree_list};
ghost use Rattle.static_rules.specs.Behind.{below, stream_of};
ghost use Rattle.static_rules.specs.Openings.{opened, opened_any, numbered, bound_to, bound_for, closed};
ghost use Rattle.static_rules.specs.Stacks.{callee_of};
ghost use Rattle.static_rules.specs.Declarations.{started, begun, bound_global, seeing_functions, earlier_functions};

use crate::calls::{is_lines, name_inputs, texts};
use crate::types::{is_unknown_cast_type, is_unknown_type, placed_type};
use crate::{Refusal, Rule};
use item_tree::{FnId, NoMemory, Str};
use name_scopes::{Functions, Scope};
use query_tree::{InputNames, NamedExpr, Placed, Slot, Target, TypeName};
use seq_types::SeqType;
use std::alloc::Global;
use std::marker::Model;

/// A walk over a query: what it sees where it stands, and what it has found so far.
#[derive(Drop)]
pub struct Walk<'q> {
    names: Scope<'q, Slot>,
    functions: Functions<'q>,
    number: u32,
    first: Option<Refusal>,
}

impl<'q> Model for Walk<'q> {
    ghost use Rattle.std.specs.Prelude.{map};
    ghost use Rattle.static_rules.specs.Walks.{State};
    ghost use Rattle.static_rules.specs.Stacks.{callee_of};

    ghost Value = { State };

    ghost view = { λ w.
        record {
          names = record {
            variables = w.names;
            functions = map callee_of w.functions;
          };
          number = w.number;
          first = w.first;
        } };
}

impl<'q> Walk<'q> {
    /// How many variables are bound here.
    pub fn depth(&self) -> usize
        ensures { result ≡ length self.now.names.variables }
    {
        self.names.len()
    }

    /// Takes the number of the next binding.
    #[tactic(auto, unfolding(crate::specs::Openings::numbered))]
    pub fn count(&mut self) -> Result<u32, NoMemory>
        ensures number { IfOk result (λ n. n ≡ self.old.number) }
        ensures walk { OnOk result (self.new ≡ numbered self.old) }
    {
        let number = self.number;
        let Some(next) = number.checked_add(1) else {
            return Err(NoMemory);
        };
        self.number = next;
        Ok(number)
    }

    /// The number of the next binding.
    pub fn number(&self) -> u32
        ensures { result ≡ self.now.number }
    {
        self.number
    }

    /// Tests the position variable of a `for`, if there is one, and takes its number.
    #[tactic(auto, using(crate::proofs::Passing::passings, crate::proofs::Scoping::positions))]
    pub fn position(
        &mut self,
        variable: &Placed<Str>,
        position: &Option<Placed<Str>>,
    ) -> Result<(), NoMemory>
        ensures { OnOk result
            (self.new
            ≡ passed self.old (position_mentions variable.now position.now)
            (any_name position.now)) }
    {
        match position {
            None => Ok(()),
            Some(at) => {
                self.test(at.name == variable.name, Rule::PositionTwice, at.place);
                self.count()?;
                Ok(())
            }
        }
    }

    /// Binds a variable.
    #[tactic(auto, unfolding(crate::specs::Openings::bound_to))]
    pub fn bind(&mut self, name: &'q Str, number: u32) -> Result<(), NoMemory>
        ensures { OnOk result (self.new ≡ bound_to self.old name.now number) }
    {
        self.names.push(name, Slot::Local(number))
    }

    /// Binds the variable of a `for` and its position variable, if there is one.
    #[tactic(auto, unfolding(crate::specs::Openings::bound_to, crate::specs::Openings::bound_for))]
    pub fn bind_for(
        &mut self,
        name: &'q Str,
        number: u32,
        position: &'q Option<Placed<Str>>,
        next: u32,
    ) -> Result<(), NoMemory>
        ensures { OnOk result (self.new ≡ bound_for self.old name.now number position.now next) }
    {
        self.bind(name, number)?;
        match position {
            None => Ok(()),
            Some(at) => self.bind(&at.name, next),
        }
    }

    /// Binds a variable, with the next number.
    #[tactic(auto, unfolding(crate::specs::Openings::opened, crate::specs::Openings::numbered, crate::specs::Openings::bound_to))]
    pub fn open(&mut self, name: &'q Str) -> Result<u32, NoMemory>
        ensures number { IfOk result (λ n. n ≡ self.old.number) }
        ensures walk { OnOk result (self.new ≡ opened self.old name.now) }
    {
        let number = self.count()?;
        self.bind(name, number)?;
        Ok(number)
    }

    /// Binds a variable, with the next number, if there is one.
    #[tactic(auto, unfolding(crate::specs::Openings::opened_any))]
    pub fn open_any(
        &mut self,
        variable: &'q Option<Placed<Str>>,
    ) -> Result<Option<Placed<Slot>>, NoMemory>
        ensures value { IfOk result (λ x. x ≡ any_binding variable.now self.old.number) }
        ensures walk { OnOk result (self.new ≡ opened_any self.old variable.now) }
    {
        match variable {
            None => Ok(None),
            Some(v) => {
                let number = self.open(&v.name)?;
                let bound = Placed {
                    place: v.place,
                    name: Slot::Local(number),
                };
                Ok(Some(bound))
            }
        }
    }

    /// Unbinds what was bound since so many variables were.
    #[tactic(auto, unfolding(crate::specs::Openings::closed))]
    pub fn close(&mut self, depth: usize)
        ensures { self.new ≡ closed self.old depth }
    {
        self.names.truncate(depth);
    }

    /// Keeps a refusal, where it comes before all others.
    pub fn refuse(&mut self, rule: Rule, place: u32)
        ensures { self.new
            ≡ record self.old
            { first = sooner self.old.first (Some (record { place = place; rule = rule })) } }
    {
        let refusal = Refusal { place, rule };
        self.first = Some(match self.first {
            None => refusal,
            Some(first) => first.or_earlier(refusal),
        });
    }

    /// Keeps a refusal, where the rule is broken, and that comes before all others.
    pub fn test(&mut self, broken: bool, rule: Rule, place: u32)
        ensures { self.new ≡ tested self.old broken rule place }
    {
        if broken {
            self.refuse(rule, place);
        }
    }

    /// Reads `$$`.
    pub fn read_item(&mut self, item: bool, place: u32)
        ensures { self.new ≡ passed self.old (mention_at place (reads_item item) ∷ []) [] }
    {
        self.test(!item, Rule::NoContextItem, place);
    }

    /// The type of a sequence.
    pub fn seq_type(&mut self, t: &Placed<TypeName>) -> Placed<SeqType>
        ensures value { result ≡ placed_type t.now }
        ensures walk { self.new
            ≡ passed self.old (mention_at t.now.place (has_type t.now.name) ∷ []) [] }
    {
        self.test(is_unknown_type(&t.name), Rule::UnknownType, t.place);
        placed_type(t)
    }

    /// The type of a cast.
    pub fn cast_type(&mut self, t: &Placed<TypeName>) -> Placed<SeqType>
        ensures value { result ≡ placed_type t.now }
        ensures walk { self.new
            ≡ passed self.old (mention_at t.now.place (casts_to t.now.name) ∷ []) [] }
    {
        self.test(
            is_unknown_cast_type(&t.name),
            Rule::UnknownCastType,
            t.place,
        );
        placed_type(t)
    }

    /// What is called here.
    pub fn call(
        &mut self,
        alloc: Global,
        place: u32,
        name: &Str,
        arguments: &[NamedExpr],
    ) -> Result<Target, NoMemory>
        ensures value { IfOk result
            (λ t. t ≡ target_of self.old.names name.now (named_tree_list arguments.now)) }
        ensures walk { OnOk result
            (self.new
            ≡ passed self.old
            (mention_at place
            (calls name.now (named_tree_list arguments.now) self.old.names.functions) ∷ []) []) }
    {
        if is_lines(name) {
            self.test(!name_inputs(arguments), Rule::UnnamedInput, place);
            let inputs = InputNames::new(texts(alloc, arguments)?);
            return Ok(Target::Lines(inputs));
        }
        self.call_function(place, name, arguments.len())
    }

    fn call_function(&mut self, place: u32, name: &Str, arity: usize) -> Result<Target, NoMemory>
        ensures value { IfOk result
            (λ t.
            t
            ≡ function_or_own (function_named name.now arity)
            (own_number self.old.names.functions name.now arity)) }
        ensures walk { OnOk result
            (self.new
            ≡ tested self.old
            (not
            (is_built_in name.now arity || has_callee self.old.names.functions name.now arity))
            UnknownFunction place) }
    {
        let built = FnId::find(name.as_str(), arity);
        let own = self.functions.position(name, arity);
        self.test(!is_known(built, own), Rule::UnknownFunction, place);
        match built {
            Some(id) => Ok(Target::Built(id)),
            None => own_target(own),
        }
    }

    /// The variable of the stream by which a key groups. The stream was bound behind the first
    /// `base` variables, and before all behind the first `mark`.
    pub fn group(&mut self, name: &Str, place: u32, base: usize, mark: usize) -> Slot
        ensures slot { result ≡ slot_of (below mark self.old.names) name.now }
        ensures walk { self.new
            ≡ passed self.old
            (mention_at place (groups_by name.now (stream_of base (below mark self.old.names)))
            ∷ []) [] }
    {
        let found = self.names.latest_below(name, mark);
        let known = self.is_between(name, base, mark);
        self.test(!known, Rule::NoStreamVariable, place);
        found.unwrap_or(Slot::Local(0))
    }

    fn is_between(&self, name: &Str, base: usize, mark: usize) -> bool
        ensures { result ≡ has_name (stream_of base (below mark self.now.names)) name.now }
    {
        self.names.is_between(name, base, mark)
    }

    fn find(&self, name: &Str) -> Option<Slot>
        ensures { result ≡ slot_found self.now.names.variables name.now }
    {
        self.names.latest(name)
    }

    /// The variable of this name, which is read here.
    #[tactic(auto, using(crate::proofs::Stacking::reading))]
    pub fn read(&mut self, name: &Str, place: u32) -> Slot
        ensures slot { result ≡ slot_of self.old.names name.now }
        ensures walk { self.new
            ≡ passed self.old
            (mention_at place (reads name.now (bound_names self.old.names.variables)) ∷ []) [] }
    {
        let found = self.find(name);
        self.test(found.is_none(), Rule::UnboundVariable, place);
        found.unwrap_or(Slot::Local(0))
    }

    /// A walk that stands before a query.
    #[tactic(auto, unfolding(crate::specs::Declarations::started))]
    pub fn new(alloc: Global) -> Walk<'q>
        ensures { result ≡ started }
    {
        Walk {
            names: Scope::new(alloc),
            functions: Functions::new(alloc),
            number: 0,
            first: None,
        }
    }

    /// Begins a declaration: its bindings have the numbers from 0.
    #[tactic(auto, unfolding(crate::specs::Declarations::begun))]
    pub fn begin(&mut self)
        ensures { self.new ≡ begun self.old }
    {
        self.number = 0;
    }

    /// How many numbers are taken in this declaration.
    pub fn width(&self) -> usize
        ensures { result ≡ self.now.number }
    {
        self.number as usize
    }

    /// The earliest of all that is broken so far.
    pub fn first(&self) -> Option<Refusal>
        ensures { result ≡ self.now.first }
    {
        self.first
    }

    /// Whether a variable of this name is bound here.
    pub fn is_bound(&self, name: &Str) -> bool
        ensures { result ≡ has_name (bound_names self.now.names.variables) name.now }
    {
        self.find(name).is_some()
    }

    /// Whether one was bound since so many variables were.
    pub fn is_bound_since(&self, name: &Str, base: usize) -> bool
        requires { base ≤ length self.now.names.variables }
        ensures { result ≡ has_name (stream_of base self.now.names) name.now }
    {
        self.is_between(name, base, self.names.len())
    }

    /// Binds the declared variable with this number.
    #[tactic(auto, unfolding(crate::specs::Declarations::bound_global))]
    pub fn declare(&mut self, name: &'q Str, number: usize) -> Result<Slot, NoMemory>
        ensures slot { IfOk result (λ s. s ≡ Slot.Global number) }
        ensures walk { OnOk result (self.new ≡ bound_global self.old name.now number) }
    {
        let Ok(number) = u32::try_from(number) else {
            return Err(NoMemory);
        };
        let slot = Slot::Global(number);
        self.names.push(name, slot)?;
        Ok(slot)
    }

    /// Sees no declared functions.
    #[tactic(auto, unfolding(crate::specs::Declarations::seeing_functions))]
    pub fn see_none(&mut self)
        ensures { self.new ≡ seeing_functions self.old [] }
    {
        self.functions.clear();
    }

    /// Sees one more declared function, behind the others.
    #[tactic(auto, using(crate::proofs::Declaring::more_functions), unfolding(crate::specs::Declarations::seeing_functions))]
    pub fn see(&mut self, name: &'q Str, arity: usize) -> Result<(), NoMemory>
        ensures { OnOk result
            (self.new
            ≡ seeing_functions self.old
            (self.old.names.functions ++ callee_of (name.now, arity) ∷ [])) }
    {
        self.functions.push(name, arity)
    }

    /// Whether one of the first so many declared functions has this name and takes so many
    /// arguments.
    pub fn is_declared(&self, number: usize, name: &Str, arity: usize) -> bool
        requires { number ≤ length self.now.names.functions }
        ensures { result ≡ has_callee (earlier_functions self.now.names number) name.now arity }
    {
        self.functions.is_among_first(number, name, arity)
    }
}

// The declared function that is called.
fn own_target(own: Option<usize>) -> Result<Target, NoMemory>
    ensures { IfOk result (λ t. t ≡ Own (unwrap_or own 0)) }
{
    match u32::try_from(own.unwrap_or(0)) {
        Ok(number) => Ok(Target::Own(number)),
        Err(_) => Err(NoMemory),
    }
}

fn is_known(built: Option<FnId>, own: Option<usize>) -> bool
    ensures { result ≡ (is_some built || is_some own) }
{
    built.is_some() || own.is_some()
}
