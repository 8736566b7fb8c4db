//! Laws of the grammar. Each holds of all lists of words: a call brings it to a proof, and does
//! nothing when it runs.

ghost use Rattle.std.specs.Prelude.{ℕ, List};
ghost use Rattle.query_lexer.specs.declared.token.Token.{Token};
ghost use Rattle.query_grammar.specs.declared.word.Word.{Word};
ghost use Rattle.query_grammar.specs.Nodes.{Module};
ghost use Rattle.query_grammar.specs.Laws.{HasOneTree, IsDecided, HasOneRefusal, IsNeverBoth, HasOneReading, IsBoundedByNesting, HasTreesInBounds, HasCommasApart};

/// A list of words derives at most one tree.
pub fn one_tree()
    ensures { (words : List Word) → HasOneTree words }
{}

/// A list of words derives a tree or is refused, and never both. Place and code of a refusal are
/// one. `end` is the place behind the last word.
pub fn tree_or_refusal()
    ensures either { (words : List Word) → (end : ℕ) → IsDecided words end }
    ensures not_both { (words : List Word) → (end : ℕ) → IsNeverBoth words end }
    ensures one { (words : List Word) → (end : ℕ) → HasOneRefusal words end }
{}

/// The tokens of a text are the words of at most one list, wherever the text begins.
pub fn one_reading()
    ensures { (start : ℕ) → (text : List ℕ) → (tokens : List Token)
        → HasOneReading start text tokens }
{}

/// The bound of the grammar is one on the nesting of trees: where at most `n` forms may nest, a
/// list of words derives exactly the trees that it derives without a bound and that are nested no
/// deeper. So the expressions of a query are nested no deeper than the language's bound.
pub fn nesting_is_bounded()
    ensures each { (n : ℕ) → (words : List Word) → (t : Module) → IsBoundedByNesting n words t }
    ensures query { (words : List Word) → HasTreesInBounds words }
{}

/// No operand of a comma on the spine of a query's expression is itself a comma. As the expressions
/// are nested at most 100 deep, by `query_tree::laws::nesting_bounds_spines` each spine is at most
/// 201 long.
pub fn commas_stand_apart()
    ensures { (words : List Word) → HasCommasApart words }
{}
