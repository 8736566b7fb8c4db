//! Endings, by what they tell or write.

ghost use Rattle.std.specs.Prelude.{◌≡◌, [], ◌++◌, IfOk, codes, string_bytes, length};
ghost use Rattle.std.specs.Fmt.{decimal};
ghost use Rattle.std.specs.Str.{encode_utf8_all};
ghost use Rattle.item_tree.specs.Item.{datums};
ghost use Rattle.query_tree.specs.Compiled.{bound_trees};
ghost use Rattle.rumble_run.specs.Answer.{says, writes, writes_items, prints, refused, raised, fault_text, clause_text, spot_text, accepted, explained, usage, stats_text};
ghost use Rattle.rumble_run.specs.Parts.{parts_usage};
ghost use Rattle.rumble_run.specs.inside.Seen.{answer_of};

use crate::ending::Ending;
use crate::print::{Printed, print_items};
use crate::status::Status;
use item_tree::{Fault, Item, NoMemory, Spot, Str};
use mode_planner::make_plan;
use plan_text::explain_text;
use query_tree::Compiled;
use std::alloc::{AllocError, Global};
use text_places::line_column;

// The words that the program knows.
const USAGE: &str = "usage: rumble run QUERY | check QUERY | explain QUERY | trial NUMBER LINES\n";

// The words of a run with parts.
const PARTS_USAGE: &str = "usage: rumble parts QUERY COUNT\n";

/// What `check` writes for a query that is accepted.
const ACCEPTED: &[u8] = b"accepted\n";

// An ending that only tells something.
fn says(alloc: Global, status: Status, text: String) -> Ending
    ensures { answer_of result ≡ record { status = status; out = []; err = string_bytes text } }
{
    Ending {
        status,
        out: Vec::new(alloc),
        err: text,
    }
}

/// The words are of no command.
pub(crate) fn tells_usage(alloc: Global) -> Result<Ending, AllocError>
    ensures { IfOk result (λ e. answer_of e ≡ usage) }
{
    let text = String::from_str(alloc, USAGE)?;
    Ok(says(alloc, Status::Usage, text))
}

/// The words begin with `parts`, and ask for nothing.
pub(crate) fn tells_parts_usage(alloc: Global) -> Result<Ending, AllocError>
    ensures { IfOk result (λ e. answer_of e ≡ parts_usage) }
{
    let text = String::from_str(alloc, PARTS_USAGE)?;
    Ok(says(alloc, Status::Usage, text))
}

/// There is no query of this name.
pub(crate) fn tells_no_query(alloc: Global, name: &Str) -> Result<Ending, AllocError>
    ensures { IfOk result (λ e.
        answer_of e ≡ says Status.NoQuery (codes "no query " ++ encode_utf8_all name.now)) }
{
    let name = name.as_str();
    let text = format!(in alloc; "no query {name}\n")?;
    Ok(says(alloc, Status::NoQuery, text))
}

// A fault of a query's text, which stands behind a byte order mark.
fn fault_text(alloc: Global, text: &[u8], fault: &Fault) -> Result<String, AllocError>
    ensures { IfOk result (λ s. string_bytes s ≡ fault_text text.now fault.now) }
{
    let code = fault.code.text();
    let at = line_column(text, fault.place);
    let line = at.line;
    let column = at.column;
    format!(in alloc; "{code} at {line}:{column}")
}

// A word and a number.
fn numbered(alloc: Global, word: &str, n: u64) -> Result<String, AllocError>
    ensures { IfOk result (λ s. string_bytes s ≡ word.now ++ decimal n) }
{
    format!(in alloc; "{word}{n}")
}

fn clause_text(alloc: Global, spot: Spot) -> Result<String, AllocError>
    ensures { IfOk result (λ s. string_bytes s ≡ clause_text spot) }
{
    let clause = numbered(alloc, " clause ", u64::from(spot.clause))?;
    let tuple = numbered(alloc, " tuple ", spot.tuple)?;
    let clause = clause.as_str();
    let tuple = tuple.as_str();
    format!(in alloc; "{clause}{tuple}")
}

// The clause and the tuple that a fault left.
fn spot_text(alloc: Global, spot: Option<Spot>) -> Result<String, AllocError>
    ensures { IfOk result (λ s. string_bytes s ≡ spot_text spot) }
{
    match spot {
        None => Ok(String::new(alloc)),
        Some(spot) => clause_text(alloc, spot),
    }
}

/// The query is refused.
pub(crate) fn tells_refusal(alloc: Global, text: &[u8], fault: &Fault) -> Result<Ending, AllocError>
    ensures { IfOk result (λ e. answer_of e ≡ refused text.now fault.now) }
{
    let fault = fault_text(alloc, text, fault)?;
    let fault = fault.as_str();
    let text = format!(in alloc; "refused {fault}\n")?;
    Ok(says(alloc, Status::Refused, text))
}

/// The query raised an error.
pub(crate) fn tells_error(alloc: Global, text: &[u8], fault: &Fault) -> Result<Ending, AllocError>
    ensures { IfOk result (λ e. answer_of e ≡ raised text.now fault.now) }
{
    let spot = spot_text(alloc, fault.spot)?;
    let fault = fault_text(alloc, text, fault)?;
    let fault = fault.as_str();
    let spot = spot.as_str();
    let text = format!(in alloc; "raised {fault}{spot}\n")?;
    Ok(says(alloc, Status::Raised, text))
}

// An ending that writes something.
fn writes(alloc: Global, out: Vec<u8>) -> Ending
    ensures { answer_of result ≡ writes out.items }
{
    Ending {
        status: Status::Done,
        out,
        err: String::new(alloc),
    }
}

/// The query is accepted.
pub(crate) fn accepts(alloc: Global) -> Result<Ending, AllocError>
    ensures { IfOk result (λ e. answer_of e ≡ accepted) }
{
    let out = ACCEPTED.to_vec(alloc)?;
    Ok(writes(alloc, out))
}

/// How the parts of a query are evaluated, line by line.
pub(crate) fn explains(alloc: Global, text: &[u8], query: &Compiled) -> Result<Ending, NoMemory>
    ensures { IfOk result (λ e. answer_of e ≡ explained text.now (bound_trees query.now.tree)) }
{
    let plan = make_plan(alloc, query.module(), false)?;
    let out = explain_text(alloc, &plan, text)?;
    Ok(writes(alloc, out))
}

// How many items were printed, and in how many bytes.
fn stats_text(alloc: Global, items: usize, bytes: usize) -> Result<String, AllocError>
    ensures { IfOk result (λ s. string_bytes s ≡ stats_text items bytes) }
{
    let items = numbered(alloc, "items ", items as u64)?;
    let bytes = numbered(alloc, " bytes ", bytes as u64)?;
    let items = items.as_str();
    let bytes = bytes.as_str();
    format!(in alloc; "{items}{bytes}")
}

/// What is printed of some items is written; they are counted where the statistics are asked for.
pub(crate) fn writes_items(
    alloc: Global,
    stats: bool,
    printed: Printed,
) -> Result<Ending, AllocError>
    ensures { IfOk result (λ e.
        answer_of e ≡ writes_items stats printed.items printed.out.items) }
{
    let Printed { items, out } = printed;
    if !stats {
        return Ok(writes(alloc, out));
    }
    let text = stats_text(alloc, items, out.len())?;
    let text = text.as_str();
    let err = format!(in alloc; "{text}\n")?;
    Ok(Ending {
        status: Status::Done,
        out,
        err,
    })
}

/// These items are printed, and counted where the statistics are asked for.
pub(crate) fn prints(alloc: Global, stats: bool, items: &[Item]) -> Result<Ending, NoMemory>
    ensures { IfOk result (λ e. answer_of e ≡ prints stats (datums items.now)) }
{
    let out = print_items(alloc, items)?;
    let printed = Printed {
        items: items.len(),
        out,
    };
    Ok(writes_items(alloc, stats, printed)?)
}
