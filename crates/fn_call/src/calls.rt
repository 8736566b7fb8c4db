//! Which function a call is of.

ghost use Rattle.std.specs.Prelude.{◌≡◌, Ok, IfOk, IfErr};
ghost use Rattle.item_tree.specs.Item.{datums};
ghost use Rattle.value_rules.specs.Arguments.{argument_values};
ghost use Rattle.fn_table.specs.Table.{argument, function_value};
ghost use Rattle.fn_call.specs.Faults.{FailsAs};

use crate::dates::{add_days, day_from_date, days_between, month_from_date, year_from_date};
use crate::item_texts::{parse_json, serialize};
use fn_numbers::{abs, avg, ceiling, floor, max, min, round, round_half_to_even, sum};
use fn_objects::{
    accumulate, descendant_arrays, descendant_objects, flatten, keys, members, project,
    remove_keys, size, values,
};
use fn_sequences::{
    boolean, count, deep_equal, distinct_values, empty, exactly_one, exists, head, index_of,
    insert_before, one_or_more, remove, reverse, subsequence, subsequence_3, tail, zero_or_one,
};
use fn_strings::{
    concat, contains, ends_with, normalize_space, starts_with, string, string_join, string_join_2,
    string_length, string_to_codepoints, substring, substring_3, substring_after, substring_before,
    tokenize, translate,
};
use item_tree::{Code, FnId, Item, OpFault};
use std::alloc::Global;

/// What a function gives for its arguments: exactly what the table of functions says. An argument
/// that is not there is taken as empty, and one too many is left out.
pub fn call(alloc: Global, id: FnId, arguments: &[Vec<Item>]) -> Result<Vec<Item>, OpFault>
    ensures value { IfOk result
        (λ xs. function_value id (argument_values arguments.now) ≡ Ok (datums xs.items)) }
    ensures fault { IfErr result
        (FailsAs id (function_value id (argument_values arguments.now))) }
{
    let first = argument(arguments, 0);
    let second = argument(arguments, 1);
    let third = argument(arguments, 2);
    match id {
        FnId::Count => count(alloc, first),
        FnId::Empty => empty(alloc, first),
        FnId::Exists => exists(alloc, first),
        FnId::Head => head(alloc, first),
        FnId::Tail => tail(alloc, first),
        FnId::Reverse => reverse(alloc, first),
        FnId::Subsequence => subsequence(alloc, first, second),
        FnId::Subsequence3 => subsequence_3(alloc, first, second, third),
        FnId::InsertBefore => insert_before(alloc, first, second, third),
        FnId::Remove => remove(alloc, first, second),
        FnId::DistinctValues => distinct_values(alloc, first),
        FnId::IndexOf => index_of(alloc, first, second),
        FnId::DeepEqual => deep_equal(alloc, first, second),
        FnId::Boolean => boolean(alloc, first),
        FnId::ZeroOrOne => zero_or_one(alloc, first),
        FnId::OneOrMore => one_or_more(alloc, first),
        FnId::ExactlyOne => exactly_one(alloc, first),
        FnId::Keys => keys(alloc, first),
        FnId::Values => values(alloc, first),
        FnId::Members => members(alloc, first),
        FnId::Size => size(alloc, first),
        FnId::Project => project(alloc, first, second),
        FnId::RemoveKeys => remove_keys(alloc, first, second),
        FnId::Flatten => flatten(alloc, first),
        FnId::DescendantObjects => descendant_objects(alloc, first),
        FnId::DescendantArrays => descendant_arrays(alloc, first),
        FnId::Accumulate => accumulate(alloc, first),
        FnId::Abs => abs(alloc, first),
        FnId::Floor => floor(alloc, first),
        FnId::Ceiling => ceiling(alloc, first),
        FnId::Round => round(alloc, first),
        FnId::RoundHalfToEven => round_half_to_even(alloc, first),
        FnId::Sum => sum(alloc, first),
        FnId::Avg => avg(alloc, first),
        FnId::Min => min(alloc, first),
        FnId::Max => max(alloc, first),
        FnId::String => string(alloc, first),
        FnId::Concat => concat(alloc, arguments),
        FnId::StringJoin => string_join(alloc, first),
        FnId::StringJoin2 => string_join_2(alloc, first, second),
        FnId::StringLength => string_length(alloc, first),
        FnId::Substring => substring(alloc, first, second),
        FnId::Substring3 => substring_3(alloc, first, second, third),
        FnId::Contains => contains(alloc, first, second),
        FnId::StartsWith => starts_with(alloc, first, second),
        FnId::EndsWith => ends_with(alloc, first, second),
        FnId::SubstringBefore => substring_before(alloc, first, second),
        FnId::SubstringAfter => substring_after(alloc, first, second),
        FnId::NormalizeSpace => normalize_space(alloc, first),
        FnId::Tokenize => tokenize(alloc, first),
        FnId::Translate => translate(alloc, first, second, third),
        FnId::StringToCodepoints => string_to_codepoints(alloc, first),
        FnId::Serialize => serialize(alloc, first),
        FnId::ParseJson => parse_json(alloc, first),
        FnId::Error => Err(OpFault::Raised(Code::FOER0000)),
        FnId::YearFromDate => year_from_date(alloc, first),
        FnId::MonthFromDate => month_from_date(alloc, first),
        FnId::DayFromDate => day_from_date(alloc, first),
        FnId::AddDays => add_days(alloc, first, second),
        FnId::DaysBetween => days_between(alloc, first, second),
    }
}

fn argument(arguments: &[Vec<Item>], at: usize) -> &[Item]
    ensures { datums result.now ≡ argument at (argument_values arguments.now) }
{
    match arguments.get(at) {
        None => &[],
        Some(argument) => argument.as_slice(),
    }
}
