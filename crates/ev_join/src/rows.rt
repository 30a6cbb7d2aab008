//! Rows in the order of their numbers, searched by the beginning of a binding.

ghost use Rattle.std.specs.Prelude.{◌≡◌, ◌==◌, ◌∷◌, [], ◌++◌, option_to_list, IsTrue};
ghost use Rattle.std.specs.List.{list_any, prefix_len};
ghost use Rattle.ev_join.specs.Order.{is_begun, is_not_before, number_behind};
ghost use Rattle.ev_join.specs.Order.{placing, view_placing};
ghost use Rattle.ev_join.specs.Search.{IsFirstFrom, IsLeastFrom};
ghost use Rattle.ev_join.specs.Tables.{IsTable, HasRow, bound_values, rows_at};

use crate::table::Row;
use std::cell::Cell;

/// Where the numbers of a row stand to others: before them, past them, or they begin with them and
/// these follow.
#[derive(Drop)]
enum Placed<'a> {
    Before,
    Past,
    Begins(&'a [u32]),
}

/// Where the numbers of a row stand to what the beginning of a binding gives to the columns.
fn compare_row<'a>(values: &'a [u32], columns: &[u32], front: &[u32]) -> Placed<'a>
    ensures { view_placing result ≡ placing values.now (bound_values columns.now front.now) }
{
    let mut values = values;
    let mut columns = columns;
    'columns: while let [column, more @ ..] = columns {
        let at = *column as usize;
        if at >= front.len() {
            return Placed::Begins(values);
        }
        let [first, others @ ..] = values else {
            return Placed::Before;
        };
        if *first > front[at] {
            return Placed::Past;
        }
        if *first < front[at] {
            return Placed::Before;
        }
        values = others;
        columns = more;
    }
    Placed::Begins(values)
}

/// Whether numbers are not before a last one, where there is one.
fn is_from_last(values: &[u32], last: Option<u64>) -> bool
    ensures { result ≡ is_not_before values.now (option_to_list last) }
{
    let Some(last) = last else {
        return true;
    };
    match values {
        [] => false,
        [first, ..] => u64::from(*first) >= last,
    }
}

/// Whether a row is not before what the beginning of a binding gives to the columns, and a last
/// number behind it where there is one.
#[tactic(auto, using(crate::proofs::Placings::placed_from))]
fn is_not_before(row: &Row, columns: &[u32], front: &[u32], last: Option<u64>) -> bool
    ensures { result ≡ is_not_before row.now.values
        (bound_values columns.now front.now ++ option_to_list last) }
{
    match compare_row(row.values.as_slice(), columns, front) {
        Placed::Before => false,
        Placed::Past => true,
        Placed::Begins(rest) => is_from_last(rest, last),
    }
}

/// The number in a row behind what the beginning of a binding gives to the columns, where the row
/// begins with that.
fn number_behind(row: &Row, columns: &[u32], front: &[u32]) -> Option<u64>
    ensures { result
        ≡ number_behind (placing row.now.values (bound_values columns.now front.now)) }
{
    match compare_row(row.values.as_slice(), columns, front) {
        Placed::Begins([first, ..]) => Some(u64::from(*first)),
        _ => None,
    }
}

/// Whether a row begins with what a binding gives to the columns.
fn is_begun(row: &Row, columns: &[u32], binding: &[u32]) -> bool
    ensures { result
        ≡ is_begun (placing row.now.values (bound_values columns.now binding.now)) }
{
    match compare_row(row.values.as_slice(), columns, binding) {
        Placed::Begins(_) => true,
        _ => false,
    }
}

/// Whether an iterator is one of the columns.
fn has_column(columns: &[u32], iterator: usize) -> bool
    ensures { result ≡ list_any (λ c. c == iterator) columns.now }
{
    columns.iter().any(|column| *column as usize == iterator)
}

/// Whether the rows that are not before begin at a place.
fn begin_at(columns: &[u32], rows: &[Row], front: &[u32], last: Option<u64>, at: usize) -> bool
    requires { IsTable (record { columns = columns.now; rows = rows.now }) }
    ensures { IsTrue result → IsFirstFrom rows.now
        (bound_values columns.now front.now ++ option_to_list last) at }
{
    if at >= rows.len() {
        return false;
    }
    if !is_not_before(&rows[at], columns, front, last) {
        return false;
    }
    if at == 0 {
        return true;
    }
    !is_not_before(&rows[at - 1], columns, front, last)
}

/// The place of the first row that is not before. It is sought where one was found last, then right
/// behind, and then among all.
fn first_from(
    columns: &[u32],
    rows: &[Row],
    near: &Cell<usize>,
    front: &[u32],
    last: Option<u64>,
) -> usize
    requires { IsTable (record { columns = columns.now; rows = rows.now }) }
    ensures { IsFirstFrom rows.now (bound_values columns.now front.now ++ option_to_list last)
        result }
{
    let here = near.get();
    if begin_at(columns, rows, front, last, here) {
        return here;
    }
    let next = here.wrapping_add(1);
    if begin_at(columns, rows, front, last, next) {
        near.set(next);
        return next;
    }
    let at = rows.partition_point(|row| !is_not_before(row, columns, front, last));
    near.set(at);
    at
}

/// The least number, from a value on, with which some row goes on from the beginning of a binding.
pub(crate) fn least_value(
    columns: &[u32],
    rows: &[Row],
    near: &Cell<usize>,
    front: &[u32],
    value: u64,
) -> Option<u64>
    requires table { IsTable (record { columns = columns.now; rows = rows.now }) }
    requires open { HasRow rows.now (bound_values columns.now front.now) }
    ensures { IsLeastFrom (λ z. HasRow rows.now (bound_values columns.now (front.now ++ z ∷ [])))
        value result }
{
    if !has_column(columns, front.len()) {
        return Some(value);
    }
    let at = first_from(columns, rows, near, front, Some(value));
    if at >= rows.len() {
        return None;
    }
    number_behind(&rows[at], columns, front)
}

/// How many rows in front agree with a binding. It looks at these and at the one behind them.
fn begun_len(columns: &[u32], rows: &[Row], binding: &[u32]) -> usize
    ensures { result ≡ prefix_len
        (λ r. is_begun (placing r.values (bound_values columns.now binding.now))) rows.now }
{
    'rows: for at in 0..rows.len() {
        if !is_begun(&rows[at], columns, binding) {
            return at;
        }
    }
    rows.len()
}

/// The rows that agree with a binding, in the time of a search for the first and of the rows.
pub(crate) fn rows_at<'a>(
    columns: &[u32],
    rows: &'a [Row],
    near: &Cell<usize>,
    binding: &[u32],
) -> &'a [Row]
    requires { IsTable (record { columns = columns.now; rows = rows.now }) }
    ensures { result.now
        ≡ rows_at (record { columns = columns.now; rows = rows.now }) binding.now }
{
    let first = first_from(columns, rows, near, binding, None);
    let (_, behind) = rows.split_at(first);
    let count = begun_len(columns, behind, binding);
    let (found, _) = behind.split_at(count);
    found
}
