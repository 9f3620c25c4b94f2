//! Lists of rows by number: the row of n is at the place n - 1.

ghost use Rattle.std.specs.Prelude.{◌≡◌, ◌++◌, ◌∷◌, [], suc, true, false, OnOk, OnErr, MatchOption, vec_capacity};
ghost use Rattle.std.specs.Option.{option_copied};
ghost use Rattle.lra_laws.specs.Rows.{row_at};
ghost use Rattle.lra_rows.specs.Rowed.{takes_one};
ghost use Rattle.lra_rows.specs.Steps.{without_last, put_back};
ghost use Rattle.lra_states.specs.inner.Changes.{with_row};

use crate::step::Written;
use lra_model::Memory;

/// Returns the place of a number's row; 0 has none.
pub(crate) fn place_of(number: u64) -> Option<usize>
    ensures { MatchOption result (number ≡ 0) (λ place. number ≡ suc place) }
{
    match number {
        0 => None,
        _ => Some((number - 1) as usize),
    }
}

/// Returns a reference to the row of a number, if it is there.
pub(crate) fn lent<T>(rows: &[T], number: u64) -> Option<&T>
    ensures { option_copied result ≡ row_at rows.now number }
{
    match place_of(number) {
        Some(place) => rows.get(place),
        None => None,
    }
}

/// Returns a copy of the row of a number, if it is there.
pub(crate) fn at<T: Copy>(rows: &[T], number: u64) -> Option<T>
    ensures { result ≡ row_at rows.now number }
{
    let place = number.checked_sub(1)?;
    rows.get(place as usize).copied()
}

/// Replaces the row of a number, if it is there, and returns its number and the row that was there.
pub(crate) fn put<T: Copy>(rows: &mut Vec<T>, number: u64, row: T) -> Option<Written<T>>
    ensures items { rows.new.items ≡ with_row number row rows.old.items }
    ensures back { put_back result rows.new.items ≡ rows.old.items }
    ensures capacity { vec_capacity rows.new ≡ vec_capacity rows.old }
{
    let place = place_of(number)?;
    let before = *rows.get(place)?;
    rows[place] = row;
    Some((number, before))
}

/// Puts a row back as it was, if one was written over.
pub(crate) fn restore<T: Copy>(rows: &mut Vec<T>, written: Option<Written<T>>)
    ensures items { rows.new.items ≡ put_back written rows.old.items }
    ensures capacity { vec_capacity rows.new ≡ vec_capacity rows.old }
{
    if let Some((number, row)) = written {
        let _ = put(rows, number, row);
    }
}

/// Removes the last row, if there is one.
pub(crate) fn remove_last<T: Drop>(rows: &mut Vec<T>)
    ensures items { rows.new.items ≡ without_last rows.old.items }
    ensures capacity { vec_capacity rows.new ≡ vec_capacity rows.old }
{
    let _ = rows.pop();
}

/// Returns whether there is room for one more row.
pub(crate) fn takes_one<T>(rows: &Vec<T>) -> bool
    ensures { result ≡ takes_one rows.now.items (vec_capacity rows.now) }
{
    rows.len() < rows.capacity()
}

/// Makes room for one more row.
pub(crate) fn reserve_one<T: Drop>(rows: &mut Vec<T>) -> Result<(), Memory>
    ensures items { rows.new.items ≡ rows.old.items }
    ensures ok { OnOk result (takes_one rows.new.items (vec_capacity rows.new) ≡ true) }
    ensures kept { takes_one rows.old.items (vec_capacity rows.old) ≡ true
        → takes_one rows.new.items (vec_capacity rows.new) ≡ true }
{
    rows.reserve(1)?;
    Ok(())
}

/// Adds a row, for which there is room.
pub(crate) fn add<T: Drop>(rows: &mut Vec<T>, row: T)
    requires { takes_one rows.old.items (vec_capacity rows.old) ≡ true }
    ensures items { rows.new.items ≡ rows.old.items ++ row ∷ [] }
    ensures capacity { vec_capacity rows.new ≡ vec_capacity rows.old }
{
    rows.push_reserved(row);
}
