//! A table of counts, by two labels.

use lra_front::Operation;
use lra_model::Memory;
use lra_overview::{Kind, describe, put, put_number};
use std::alloc::Global;
use std::sync::atomic::{AtomicU64, Ordering};

/// Words of a table's rows.
#[derive(Clone, Copy)]
pub(crate) enum Rows {
    /// A list of words.
    Words(&'static [&'static str]),
    /// Labels of the operations, and after them `none`, for requests of no operation.
    Operations,
}

/// Returns the label of an operation, or `none`.
pub(crate) fn label_of(operation: Option<Operation>) -> &'static str {
    match operation {
        Some(operation) => operation.label(),
        None => "none",
    }
}

/// Words of a table: the names of its two labels, and the values that each may have. No word needs escapes.
#[derive(Clone, Copy)]
pub(crate) struct Words {
    pub(crate) name: &'static str,
    pub(crate) help: &'static str,
    pub(crate) row: &'static str,
    pub(crate) rows: Rows,
    pub(crate) column: &'static str,
    pub(crate) columns: &'static [&'static str],
}

/// Count for each pair of words, row by row.
#[derive(Drop)]
pub(crate) struct Table {
    cells: Vec<AtomicU64>,
}

/// Returns the place of a word in a list, or the list's length if it isn't there.
fn place_of(words: &[&'static str], word: &str) -> usize {
    for (place, other) in words.iter().enumerate() {
        if *other == word {
            return place;
        }
    }
    words.len()
}

impl Rows {
    /// Returns the word of a row, if there is such a row.
    fn at(self, place: usize) -> Option<&'static str> {
        match self {
            Rows::Words(words) => words.get(place).copied(),
            Rows::Operations => match Operation::ALL.get(place) {
                Some(operation) => Some(operation.label()),
                None if place == Operation::ALL.len() => Some(label_of(None)),
                None => None,
            },
        }
    }

    /// Returns the number of rows.
    fn count(self) -> usize {
        match self {
            Rows::Words(words) => words.len(),
            Rows::Operations => Operation::ALL.len() + 1,
        }
    }

    /// Returns the row of a word, or the number of rows if it has none.
    fn place_of(self, word: &str) -> usize {
        for place in 0..self.count() {
            if self.at(place) == Some(word) {
                return place;
            }
        }
        self.count()
    }
}

/// Adds the line of a pair of words to a page.
fn put_line(
    words: &Words,
    page: &mut Vec<u8>,
    row: &str,
    column: &str,
    count: u64,
) -> Result<(), Memory> {
    put(page, words.name)?;
    put(page, "{")?;
    put(page, words.row)?;
    put(page, "=\"")?;
    put(page, row)?;
    put(page, "\",")?;
    put(page, words.column)?;
    put(page, "=\"")?;
    put(page, column)?;
    put(page, "\"} ")?;
    put_number(page, count)?;
    put(page, "\n")
}

impl Table {
    /// Makes a table of these words, with counts of 0.
    pub(crate) fn new(alloc: Global, words: &Words) -> Result<Table, Memory> {
        let mut cells = Vec::new(alloc);
        for _row in 0..words.rows.count() {
            for _column in words.columns {
                cells.push(AtomicU64::new(0))?;
            }
        }
        Ok(Table { cells })
    }

    /// Returns the count of a pair of words, by their places.
    fn cell(&self, words: &Words, row: usize, column: usize) -> Option<&AtomicU64> {
        let wide = words.columns.len();
        if column >= wide {
            return None;
        }
        self.cells.get(row.checked_mul(wide)?.checked_add(column)?)
    }

    /// Adds one to the count of a pair of words.
    pub(crate) fn add(&self, words: &Words, row: &str, column: &str) {
        let row = words.rows.place_of(row);
        let column = place_of(words.columns, column);
        if let Some(cell) = self.cell(words, row, column) {
            cell.fetch_add(1, Ordering::SeqCst);
        }
    }

    /// Adds the lines of a row to a page, for the pairs whose count isn't 0.
    fn put_row(
        &self,
        words: &Words,
        page: &mut Vec<u8>,
        row: usize,
        word: &str,
    ) -> Result<(), Memory> {
        for (place, column) in words.columns.iter().enumerate() {
            let count = match self.cell(words, row, place) {
                Some(cell) => cell.load(Ordering::SeqCst),
                None => 0,
            };
            if count > 0 {
                put_line(words, page, word, column, count)?;
            }
        }
        Ok(())
    }

    /// Adds the table to a page, as a measure.
    pub(crate) fn put(&self, words: &Words, page: &mut Vec<u8>) -> Result<(), Memory> {
        describe(page, words.name, Kind::Counter, words.help)?;
        for place in 0..words.rows.count() {
            if let Some(row) = words.rows.at(place) {
                self.put_row(words, page, place, row)?;
            }
        }
        Ok(())
    }
}
