//! Cases of the tables of codes.

use crate::no_answer::NoAnswer;
use code_tables::{CodeTable, Coded, basics, decl_tags, entry_tags, keywords, type_tags};
use std::alloc::{AllocError, Global};
use std::fmt::Debug;

/// The row of a table with a code, `TABLE CODE`, or the number of its rows, `TABLE`.
pub fn row(alloc: Global, words: &[&str]) -> Result<String, NoAnswer> {
    let (table, code) = match words {
        [table] => (*table, None),
        [table, code] => match code.parse::<u64>() {
            Ok(code) => (*table, Some(code)),
            Err(_) => return Err(NoAnswer::NoCase),
        },
        _ => return Err(NoAnswer::NoCase),
    };
    let row = match table {
        "types" => shown(alloc, &type_tags(), code)?,
        "declarations" => shown(alloc, &decl_tags(), code)?,
        "basics" => shown(alloc, &basics(), code)?,
        "keywords" => shown(alloc, &keywords(), code)?,
        "entries" => shown(alloc, &entry_tags(), code)?,
        _ => return Err(NoAnswer::NoCase),
    };
    Ok(row)
}

/// The value of a code with the code that the table gives it, or the number of the codes below 300 that lead back.
fn shown<T: Coded + Debug + Drop, const N: usize>(
    alloc: Global,
    table: &CodeTable<T, N>,
    code: Option<u64>,
) -> Result<String, AllocError> {
    let Some(code) = code else {
        return format!(in alloc; "{} codes", count(table));
    };
    match table.of_code(code) {
        Some(value) => format!(in alloc; "{} {value:?}", table.code_of(value)),
        None => format!(in alloc; "none"),
    }
}

fn count<T: Coded + Drop, const N: usize>(table: &CodeTable<T, N>) -> usize {
    (0..300u64)
        .filter(|code| match table.of_code(*code) {
            Some(value) => u64::from(table.code_of(value)) == *code,
            None => false,
        })
        .count()
}
