// Tables of rows: what is given, an arrow, and what is wanted.

use std::alloc::Global;
use std::process::Abort;
use std::test::Fail;

/// A call of which rows are checked: what it answers, as a text.
pub trait Call {
    fn answer(alloc: Global, given: &str) -> Result<String, Fail>;
}

/// The two columns of a row, around an arrow.
pub fn columns(row: &str) -> (&str, &str) {
    let (left, right) = row.split_once("=>").unwrap_or((row, ""));
    (left.trim(), right.trim())
}

/// Calls what each row gives, and compares what it answers.
pub fn check<C: Call, R: AllocGlobal + Abort>(rt: &R, table: &str) -> Result<(), Fail> {
    for row in table.lines() {
        let (given, want) = columns(row);
        let said = C::answer(rt.alloc(), given)?;
        assert_eq!(rt; said.as_str(), want, "{row}");
    }
    Ok(())
}
