// Tables that the tests are about.
use tape::{Line, Refusal, Table};

// A table with the lines one after another.
pub(crate) fn table_of(controls: usize, lines: &[Line]) -> Result<Table, Refusal> {
    let mut table = Table::new(controls)?;
    for line in lines {
        table.append(*line)?;
    }
    Ok(table)
}
