//! Rows that aren't answered as expected, in full.
use anyhow::Result;
use row_files::Row;

/// Says a row that was told something else: its lines, its answers, and what it was told by whom.
pub(crate) fn say_wrong(rt: &impl Print, row: &Row<'_>, who: &str, told: &[u8]) -> Result<()> {
    let name = row.name;
    println!(rt; "row {name}")?;
    for line in &row.asked {
        println!(rt; "> {line}")?;
    }
    println!(rt; "expected:")?;
    say_bytes(rt, row.answers.as_slice())?;
    println!(rt; "told by {who}:")?;
    say_bytes(rt, told)
}

fn say_bytes(rt: &impl Print, bytes: &[u8]) -> Result<()> {
    for byte in bytes {
        let letter = char::from(*byte);
        print!(rt; "{letter}")?;
    }
    Ok(())
}
