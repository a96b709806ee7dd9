//! `toml_members`: the members of a document, and what is wrong with one.
use anyhow::Result;
use toml_members::{document, entries_at, number_at, optional_at, text_at};

const TEXT: &[u8] = b"name = \"roof\"\nunit = 17\nholding = [555, 0]\n";

pub(crate) fn show(rt: &HostRuntime) -> Result<()> {
    let table = document(rt.alloc(), TEXT)?;
    let name = text_at(&table, "name")?;
    let unit = number_at(&table, "unit", 255)?;
    let outstanding = optional_at(&table, "outstanding", 16)?;
    println!(rt; "{name}: unit {unit}, outstanding {outstanding}")?;
    let cells = entries_at(&table, "holding")?.len();
    println!(rt; "{cells} holding registers")?;
    if let Err(error) = number_at(&table, "unit", 16) {
        println!(rt; "{error}")?;
    }
    if let Err(error) = document(rt.alloc(), b"unit 17\n") {
        println!(rt; "{error}")?;
    }
    Ok(())
}
