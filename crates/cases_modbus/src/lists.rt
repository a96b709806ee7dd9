//! Point lists, for the page's file `site.toml`.
ghost use Rattle.std.specs.Prelude.{IfOk};
ghost use Rattle.point_list.specs.Sites.{IsSound};

use crate::texts::outcome;
use case_pages::{Block, Trouble, bytes_of, file_of};
use point_list::{ListError, Point, Site, read_list, read_site, resolve};
use std::alloc::Global;

const HEADER: &str = "name,device,table,address,type,length,scale,role,roll\n";

const HEADER_WITH_WORDS: &str = "name,device,table,address,type,length,scale,role,roll,words\n";

fn site_of(alloc: Global, text: &str) -> Result<Site, ListError>
    ensures { IfOk result IsSound }
{
    read_site(alloc, text.as_bytes())
}

/// The last point of a list, and the number of its record.
#[derive(Clone, Copy, Debug)]
pub(crate) struct Last {
    row: u32,
    point: Point,
}

/// The last point of a list for a site.
pub(crate) fn last_of(alloc: Global, site: &str, list: &[u8]) -> Result<Option<Last>, ListError> {
    let site = site_of(alloc, site)?;
    let rows = read_list(alloc, list, &site)?;
    let row = rows.last().map_or(0, |row| row.row);
    let points = resolve(alloc, rows, &site)?;
    Ok(points.last().map(|point| Last { row, point: *point }))
}

/// The last point of a whole list, or what it is refused for.
pub(crate) fn list(alloc: Global, page: &[Block<'_>], input: &str) -> Result<String, Trouble> {
    let list = bytes_of(alloc, input)?;
    outcome(alloc, last_of(alloc, file_of(page, "site.toml")?, &list))
}

/// The last point of records, or what they are refused for.
pub(crate) fn records(alloc: Global, page: &[Block<'_>], input: &str) -> Result<String, Trouble> {
    list(alloc, page, format!(in alloc; "{HEADER}{input}")?.as_str())
}

/// The same of records with a column of orders.
pub(crate) fn records_with_words(
    alloc: Global,
    page: &[Block<'_>],
    input: &str,
) -> Result<String, Trouble> {
    list(
        alloc,
        page,
        format!(in alloc; "{HEADER_WITH_WORDS}{input}")?.as_str(),
    )
}

/// What comes of the beginnings of a list, and of the whole: from which length on, and what.
pub(crate) fn beginnings(
    alloc: Global,
    page: &[Block<'_>],
    input: &str,
) -> Result<String, Trouble> {
    let site = file_of(page, "site.toml")?;
    let bytes = bytes_of(alloc, input)?;
    let mut all = String::new(alloc);
    let mut last = String::new(alloc);
    for length in 0..=bytes.len() {
        let beginning = bytes.get(..length).unwrap_or(&[]);
        let now = outcome(alloc, last_of(alloc, site, beginning))?;
        if now.as_str() != last.as_str() {
            write!(all, "; from {length} {now}")?;
            last = now;
        }
    }
    Ok(String::from_str(alloc, all.as_str().trim_start_matches("; "))?)
}
