//! Site files.
use crate::texts::{outcome, refusal};
use case_pages::{Block, Trouble, bytes_of, file_of};
use point_list::{Device, Line, ListError, Site, SiteError, read_site};
use std::alloc::{AllocError, Global};

pub(crate) fn read(alloc: Global, text: &[u8]) -> Result<Site, ListError> {
    read_site(alloc, text)
}

/// How many lines and devices a site has.
#[derive(Clone, Copy, Debug)]
struct Sizes {
    lines: usize,
    devices: usize,
}

fn sizes_of(alloc: Global, text: &[u8]) -> Result<Sizes, SiteError> {
    let site = Site::from_toml(alloc, text)?;
    Ok(Sizes {
        lines: site.lines.len(),
        devices: site.devices.len(),
    })
}

/// How many lines and devices a site file has, or what is wrong with it, and where.
pub(crate) fn site(alloc: Global, input: &str) -> Result<String, Trouble> {
    outcome(alloc, sizes_of(alloc, &bytes_of(alloc, input)?))
}

/// The same of a site with the line `roof` and these devices.
pub(crate) fn devices(alloc: Global, input: &str) -> Result<String, Trouble> {
    let text = format!(in alloc;
        "line = [{{name = \"roof\", address = \"\"}}]\ndevice = [{input}]\n"
    )?;
    outcome(alloc, sizes_of(alloc, text.as_bytes()))
}

/// The line and the device of a name, each behind its place, and whether there is such a device.
fn named(alloc: Global, site: &Site, name: &str) -> Result<String, AllocError> {
    let line = Line::place(site.lines.as_slice(), name);
    let device = Device::place(site.devices.as_slice(), name);
    let is_device = site.has_device(name);
    let (its_line, its_device) = (site.line(name), site.device(name));
    format!(in alloc; "{line:?} {its_line:?}; {device:?} {its_device:?}, {is_device}")
}

/// What has a name in the page's file `site.toml`.
pub(crate) fn name(alloc: Global, page: &[Block<'_>], input: &str) -> Result<String, Trouble> {
    match read(alloc, file_of(page, "site.toml")?.as_bytes()) {
        Ok(site) => Ok(named(alloc, &site, input)?),
        Err(error) => refusal(alloc, &error),
    }
}
