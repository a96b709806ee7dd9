//! Sites as values: their lists and texts, and one whose parts don't agree.
use point_list::{Line, MOST_OUTSTANDING, Site, Text, read_site};
use std::alloc::{AllocError, Global};
use std::test::Fail;
use telling::{Trial, twice};

const EXAMPLE: &str = "[[line]]
name = \"roof\"
address = \"127.0.0.1:1502\"

[[device]]
name = \"m1\"
line = \"roof\"
unit = 17
gap = 8
models = [[1, 40002, 66], [103, 40070, 50]]
";

fn site_of(alloc: Global) -> Result<Site, AllocError> {
    read_site(alloc, EXAMPLE.as_bytes()).map_err(|_| AllocError)
}

fn lists_and_texts(trial: &Trial<'_>) -> Result<(), AllocError> {
    let site = site_of(trial.alloc())?;
    let told = (
        site.devices.len(),
        site.devices.is_empty(),
        site.devices.iter().count(),
    );
    trial.told(&"devices", &told, &(1, false, 1));
    for line in &site.lines {
        trial.told(&"clone", &line.name.clone()?, &line.name);
        trial.told(&"other", &(line.name == line.address), &false);
        let shown = line.name.to_string(trial.alloc())?;
        trial.told(&"shown", &shown.as_str(), &"roof");
    }
    Ok(())
}

/// A device needs its line.
fn without_lines(trial: &Trial<'_>) -> Result<(), AllocError> {
    let site = site_of(trial.alloc())?;
    let is_sound = site.is_sound();
    let Site { devices, .. } = site;
    let alone = Site::new(Vec::new(trial.alloc()), devices.into_vec());
    trial.told(&"sound", &(is_sound, alone.is_sound()), &(true, false));
    Ok(())
}

/// So many queries may wait, and whether a site with such a line is sound.
const LIMITS: &[(u8, bool)] = &[(0, false), (1, true), (MOST_OUTSTANDING, true), (17, false)];

/// A site of one line, of which so many queries may wait.
fn site_with(alloc: Global, outstanding: u8) -> Result<Site, AllocError> {
    let name = Text::from_string(String::from_str(alloc, "roof")?);
    let address = Text::from_string(String::new(alloc));
    let mut lines = Vec::new(alloc);
    lines.push(Line::new(name, address).with_outstanding(outstanding))?;
    Ok(Site::new(lines, Vec::new(alloc)))
}

/// 1 to 16 queries of a line may wait, and 16 where nothing is said.
fn limits(trial: &Trial<'_>) -> Result<(), AllocError> {
    let alloc = trial.alloc();
    let said = site_of(alloc)?;
    trial.told(
        &"said",
        &(said.outstanding(0), said.outstanding(1)),
        &(16, 16),
    );
    for (count, is_sound) in LIMITS {
        let site = site_with(alloc, *count)?;
        let told = (site.outstanding(0), site.is_sound());
        trial.told(count, &told, &(*count, *is_sound));
    }
    Ok(())
}

fn values(trial: &Trial<'_>) -> Result<(), AllocError> {
    lists_and_texts(trial)?;
    without_lines(trial)?;
    limits(trial)
}

#[test]
fn sites_as_values(rt: HostRuntime) -> Result<(), Fail> {
    Ok(twice!(rt, values)?)
}
