//! Names of any characters within HTML.
use office_pages::page;
use std::alloc::{AllocError, Global};
use std::test::Fail;
use telling::{Trial, twice};

/// A character as HTML shows it, also one that it would take for its own.
fn shown(alloc: Global, character: char) -> Result<String, AllocError> {
    let text = match character {
        '&' => "&amp;",
        '<' => "&lt;",
        '>' => "&gt;",
        '"' => "&quot;",
        '\'' => "&#39;",
        _ => return character.to_string(alloc),
    };
    String::from_str(alloc, text)
}

/// The heading of a device of this name.
fn heading(alloc: Global, name: &str) -> Result<String, AllocError> {
    let mut heading = String::new(alloc);
    page::push_device(&mut heading, name, None)?;
    Ok(heading)
}

fn front(alloc: Global, shown: &str) -> Result<String, AllocError> {
    format!(in alloc;
        "<tr class=\"device\"><th colspan=\"6\" scope=\"colgroup\">{shown}</th></tr>\n"
    )
}

fn each_character(trial: &Trial<'_>) -> Result<(), AllocError> {
    let alloc = trial.alloc();
    for code in 0..128u8 {
        let character = char::from(code);
        let mut name = String::new(alloc);
        name.push(character)?;
        let told = heading(alloc, &name)?;
        let shown = shown(alloc, character)?;
        let expected = front(alloc, &shown)?;
        trial.told(&code, &told.as_str(), &expected.as_str());
    }
    Ok(())
}

#[test]
fn each_character_of_a_name_is_shown(rt: HostRuntime) -> Result<(), Fail> {
    Ok(twice!(rt, each_character)?)
}
