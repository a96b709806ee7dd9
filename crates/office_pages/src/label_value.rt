//! Values of labels in OpenMetrics.
ghost use Rattle.std.specs.Prelude.{◌≡◌, ◌++◌, OnOk, flat_map, string_bytes};
ghost use Rattle.std.specs.Str.{chars};
ghost use Rattle.office_pages.specs.Escapes.{label_character, label_text};

use std::alloc::AllocError;

fn push_character(out: &mut String, character: char) -> Result<(), AllocError>
    ensures { OnOk result (string_bytes out.new ≡ string_bytes out.old ++ label_character character) }
{
    match character {
        '\\' => out.push_str("\\\\"),
        '"' => out.push_str("\\\""),
        '\n' => out.push_str("\\n"),
        _ => out.push(character),
    }
}

/// Adds a text as it stands between the quotes of a label's value.
pub(crate) fn escape_label(out: &mut String, text: &str) -> Result<(), AllocError>
    ensures { OnOk result (string_bytes out.new ≡ string_bytes out.old ++ label_text text.now) }
{
    for character in text.chars() {
        push_character(out, character)?;
    }
    Ok(())
}
