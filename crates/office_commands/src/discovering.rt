//! What a SunSpec device says of itself.
use crate::Failure;
use std::alloc::{AllocError, Global};
use sunspec::{Chain, Common, Model, RegisterSource, Value, common, value_text};

fn push_value(
    alloc: Global,
    text: &mut String,
    name: &str,
    value: &Value,
) -> Result<(), AllocError> {
    text.push_str(name)?;
    text.push_str(" ")?;
    match value_text(alloc, value)? {
        Some(shown) => text.push_str(shown.as_str())?,
        None => text.push_str("-")?,
    }
    text.push_str("\n")
}

fn push_common(alloc: Global, text: &mut String, common: &Common) -> Result<(), AllocError> {
    push_value(alloc, text, "Mn", &common.mn)?;
    push_value(alloc, text, "Md", &common.md)?;
    push_value(alloc, text, "Opt", &common.opt)?;
    push_value(alloc, text, "Vr", &common.vr)?;
    push_value(alloc, text, "SN", &common.sn)?;
    push_value(alloc, text, "DA", &common.da)
}

fn push_models(alloc: Global, text: &mut String, models: &[Model]) -> Result<(), AllocError> {
    for model in models {
        let Model {
            id,
            address,
            length,
        } = *model;
        let line = format!(in alloc; "model {id} at {address} length {length}\n")?;
        text.push_str(line.as_str())?;
    }
    Ok(())
}

/// The member of a site file's device.
fn push_member(alloc: Global, text: &mut String, models: &[Model]) -> Result<(), AllocError> {
    text.push_str("models = [")?;
    for (place, model) in models.iter().enumerate() {
        let Model {
            id,
            address,
            length,
        } = *model;
        let comma = if place == 0 { "" } else { ", " };
        let entry = format!(in alloc; "{comma}[{id}, {address}, {length}]")?;
        text.push_str(entry.as_str())?;
    }
    text.push_str("]\n")
}

fn chain_text(alloc: Global, chain: &Chain, common: Option<&Common>) -> Result<String, AllocError> {
    let mut text = format!(in alloc; "base {}\n", chain.base)?;
    if let Some(common) = common {
        push_common(alloc, &mut text, common)?;
    }
    let models = chain.models.as_slice();
    push_models(alloc, &mut text, models)?;
    let end = format!(in alloc; "end {}\n", chain.end)?;
    text.push_str(end.as_str())?;
    push_member(alloc, &mut text, models)?;
    Ok(text)
}

/// Asks a device for its chain of models, and gives what is printed: `base N`; of a model 1 the lines
/// `Mn`, `Md`, `Opt`, `Vr`, `SN` and `DA`, each with its value, `-` where it isn't implemented; `model ID at A
/// length L` for each model; `end A`; and last the member `models` of the device in a site file.
pub fn discover<S: RegisterSource>(alloc: Global, source: &mut S) -> Result<String, Failure> {
    let chain = sunspec::discover(alloc, source)?;
    let common = common(source, &chain)?;
    let text = chain_text(alloc, &chain, common.as_ref())?;
    Ok(text)
}
