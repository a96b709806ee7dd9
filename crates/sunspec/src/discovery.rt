//! The chain of a device, read register by register.
ghost use Rattle.std.specs.Prelude.{◌≡◌, ◌⊎◌, ◌+◌, ◌<◌, ◌≤◌, ◌↔◌, IfErr, IfOk, IfSome, IsTrue, None, Some};
ghost use Rattle.sunspec.specs.Sources.{HasFailed, Image, register_at};
ghost use Rattle.sunspec.specs.Chains.{HasNoLength, HasNoMarker, IsBase, IsChain, IsChainless, IsMarked, IsModelAt, end_id, most};
ghost use Rattle.sunspec.specs.Walks.{IsStopped};
ghost use Rattle.sunspec.specs.declared.error.SunError.TheVariants as errors;

use crate::chain::{Chain, Model};
use crate::error::SunError;
use crate::source::RegisterSource;
use std::alloc::Global;

/// Where a chain may begin, in the order in which it is looked for.
const BASES: [u16; 3] = [40000, 50000, 0];

/// `SunS`, which stands at the base.
const MARKER: [u16; 2] = [0x5375, 0x6E53];

/// The identifier of the end model.
const END: u16 = 0xFFFF;

/// The most models before the end.
const MOST: usize = 256;

/// The chain of models of a device: the marker at the first of the bases 40000, 50000 and 0 that has
/// it, then up to 256 models, then the end model (SunSpec Device Information Model, model chain).
/// Identifiers and lengths are asked for one by one, and nothing twice, so that a device which
/// refuses a read as a whole never hides a register that it has.
///
/// `NoMarker` where no base has the marker, `TooManyModels` where a 257th model begins, `PastEnd`
/// where a register before the end isn't there or a model passes the last address, `SourceFault` only
/// where the source failed, and `Memory` where memory was refused.
pub fn discover<S: RegisterSource>(alloc: Global, source: &mut S) -> Result<Chain, SunError>
    ensures chain { (known : Image) → S.image source.old ≡ Some known → IfOk result (λ chain. IsChain known chain) }
    ensures refused { (known : Image) → S.image source.old ≡ Some known
        → IfErr result (λ e. (e ≡ errors.Memory) ⊎ (e ≡ errors.SourceFault) ⊎ IsChainless known e) }
    ensures failed { IfErr result (λ e. e ≡ errors.SourceFault → HasFailed (S.failed source.old) (S.failed source.new)) }
    ensures counted { S.failed source.old ≤ S.failed source.new }
    ensures same { S.image source.new ≡ S.image source.old }
{
    let base = base_of(source)?;
    let mut models = Vec::new(alloc);
    let mut address = base + 2;
    while let Some(model) = model_at(source, address, models.len())? {
        models.push(model)?;
        address = model.address + 2 + model.length;
    }
    Ok(Chain {
        base,
        models,
        end: address,
    })
}

/// The first base with the marker.
fn base_of<S: RegisterSource>(source: &mut S) -> Result<u16, SunError>
    ensures base { (known : Image) → S.image source.old ≡ Some known → IfOk result (λ base. IsBase known base) }
    ensures low { IfOk result (λ base. base ≤ 50000) }
    ensures refused { (known : Image) → S.image source.old ≡ Some known → IfErr result (λ e. (e ≡ errors.SourceFault) ⊎ ((e ≡ errors.NoMarker) × HasNoMarker known)) }
    ensures failed { IfErr result (λ e. e ≡ errors.SourceFault → HasFailed (S.failed source.old) (S.failed source.new)) }
    ensures counted { S.failed source.old ≤ S.failed source.new }
    ensures same { S.image source.new ≡ S.image source.old }
{
    for base in BASES {
        if is_marked(source, base)? {
            return Ok(base);
        }
    }
    Err(SunError::NoMarker)
}

/// Whether the marker stands at a base.
fn is_marked<S: RegisterSource>(source: &mut S, base: u16) -> Result<bool, SunError>
    ensures marked { (known : Image) → S.image source.old ≡ Some known → IfOk result (λ b. IsTrue b ↔ IsMarked known base) }
    ensures failed { IfErr result (λ e. (e ≡ errors.SourceFault) × HasFailed (S.failed source.old) (S.failed source.new)) }
    ensures counted { S.failed source.old ≤ S.failed source.new }
    ensures same { S.image source.new ≡ S.image source.old }
{
    match source.read(base, 2)? {
        Some(words) => Ok(words.as_slice() == MARKER.as_slice()),
        None => Ok(false),
    }
}

/// The register at an address.
fn read_register<S: RegisterSource>(source: &mut S, address: u16) -> Result<u16, SunError>
    ensures word { (known : Image) → S.image source.old ≡ Some known → IfOk result (λ word. register_at known address ≡ Some word) }
    ensures refused { (known : Image) → S.image source.old ≡ Some known → IfErr result (λ e. (e ≡ errors.SourceFault) ⊎ ((e ≡ errors.PastEnd) × (register_at known address ≡ None))) }
    ensures failed { IfErr result (λ e. e ≡ errors.SourceFault → HasFailed (S.failed source.old) (S.failed source.new)) }
    ensures counted { S.failed source.old ≤ S.failed source.new }
    ensures same { S.image source.new ≡ S.image source.old }
{
    match source.read(address, 1)? {
        Some(words) => Ok(words.as_slice()[0]),
        None => Err(SunError::PastEnd),
    }
}

/// The length of the model whose identifier stands at an address.
fn length_at<S: RegisterSource>(source: &mut S, address: u16) -> Result<u16, SunError>
    ensures length { (known : Image) → S.image source.old ≡ Some known → IfOk result (λ length. register_at known (address + 1) ≡ Some length) }
    ensures inside { IfOk result (λ length. address + 2 + length ≤ 65535) }
    ensures refused { (known : Image) → S.image source.old ≡ Some known → IfErr result (λ e. (e ≡ errors.SourceFault) ⊎ ((e ≡ errors.PastEnd) × HasNoLength known address)) }
    ensures failed { IfErr result (λ e. e ≡ errors.SourceFault → HasFailed (S.failed source.old) (S.failed source.new)) }
    ensures counted { S.failed source.old ≤ S.failed source.new }
    ensures same { S.image source.new ≡ S.image source.old }
{
    if address > 65533 {
        return Err(SunError::PastEnd);
    }
    let length = read_register(source, address + 1)?;
    if address as u32 + 2 + length as u32 > 65535 {
        return Err(SunError::PastEnd);
    }
    Ok(length)
}

/// The model at an address after so many others; `None` for the end model.
fn model_at<S: RegisterSource>(
    source: &mut S,
    address: u16,
    before: usize,
) -> Result<Option<Model>, SunError>
    ensures model { (known : Image) → S.image source.old ≡ Some known → IfOk result (λ found. IfSome found (IsModelAt known address)) }
    ensures end { (known : Image) → S.image source.old ≡ Some known → IfOk result (λ found. found ≡ None → register_at known address ≡ Some end_id) }
    ensures few { IfOk result (λ found. IfSome found (λ _. before < most)) }
    ensures inside { IfOk result (λ found. IfSome found (λ model. model.address + 2 + model.length ≤ 65535)) }
    ensures refused { (known : Image) → S.image source.old ≡ Some known → IfErr result (λ e. (e ≡ errors.SourceFault) ⊎ IsStopped known address before e) }
    ensures failed { IfErr result (λ e. e ≡ errors.SourceFault → HasFailed (S.failed source.old) (S.failed source.new)) }
    ensures counted { S.failed source.old ≤ S.failed source.new }
    ensures same { S.image source.new ≡ S.image source.old }
{
    let id = read_register(source, address)?;
    if id == END {
        return Ok(None);
    }
    if before >= MOST {
        return Err(SunError::TooManyModels);
    }
    let length = length_at(source, address)?;
    Ok(Some(Model {
        id,
        address,
        length,
    }))
}
