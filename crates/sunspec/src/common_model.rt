//! Model 1, the common model, by which a device says who made it.
ghost use Rattle.std.specs.Prelude.{◌≡◌, ◌≢◌, ◌⊎◌, ◌+◌, ◌≤◌, IfErr, IfOk, None, Ok, Some, length, slice_range};
ghost use Rattle.sunspec.specs.Sources.{HasFailed, Image, Stand};
ghost use Rattle.sunspec.specs.Chains.{AreOf, Lacks, LacksValue, common_of, is_common};
ghost use Rattle.sunspec.specs.Value.{value};
ghost use Rattle.sunspec.specs.declared.error.SunError.TheVariants as errors;

use crate::chain::{Chain, Common, Model};
use crate::error::SunError;
use crate::point_type::PointType;
use crate::source::RegisterSource;
use crate::value::read_value;
use mb_pdu::Registers;

/// What the first model 1 of a chain says whose length is 65 or 66; `None` where there is none.
/// `PastEnd` where a register of a value isn't there, `SourceFault` only where the source failed.
pub fn common<S: RegisterSource>(source: &mut S, chain: &Chain) -> Result<Option<Common>, SunError>
    ensures values { (known : Image) → S.image source.old ≡ Some known → IfOk result (AreOf known (common_of chain.now.models.items)) }
    ensures refused { (known : Image) → S.image source.old ≡ Some known
        → IfErr result (λ e. (e ≡ errors.SourceFault) ⊎ ((e ≡ errors.PastEnd) × Lacks known (common_of chain.now.models.items))) }
    ensures none { common_of chain.now.models.items ≡ None → result ≡ Ok None }
    ensures some { common_of chain.now.models.items ≢ None → IfOk result (λ found. found ≢ None) }
    ensures failed { IfErr result (λ e. (e ≡ errors.PastEnd) ⊎ ((e ≡ errors.SourceFault) × HasFailed (S.failed source.old) (S.failed source.new))) }
    ensures counted { S.failed source.old ≤ S.failed source.new }
    ensures same { S.image source.new ≡ S.image source.old }
{
    let Some(model) = common_model(chain.models.as_slice()) else {
        return Ok(None);
    };
    let words = common_words(source, model.address)?;
    Ok(Some(common_in(words.as_slice())))
}

/// Whether this is a model 1 whose length is one that it may have.
fn is_common(model: &Model) -> bool
    ensures { result ≡ is_common model.now }
{
    model.id == 1 && (model.length == 65 || model.length == 66)
}

/// The first of these models that is model 1.
fn common_model(models: &[Model]) -> Option<Model>
    ensures { result ≡ common_of models.now }
{
    models.iter().copied().find(|model| is_common(model))
}

/// The registers of the values of the model 1 at an address, which stand side by side: one read, which
/// a device refuses exactly where one of them isn't there.
fn common_words<S: RegisterSource>(source: &mut S, address: u16) -> Result<Registers, SunError>
    ensures count { IfOk result (λ words. length words ≡ 65) }
    ensures words { (known : Image) → S.image source.old ≡ Some known → IfOk result (Stand known (address + 2)) }
    ensures refused { (known : Image) → S.image source.old ≡ Some known → IfErr result (λ e. (e ≡ errors.SourceFault) ⊎ ((e ≡ errors.PastEnd) × LacksValue known address)) }
    ensures failed { IfErr result (λ e. (e ≡ errors.PastEnd) ⊎ ((e ≡ errors.SourceFault) × HasFailed (S.failed source.old) (S.failed source.new))) }
    ensures counted { S.failed source.old ≤ S.failed source.new }
    ensures same { S.image source.new ≡ S.image source.old }
{
    if address > 65469 {
        return Err(SunError::PastEnd);
    }
    match source.read(address + 2, 65)? {
        Some(words) => Ok(words),
        None => Err(SunError::PastEnd),
    }
}

/// The values in the 65 registers after identifier and length.
fn common_in(words: &[u16]) -> Common
    requires { length words.now ≡ 65 }
    ensures mn { result.mn ≡ value (PointType.Str 16) (slice_range words.now 0 16) }
    ensures md { result.md ≡ value (PointType.Str 16) (slice_range words.now 16 32) }
    ensures opt { result.opt ≡ value (PointType.Str 8) (slice_range words.now 32 40) }
    ensures vr { result.vr ≡ value (PointType.Str 8) (slice_range words.now 40 48) }
    ensures sn { result.sn ≡ value (PointType.Str 16) (slice_range words.now 48 64) }
    ensures da { result.da ≡ value PointType.Uint16 (slice_range words.now 64 65) }
{
    Common {
        mn: read_value(&PointType::Str(16), &words[0..16]),
        md: read_value(&PointType::Str(16), &words[16..32]),
        opt: read_value(&PointType::Str(8), &words[32..40]),
        vr: read_value(&PointType::Str(8), &words[40..48]),
        sn: read_value(&PointType::Str(16), &words[48..64]),
        da: read_value(&PointType::Uint16, &words[64..65]),
    }
}
