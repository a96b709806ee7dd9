//! Laws of the definitions alone.

ghost use Rattle.std.specs.Prelude.{◌≡◌, ℕ, ℤ, List, Some, option_and_then};
ghost use Rattle.sunspec.specs.Chains.{IsChain, IsChainless};
ghost use Rattle.sunspec.specs.PointType.{IsSized, coded, named, resized, row};
ghost use Rattle.sunspec.specs.Sources.{Image};
ghost use Rattle.sunspec.specs.Value.{AreRegistersOf, AreWords, value};
ghost use Rattle.sunspec.specs.WordOrder.{arranged};
ghost use Rattle.sunspec.specs.declared.chain.Chain.{Chain};
ghost use Rattle.sunspec.specs.declared.error.SunError.{SunError};
ghost use Rattle.sunspec.specs.declared.point_type.PointType.{PointType};
ghost use Rattle.sunspec.specs.declared.value.Value.{Value};
ghost use Rattle.sunspec.specs.declared.word_order.WordOrder.{WordOrder};

/// A type is told by its name and its number of registers, and by its code and that number.
pub fn table()
    ensures named { (kind : PointType) → IsSized kind → option_and_then (λ found. resized found (row kind).registers) (named (row kind).name) ≡ Some kind }
    ensures coded { (kind : PointType) → IsSized kind → option_and_then (λ found. resized found (row kind).registers) (coded (row kind).code) ≡ Some kind }
    ensures names { (a b : PointType) → IsSized a → IsSized b → (row a).registers ≡ (row b).registers → (row a).name ≡ (row b).name → a ≡ b }
    ensures codes { (a b : PointType) → IsSized a → IsSized b → (row a).registers ≡ (row b).registers → (row a).code ≡ (row b).code → a ≡ b }
{}

/// A number has one spelling in registers of a type that are sent in an order.
pub fn one_spelling()
    ensures { (kind : PointType) (order : WordOrder) (number : ℤ) (a b : List ℕ) → AreWords a → AreWords b → AreRegistersOf kind a → AreRegistersOf kind b
        → value kind (arranged order a) ≡ Value.Number number → value kind (arranged order b) ≡ Value.Number number → a ≡ b }
{}

/// An image says one thing: one chain of models, or one reason why it has none.
pub fn one_chain()
    ensures chain { (image : Image) (x y : Chain) → IsChain image x → IsChain image y
        → (x.base ≡ y.base) × (x.models.items ≡ y.models.items) × (x.end ≡ y.end) }
    ensures either { (image : Image) (x : Chain) (e : SunError) → IsChain image x → IsChainless image e → ⊥ }
    ensures reason { (image : Image) (e f : SunError) → IsChainless image e → IsChainless image f → e ≡ f }
{}
