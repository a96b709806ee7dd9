//! What a device's chain of models says.
use crate::value::Value;

/// A model of a device: its identifier, the address of its identifier, and its length, the number of
/// registers after identifier and length (SunSpec Device Information Model, model chain).
#[derive(Clone, Copy, Debug, PartialEq, Eq)]
pub struct Model {
    pub id: u16,
    pub address: u16,
    pub length: u16,
}

/// The chain of models of a device: the marker `SunS` at `base`, the models in the order of their
/// addresses, and the address of the end model.
#[derive(Debug, PartialEq, Eq, Drop)]
pub struct Chain {
    pub base: u16,
    pub models: Vec<Model>,
    pub end: u16,
}

/// The values of model 1 (SunSpec Device Information Model, common model): manufacturer, model,
/// options, version and serial number as texts, and the device's address as a number.
#[derive(Clone, Copy, Debug, PartialEq, Eq)]
pub struct Common {
    pub mn: Value,
    pub md: Value,
    pub opt: Value,
    pub vr: Value,
    pub sn: Value,
    pub da: Value,
}
