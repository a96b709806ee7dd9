//! Lists for sites that no file spells.
use point_list::{Device, ListError, ListFault, Site, Text, read_list};
use std::alloc::{AllocError, Global};
use std::test::Fail;
use telling::{Trial, twice};

const HEADER: &str = "name,device,table,address,type,length,scale,role,roll\n";

/// A site with a device of this name.
fn site_of(alloc: Global, name: &str) -> Result<Site, AllocError> {
    let name = Text::from_string(String::from_str(alloc, name)?);
    let mut devices = Vec::new(alloc);
    devices.push(Device::new(alloc, name, 0, 17))?;
    Ok(Site::new(Vec::new(alloc), devices))
}

/// How many rows a list has for a site with a device of this name, or its fault; `AllocError` where memory was
/// refused.
fn count(alloc: Global, device: &str, list: &str) -> Result<Result<usize, ListError>, AllocError> {
    let site = site_of(alloc, device)?;
    match read_list(alloc, list.as_bytes(), &site) {
        Ok(rows) => Ok(Ok(rows.len())),
        Err(error) if error.fault == ListFault::Memory => Err(AllocError),
        Err(error) => Ok(Err(error)),
    }
}

const UNKNOWN: Result<usize, ListError> = Err(ListError {
    fault: ListFault::UnknownDevice,
    row: 2,
    column: 2,
});

/// A point can have a device of any name of 1 to 64 ASCII characters.
fn names(trial: &Trial<'_>) -> Result<(), AllocError> {
    let cases = [
        ("m1", Ok(1)),
        ("PM/5560 (roof)", Ok(1)),
        (
            "a234567890123456789012345678901234567890123456789012345678901234",
            Ok(1),
        ),
        (
            "a2345678901234567890123456789012345678901234567890123456789012345",
            UNKNOWN,
        ),
        ("", UNKNOWN),
        ("z\u{e4}hler", UNKNOWN),
    ];
    let alloc = trial.alloc();
    for (device, expected) in &cases {
        let list = format!(in alloc; "{HEADER}e,{device},holding,107,uint16,,,gauge,\n")?;
        let told = count(alloc, device, list.as_str())?;
        trial.told(device, &told, expected);
    }
    Ok(())
}

#[test]
fn names_of_devices(rt: HostRuntime) -> Result<(), Fail> {
    Ok(twice!(rt, names)?)
}
