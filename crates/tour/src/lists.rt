//! `point_list`: a site file, a point list over it, and what is wrong with another one.
ghost use Rattle.std.specs.Prelude.{IfOk};
ghost use Rattle.point_list.specs.Sites.{IsSound};

use anyhow::Result;
use point_list::{Point, Site, read_points};
use std::alloc::Global;

const SITE: &[u8] = b"[[line]]\nname = \"roof\"\naddress = \"127.0.0.1:502\"\n\
    [[device]]\nname = \"meter\"\nline = \"roof\"\nunit = 17\ngap = 8\n";

const LIST: &[u8] = b"name,device,table,address,type,length,scale,role,roll\n\
    energy,meter,holding,107,uint16,,,counter,\npower,meter,holding,110,int16,,1,gauge,\n";

/// A scale that isn't -10 to 10, in the second record.
const FAULTY: &[u8] = b"name,device,table,address,type,length,scale,role,roll\n\
    power,meter,holding,110,int16,,11,gauge,\n";

/// A device whose unit identifier is missing.
const LACKING: &[u8] = b"line = [{ name = \"roof\", address = \"127.0.0.1:502\" }]\n\
    device = [{ name = \"meter\", line = \"roof\" }]\n";

/// The site of a meter behind one line.
pub(crate) fn site(alloc: Global) -> Result<Site>
    ensures { IfOk result IsSound }
{
    match Site::from_toml(alloc, SITE) {
        Ok(site) => Ok(site),
        Err(error) => Err(error.into()),
    }
}

/// The points of its list.
pub(crate) fn points(alloc: Global) -> Result<Vec<Point>> {
    let points = read_points(alloc, LIST, &site(alloc)?)?;
    Ok(points)
}

pub(crate) fn show(rt: &HostRuntime) -> Result<()> {
    let alloc = rt.alloc();
    for point in &points(alloc)? {
        let Point {
            name,
            address,
            kind,
            ..
        } = point;
        println!(rt; "{name} at {address} is {}", kind.name())?;
    }
    if let Err(error) = read_points(alloc, FAULTY, &site(alloc)?) {
        println!(rt; "{error}")?;
    }
    if let Err(error) = Site::from_toml(alloc, LACKING) {
        println!(rt; "{error}")?;
    }
    Ok(())
}
