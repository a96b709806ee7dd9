//! An office that stays up.
use crate::{Failure, Fault, Why};
use point_list::Site;
use std::alloc::{AllocError, Global};
use std::net::{IpAddr, SocketAddr};

/// How an office stays up.
#[derive(Clone, Copy, Debug)]
pub struct Stay<'a> {
    /// The seconds of a slot, 1 at least.
    pub every: u32,
    /// For how many seconds a connection, and each answer, is waited for.
    pub timeout: u16,
    /// The IP address that callers reach.
    pub bind: &'a str,
    pub port: u16,
}

/// The IP address that a word of the command line gives.
pub(crate) fn ip_address(alloc: Global, bind: &str) -> Result<IpAddr, Failure> {
    match bind.parse::<IpAddr>() {
        Ok(address) => Ok(address),
        Err(_) => {
            let why = Why::Words("it is no IP address");
            Err(Failure::new(Fault::Command, why).of(alloc, bind))
        }
    }
}

/// Where callers are listened for.
pub fn door_of(alloc: Global, stay: &Stay<'_>) -> Result<SocketAddr, Failure> {
    let address = ip_address(alloc, stay.bind)?;
    Ok(SocketAddr::new(address, stay.port))
}

/// The address of each line of a site, a host and port.
pub fn addresses_of(alloc: Global, site: &Site) -> Result<Vec<String>, AllocError> {
    let mut addresses = Vec::new(alloc);
    for line in site.lines.as_slice() {
        addresses.push(String::from_str(alloc, line.address.as_str())?)?;
    }
    Ok(addresses)
}
