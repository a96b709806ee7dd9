//! Where the lines are.
use std::alloc::{AllocError, Global};
use std::net::{Net, SocketAddr, ToSocketAddrs};

/// A line's address: a host and port as the site has them, and where that was when it was looked up last.
#[derive(Drop)]
pub(crate) struct Address {
    alloc: Global,
    text: String,
    // In the order in which they are tried.
    found: Vec<SocketAddr>,
    // The place of the one that is tried next, and of the one that was tried last.
    next: usize,
    tried: usize,
}

/// The addresses of a host and port; none where there is none.
fn find<N: Net>(net: &N, alloc: Global, text: &str) -> Result<Vec<SocketAddr>, AllocError> {
    let mut all = Vec::new(alloc);
    if let Ok(found) = text.to_socket_addrs(net) {
        for one in found {
            all.push(one)?;
        }
    }
    Ok(all)
}

impl Address {
    /// It is looked up for the first time.
    pub fn new<N: Net>(net: &N, alloc: Global, text: String) -> Result<Address, AllocError> {
        let found = find(net, alloc, text.as_str())?;
        Ok(Address {
            alloc,
            text,
            found,
            next: 0,
            tried: 0,
        })
    }

    /// Where it is tried now: where a host has several addresses, at each in turn. None where nobody knew it.
    pub fn next(&mut self) -> Option<SocketAddr> {
        let one = *self.found.get(self.next)?;
        self.tried = self.next;
        let later = self.next.saturating_add(1);
        self.next = if later < self.found.len() { later } else { 0 };
        Some(one)
    }

    /// It answers where it was tried last, and is tried there first from now on.
    pub fn stay(&mut self) {
        self.next = self.tried;
    }

    /// Looks it up once more, if its host is a name; tells whether it is one. Where nobody knows it any more, or memory
    /// is refused, it is where it was. Where the same is found, it goes on in its turn.
    pub fn look_up<N: Net>(&mut self, net: &N) -> bool {
        if self.text.parse::<SocketAddr>().is_ok() {
            return false;
        }
        if let Ok(found) = find(net, self.alloc, self.text.as_str())
            && !found.is_empty()
            && found.as_slice() != self.found.as_slice()
        {
            self.found = found;
            self.next = 0;
            self.tried = 0;
        }
        true
    }
}

/// The addresses of lines, each looked up.
pub(crate) fn addresses_of<N: Net>(
    net: &N,
    alloc: Global,
    texts: Vec<String>,
) -> Result<Vec<Address>, AllocError> {
    let mut addresses = Vec::with_capacity(alloc, texts.len())?;
    for text in texts {
        addresses.push(Address::new(net, alloc, text)?)?;
    }
    Ok(addresses)
}
