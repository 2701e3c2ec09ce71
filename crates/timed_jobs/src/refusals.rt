//! How a run ends that can't go on.
use hlist_build::ParFault;
use micro_num::NoMemory;
use std::io;

/// A list that can't be had for want of memory, or for a fault.
pub fn lost(fault: ParFault) -> io::Error {
    match fault {
        ParFault::NoMemory => io::Error::from(io::ErrorKind::OutOfMemory),
        _ => io::Error::from(io::ErrorKind::InvalidData),
    }
}

/// What can't be had for want of memory.
pub fn no_memory(_fault: NoMemory) -> io::Error {
    io::Error::from(io::ErrorKind::OutOfMemory)
}
