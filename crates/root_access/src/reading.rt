//! What the program reads besides the root: scripts, inventories and the texts of files.

use crate::failure::Failure;
use byte_streams::FromRead;
use link_tree::{Tree, read_inventory};
use std::alloc::Global;
use std::fs::File;
use std::io;
use std::io::Read;

/// At most this many bytes of a script or an inventory are read.
const MAX_BYTES: u64 = 1 << 31;

fn read_at_most<R: Read + Drop>(alloc: Global, from: R, most: u64) -> Result<Vec<u8>, io::Error> {
    let mut bytes = Vec::new(alloc);
    from.take(most).read_to_end(&mut bytes)?;
    Ok(bytes)
}

fn read_all<R: Read + Drop>(alloc: Global, from: R) -> Result<Vec<u8>, io::Error> {
    read_at_most(alloc, from, MAX_BYTES)
}

fn read_input(rt: &HostRuntime) -> Result<Vec<u8>, Failure> {
    match read_all(rt.alloc(), rt.reader()) {
        Ok(bytes) => Ok(bytes),
        Err(e) if e.kind() == io::ErrorKind::OutOfMemory => Err(Failure::OutOfMemory),
        Err(_) => Err(Failure::Input),
    }
}

fn read_file(rt: &HostRuntime, name: &str) -> Result<Vec<u8>, Failure> {
    read_some(rt, name, MAX_BYTES)
}

/// At most this number of bytes of a file.
pub fn read_some(rt: &HostRuntime, name: &str, most: u64) -> Result<Vec<u8>, Failure> {
    let read = match File::open(rt, name) {
        Ok(file) => read_at_most(rt.alloc(), file, most),
        Err(e) => Err(e),
    };
    match read {
        Ok(bytes) => Ok(bytes),
        Err(e) if e.kind() == io::ErrorKind::OutOfMemory => Err(Failure::OutOfMemory),
        Err(e) => Err(Failure::File(String::from_str(rt.alloc(), name)?, e)),
    }
}

/// The bytes of a file, or of standard input if there is no name or the name is `-`.
pub fn read_text(rt: &HostRuntime, name: Option<&str>) -> Result<Vec<u8>, Failure> {
    match name {
        None => read_input(rt),
        Some(name) if name == "-" => read_input(rt),
        Some(name) => read_file(rt, name),
    }
}

/// The tree of an inventory in a file, or on standard input.
pub fn read_tree(rt: &HostRuntime, name: Option<&str>) -> Result<Tree, Failure> {
    let bytes = read_text(rt, name)?;
    tree_of(rt.alloc(), name.unwrap_or("standard input"), &bytes)
}

fn tree_of(alloc: Global, name: &str, bytes: &[u8]) -> Result<Tree, Failure> {
    match read_inventory(alloc, &mut FromRead::new(bytes)) {
        Ok(tree) => Ok(tree),
        Err(e) => Err(Failure::Inventory(String::from_str(alloc, name)?, e)),
    }
}
