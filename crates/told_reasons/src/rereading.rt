//! Files that are read again for a reason. Nothing is written here.

ghost use Rattle.std.specs.Prelude.{◌≤◌, length};

use std::alloc::Global;
use std::fs;
use std::fs::{File, Files};
use std::io::Read;

/// The first bytes of a file of the disk, at most so many. Where it can't be read again, as a pipe, there are none.
pub fn read_again<R: Files<File = File>>(
    alloc: Global,
    files: &R,
    path: &str,
    most: usize,
) -> Vec<u8>
    ensures { length result.items ≤ most }
{
    let mut bytes = Vec::new(alloc);
    if !is_file(files, path) {
        return bytes;
    }
    let Ok(mut file) = fs::open(files, path) else {
        return bytes;
    };
    for _ in 0..most {
        if bytes.len() >= most || !read_more(&mut file, &mut bytes) {
            break;
        }
    }
    bytes.truncate(most);
    bytes
}

// Reads the next bytes, and answers whether there may be more.
fn read_more(file: &mut File, bytes: &mut Vec<u8>) -> bool {
    let mut chunk = [0u8; 4096];
    match file.read(&mut chunk) {
        Ok(count) => count > 0 && bytes.extend_from_slice(&chunk[..count]).is_ok(),
        Err(_) => false,
    }
}

fn is_file<R: Files>(files: &R, path: &str) -> bool {
    match fs::metadata(files, path) {
        Ok(metadata) => metadata.is_file(),
        Err(_) => false,
    }
}
