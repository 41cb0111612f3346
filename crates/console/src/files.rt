// Files that the program's arguments name.
ghost use Rattle.std.specs.Prelude.{◌≡◌, ◌≤◌, length, take};

use std::env::{Env, FillError};
use std::fs::{File, Files};
use std::io::Read;

// The longest name of a file, with the byte that ends it for the system.
const LONGEST_NAME: usize = 4096;

// Reads the file that argument i names to the front of buf, as far as it fits, and answers how many bytes that are. A
// file that is missing, or can't be read, counts as empty.
pub fn read_named<R: Env + Files>(rt: &R, i: usize, buf: &mut [u8]) -> usize
    ensures { (result ≤ length buf.new) × (result ≡ length (take result buf.new)) }
{
    let mut name = [0u8; LONGEST_NAME];
    match rt.arg(i, &mut name) {
        Ok(n) => read_path(rt, &name[..n], buf),
        Err(_) => 0,
    }
}

// The same of the file of this name, which must be UTF-8.
fn read_path<R: Files>(rt: &R, name: &[u8], buf: &mut [u8]) -> usize
    ensures { (result ≤ length buf.new) × (result ≡ length (take result buf.new)) }
{
    match str::from_utf8(name) {
        Ok(path) => match File::open(rt, path) {
            Ok(mut file) => read_full(&mut file, buf),
            Err(_) => 0,
        },
        Err(_) => 0,
    }
}

// What a reader has, as far as it fits and can be read.
fn read_full<F: Read>(file: &mut F, buf: &mut [u8]) -> usize
    ensures { (result ≤ length buf.new) × (result ≡ length (take result buf.new)) }
{
    let mut n: usize = 0;
    // A read gives as many bytes as it likes, so that no range counts them; `read_to_end` takes a heap.
    while n < buf.len() {
        match file.read(&mut buf[n..]) {
            Ok(0) => return n,
            Ok(more) => n += more,
            Err(_) => return n,
        }
    }
    n
}

// How many arguments there are, with the program's own name.
pub fn argument_count<R: Env>(rt: &R) -> usize {
    let mut name = [0u8; 1];
    (0..usize::MAX)
        .find(|i| matches!(rt.arg(*i, &mut name), Err(FillError::NotPresent)))
        .unwrap_or(usize::MAX)
}
