//! Says of each path in a list whether a contract lets it be read and written, or where the contract is refused.
#![tactic(auto)]

ghost use Rattle.pathcheck.specs.Lines.{marks_text, wrong_text};
ghost use Rattle.std.specs.Prelude.{◌≡◌, IfOk, string_bytes};

use anyhow::anyhow;
use contract::expressions::Expression;
use contract::path_text::{NoPath, permits_text};
use contract::permits::Permission;
use std::alloc::{AllocError, Global};
use std::fs;
use std::io::Write;

/// What stands before a path: what is permitted, with a dash for what is not.
fn marks(permission: Permission) -> &'static str
    ensures { result.now ≡ marks_text permission.read permission.write }
{
    match (permission.read, permission.write) {
        (true, true) => "read write ",
        (true, false) => "read - ",
        (false, true) => "- write ",
        (false, false) => "- - ",
    }
}

/// What stands before a line that is no path.
fn wrong(heap: Global, no_path: NoPath) -> Result<String, AllocError>
    ensures { IfOk result (λ s. string_bytes s ≡ wrong_text no_path) }
{
    format!(in heap; "{no_path}: ")
}

/// Adds what is said of one line.
fn say_line(
    heap: Global,
    contract: &Expression,
    line: &[u8],
    out: &mut Vec<u8>,
) -> Result<(), AllocError> {
    match permits_text(contract, line) {
        Ok(permission) => out.extend_from_slice(marks(permission).as_bytes())?,
        Err(no_path) => out.extend_from_slice(wrong(heap, no_path)?.as_bytes())?,
    }
    out.extend_from_slice(line)?;
    out.push(b'\n')?;
    Ok(())
}

/// What is said of each line; a line ends before byte 10, or at the end of the list.
fn say_lines(heap: Global, contract: &Expression, paths: &[u8]) -> Result<Vec<u8>, AllocError> {
    let mut out = Vec::new(heap);
    for line in paths.split_inclusive(|b| *b == b'\n') {
        say_line(
            heap,
            contract,
            line.strip_suffix(b"\n").unwrap_or(line),
            &mut out,
        )?;
    }
    Ok(out)
}

fn bytes_of(rt: &HostRuntime, path: &str) -> anyhow::Result<Vec<u8>> {
    match fs::read(rt, path) {
        Ok(bytes) => Ok(bytes),
        Err(_) => {
            eprintln!(rt; "pathcheck: cannot read {path}")?;
            Err(anyhow!("a file cannot be read"))
        }
    }
}

fn main(rt: HostRuntime) -> anyhow::Result<()> {
    let heap = rt.alloc();
    let read = bytes_of(&rt, "read.txt")?;
    let write = bytes_of(&rt, "write.txt")?;
    let paths = bytes_of(&rt, "paths.txt")?;
    let mut contract = Expression::new();
    match contract.read(read.as_slice(), write.as_slice()) {
        Ok(_) => rt
            .stdout()
            .write_all(say_lines(heap, &contract, paths.as_slice())?.as_slice())?,
        Err(refusal) => println!(rt; "{refusal}")?,
    }
    Ok(())
}
