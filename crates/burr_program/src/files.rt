//! Files that are read and written whole.

ghost use Rattle.std.specs.Prelude.{◌≡◌, ◌⊎◌, IfErr, IfOk, map};
ghost use Rattle.burr_judge.specs.Faults.{line_of};
ghost use Rattle.burr_program.specs.FileFaults.{IsInput, NoMemory, Unread, Unwritten};

use burr_io::Reading;
use burr_judge::Fault;
use burr_runs::{BenchFault, read_whole};
use std::fs::{File, OpenFile, Permissions};
use std::io::{ErrorKind, Write};
use std::os::unix::fs::MetadataExt;
use std::rt::Files;
use std::{fs, io};

/// The most names that are tried for a file beside another one.
const MAX_NAMES: u32 = 100;

/// A file that was read: the name that it was read by, and its bytes. `read_file` alone makes one.
#[derive(Drop)]
pub struct SourceFile<'a> {
    name: &'a str,
    bytes: Vec<u8>,
}

impl<'a> SourceFile<'a> {
    ghost use Rattle.std.specs.Prelude.{◌≡◌};

    /// Returns the name, as it was given.
    pub fn name(&self) -> &'a str
        ensures { result.now ≡ self.entry.now.name.now }
    {
        self.name
    }

    /// Returns the bytes.
    pub fn bytes(&self) -> &[u8]
        ensures { result.now ≡ self.now.bytes.items }
    {
        &self.bytes
    }

    /// Returns the bytes, and drops the name.
    pub fn into_bytes(self) -> Vec<u8>
        ensures { result ≡ self.entry.bytes }
    {
        self.bytes
    }
}

/// A file that was written whole: its name, and its bytes. `write_file` alone makes one.
#[derive(Drop)]
pub struct WrittenFile<'a> {
    name: &'a str,
    bytes: Vec<u8>,
}

/// Reads a file of at most 16,777,216 bytes.
///
/// # Errors
/// `Read` if it can't be read or is longer, `Memory` if out of memory.
pub fn read_file<'a, F: Files + AllocGlobal>(
    files: &F,
    name: &'a str,
) -> Result<SourceFile<'a>, Fault<'a>>
    ensures ok { IfOk result (λ file. file.name.now ≡ name.entry.now) }
    ensures err { IfErr result (λ fault. Unread name.entry.now (line_of fault)) }
{
    let file = match fs::open(files, name) {
        Ok(file) => file,
        Err(error) => return Err(fault_of(error, Fault::Read(name))),
    };
    match read_whole(files.alloc(), &mut Reading::new(file)) {
        Ok(bytes) => Ok(SourceFile { name, bytes }),
        Err(BenchFault::Memory) => Err(Fault::Memory),
        Err(_) => Err(Fault::Read(name)),
    }
}

/// Checks that a file to be written is not one of the inputs, which come with their words of the usage.
///
/// # Errors
/// `OutIsInput` with the first input that is the same file.
pub fn check_out_not_input<'a, F: Files>(
    files: &F,
    inputs: &[(&'static str, &str)],
    out: &'a str,
) -> Result<(), Fault<'a>>
    ensures { IfErr result (λ fault.
        IsInput (map (λ input. input.0.now) inputs.now) out.entry.now (line_of fault)) }
{
    for (word, name) in inputs {
        if is_same_file(files, name, out) {
            return Err(Fault::OutIsInput(word, out));
        }
    }
    Ok(())
}

/// Writes a file. A regular file of that name is replaced whole: the bytes go to a new file beside it, which
/// then takes its name, so a fault leaves the old one as it was. Anything else of that name, as a pipe or a
/// device, is written to directly.
///
/// # Errors
/// `Write` if it can't be written, `Memory` if out of memory.
pub fn write_file<'a, F: Files + AllocGlobal>(
    files: &F,
    name: &'a str,
    bytes: Vec<u8>,
) -> Result<WrittenFile<'a>, Fault<'a>>
    ensures name { IfOk result (λ file. file.name.now ≡ name.entry.now) }
    ensures bytes { IfOk result (λ file. file.bytes.items ≡ bytes.items) }
    ensures err { IfErr result (λ fault. Unwritten name.entry.now (line_of fault)) }
{
    let written = match fs::metadata(files, name) {
        Ok(old) if old.is_file() => replace(files, name, old.permissions(), &bytes),
        Ok(_) => fs::write(files, name, &*bytes),
        Err(error) if error.kind() == ErrorKind::NotFound => make(files, name, None, &bytes),
        Err(error) => Err(error),
    };
    match written {
        Ok(()) => Ok(WrittenFile { name, bytes }),
        Err(error) => Err(fault_of(error, Fault::Write(name))),
    }
}

/// Whether two paths are one, or lead to one regular file.
fn is_same_file<F: Files>(files: &F, path: &str, other: &str) -> bool {
    if path == other {
        return true;
    }
    match (fs::metadata(files, path), fs::metadata(files, other)) {
        (Ok(one), Ok(two)) => { one.is_file() && one.dev() == two.dev() && one.ino() == two.ino() }
        _ => false,
    }
}

/// Replaces a file with these permissions that a path leads to, perhaps by links. A file that nobody may
/// write is left alone.
fn replace<F: Files + AllocGlobal>(
    files: &F,
    path: &str,
    permissions: Permissions,
    bytes: &[u8],
) -> io::Result<()> {
    if permissions.readonly() {
        return Err(io::Error::from(ErrorKind::PermissionDenied));
    }
    let path = fs::canonicalize(files, path)?;
    make(files, path.as_path().as_str(), Some(permissions), bytes)
}

/// Makes a file of these bytes beside a path, and renames it to the path once it is whole.
fn make<F: Files + AllocGlobal>(
    files: &F,
    path: &str,
    permissions: Option<Permissions>,
    bytes: &[u8],
) -> io::Result<()> {
    let (name, mut file) = new_beside(files, path)?;
    let made = match fill(&mut file, permissions, bytes) {
        Ok(()) => fs::rename(files, name.as_str(), path),
        Err(error) => Err(error),
    };
    if made.is_err() {
        let _ = fs::remove_file(files, name.as_str());
    }
    made
}

/// Writes bytes to a new file, down to the device that holds it.
fn fill<O: OpenFile + Write>(
    file: &mut O,
    permissions: Option<Permissions>,
    bytes: &[u8],
) -> io::Result<()> {
    if let Some(permissions) = permissions {
        file.set_permissions(permissions)?;
    }
    file.write_all(bytes)?;
    file.sync_all()
}

/// Makes a new file beside a path, with its name and a number.
fn new_beside<F: Files + AllocGlobal>(files: &F, path: &str) -> io::Result<(String, F::File)> {
    for number in 0..MAX_NAMES {
        let name = format!(in files.alloc(); "{path}.new{number}")?;
        match File::create_new(files, name.as_str()) {
            Ok(file) => return Ok((name, file)),
            Err(error) if error.kind() == ErrorKind::AlreadyExists => {}
            Err(error) => return Err(error),
        }
    }
    Err(io::Error::from(ErrorKind::AlreadyExists))
}

/// Returns `Memory` if the error says that, else this fault.
fn fault_of<'a>(error: io::Error, fault: Fault<'a>) -> Fault<'a>
    ensures { (result ≡ fault.entry) ⊎ NoMemory (line_of result) }
{
    match error.kind() {
        ErrorKind::OutOfMemory => Fault::Memory,
        _ => fault,
    }
}
