//! A runtime whose files log each call, and fail at one of them.
use super::*;
use std::alloc::{Alloc, Allocator};
use std::cell::{Cell, RefCell};
use std::fmt::Display;
use std::fs::{Metadata, OpenFile, OpenOptions, Permissions};
use std::io::{Empty, Seek, SeekFrom};
use std::os::unix::fs::PermissionsExt;
use std::path::PathBuf;

/// The call on files that fails.
#[derive(Clone, Copy)]
pub enum Failing<'a> {
    None,
    /// The one after this number of calls.
    After(usize),
    /// The first call of this name.
    At(&'a str),
}

/// Logs the calls on files, and lets one of them fail.
#[derive(Drop)]
pub struct Calls<'a> {
    alloc: Global,
    failing: Failing<'a>,
    has_failed: Cell<bool>,
    made: Cell<usize>,
    /// A line for each call, but for the last ones if they read or write.
    log: RefCell<String>,
    /// The name of these, and how many bytes they moved.
    row: Cell<Option<(&'static str, usize)>>,
}

impl<'a> Calls<'a> {
    pub fn new(alloc: Global, failing: Failing<'a>) -> Calls<'a> {
        Calls {
            alloc,
            failing,
            has_failed: Cell::new(false),
            made: Cell::new(0),
            log: RefCell::new(String::new(alloc)),
            row: Cell::new(None),
        }
    }

    /// Whether a call has failed.
    pub fn have_failed(&self) -> bool {
        self.has_failed.get()
    }

    /// Returns a line for each call, as `rename made.new0 made`. Calls in a row that read have one line, as
    /// `read 45`, with the number of their bytes, and so have calls that write.
    pub fn into_log(self) -> String {
        self.end_row();
        self.log.into_inner()
    }

    /// Logs a call, and lets it fail.
    fn make(&self, name: &str, words: impl Display + Drop) -> io::Result<()> {
        self.end_row();
        self.add_line(name, words);
        self.count(name)
    }

    /// Logs a call that reads or writes, and lets it fail.
    fn move_bytes(&self, name: &'static str) -> io::Result<()> {
        if !matches!(self.row.get(), Some((row, _)) if row == name) {
            self.end_row();
            self.row.set(Some((name, 0)));
        }
        self.count(name)
    }

    /// Adds to the bytes that the last call has moved.
    fn add_bytes(&self, count: usize) {
        if let Some((name, before)) = self.row.get() {
            self.row.set(Some((name, before.saturating_add(count))));
        }
    }

    /// Logs the line of the calls that read or write.
    fn end_row(&self) {
        if let Some((name, bytes)) = self.row.replace(None) {
            self.add_line(name, bytes);
        }
    }

    fn add_line(&self, name: &str, words: impl Display + Drop) {
        if let Ok(mut log) = self.log.try_borrow_mut() {
            let _ = writeln!(log, "{name} {words}");
        }
    }

    /// Counts a call, and lets it fail.
    fn count(&self, name: &str) -> io::Result<()> {
        let made = self.made.get();
        self.made.set(made.saturating_add(1));
        let fails = match self.failing {
            Failing::None => false,
            Failing::After(before) => made == before,
            Failing::At(failing) => name == failing && !self.has_failed.get(),
        };
        if fails {
            self.has_failed.set(true);
            return Err(io::Error::from(io::ErrorKind::Other));
        }
        Ok(())
    }
}

/// What the program never does with files.
fn unused<T>() -> io::Result<T> {
    Err(io::Error::from(io::ErrorKind::Unsupported))
}

/// An open file of a runtime whose files fail.
#[derive(Drop)]
pub struct FaultyFile<'a, F> {
    file: F,
    calls: &'a Calls<'a>,
}

impl<F: Read> Read for FaultyFile<'_, F> {
    fn read(&mut self, buffer: &mut [u8]) -> io::Result<usize> {
        self.calls.move_bytes("read")?;
        let wanted = buffer.len().min(1);
        let count = self.file.read(&mut buffer[..wanted])?;
        self.calls.add_bytes(count);
        Ok(count)
    }
}

impl<F: Write> Write for FaultyFile<'_, F> {
    fn write(&mut self, bytes: &[u8]) -> io::Result<usize> {
        self.calls.move_bytes("write")?;
        let count = self.file.write(&bytes[..bytes.len().min(1)])?;
        self.calls.add_bytes(count);
        Ok(count)
    }

    fn flush(&mut self) -> io::Result<()> {
        unused()
    }
}

impl<F> Seek for FaultyFile<'_, F> {
    fn seek(&mut self, _to: SeekFrom) -> io::Result<u64> {
        unused()
    }
}

impl<F: OpenFile> OpenFile for FaultyFile<'_, F> {
    fn metadata(&self) -> io::Result<Metadata> {
        unused()
    }

    fn set_len(&self, _size: u64) -> io::Result<()> {
        unused()
    }

    fn sync_all(&self) -> io::Result<()> {
        self.calls.make("sync", "all")?;
        self.file.sync_all()
    }

    fn sync_data(&self) -> io::Result<()> {
        unused()
    }

    fn set_permissions(&self, permissions: Permissions) -> io::Result<()> {
        let mode = permissions.mode() & 0o777;
        self.calls.make("permissions", format_args!("{mode:o}"))?;
        self.file.set_permissions(permissions)
    }
}

/// The name of the call that opens a file so.
fn opening(how: &OpenOptions) -> &'static str {
    if how.asks_create_new() {
        "create_new"
    } else if how.asks_write() {
        "create"
    } else {
        "open"
    }
}

/// A runtime with files: one call to them fails, and each call moves one byte.
#[derive(Drop)]
pub struct Faulty<'a, T> {
    pub rt: &'a T,
    pub calls: &'a Calls<'a>,
}

impl<T: AllocGlobal> Alloc for Faulty<'_, T> {
    type A = Global;

    fn alloc(&self) -> Global {
        self.rt.alloc()
    }
}

impl<'a, T: Files> Files for Faulty<'a, T> {
    type File = FaultyFile<'a, T::File>;

    type Dir = Empty;

    fn open_file(&self, how: &OpenOptions, path: &str) -> io::Result<FaultyFile<'a, T::File>> {
        self.calls.make(opening(how), path)?;
        let file = self.rt.open_file(how, path)?;
        Ok(FaultyFile {
            file,
            calls: self.calls,
        })
    }

    fn open_dir(&self, _path: &str) -> io::Result<Empty> {
        unused()
    }

    fn metadata(&self, path: &str) -> io::Result<Metadata> {
        self.calls.make("metadata", path)?;
        self.rt.metadata(path)
    }

    fn symlink_metadata(&self, _path: &str) -> io::Result<Metadata> {
        unused()
    }

    fn copy(&self, _from: &str, _to: &str) -> io::Result<u64> {
        unused()
    }

    fn rename(&self, from: &str, to: &str) -> io::Result<()> {
        let names = format!(in self.calls.alloc; "{from} {to}")?;
        self.calls.make("rename", names.as_str())?;
        self.rt.rename(from, to)
    }

    fn remove_file(&self, path: &str) -> io::Result<()> {
        self.calls.make("remove", path)?;
        self.rt.remove_file(path)
    }

    fn create_dir(&self, _path: &str) -> io::Result<()> {
        unused()
    }

    fn remove_dir(&self, _path: &str) -> io::Result<()> {
        unused()
    }

    fn remove_dir_all<B: Allocator>(&self, _alloc: B, _path: &str) -> io::Result<()> {
        unused()
    }

    fn canonicalize<B: Allocator>(&self, alloc: B, path: &str) -> io::Result<PathBuf<B>> {
        self.calls.make("canonicalize", path)?;
        self.rt.canonicalize(alloc, path)
    }
}
