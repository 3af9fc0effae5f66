//! An output file: it has all of its bytes, or is as it was.

ghost use Rattle.std.specs.Prelude.{◌≡◌, None};

use byte_io::{DeviceFault, Sink, WriterSink};
use std::alloc::{AllocError, Global};
use std::fs::OpenOptions;
use std::os::unix::fs::{MetadataExt, OpenOptionsExt};
use std::rt::Files;
use std::{fs, io};

/// Mode of a new program, before umask, as a linker's output.
pub const PROGRAM_MODE: u32 = 0o777;

/// Mode of a new text, before umask.
pub const TEXT_MODE: u32 = 0o666;

// The bits of a mode that give rights.
const RIGHTS: u32 = 0o777;

/// Why a file isn't written.
#[derive(Clone, Copy, PartialEq, Eq)]
pub enum OutputFault {
    /// The system refused it.
    Refused,
    /// Out of memory.
    Memory,
}

// The fault of a refused call.
fn fault_of(error: &io::Error) -> OutputFault {
    if error.kind() == io::ErrorKind::OutOfMemory {
        OutputFault::Memory
    } else {
        OutputFault::Refused
    }
}

/// A file to be written. Nothing at its path changes before the first write. A regular file, and one
/// that doesn't exist, is made beside its name, and put in its place by `keep`. Devices, links and
/// files with several names are written in place, and so is what no file can be made beside.
#[derive(Drop)]
pub struct OutputFile<'a, R: Files + AllocGlobal> {
    rt: &'a R,
    path: &'a str,
    mode: u32,
    file: Option<R::File>,
    // The path of the file beside its place.
    part: Option<String<Global>>,
    fault: Option<OutputFault>,
    failures: u64,
}

// How a file at a path is made.
#[derive(Clone, Copy, PartialEq, Eq)]
enum Making {
    /// In its place.
    InPlace,
    /// Beside its name, with this mode before umask.
    Beside(u32),
}

// How the file at a path is made, with a mode if it is new.
fn making_of(rt: &impl Files, path: &str, mode: u32) -> Making {
    match fs::symlink_metadata(rt, path) {
        Ok(there) if there.is_file() && there.nlink() == 1 => Making::Beside(there.mode() & RIGHTS),
        Ok(_) => Making::InPlace,
        Err(error) if error.kind() == io::ErrorKind::NotFound => Making::Beside(mode),
        Err(_) => Making::InPlace,
    }
}

// The path with `.part` behind it.
fn part_path<R: AllocGlobal>(rt: &R, path: &str) -> Result<String<Global>, AllocError> {
    let mut part = String::new(rt.alloc());
    part.push_str(path)?;
    part.push_str(".part")?;
    Ok(part)
}

// Opens a file in its place, and truncates it.
fn open_in_place<R: Files>(rt: &R, path: &str, mode: u32) -> Result<R::File, OutputFault> {
    let opened = OpenOptions::new()
        .write(true)
        .create(true)
        .truncate(true)
        .mode(mode)
        .open(rt, path);
    match opened {
        Ok(file) => Ok(file),
        Err(error) => Err(fault_of(&error)),
    }
}

// Opens a file beside the place of a path, if one can be made there; also gives its path.
fn open_beside<R: Files + AllocGlobal>(
    rt: &R,
    path: &str,
    mode: u32,
) -> Result<Option<(R::File, String<Global>)>, OutputFault> {
    let Ok(part) = part_path(rt, path) else {
        return Err(OutputFault::Memory);
    };
    let opened = OpenOptions::new()
        .write(true)
        .create_new(true)
        .mode(mode)
        .open(rt, part.as_str());
    match opened {
        Ok(file) => Ok(Some((file, part))),
        Err(error) if error.kind() == io::ErrorKind::OutOfMemory => Err(OutputFault::Memory),
        Err(_) => Ok(None),
    }
}

// Opens the file of a path, beside its place or in it; also gives the path beside it.
fn open_output<R: Files + AllocGlobal>(
    rt: &R,
    path: &str,
    mode: u32,
) -> Result<(R::File, Option<String<Global>>), OutputFault> {
    if let Making::Beside(mode) = making_of(rt, path, mode) {
        if let Some((file, part)) = open_beside(rt, path, mode)? {
            return Ok((file, Some(part)));
        }
    }
    let file = open_in_place(rt, path, mode)?;
    Ok((file, None))
}

impl<'a, R: Files + AllocGlobal> OutputFile<'a, R> {
    /// The file at a path, not yet opened. A new one gets the mode, before umask.
    pub fn new(rt: &'a R, path: &'a str, mode: u32) -> OutputFile<'a, R>
        ensures path { result.path.now ≡ path.now }
        ensures unopened { result.file ≡ None }
        ensures no_fault { result.fault ≡ None }
        ensures failures { ⟦<OutputFile<'a, R> as Sink>⟧.failures result ≡ 0 }
    {
        OutputFile {
            rt,
            path,
            mode,
            file: None,
            part: None,
            fault: None,
            failures: 0,
        }
    }

    /// Why it couldn't be opened, if a write has failed for that reason.
    pub fn fault(&self) -> Option<OutputFault>
        ensures { result ≡ self.now.fault }
    {
        self.fault
    }

    /// Puts the file in its place, once all was written. After a fault it is as it was.
    pub fn keep(mut self) -> Result<(), OutputFault> {
        if self.file.is_none() {
            let (_, part) = open_output(self.rt, self.path, self.mode)?;
            self.part = part;
        }
        self.file = None;
        let Some(part) = &self.part else {
            return Ok(());
        };
        match fs::rename(self.rt, part.as_str(), self.path) {
            Ok(()) => Ok(()),
            Err(error) => {
                let _ = fs::remove_file(self.rt, part.as_str());
                Err(fault_of(&error))
            }
        }
    }

    /// Lets go what was written. A file in its place has a beginning then, any other is as it was.
    pub fn forget(self) {
        if let Some(part) = &self.part {
            let _ = fs::remove_file(self.rt, part.as_str());
        }
    }
}

impl<'a, R: Files + AllocGlobal> Sink for OutputFile<'a, R> {
    // What the file had before isn't known.
    ghost held = { λ _. None };

    ghost failures = { λ s. s.failures };

    fn write(&mut self, piece: &[u8]) -> Result<usize, DeviceFault> {
        let mut file = match self.file.take() {
            Some(file) => file,
            None => match open_output(self.rt, self.path, self.mode) {
                Ok((file, part)) => {
                    self.part = part;
                    file
                }
                Err(fault) => {
                    self.fault = Some(fault);
                    self.failures += 1;
                    return Err(DeviceFault);
                }
            },
        };
        let written = WriterSink::new(&mut file).write(piece);
        self.file = Some(file);
        if written.is_err() {
            self.failures += 1;
        }
        written
    }
}
