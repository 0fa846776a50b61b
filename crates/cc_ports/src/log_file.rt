//! The file of a log: it is written beside its place, and put there when its run has ended.
use std::fs::{File, Metadata};
use std::io::{Error, ErrorKind};
use std::os::unix::fs::MetadataExt;
use std::path::PathBuf;
use std::{fs, io};

/// The ending of the name under which a log is written until its run has ended.
const UNFINISHED: &str = ".unfinished";

/// How many names with that ending are tried, where files of such names are there.
const MOST_NAMES: u32 = 100;

/// How many symbolic links are followed, one after another, to a log that is not there yet; as many as Linux follows.
const MOST_LINKS: u32 = 40;

/// Which plain file it is, whatever its name.
#[derive(Clone, Copy, PartialEq, Eq)]
pub(crate) struct FileNumber {
    device: u64,
    inode: u64,
}

impl FileNumber {
    /// That of a plain file; none of a folder, a device or a pipe.
    pub(crate) fn of(found: &Metadata) -> Option<FileNumber> {
        if !found.is_file() {
            return None;
        }
        Some(FileNumber {
            device: found.dev(),
            inode: found.ino(),
        })
    }

    /// That of the plain file with this name, where there is one.
    fn named(rt: &HostRuntime, name: &str) -> Option<FileNumber> {
        match fs::metadata(rt, name) {
            Ok(found) => FileNumber::of(&found),
            Err(_) => None,
        }
    }

    /// Whether an output of this program goes to the file.
    fn is_output(self, rt: &HostRuntime) -> bool {
        FileNumber::named(rt, "/dev/stdout") == Some(self)
            || FileNumber::named(rt, "/dev/stderr") == Some(self)
    }
}

/// Where a log is written, and the place that it gets when its run has ended.
#[derive(Drop)]
struct Unfinished {
    written_at: PathBuf,
    place: PathBuf,
}

/// A log that was begun.
#[derive(Drop)]
pub(crate) struct LogFile {
    file: File,
    /// None where it is written in its place.
    unfinished: Option<Unfinished>,
}

impl LogFile {
    /// Begins an empty log. One that is a plain file, or is not there yet, is written beside its place. It is written in its place
    /// where that is a device or a pipe, where an output of this program goes there, or where no file can be made beside it that has
    /// its owner and its rights. One of the files that were read is refused, whatever its name, and stays as it is.
    pub(crate) fn begin(rt: &HostRuntime, name: &str, read: &[FileNumber]) -> io::Result<LogFile> {
        match fs::metadata(rt, name) {
            Ok(found) => LogFile::begin_over(rt, name, &found, read),
            Err(_) => match new_place(rt, name) {
                Ok(place) => LogFile::begin_at(rt, name, place, None),
                Err(_) => LogFile::in_place(rt, name),
            },
        }
    }

    /// Begins a log where something of its name is there.
    fn begin_over(
        rt: &HostRuntime,
        name: &str,
        found: &Metadata,
        read: &[FileNumber],
    ) -> io::Result<LogFile> {
        let Some(number) = FileNumber::of(found) else {
            return LogFile::in_place(rt, name);
        };
        if read.contains(&number) {
            return Err(Error::new(ErrorKind::InvalidInput, "the log was read as a file"));
        }
        if number.is_output(rt) {
            return LogFile::in_place(rt, name);
        }
        // It has to be one that may be written.
        File::options().write(true).open(rt, name)?;
        match fs::canonicalize(rt, name) {
            Ok(place) => LogFile::begin_at(rt, name, place, Some(found)),
            Err(_) => LogFile::in_place(rt, name),
        }
    }

    /// Begins a log beside this place, or in it where that can't be.
    fn begin_at(
        rt: &HostRuntime,
        name: &str,
        place: PathBuf,
        found: Option<&Metadata>,
    ) -> io::Result<LogFile> {
        match LogFile::beside(rt, place, found) {
            Ok(log) => Ok(log),
            Err(_) => LogFile::in_place(rt, name),
        }
    }

    /// Begins a log in its place.
    fn in_place(rt: &HostRuntime, name: &str) -> io::Result<LogFile> {
        let file = fs::create(rt, name)?;
        Ok(LogFile {
            file,
            unfinished: None,
        })
    }

    /// Begins a log beside its place, with the owner and the rights of what stands there.
    fn beside(rt: &HostRuntime, place: PathBuf, found: Option<&Metadata>) -> io::Result<LogFile> {
        let (file, written_at) = create_beside(rt, place.to_str().unwrap_or(""))?;
        if let Some(found) = found {
            if let Err(error) = take_rights(&file, found) {
                fs::remove_file(rt, &written_at)?;
                return Err(error);
            }
        }
        Ok(LogFile {
            file,
            unfinished: Some(Unfinished { written_at, place }),
        })
    }

    /// The file, to be written.
    pub(crate) fn file(&mut self) -> &mut File {
        &mut self.file
    }

    /// Ends the log: what a plain file has is brought to the disk, and then it gets its place.
    pub(crate) fn end(self, rt: &HostRuntime) -> io::Result<()> {
        let LogFile { file, unfinished } = self;
        if file.metadata()?.is_file() {
            file.sync_all()?;
        }
        drop(file);
        match unfinished {
            Some(Unfinished { written_at, place }) => fs::rename(rt, &written_at, &place),
            None => Ok(()),
        }
    }
}

/// The place of a log that is not there yet, with the symbolic links of its name followed.
fn new_place(rt: &HostRuntime, name: &str) -> io::Result<PathBuf> {
    let mut place = PathBuf::from_str(rt.alloc(), name)?;
    for _ in 0..MOST_LINKS {
        match fs::read_link(rt, &place) {
            Ok(target) => {
                place.pop();
                place.push(&target)?;
            }
            Err(_) => {
                return match place.file_name() {
                    Some(_) => Ok(place),
                    None => Err(Error::new(ErrorKind::InvalidInput, "no file has that name")),
                };
            }
        }
    }
    Err(Error::new(ErrorKind::InvalidInput, "too many symbolic links"))
}

/// Makes a file beside a place, with a name of its own that says that it is not finished.
fn create_beside(rt: &HostRuntime, place: &str) -> io::Result<(File, PathBuf)> {
    for number in 1..=MOST_NAMES {
        let name = if number == 1 {
            format!(in rt.alloc(); "{place}{UNFINISHED}")?
        } else {
            format!(in rt.alloc(); "{place}{UNFINISHED}-{number}")?
        };
        let path = PathBuf::from_str(rt.alloc(), &name)?;
        match File::create_new(rt, &path) {
            Ok(file) => return Ok((file, path)),
            Err(error) if error.kind() == ErrorKind::AlreadyExists => {}
            Err(error) => return Err(error),
        }
    }
    Err(Error::new(ErrorKind::AlreadyExists, "too many unfinished logs"))
}

/// Gives a new file the rights of another one, where both have the same owner and group.
fn take_rights(file: &File, found: &Metadata) -> io::Result<()> {
    let made = file.metadata()?;
    if made.uid() != found.uid() || made.gid() != found.gid() {
        return Err(Error::new(ErrorKind::PermissionDenied, "another owner"));
    }
    file.set_permissions(found.permissions())
}
