//! The files that days stand in, and where they are opened.
ghost use Rattle.std.specs.Prelude.{ℕ, List, Option};

use runs::ReadsAt;
use std::fs::File;
use std::io::Read;

/// An open file, which is read in order from its start, or at places.
pub trait OpenDay: ReadsAt + Read + Send + Sync {
    // asked for its length it told this, or none
    ghost Tells: { Self → Option ℕ → Type 0 };

    /// How many bytes it has now, if it is a regular file. Nothing else can be read at places.
    fn regular_length(&self) -> Option<u64>
        ensures { Tells self.now result };
}

/// A file system, as far as a job needs one.
pub trait DayFiles {
    type File: OpenDay;

    // opening this path gave this file, or none
    ghost Opens: { Self → List ℕ → Option Self.File → Type 0 };

    /// Opens the file of this path to read it; none if it can't be opened.
    fn open_day(&self, path: &str) -> Option<Self::File>
        ensures { Opens self.now path.now result };
}

/// What the system tells of a file isn't known.
impl OpenDay for File {
    ghost Tells = { λ file length. Unit {0} };

    fn regular_length(&self) -> Option<u64> {
        let metadata = self.metadata().ok()?;
        metadata.is_file().then(|| metadata.len())
    }
}

/// Which file the system opens isn't known.
impl DayFiles for HostRuntime {
    type File = File;

    ghost Opens = { λ rt path opened. Unit {0} };

    fn open_day(&self, path: &str) -> Option<File> {
        File::open(self, path).ok()
    }
}
