//! Open files as devices that are read at places.
ghost use Rattle.std.specs.Prelude.{◌≡◌, ◌<◌, ◌≤◌, ℕ, ℤ, List, Option, None, Some, IfErr, IfOk, length, take};
ghost use Rattle.std.specs.Cmp.{partial_equiv_from_equiv};
ghost use Rattle.std.specs.Fd.{file_raw_fd};
ghost use Rattle.base.proofs.Exact.{exact_equiv};
ghost use Rattle.block_scan.specs.Blocks.{FileView, GaveWhole, KnownAt, KnownEnd, exact_file, is_same_file};
ghost use Rattle.block_scan.specs.Blocks.{known_back, known_front, known_more, known_nothing};

use crate::block_source::BlockSource;
use day_file::DeviceFailed;
use std::fs::File;
use std::marker::Model;
use std::os::fd::AsRawFd;
use std::os::unix::fs::FileExt;

/// What is read at offsets by all threads at once, as an open file is.
pub trait ReadsAt: Drop {
    // The bytes that it holds, if that is known. Then no reading fails.
    ghost contents: { Self → Option (List ℕ) } = { λ _. None };

    // Its descriptor, if it has one.
    ghost descriptor: { Self → Option ℤ } = { λ _. None };

    /// Reads at this place, by one call: how many bytes were read, and 0 if none is there.
    fn get(&self, place: u64, into: &mut [u8]) -> Result<usize, DeviceFailed>
        requires room { 0 < length into.old }
        ensures len { length into.new ≡ length into.old }
        ensures count { IfOk result (λ n. n ≤ length into.new) }
        ensures known { IfOk result (λ n. KnownAt (contents self.now) place (take n into.new)) }
        ensures end { IfOk result (λ n. n ≡ 0 → KnownEnd (contents self.now) place) }
        ensures failed { IfErr result (λ _. contents self.now ≡ None) };

    /// Whether both are one file, as far as contracts see: what is known of their bytes, and their descriptors.
    fn is_same(&self, other: &Self) -> bool
        ensures { result ≡ is_same_file
            (record { contents = contents self.now; descriptor = descriptor self.now })
            (record { contents = contents other.now; descriptor = descriptor other.now }) };
}

/// Each reading is one call of the file, and any error of it, an interruption too, is a failure. What a
/// file holds isn't known. No two open files have one descriptor.
impl ReadsAt for File {
    ghost descriptor = { λ file. Some (file_raw_fd file) };

    fn get(&self, place: u64, into: &mut [u8]) -> Result<usize, DeviceFailed> {
        match self.read_at(into, place) {
            Ok(count) => Ok(count),
            Err(_) => Err(DeviceFailed),
        }
    }

    fn is_same(&self, other: &Self) -> bool {
        self.as_raw_fd() == other.as_raw_fd()
    }
}

/// An open file, which all threads read at offsets of their own. Contracts see its descriptor, and what it
/// holds, if that is known.
#[derive(Drop)]
pub struct FileBlocks<F: ReadsAt> {
    file: F,
}

impl<F: ReadsAt> Model for FileBlocks<F> {
    ghost Value = { FileView };

    ghost view = { λ blocks. record {
      contents = F.contents blocks.file;
      descriptor = F.descriptor blocks.file;
    } };
}

impl<F: ReadsAt> FileBlocks<F> {
    /// The blocks of this file.
    pub fn of(file: F) -> Self
        ensures { result ≡ record { contents = F.contents file; descriptor = F.descriptor file } }
    {
        FileBlocks { file }
    }
}

impl<F: ReadsAt> PartialEq for FileBlocks<F> {
    ghost eq = { is_same_file };

    ghost laws = { partial_equiv_from_equiv (exact_equiv exact_file) };

    fn eq(&self, other: &Self) -> bool {
        self.file.is_same(&other.file)
    }
}

impl<F: ReadsAt> Eq for FileBlocks<F> {
    ghost laws = { exact_equiv exact_file };
}

impl<F: ReadsAt> BlockSource for FileBlocks<F> {
    ghost GaveAt = { λ file. KnownAt file.contents };

    ghost EndsAt = { λ file. KnownEnd file.contents };

    // of a file whose bytes are known no reading fails
    ghost FailsAt = { λ file place. file.contents ≡ None };

    ghost gave_nothing = { λ file. known_nothing file.contents };

    ghost gave_more = { λ file. known_more file.contents };

    ghost gave_front = { λ file. known_front file.contents };

    ghost gave_back = { λ file. known_back file.contents };

    ghost one_source = { exact_file.one };

    fn read_at(&self, place: u64, into: &mut [u8]) -> Result<usize, DeviceFailed> {
        self.file.get(place, into)
    }
}

/// Of a file whose bytes are known, all that is read up to its end is these bytes.
pub fn known_bytes_are_read<F: ReadsAt>()
    ensures { let device = ⟦<FileBlocks<F> as BlockSource>⟧ in
        (limit : ℕ) (file : FileView) (all day : List ℕ) → file.contents ≡ Some all →
        GaveWhole (record { GaveAt = device.GaveAt; EndsAt = device.EndsAt; FailsAt = device.FailsAt }) limit file day →
        day ≡ all }
{}
