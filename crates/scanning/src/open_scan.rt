//! A scan under way.
ghost use Rattle.std.specs.Prelude.{◌≡◌, ◌*◌, ◌<◌, ◌≤◌, ◌⊎◌, ℕ, [], ◌∷◌, length, map, take, IfOk, OnErr, OnOk, Option};
ghost use Rattle.base.specs.declared.limits.TheConstants.{LONGEST_FILE, MOST_PARTITIONS};
ghost use Rattle.day_file.specs.Frames.{spelling};
ghost use Rattle.day_file.specs.Placed.{placed_body};
ghost use Rattle.itch_messages.specs.Body.{kind_of};
ghost use Rattle.scanning.specs.Scans.{AreTakenIn, TakesIn, scan_of};
ghost use Rattle.scanning.specs.declared.open_scan.TheConstants.{BYTES_AN_ORDER, FRAMES_AT_ONCE, MOST_BYTES_AT_ONCE};

use crate::OutOfMemory;
use crate::scanned::Scanned;
use crate::wrong::WrongLength;
use base::earlier;
use base::limits::MOST_PARTITIONS;
use day_file::{Frame, Frames, LENGTH_BYTES};
use itch_messages::{is_read, kind_of, read_of_kind};
use morsel_rows::MorselRows;
use std::alloc::Global;
use std::marker::Model;

/// In how many bytes of a day room is taken for one order row. There is one in about 60 bytes; with a twentieth
/// more room, hardly a list grows, though not all partitions have the same number of rows.
const BYTES_AN_ORDER: u64 = 57;

/// The most bytes that room is taken for at once, so that a long block takes no more.
const MOST_BYTES_AT_ONCE: u64 = 32 << 20;

/// How many frames are picked before they are taken in.
const FRAMES_AT_ONCE: usize = 256;

/// What the frames that were taken in so far give: the rows of their messages that count, and the least wrong length.
#[derive(Drop)]
pub struct OpenScan {
    rows: MorselRows,
    wrong: Option<WrongLength>,
}

impl Model for OpenScan {
    ghost use Rattle.scanning.specs.Scans.{ScanView};

    ghost Value = { ScanView };

    ghost view = { λ scan. record { rows = scan.rows; wrong = scan.wrong } };
}

impl OpenScan {
    /// The scan of no frames, whose rows will stand in `parts` partitions. `bytes` is the expected length of
    /// the frames, and only gives the capacity for order rows that is taken at once: about those of a day of
    /// that length, and no more than of 32 MiB.
    pub fn new(alloc: Global, parts: u32, bytes: u64) -> Result<Self, OutOfMemory>
        requires { (0 < parts) × (parts ≤ MOST_PARTITIONS) }
        ensures { IfOk result (λ scan. (as_of : Option ℕ) → scan ≡ scan_of parts as_of []) }
    {
        let orders = orders_of(bytes, parts) as usize;
        Ok(OpenScan {
            rows: MorselRows::new(alloc, parts, orders)?,
            wrong: None,
        })
    }

    /// Takes in the frames up to the first that has `bytes` bytes or more before it, and gives the length of
    /// those that were taken in. If there is no memory for a row, those before its frame were.
    ///
    /// Nearly half of a day's messages aren't read at all, in no order that a processor could foresee. So
    /// the frames that are read are picked first, without a branch, and then taken in.
    #[tactic(auto, using(crate::proofs::PickedFrames::picking))]
    pub fn take_in(
        &mut self,
        as_of: Option<u32>,
        frames: Frames<'_>,
        bytes: u64,
    ) -> Result<u64, OutOfMemory>
        requires { length (spelling frames.frames) ≤ LONGEST_FILE }
        ensures taken { IfOk result (λ walked. AreTakenIn as_of frames.entry.frames bytes walked self.old self.new) }
        ensures some { OnErr result ((walked : ℕ) × AreTakenIn as_of frames.entry.frames 0 walked self.old self.new) }
    {
        let mut picked = [Frame {
            place: 0,
            body: &[],
        }; FRAMES_AT_ONCE];
        let mut count = 0;
        let mut walked = 0;
        for frame in frames {
            if walked >= bytes {
                self.take_in_each(as_of, &picked[..count])?;
                return Ok(walked);
            }
            count = self.make_room(as_of, &picked, count)?;
            picked[count] = frame;
            count += usize::from(is_read(kind_of(frame.body)));
            walked += (LENGTH_BYTES + frame.body.len()) as u64;
        }
        self.take_in_each(as_of, &picked[..count])?;
        Ok(walked)
    }

    /// Takes in the frames that were picked, if there is no room for one more, and gives the number that is left.
    #[inline(always)]
    fn make_room(
        &mut self,
        as_of: Option<u32>,
        picked: &[Frame<'_>; FRAMES_AT_ONCE],
        count: usize,
    ) -> Result<usize, OutOfMemory>
        requires { count ≤ FRAMES_AT_ONCE }
        ensures room { IfOk result (λ left. left < FRAMES_AT_ONCE) }
        ensures taken { IfOk result (λ left. ((left ≡ count) × (self.new ≡ self.old))
            ⊎ ((left ≡ 0) × TakesIn as_of (map placed_body (take count picked.now)) self.old self.new)) }
        ensures some { OnErr result ((walked : ℕ) ×
            AreTakenIn as_of (map placed_body (take count picked.now)) 0 walked self.old self.new) }
    {
        if count < FRAMES_AT_ONCE {
            return Ok(count);
        }
        self.take_in_each(as_of, &picked[..count])?;
        Ok(0)
    }

    /// Takes in each of these frames. If there is no memory for a row, those before its frame were taken in.
    #[inline(never)]
    fn take_in_each(&mut self, as_of: Option<u32>, frames: &[Frame<'_>]) -> Result<(), OutOfMemory>
        ensures taken { OnOk result (TakesIn as_of (map placed_body frames.now) self.old self.new) }
        ensures some { OnErr result ((walked : ℕ) ×
            AreTakenIn as_of (map placed_body frames.now) 0 walked self.old self.new) }
    {
        for frame in frames {
            self.take_in_one(as_of, frame)?;
        }
        Ok(())
    }

    /// Takes in one frame more: its message, if that counts up to this moment, in seconds since
    /// midnight, or its wrong length. If there is no memory for its row, the scan stays as it was.
    #[inline(always)]
    fn take_in_one(&mut self, as_of: Option<u32>, frame: &Frame<'_>) -> Result<(), OutOfMemory>
        ensures taken { OnOk result (TakesIn as_of (placed_body frame.now ∷ []) self.old self.new) }
        ensures unchanged { OnErr result (self.new ≡ self.old) }
    {
        // Of these types are nearly all messages that are read, so each has code of its own, which tests
        // the type once and reads only what its row has.
        match kind_of(frame.body) {
            b'A' => self.take_in_kind(b'A', as_of, *frame),
            b'E' => self.take_in_kind(b'E', as_of, *frame),
            b'F' => self.take_in_kind(b'F', as_of, *frame),
            b'U' => self.take_in_kind(b'U', as_of, *frame),
            kind => self.take_in_rare(kind, as_of, frame),
        }
    }

    /// The same of a frame of any type.
    #[inline(never)]
    fn take_in_rare(
        &mut self,
        kind: u8,
        as_of: Option<u32>,
        frame: &Frame<'_>,
    ) -> Result<(), OutOfMemory>
        requires { kind ≡ kind_of frame.now.body.now }
        ensures taken { OnOk result (TakesIn as_of (placed_body frame.now ∷ []) self.old self.new) }
        ensures unchanged { OnErr result (self.new ≡ self.old) }
    {
        self.take_in_kind(kind, as_of, *frame)
    }

    /// The same of a frame whose type is known.
    #[inline(always)]
    fn take_in_kind(
        &mut self,
        kind: u8,
        as_of: Option<u32>,
        frame: Frame<'_>,
    ) -> Result<(), OutOfMemory>
        requires { kind ≡ kind_of frame.body.now }
        ensures taken { OnOk result (TakesIn as_of (placed_body frame.entry ∷ []) self.old self.new) }
        ensures unchanged { OnErr result (self.new ≡ self.old) }
    {
        match read_of_kind(kind, frame.body) {
            Ok(message) => self.rows.add_counted(as_of, frame.place, &message)?,
            Err(fault) => {
                let place = frame.place;
                let wrong = WrongLength { place, fault };
                self.wrong = earlier(self.wrong, Some(wrong), |wrong| wrong.place);
            }
        }
        Ok(())
    }

    /// Ends the scan. Its rows are put where totals can share them, in no more memory than they need.
    pub fn finish(self, alloc: Global) -> Result<Scanned, OutOfMemory>
        ensures { IfOk result (λ scanned. scanned ≡ self) }
    {
        let OpenScan { mut rows, wrong } = self;
        rows.shrink_to_fit();
        Scanned::of(alloc, rows, wrong)
    }
}

/// The capacity for order rows that each of `parts` partitions takes at once: about those of `bytes` of a day.
fn orders_of(bytes: u64, parts: u32) -> u64
    requires { 0 < parts }
    ensures all { result * parts * BYTES_AN_ORDER ≤ bytes }
    ensures most { result * parts * BYTES_AN_ORDER ≤ MOST_BYTES_AT_ONCE }
{
    bytes.min(MOST_BYTES_AT_ONCE) / BYTES_AN_ORDER / u64::from(parts)
}
