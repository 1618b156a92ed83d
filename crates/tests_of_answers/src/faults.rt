//! The text, the line and the status of each fault: of each kind the least, and of some the greatest.
use arguments::tell;
use executor::{CountedSink, DayFault, QueryFault, RunFault};
use std::alloc::Global;
use std::test::Fail;

static FAULTS: [(RunFault, u8, &str); 6] = [
    (RunFault::ReadFailed, 4, "fault: reading failed\n"),
    (RunFault::OutOfMemory, 3, "fault: out of memory\n"),
    (
        RunFault::TooManyMorsels,
        2,
        "fault: more than 65536 morsels\n",
    ),
    (
        RunFault::TooLong { limit: 1 << 36 },
        1,
        "fault: file is longer than 68719476736 bytes\n",
    ),
    (
        RunFault::WriteFailed { written: 0 },
        5,
        "fault: writing failed after 0 bytes\n",
    ),
    (
        RunFault::WriteFailed { written: u64::MAX },
        5,
        "fault: writing failed after 18446744073709551615 bytes\n",
    ),
];

static QUERY_FAULTS: [(QueryFault, &str); 7] = [
    (
        QueryFault::UnknownWord { at: 0 },
        "fault: query byte 0: unknown word\n",
    ),
    (
        QueryFault::BadNumber { at: 5 },
        "fault: query byte 5: bad number\n",
    ),
    (
        QueryFault::BadTime { at: 22 },
        "fault: query byte 22: bad time\n",
    ),
    (
        QueryFault::Repeated { at: usize::MAX },
        "fault: query byte 18446744073709551615: condition given twice\n",
    ),
    (QueryFault::Incomplete, "fault: query ends too early\n"),
    (
        QueryFault::EmptyRange,
        "fault: query has an empty time range\n",
    ),
    (QueryFault::OutOfMemory, "fault: out of memory\n"),
];

static DAY_FAULTS: [(DayFault, &str); 6] = [
    (
        DayFault::Truncated { place: 41 },
        "fault: place 41: message runs past the end\n",
    ),
    (
        DayFault::WrongLength {
            place: 84,
            kind: b'A',
            length: 35,
            wanted: 36,
        },
        "fault: place 84: message A has length 35, not 36\n",
    ),
    (
        DayFault::WrongLength {
            place: u64::MAX,
            kind: b'~',
            length: usize::MAX,
            wanted: usize::MAX,
        },
        "fault: place 18446744073709551615: message ~ has length 18446744073709551615, not 18446744073709551615\n",
    ),
    (
        DayFault::RepeatedReference {
            place: 68_719_476_735,
            order_no: u64::MAX,
        },
        "fault: place 68719476735: order reference 18446744073709551615 was given before\n",
    ),
    (
        DayFault::RepeatedReference {
            place: 38,
            order_no: 1,
        },
        "fault: place 38: order reference 1 was given before\n",
    ),
    (
        DayFault::UnknownReference {
            place: 0,
            order_no: 1,
        },
        "fault: place 0: order reference 1 is not known\n",
    ),
];

/// Whether a fault has this status and this line, whose text is what the type displays.
fn is_told(alloc: Global, fault: RunFault, status: u8, line: &str) -> Result<bool, Fail> {
    if format!(in alloc; "fault: {fault}\n")?.as_str() != line {
        return Ok(false);
    }
    let mut errors = Vec::new(alloc);
    let found = tell(&fault, &mut CountedSink::of(&mut errors));
    Ok(found == status && errors.as_slice() == line.as_bytes())
}

#[test]
fn faults_have_their_texts(rt: HostRuntime) -> Result<(), Fail> {
    for (fault, status, line) in &FAULTS {
        assert!(rt; is_told(rt.alloc(), *fault, *status, line)?);
    }
    Ok(())
}

#[test]
fn faults_of_queries_have_their_texts(rt: HostRuntime) -> Result<(), Fail> {
    for (fault, line) in &QUERY_FAULTS {
        assert!(rt;
            is_told(rt.alloc(), RunFault::Query(*fault), 2, line)?,
            "{line}"
        );
    }
    Ok(())
}

#[test]
fn faults_of_days_have_their_texts(rt: HostRuntime) -> Result<(), Fail> {
    for (fault, line) in &DAY_FAULTS {
        assert!(rt;
            is_told(rt.alloc(), RunFault::Day(*fault), 1, line)?,
            "{line}"
        );
    }
    Ok(())
}
