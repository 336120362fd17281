//! The eight codes from a place on.
use crate::codes::{same_eight, vector_of};
use std::alloc::{AllocError, Global};
use std::process::Abort;
use ut_codes::{CodeVec, Form};
use ut_packed::Packed;

/// The bytes of codes of so many bits, and eight of them.
#[derive(Clone, Copy)]
struct Spelled<'a> {
    bytes: &'a [u8],
    rows: u32,
    width: u8,
    at: u32,
    want: [u32; 8],
}

/// The codes 0 to 7, three times; the last 5 has bits in two words.
const THRICE: &[u8] = b"\x88\xc6\xfa\x88\xc6\xfa\x88\xc6\xfa";

const SPELLED: [Spelled<'static>; 6] = [
    Spelled {
        bytes: &[],
        rows: 9,
        width: 0,
        at: 1,
        want: [0; 8],
    },
    Spelled {
        bytes: &[0b1011_0010, 0b1],
        rows: 9,
        width: 1,
        at: 1,
        want: [1, 0, 0, 1, 1, 0, 1, 1],
    },
    Spelled {
        bytes: THRICE,
        rows: 24,
        width: 3,
        at: 0,
        want: [0, 1, 2, 3, 4, 5, 6, 7],
    },
    Spelled {
        bytes: THRICE,
        rows: 24,
        width: 3,
        at: 13,
        want: [5, 6, 7, 0, 1, 2, 3, 4],
    },
    Spelled {
        bytes: THRICE,
        rows: 24,
        width: 3,
        at: 16,
        want: [0, 1, 2, 3, 4, 5, 6, 7],
    },
    Spelled {
        bytes: b"\xff\xff\xff\xff\0\0\0\0\x01\0\0\0\0\x01\0\0\0\0\x01\0\0\0\0\x01\0\0\0\x80\xfe\xff\xff\xff",
        rows: 8,
        width: 32,
        at: 0,
        want: [
            u32::MAX,
            0,
            1,
            1 << 8,
            1 << 16,
            1 << 24,
            1 << 31,
            u32::MAX - 1,
        ],
    },
];

fn is_spelled(rt: &impl Abort, alloc: Global, case: &Spelled<'_>) -> Result<(), AllocError> {
    assert!(rt; case.rows <= 100 && case.width <= 32);
    let read = Packed::from_bytes(alloc, case.bytes, case.rows, case.width)?;
    match &read {
        Some((vector, _)) => {
            assert!(rt; case.at <= 100 && case.at + 8 <= vector.len());
            same_eight(rt, vector.eight(case.at), case.want);
        }
        None => panic!(rt; "not read"),
    }
    drop(read);
    Ok(())
}

#[test]
fn eight_packed_codes_follow_one_another(rt: HostRuntime) -> Result<(), AllocError> {
    for case in &SPELLED {
        is_spelled(&rt, rt.alloc(), case)?;
    }
    Ok(())
}

/// Codes below a limit, their form, and the eight from three places on.
#[derive(Clone, Copy)]
struct Formed<'a> {
    codes: &'a [u32],
    reach: u32,
    form: Form,
    wants: [(u32, [u32; 8]); 3],
}

const FORMED: [Formed<'static>; 3] = [
    Formed {
        codes: &[3, 1, 4, 1, 5, 9, 2, 6, 5, 3, 5, 8],
        reach: 10,
        form: Form::Packed,
        wants: [
            (0, [3, 1, 4, 1, 5, 9, 2, 6]),
            (3, [1, 5, 9, 2, 6, 5, 3, 5]),
            (4, [5, 9, 2, 6, 5, 3, 5, 8]),
        ],
    },
    Formed {
        codes: &[5, 5, 5, 5, 9, 9, 9, 9, 0, 0, 0, 0],
        reach: u32::MAX,
        form: Form::Runs,
        wants: [
            (0, [5, 5, 5, 5, 9, 9, 9, 9]),
            (2, [5, 5, 9, 9, 9, 9, 0, 0]),
            (4, [9, 9, 9, 9, 0, 0, 0, 0]),
        ],
    },
    Formed {
        codes: &[0, 0, 0, 8, 0, 0, 0, 0, 0, 0, 6, 0],
        reach: u32::MAX,
        form: Form::Sparse,
        wants: [
            (0, [0, 0, 0, 8, 0, 0, 0, 0]),
            (3, [8, 0, 0, 0, 0, 0, 0, 6]),
            (4, [0, 0, 0, 0, 0, 0, 6, 0]),
        ],
    },
];

fn has_each(rt: &impl Abort, alloc: Global, case: &Formed<'_>) -> Result<(), AllocError> {
    let vector = vector_of(rt, alloc, case.codes, case.reach, case.form)?;
    for (at, want) in case.wants {
        assert!(rt; at <= 100 && at + 8 <= vector.len());
        same_eight(rt, vector.eight(at), want);
    }
    drop(vector);
    Ok(())
}

#[test]
fn eight_codes_follow_one_another_in_each_form(rt: HostRuntime) -> Result<(), AllocError> {
    for case in &FORMED {
        has_each(&rt, rt.alloc(), case)?;
    }
    Ok(())
}
