//! Objects as bytes, and bytes that are none.
ghost use Rattle.std.specs.Prelude.{IfOk, Ok};
ghost use Rattle.pc_object.specs.ObjectText.{object_of, IsObject};
ghost use Rattle.pc_word.specs.Exact.{IsExact};
ghost use Rattle.pc_object.specs.Cause.{object_cause};

use pc_machine::{Code, Flaw, Leaf};
use pc_object::{Object, ObjectError, decode, encode};
use pc_word::{Item, Limits, Operand, RowTree, Seq};
use std::alloc::{AllocError, Global};
use std::test::Fail;

/// The object that prints 7 and stops.
const SEVEN: &[u8] = b"PTV1\x08\x03\x02\x00\x00\x00\x00\x01\x24\x01\x00\x00\x00\x07\x02\x00\x00";

/// The object that puts 5 into register 200 and stops.
const WIDE: &[u8] =
    b"PTV2\x08\x03\x02\x00\x01\x00\x00\x00\x00\x01\x21\xC8\x01\x00\x00\x00\x05\x02\x00\x00";

/// The object whose array begins with 5, which it prints.
const FILLED: &[u8] =
    b"PTV2\x08\x03\x02\x01\x00\x80\x00\x00\x00\x02\x00\x00\x00\x01\x00\x00\x00\x05\x00\x00\x00\x02\x22\x00\x00\x01\x00\x00\x00\x00\x01\x00\x00\x00\x01\x24\x00\x00\x02\x00\x00";

/// The header of one row for 4 items, 2 tests, and 2 loads and stores, over one array.
const HEAD: &[u8] = b"PTV1\x04\x02\x02\x01\x00\x00\x00\x09\x00\x00\x00\x01";

/// An object that was written is read again as it: the clauses of both calls say so.
fn again(alloc: Global, object: &Object) -> Result<Object, ObjectError>
    requires { IsObject (object_of object.now) }
    ensures { IsExact object_of object_cause result (Ok (object_of object.now)) }
{
    let Ok(bytes) = encode(alloc, object) else {
        return Err(ObjectError::Memory);
    };
    decode(alloc, &bytes)
}

/// The refusal of bytes, if they are refused.
fn refusal(alloc: Global, bytes: &[u8]) -> Option<ObjectError> {
    if bytes.len() > 16_777_216 {
        return None;
    }
    decode(alloc, bytes).err()
}

/// The bytes that the object that bytes are is written as.
fn rewritten(alloc: Global, bytes: &[u8]) -> Result<Vec<u8>, ObjectError> {
    if bytes.len() > 16_777_216 {
        return Err(ObjectError::Memory);
    }
    let object = decode(alloc, bytes)?;
    encode(alloc, &object).map_err(|_| ObjectError::Memory)
}

fn joined(alloc: Global, parts: &[&[u8]]) -> Result<Vec<u8>, AllocError> {
    let mut bytes = Vec::new(alloc);
    for part in parts {
        bytes.extend_from_slice(part)?;
    }
    Ok(bytes)
}

/// The object that prints 7 and stops.
fn seven(alloc: Global) -> Result<Object, AllocError>
    ensures { IfOk result (λ object. IsObject (object_of object)) }
{
    let item = Item::Print {
        value: Operand::Lit(7),
    };
    let next = Box::new(alloc, RowTree::Leaf { leaf: Leaf::Stop })?;
    let mut rows = Seq::new(alloc);
    rows.push(RowTree::Step { item, next })?;
    let limits = Limits {
        ops: 8,
        tests: 3,
        mem: 2,
    };
    let code = Code {
        limits,
        registers: 128,
        arrays: Seq::new(alloc),
        initial: Seq::new(alloc),
        rows,
    };
    let notes = Seq::new(alloc);
    Ok(Object { code, notes })
}

#[test]
fn a_print_is_written(rt: HostRuntime) -> Result<(), Fail> {
    let alloc = rt.alloc();
    let object = seven(alloc)?;
    let bytes = encode(alloc, &object).ok().ok_or("want of memory")?;
    assert_eq!(rt; bytes.as_slice(), SEVEN);
    let read = again(alloc, &object).ok().ok_or("it is not read again")?;
    assert_eq!(rt; read.code.rows.len(), 1);
    Ok(())
}

#[test]
fn cut_longer_and_other_bytes(rt: HostRuntime) -> Result<(), Fail> {
    for bytes in [SEVEN, WIDE, FILLED] {
        for length in 0..bytes.len() {
            let offset = length as u32;
            assert_eq!(rt;
                refusal(rt.alloc(), &bytes[..length]),
                Some(ObjectError::Truncated { offset }),
                "cut at {length}"
            );
        }
    }
    let longer = joined(rt.alloc(), &[SEVEN, b"\x00"])?;
    assert_eq!(rt;
        refusal(rt.alloc(), &longer),
        Some(ObjectError::Trailing { offset: 21 })
    );
    let other = joined(rt.alloc(), &[b"\x51", &SEVEN[1..]])?;
    assert_eq!(rt; refusal(rt.alloc(), &other), Some(ObjectError::BadMagic));
    assert_eq!(rt; refusal(rt.alloc(), b"PTV3"), Some(ObjectError::BadMagic));
    assert_eq!(rt; refusal(rt.alloc(), b"PU"), Some(ObjectError::BadMagic));
    Ok(())
}

const HEADER_FLAWS: &[(&[u8], u32, Flaw)] = &[
    (b"\x00\x00\x00\xFF", 4, Flaw::HeaderLimit),
    (b"\x21\x01\x01\x00", 4, Flaw::HeaderLimit),
    (b"\x20\x00\x01\x00", 5, Flaw::HeaderLimit),
    (b"\x01\x08\x01\x00", 5, Flaw::HeaderLimit),
    (b"\x01\x07\x00\x00", 6, Flaw::HeaderLimit),
    (b"\x01\x07\x21\x21", 6, Flaw::HeaderLimit),
    (b"\x01\x07\x20\x21", 7, Flaw::ArrayCount),
    (
        b"\x01\x01\x01\x02\x00\x01\x00\x00\x00\x00\x00\x00",
        12,
        Flaw::ArrayLength,
    ),
    (b"\x01\x01\x01\x02\x00\x01\x00\x01", 8, Flaw::ArrayLength),
    (b"\x01\x01\x01\x00\x00\x00\x00\x00", 8, Flaw::RowCount),
    (
        b"\x01\x01\x01\x01\x00\x00\x00\x01\x00\x00\x00\x00",
        12,
        Flaw::RowCount,
    ),
];

#[test]
fn flaws_of_headers(rt: HostRuntime) -> Result<(), Fail> {
    for (head, offset, flaw) in HEADER_FLAWS {
        let (offset, flaw) = (*offset, *flaw);
        let bytes = joined(rt.alloc(), &[b"PTV1", head])?;
        assert_eq!(rt;
            refusal(rt.alloc(), &bytes),
            Some(ObjectError::BadField { offset, flaw }),
            "at {offset}"
        );
    }
    let mut elements = joined(rt.alloc(), &[b"PTV1\x01\x01\x01\x11"])?;
    for _ in 0..16 {
        elements.extend_from_slice(b"\x00\x01\x00\x00")?;
    }
    elements.extend_from_slice(b"\x00\x00\x00\x01")?;
    let flaw = Flaw::Elements;
    assert_eq!(rt;
        refusal(rt.alloc(), &elements),
        Some(ObjectError::BadField { offset: 72, flaw })
    );
    Ok(())
}

const WIDE_FLAWS: &[(&[u8], u32, Flaw)] = &[
    (b"\x08\x03\x02\x21\x00\x00", 7, Flaw::ArrayCount),
    (b"\x08\x03\x02\x00\x00\x00", 8, Flaw::Registers),
    (b"\x08\x03\x02\x00\x00\x7F", 8, Flaw::Registers),
    (b"\x08\x03\x02\x00\x01\x01", 8, Flaw::Registers),
    (b"\x08\x03\x02\x00\x80\x00", 8, Flaw::Registers),
    (b"\x08\x03\x02\x00\x00\x80", 8, Flaw::Version),
    (
        b"\x08\x03\x02\x01\x00\x80\x00\x00\x00\x02\x00\x00\x00\x00\x00\x00\x00\x00",
        8,
        Flaw::Version,
    ),
    (
        b"\x08\x03\x02\x01\x00\x80\x00\x00\x00\x00\x00\x00\x00\x03",
        10,
        Flaw::ArrayLength,
    ),
    (
        b"\x08\x03\x02\x01\x00\x80\x00\x00\x00\x02\x00\x00\x00\x03",
        14,
        Flaw::DataCount,
    ),
    (
        b"\x08\x03\x02\x01\x00\x80\x00\x00\x00\x02\xFF\xFF\xFF\xFF",
        14,
        Flaw::DataCount,
    ),
    (
        b"\x08\x03\x02\x01\x00\x80\x00\x00\x00\x02\x00\x00\x00\x01\x00\x00\x00\x00",
        18,
        Flaw::DataTail,
    ),
    (
        b"\x08\x03\x02\x01\x01\x00\x00\x00\x00\x02\x00\x00\x00\x02\x00\x00\x00\x07\x00\x00\x00\x00",
        22,
        Flaw::DataTail,
    ),
    (
        b"\x08\x03\x02\x02\x01\x00\x00\x00\x00\x02\x00\x00\x00\x01\x00\x00\x00\x00\x00\x00\x00\x02",
        22,
        Flaw::DataCount,
    ),
    (
        b"\x08\x03\x02\x00\x01\x00\x00\x00\x00\x00",
        10,
        Flaw::RowCount,
    ),
    (
        b"\x08\x03\x02\x01\x00\x80\x00\x00\x00\x02\x00\x00\x00\x01\x00\x00\x00\x05\x00\x00\x00\x01\x25\x80",
        27,
        Flaw::Register,
    ),
];

#[test]
fn flaws_of_registers_and_data(rt: HostRuntime) -> Result<(), Fail> {
    for (head, offset, flaw) in WIDE_FLAWS {
        let (offset, flaw) = (*offset, *flaw);
        let bytes = joined(rt.alloc(), &[b"PTV2", head])?;
        assert_eq!(rt;
            refusal(rt.alloc(), &bytes),
            Some(ObjectError::BadField { offset, flaw }),
            "{head:?}"
        );
    }
    Ok(())
}

const ROW_FLAWS: &[(&[u8], u32, Flaw)] = &[
    (b"\x00", 0, Flaw::Tag),
    (b"\x27", 0, Flaw::Tag),
    (b"\x26\x00\x04", 2, Flaw::Tag),
    (b"\x10\x00\x00\x11", 3, Flaw::Tag),
    (b"\x10\x00\x00\x02\x0F", 4, Flaw::Tag),
    (b"\x20\x0F\xFF", 1, Flaw::Operator),
    (b"\x20\x00\x80", 2, Flaw::Register),
    (b"\x20\x00\x00\x02", 3, Flaw::OperandTag),
    (b"\x20\x00\x00\x00\x80", 4, Flaw::Register),
    (b"\x20\x00\x00\x00\x7F\x02", 5, Flaw::OperandTag),
    (b"\x20\x00\x00\x00\x7F\x00\x80", 6, Flaw::Register),
    (b"\x21\x80", 1, Flaw::Register),
    (b"\x21\x00\x02", 2, Flaw::OperandTag),
    (b"\x21\x00\x00\xFF", 3, Flaw::Register),
    (b"\x22\x80", 1, Flaw::Register),
    (b"\x22\x00\x01", 2, Flaw::Array),
    (b"\x22\x00\x00\x03", 3, Flaw::OperandTag),
    (b"\x22\x00\x00\x00\x80", 4, Flaw::Register),
    (b"\x23\x01", 1, Flaw::Array),
    (b"\x23\x00\x02", 2, Flaw::OperandTag),
    (b"\x23\x00\x00\x80", 3, Flaw::Register),
    (b"\x23\x00\x00\x00\x02", 4, Flaw::OperandTag),
    (b"\x23\x00\x00\x00\x00\x80", 5, Flaw::Register),
    (b"\x24\xFF", 1, Flaw::OperandTag),
    (b"\x24\x00\x80", 2, Flaw::Register),
    (b"\x25\x80", 1, Flaw::Register),
    (b"\x26\x80", 1, Flaw::Register),
    (b"\x10\x02", 1, Flaw::OperandTag),
    (b"\x10\x00\x80", 2, Flaw::Register),
    (b"\x01\x00\x00\x00\x01", 1, Flaw::Target),
    (b"\x10\x00\x00\x02\x01\xFF\xFF\xFF\xFF", 5, Flaw::Target),
    (b"\x03\x03", 1, Flaw::Trap),
    (b"\x21\x05\x00\x00\x20\x00\x05", 6, Flaw::DestTwice),
    (b"\x21\x05\x00\x00\x21\x05", 5, Flaw::DestTwice),
    (b"\x21\x05\x00\x00\x22\x05", 5, Flaw::DestTwice),
    (b"\x21\x05\x00\x00\x25\x05", 5, Flaw::DestTwice),
    (b"\x21\x05\x00\x00\x26\x05", 5, Flaw::DestTwice),
    (
        b"\x21\x7F\x00\x00\x10\x00\x00\x02\x21\x7F",
        9,
        Flaw::DestTwice,
    ),
    (b"\x24\x00\x00\x24", 3, Flaw::EffectTwice),
    (b"\x25\x00\x26", 2, Flaw::EffectTwice),
    (b"\x26\x00\x10\x00\x00\x02\x25", 6, Flaw::EffectTwice),
    (
        b"\x21\x00\x00\x00\x21\x01\x00\x00\x21\x02\x00\x00\x21\x03\x00\x00\x23",
        16,
        Flaw::TooManyOps,
    ),
    (
        b"\x10\x00\x00\x10\x00\x00\x02\x02\x10",
        8,
        Flaw::TooManyTests,
    ),
    (
        b"\x22\x00\x00\x00\x00\x22\x01\x00\x00\x00\x22",
        10,
        Flaw::TooManyMem,
    ),
    (
        b"\x10\x00\x00\x22\x00\x00\x00\x00\x02\x22\x00\x00\x00\x00\x23",
        14,
        Flaw::TooManyMem,
    ),
    (
        b"\x25\x00\x21\x01\x00\x00\x21\x02\x00\x00\x21\x03\x00\x00\x26",
        14,
        Flaw::TooManyOps,
    ),
    (
        b"\x10\x00\x00\x21\x00\x00\x00\x21\x01\x00\x00\x02\x21\x00\x00\x00\x21\x01\x00\x00\x26",
        20,
        Flaw::TooManyOps,
    ),
];

#[test]
fn flaws_of_rows(rt: HostRuntime) -> Result<(), Fail> {
    for (row, at, flaw) in ROW_FLAWS {
        let (at, flaw) = (*at, *flaw);
        let bytes = joined(rt.alloc(), &[HEAD, row])?;
        let offset = at.saturating_add(16);
        assert_eq!(rt;
            refusal(rt.alloc(), &bytes),
            Some(ObjectError::BadField { offset, flaw }),
            "{row:?}"
        );
    }
    Ok(())
}

const NOTE_FLAWS: &[(&[u8], ObjectError)] = &[
    (
        b"\x00\x01\x08",
        ObjectError::BadField {
            offset: 19,
            flaw: Flaw::Choice,
        },
    ),
    (
        b"\x00\x02\x07\x00\x00\x00\x01\x00\x00\x00\x02\x00\x00\x00\x03\x08",
        ObjectError::BadField {
            offset: 32,
            flaw: Flaw::Choice,
        },
    ),
    (
        b"\x00\x01\x07\x00\x00\x00\x01\x00\x00\x00\x02\x00\x00\x00\x03\x08",
        ObjectError::Trailing { offset: 32 },
    ),
];

#[test]
fn flaws_of_notes(rt: HostRuntime) -> Result<(), Fail> {
    for (notes, error) in NOTE_FLAWS {
        let bytes = joined(rt.alloc(), &[HEAD, b"\x02", notes])?;
        assert_eq!(rt; refusal(rt.alloc(), &bytes), Some(*error), "{notes:?}");
    }
    Ok(())
}

#[test]
fn registers_written_twice(rt: HostRuntime) -> Result<(), Fail> {
    let twice =
        b"PTV1\x08\x03\x02\x00\x00\x00\x00\x01\x21\x05\x01\x00\x00\x00\x01\x21\x05\x01\x00\x00\x00\x02\x02\x00\x00";
    let flaw = Flaw::DestTwice;
    assert_eq!(rt;
        refusal(rt.alloc(), twice),
        Some(ObjectError::BadField { offset: 20, flaw })
    );
    let apart = b"\x10\x00\x00\x21\x05\x00\x00\x24\x00\x00\x02\x21\x05\x00\x00\x25\x06\x02\x00\x00";
    let bytes = joined(rt.alloc(), &[HEAD, apart])?;
    assert_eq!(rt; refusal(rt.alloc(), &bytes), None);
    Ok(())
}

#[test]
fn objects_are_kept(rt: HostRuntime) -> Result<(), Fail> {
    let alloc = rt.alloc();
    let stops = b"PTV1\x08\x03\x02\x00\x00\x00\x00\x01\x02\x00\x00";
    let stores =
        b"PTV1\x08\x03\x02\x01\x00\x00\x00\x04\x00\x00\x00\x01\x23\x00\x01\x00\x00\x00\x01\x01\x00\x00\x00\x05\x23\x00\x01\x00\x00\x00\x01\x01\x00\x00\x00\x06\x02\x00\x00";
    for bytes in [SEVEN, WIDE, FILLED, stops.as_slice(), stores.as_slice()] {
        let written = rewritten(alloc, bytes).ok().ok_or("it is refused")?;
        assert_eq!(rt; written.as_slice(), bytes);
    }
    for large in [large_object(alloc)?, large_data(alloc)?] {
        let written = rewritten(alloc, large.as_slice())
            .ok()
            .ok_or("it is refused")?;
        assert_eq!(rt; written.as_slice(), large.as_slice());
    }
    Ok(())
}

/// An object of three arrays, of which the first and the last are filled whole.
fn large_data(alloc: Global) -> Result<Vec<u8>, AllocError> {
    let mut bytes = joined(
        alloc,
        &[b"PTV2\x08\x03\x02\x03\x01\x00\x00\x01\x00\x00\x00\x00\x00\x09\x00\x01\x00\x00"],
    )?;
    bytes.extend_from_slice(b"\x00\x01\x00\x00")?;
    for word in 0..65_536u32 {
        bytes.extend_from_slice(&(0xFF00_0000 + word).to_be_bytes())?;
    }
    bytes.extend_from_slice(b"\x00\x00\x00\x00\x00\x01\x00\x00")?;
    for _ in 0..65_536 {
        bytes.extend_from_slice(b"\x00\x00\x00\x01")?;
    }
    bytes.extend_from_slice(b"\x00\x00\x00\x01\x02\x00\x00")?;
    Ok(bytes)
}

/// An object of 1000 rows with notes of each choice.
fn large_object(alloc: Global) -> Result<Vec<u8>, AllocError> {
    let mut bytes = joined(
        alloc,
        &[b"PTV1\x20\x07\x20\x02\x00\x01\x00\x00\x00\x00\x00\x01\x00\x00\x03\xE8"],
    )?;
    for _ in 0..1000 {
        push_large_row(&mut bytes)?;
    }
    bytes.extend_from_slice(b"\x00\x08")?;
    for choice in 0..8u8 {
        bytes.extend_from_slice(&[choice, 0, 0, 0, 1, 0xFF, 0xFF, 0xFF, 0xFF, 0, 1, 2, 3])?;
    }
    Ok(bytes)
}

/// A row with each kind of item and operand, tests seven deep, and each kind of leaf.
fn push_large_row(bytes: &mut Vec<u8>) -> Result<(), AllocError> {
    bytes.extend_from_slice(
        b"\x20\x0E\x7F\x00\x7F\x01\xFF\xFF\xFF\xFE\x21\x00\x01\x80\x00\x00\x00",
    )?;
    bytes.extend_from_slice(b"\x22\x01\x01\x00\x05\x23\x00\x01\x00\x00\xFF\xFF\x00\x03")?;
    for register in 0..7u8 {
        bytes.extend_from_slice(&[0x10, 0x00, register])?;
    }
    bytes.extend_from_slice(
        b"\x24\x00\x01\x01\x00\x00\x03\xE7\x25\x02\x02\x26\x02\x03\x00\x00\x00\x00\x09",
    )?;
    bytes.extend_from_slice(
        b"\x03\x01\x00\x00\x01\x00\x03\x02\xFF\xFF\xFF\xFF\x01\x00\x00\x00\x00\x02\x02",
    )
}
