//! What operators give, texts of numbers, and lists.

use pc_word::{ByteList, NumberLine, NumbersError, OpCode, Seq, apply, read_numbers};
use std::test::Fail;

// The values are those of a C program, built by gcc 12.2, which computes on uint32_t where C17
// leaves an overflow or a shift count undefined.
/// An operator, its operands and its value.
const ARITHMETIC: &[(OpCode, i32, i32, i32)] = &[
    (OpCode::Add, 2147483647, 1, -2147483648),
    (OpCode::Add, -7, 2, -5),
    (OpCode::Sub, -2147483648, 1, 2147483647),
    (OpCode::Sub, 3, 10, -7),
    (OpCode::Mul, 65537, 65537, 131073),
    (OpCode::Mul, -46341, 46341, 2147479015),
    (OpCode::Div, -7, 2, -3),
    (OpCode::Div, 7, -2, -3),
    (OpCode::Div, -2147483648, -1, -2147483648),
    (OpCode::Div, 5, 0, 0),
    (OpCode::Rem, -7, 2, -1),
    (OpCode::Rem, 7, -2, 1),
    (OpCode::Rem, -2147483648, -1, 0),
    (OpCode::Rem, 5, 0, 0),
    (OpCode::Shl, 3, 31, -2147483648),
    (OpCode::Shl, 3, 32, 3),
    (OpCode::Shl, 3, 33, 6),
    (OpCode::Shl, 3, -1, -2147483648),
    (OpCode::Shr, -9, 1, -5),
    (OpCode::Shr, -9, 31, -1),
    (OpCode::Shr, -9, 32, -9),
    (OpCode::Shr, -9, 33, -5),
    (OpCode::Shr, 9, -31, 4),
    (OpCode::And, -6, 13, 8),
    (OpCode::Or, -6, 13, -1),
    (OpCode::Xor, -6, 13, -9),
];

/// The same of comparisons.
const COMPARISONS: &[(OpCode, i32, i32, i32)] = &[
    (OpCode::Less, -1, 0, 1),
    (OpCode::Less, 0, 0, 0),
    (OpCode::LessEq, 0, 0, 1),
    (OpCode::LessEq, 1, -1, 0),
    (OpCode::Equal, -1, -1, 1),
    (OpCode::Equal, 0, 1, 0),
    (OpCode::Unequal, -1, -1, 0),
    (OpCode::Unequal, 0, 1, 1),
    (OpCode::Below, 1, 2, 1),
    (OpCode::Below, -1, 0, 0),
    (OpCode::Below, 0, -1, 1),
    (OpCode::Below, -2, -1, 1),
    (OpCode::Below, -1, -2, 0),
    (OpCode::Below, 2147483647, -2147483648, 1),
];

#[test]
fn operators(rt: HostRuntime) {
    for table in [ARITHMETIC, COMPARISONS] {
        for (op, a, b, want) in table.iter().copied() {
            assert_eq!(rt; apply(op, a, b), want, "{a} and {b}");
        }
    }
}

// The lines are those of C's printf.
#[test]
fn lines(rt: HostRuntime) {
    for (number, want) in [
        (0, b"0\n".as_slice()),
        (7, b"7\n".as_slice()),
        (-10, b"-10\n".as_slice()),
        (2147483647, b"2147483647\n".as_slice()),
        (-2147483648, b"-2147483648\n".as_slice()),
    ] {
        assert_eq!(rt; NumberLine::new(number).as_slice(), want);
    }
}

#[test]
fn read(rt: HostRuntime) -> Result<(), Fail> {
    let text = b" +7\t-7\r\n0007 -2147483648 2147483647\n-0 ";
    let numbers = read_numbers(rt.alloc(), text)?;
    assert_eq!(rt;
        numbers.as_slice(),
        [7, -7, 7, -2147483648, 2147483647, 0].as_slice()
    );
    assert!(rt; read_numbers(rt.alloc(), b" \n")?.is_empty());
    Ok(())
}

#[test]
fn refused(rt: HostRuntime) {
    for (text, offset) in [
        (b"x".as_slice(), 0),
        (b"12 3x 4y".as_slice(), 3),
        (b"+".as_slice(), 0),
        (b"1\n- 2".as_slice(), 2),
        (b"+-1".as_slice(), 0),
        (b"\t2147483648".as_slice(), 1),
        (b"1 -2147483649".as_slice(), 2),
        (b"1 99999999999999999999".as_slice(), 2),
        (b"5,6".as_slice(), 0),
        (b"7 \xff".as_slice(), 2),
    ] {
        match read_numbers(rt.alloc(), text) {
            Ok(_) => panic!(rt; "numbers where offset {offset} is none"),
            Err(error) => assert_eq!(rt; error, NumbersError::NotNumber { offset }),
        }
    }
}

#[test]
fn lists(rt: HostRuntime) -> Result<(), Fail> {
    let mut list = Seq::from_vec([3, 1].to_vec(rt.alloc())?);
    list.push(4)?;
    assert_eq!(rt; list.len(), 3);
    assert_eq!(rt; list.get(2).copied(), Some(4));
    list.set(0, 5);
    assert_eq!(rt; list.as_slice(), [5, 1, 4].as_slice());
    assert_eq!(rt; list.pop(), Some(4));
    let copied = Seq::from_slice(rt.alloc(), list.as_slice())?;
    assert_eq!(rt; copied.as_slice(), [5, 1].as_slice());
    let empty: ByteList = Seq::new(rt.alloc());
    assert!(rt; empty.is_empty());
    Ok(())
}
