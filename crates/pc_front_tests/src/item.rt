//! What items and operands are asked.

use pc_word::{Item, OpCode, Operand, Operands};

/// Items; the name that each writes and the array that it names; whether it is memory, is an effect, only computes and
/// reads the name 1; and what it reads.
static ITEMS: [(Item, Option<u32>, Option<u8>, [bool; 4], Operands); 7] = [
    (
        Item::Bin {
            op: OpCode::Sub,
            dest: 4,
            left: Operand::Name(1),
            right: Operand::Name(2),
        },
        Some(4),
        None,
        [false, false, true, true],
        Operands::Two(Operand::Name(1), Operand::Name(2)),
    ),
    (
        Item::Copy {
            dest: 4,
            from: Operand::Lit(1),
        },
        Some(4),
        None,
        [false, false, true, false],
        Operands::One(Operand::Lit(1)),
    ),
    (
        Item::Load {
            dest: 4,
            array: 3,
            index: Operand::Name(1),
        },
        Some(4),
        Some(3),
        [true, false, true, true],
        Operands::One(Operand::Name(1)),
    ),
    (
        Item::Store {
            array: 3,
            index: Operand::Lit(1),
            value: Operand::Name(1),
        },
        None,
        Some(3),
        [true, false, false, true],
        Operands::Two(Operand::Lit(1), Operand::Name(1)),
    ),
    (
        Item::Print {
            value: Operand::Name(2),
        },
        None,
        None,
        [false, true, false, false],
        Operands::One(Operand::Name(2)),
    ),
    (
        Item::Read { dest: 4 },
        Some(4),
        None,
        [false, true, false, false],
        Operands::None,
    ),
    (
        Item::More { dest: 4 },
        Some(4),
        None,
        [false, true, false, false],
        Operands::None,
    ),
];

#[test]
fn items_are_asked(rt: HostRuntime) {
    for (item, dest, array, is, operands) in ITEMS.iter().copied() {
        let found = [
            item.is_memory(),
            item.is_effect(),
            item.only_computes(),
            item.reads(1),
        ];
        assert!(rt; item.dest() == dest && item.array() == array, "{item:?}");
        assert!(rt; found == is && item.operands() == operands, "{item:?}");
        assert!(rt; item.writes(4) == dest.is_some(), "{item:?}");
    }
    assert_eq!(rt; OpCode::Below.number(), 14);
    assert!(rt; Operand::Name(1).is_name(1) && !Operand::Lit(1).is_name(1));
    assert!(rt; Operand::Lit(1).is_same(Operand::Lit(1)));
}

/// The name 7 in the place of another.
fn seventh(operand: Operand) -> Operand {
    operand.map_name(|_| 7)
}

#[test]
fn names_are_put_in_the_place_of_others(rt: HostRuntime) {
    for (item, dest, _, _, _) in ITEMS.iter().copied() {
        let other = item.with_dest(9);
        assert!(rt; other.writes(9) == dest.is_some(), "{item:?}");
        assert!(rt; item.is_alike(other), "{item:?}");
        let next = item.map_dest(|name| name.wrapping_add(1));
        assert!(rt; next.writes(5) == dest.is_some(), "{item:?}");
        let renamed = item.map_operands(|operand| seventh(operand));
        assert!(rt;
            !renamed.reads(1) && renamed.writes(4) == dest.is_some(),
            "{item:?}"
        );
    }
}

/// The difference of two names, under another.
fn difference(dest: u32, left: u32, right: u32) -> Item {
    Item::Bin {
        op: OpCode::Sub,
        dest,
        left: Operand::Name(left),
        right: Operand::Name(right),
    }
}

/// A load at a literal, under a name.
fn load(dest: u32, array: u8, index: i32) -> Item {
    Item::Load {
        dest,
        array,
        index: Operand::Lit(index),
    }
}

#[test]
fn items_are_alike_but_for_their_names(rt: HostRuntime) {
    let product = Item::Bin {
        op: OpCode::Mul,
        dest: 4,
        left: Operand::Name(1),
        right: Operand::Name(2),
    };
    let print = Item::Print {
        value: Operand::Lit(7),
    };
    let pairs = [
        (difference(4, 1, 2), difference(5, 1, 2), true),
        (difference(4, 1, 2), difference(4, 2, 1), false),
        (difference(4, 1, 2), product, false),
        (load(4, 0, 3), load(9, 0, 3), true),
        (load(4, 0, 3), load(4, 1, 3), false),
        (load(4, 0, 3), load(4, 0, 2), false),
        (print, print, true),
        (print, load(4, 0, 7), false),
    ];
    for (one, other, wanted) in pairs {
        assert!(rt; one.is_alike(other) == wanted);
    }
}
