ghost use Rattle.std.specs.Prelude.{◌≡◌};
ghost use Rattle.pc_object.specs.Reading.{tag_of, operator_of_byte, trap_of, is_memory_kind, is_effect_kind};

use pc_word::{OpCode, TrapKind};

/// What the first byte of a part of a row stands for.
#[derive(Clone, Copy, Debug, PartialEq, Eq)]
pub enum Tag {
    Goto,
    Stop,
    Trap,
    Test,
    Item(ItemKind),
}

/// The kinds of items.
#[derive(Clone, Copy, Debug, PartialEq, Eq)]
pub enum ItemKind {
    Bin,
    Copy,
    Load,
    Store,
    Print,
    Read,
    More,
}

impl ItemKind {
    pub fn is_memory(self) -> bool
        ensures { result ≡ is_memory_kind self }
    {
        matches!(self, ItemKind::Load | ItemKind::Store)
    }

    pub fn is_effect(self) -> bool
        ensures { result ≡ is_effect_kind self }
    {
        matches!(self, ItemKind::Print | ItemKind::Read | ItemKind::More)
    }
}

#[tactic(auto, unfolding(crate::specs::Reading::tag_of))]
pub fn tag_of(byte: u8) -> Option<Tag>
    ensures { result ≡ tag_of byte }
{
    match byte {
        0x01 => Some(Tag::Goto),
        0x02 => Some(Tag::Stop),
        0x03 => Some(Tag::Trap),
        0x10 => Some(Tag::Test),
        0x20 => Some(Tag::Item(ItemKind::Bin)),
        0x21 => Some(Tag::Item(ItemKind::Copy)),
        0x22 => Some(Tag::Item(ItemKind::Load)),
        0x23 => Some(Tag::Item(ItemKind::Store)),
        0x24 => Some(Tag::Item(ItemKind::Print)),
        0x25 => Some(Tag::Item(ItemKind::Read)),
        0x26 => Some(Tag::Item(ItemKind::More)),
        _ => None,
    }
}

#[tactic(auto, unfolding(crate::specs::Reading::operator_of_byte))]
pub fn operator_of_byte(byte: u8) -> Option<OpCode>
    ensures { result ≡ operator_of_byte byte }
{
    match byte {
        0x00 => Some(OpCode::Add),
        0x01 => Some(OpCode::Sub),
        0x02 => Some(OpCode::Mul),
        0x03 => Some(OpCode::Div),
        0x04 => Some(OpCode::Rem),
        0x05 => Some(OpCode::Shl),
        0x06 => Some(OpCode::Shr),
        0x07 => Some(OpCode::And),
        0x08 => Some(OpCode::Or),
        0x09 => Some(OpCode::Xor),
        0x0A => Some(OpCode::Less),
        0x0B => Some(OpCode::LessEq),
        0x0C => Some(OpCode::Equal),
        0x0D => Some(OpCode::Unequal),
        0x0E => Some(OpCode::Below),
        _ => None,
    }
}

#[tactic(auto, unfolding(crate::specs::Reading::trap_of))]
pub fn trap_of(byte: u8) -> Option<TrapKind>
    ensures { result ≡ trap_of byte }
{
    match byte {
        0x00 => Some(TrapKind::DivideByZero),
        0x01 => Some(TrapKind::OutOfBounds),
        0x02 => Some(TrapKind::EndOfInput),
        _ => None,
    }
}
