//! Objects whose listings are assembled again.

use crate::room::{Room, words_of};
use pc_assembler::assemble;
use pc_object::decode;
use pc_specimen::{KINDS, SUM, TREE};
use pc_view::listing_text;
use pc_word::MOST_OBJECT;
use std::alloc::Global;
use std::test::Fail;

/// Arrays that begin with words, and one of the further registers.
const DATA: [u8; 76] = [
    0x50, 0x54, 0x56, 0x32, 0x08, 0x03, 0x02, 0x02, 0x01, 0x00, 0x00, 0x00, 0x00, 0x0C, 0x00, 0x00,
    0x00, 0x01, 0x00, 0x00, 0x00, 0x09, 0x00, 0x00, 0x00, 0x05, 0xFF, 0xFF, 0xFF, 0xFA, 0x00, 0x00,
    0x00, 0x00, 0x00, 0x00, 0x00, 0x07, 0x00, 0x00, 0x00, 0x01, 0x00, 0x00, 0x00, 0x02, 0x00, 0x00,
    0x00, 0x03, 0x00, 0x00, 0x00, 0x04, 0x00, 0x00, 0x00, 0x09, 0x00, 0x00, 0x00, 0x00, 0x00, 0x00,
    0x00, 0x01, 0x21, 0xC8, 0x01, 0x00, 0x00, 0x00, 0x05, 0x02, 0x00, 0x00,
];

/// The listing of an object.
fn listing_of(alloc: Global, bytes: &[u8]) -> Result<Vec<u8>, Fail> {
    if bytes.len() > MOST_OBJECT {
        return Ok(Vec::new(alloc));
    }
    let object = decode(alloc, bytes)?;
    Ok(listing_text(alloc, &object)?)
}

/// Whether the assembler makes these bytes of a text.
fn makes(alloc: Global, text: &[u8], bytes: &[u8]) -> Result<bool, Fail> {
    let words = words_of(alloc, "a.rows -o o.tv")?;
    let mut room = Room::new(alloc, text, [0, 0])?;
    let status = assemble(alloc, words.as_slice(), &mut room.shelf, &mut room.err);
    Ok(status == 0 && room.held("o.tv") == Some(bytes))
}

#[test]
fn assembles_the_listings_of_objects(rt: HostRuntime) -> Result<(), Fail> {
    for bytes in [SUM.as_slice(), &TREE, &KINDS, &DATA] {
        let text = listing_of(rt.alloc(), bytes)?;
        assert!(rt;
            makes(rt.alloc(), text.as_slice(), bytes)?,
            "of {} bytes",
            bytes.len()
        );
    }
    Ok(())
}

/// A text of the object of `examples/by_hand/sum.rows`, in other words.
const SUM_BY_HAND: &str = "\
// the sum of the input\n\
limits of a row: 8 items,3 tests,2 loads and stores;arrays:none // no more\n\
\n\
row 0: ; the counts are left out\n\
r1=more()\n\
goto row 1\n\
row 1\n\
if r1\n\
yes r0 = read()\n\
\tgoto row 2\n\
no print( r2 )\n\
| | stop\n\
row 2: 9 of 9 items, 9 of 9 tests, 9 of 9 loads and stores; from rows: 9\n\
r2 = r2 + r0\n\
r1 = more()\n\
goto row 1";

#[test]
fn assembles_a_text_by_hand(rt: HostRuntime) -> Result<(), Fail> {
    assert!(rt; makes(rt.alloc(), SUM_BY_HAND.as_bytes(), &SUM)?);
    Ok(())
}
