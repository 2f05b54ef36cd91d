//! The texts of some objects, as another program makes them.

use pc_object::decode;
use pc_specimen::{KINDS, SUM, TREE};
use pc_view::{
    Tally, graph_text, laws_of_graphs, laws_of_leading_rows, laws_of_listings, listing_text,
    tallied_graph_text, tallied_listing_text,
};
use pc_word::{MOST_OBJECT, Seq};
use std::alloc::Global;
use std::test::Fail;

/// It prints 7.
pub(crate) const SEVEN: [u8; 21] = [
    0x50, 0x54, 0x56, 0x31, 0x08, 0x03, 0x02, 0x00, 0x00, 0x00, 0x00, 0x01, 0x24, 0x01, 0x00, 0x00,
    0x00, 0x07, 0x02, 0x00, 0x00,
];

pub(crate) const SEVEN_LISTING: &str = "\
limits of a row: 8 items, 3 tests, 2 loads and stores; arrays: none\n\
row 0: 1 of 8 items, 0 of 3 tests, 0 of 2 loads and stores; from rows: none\n\
\x20   print(7)\n\
\x20   stop\n";

pub(crate) const SEVEN_GRAPH: &str = "\
digraph rows {\n\
\x20   node [shape=record];\n\
\x20   0 [label=\"{row 0|print(7)|<p> stop}\"];\n\
}\n";

const SUM_LISTING: &str = "\
limits of a row: 8 items, 3 tests, 2 loads and stores; arrays: none\n\
row 0: 1 of 8 items, 0 of 3 tests, 0 of 2 loads and stores; from rows: none\n\
\x20   r1 = more()\n\
\x20   goto row 1\n\
row 1: 2 of 8 items, 1 of 3 tests, 0 of 2 loads and stores; from rows: 0, 2\n\
\x20   if r1\n\
\x20   yes r0 = read()\n\
\x20   |   goto row 2\n\
\x20   no  print(r2)\n\
\x20       stop\n\
row 2: 2 of 8 items, 0 of 3 tests, 0 of 2 loads and stores; from rows: 1\n\
\x20   r2 = r2 + r0\n\
\x20   r1 = more()\n\
\x20   goto row 1\n";

const SUM_GRAPH: &str = "\
digraph rows {\n\
\x20   node [shape=record];\n\
\x20   0 [label=\"{row 0|r1 = more()|<p> goto row 1}\"];\n\
\x20   0:p -> 1;\n\
\x20   1 [label=\"{row 1|if r1|{{yes|r0 = read()|<py> goto row 2}|{no|print(r2)|<pn> stop}}}\"];\n\
\x20   1:py -> 2;\n\
\x20   2 [label=\"{row 2|r2 = r2 + r0|r1 = more()|<p> goto row 1}\"];\n\
\x20   2:p -> 1;\n\
}\n";

const TREE_LISTING: &str = "\
limits of a row: 4 items, 3 tests, 1 loads and stores; arrays: a0[10]\n\
row 0: 2 of 4 items, 3 of 3 tests, 1 of 1 loads and stores; from rows: 0, 1\n\
\x20   if r1\n\
\x20   yes if r2\n\
\x20   |   yes a0[r2] = -1\n\
\x20   |   |   goto row 1\n\
\x20   |   no  stop\n\
\x20   no  r3 = r3 < 10\n\
\x20       if r4\n\
\x20       yes goto row 0\n\
\x20       no  trap: out of bounds at line 12\n\
row 1: 0 of 4 items, 0 of 3 tests, 0 of 1 loads and stores; from rows: 0\n\
\x20   goto row 0\n";

const TREE_GRAPH: &str = "\
digraph rows {\n\
\x20   node [shape=record];\n\
\x20   0 [label=\"{row 0|if r1|{{yes|if r2|{{yes|a0[r2] = -1|<pyy> goto row 1}|{no|<pyn> stop}}}|{no|r3 = r3 \\< 10|if r4|{{yes|\
<pny> goto row 0}|{no|<pnn> trap: out of bounds at line 12}}}}}\"];\n\
\x20   0:pyy -> 1;\n\
\x20   0:pny -> 0;\n\
\x20   1 [label=\"{row 1|<p> goto row 0}\"];\n\
\x20   1:p -> 0;\n\
}\n";

const KINDS_LISTING: &str = "\
limits of a row: 32 items, 7 tests, 32 loads and stores; arrays: a0[64], a1[65536]\n\
row 0: 19 of 32 items, 0 of 7 tests, 2 of 32 loads and stores; from rows: none\n\
\x20   r0 = r1 + -7\n\
\x20   r1 = r2 - -6\n\
\x20   r2 = r3 * -5\n\
\x20   r3 = r4 / -4\n\
\x20   r4 = r5 % -3\n\
\x20   r5 = r6 << -2\n\
\x20   r6 = r7 >> -1\n\
\x20   r7 = r8 & 0\n\
\x20   r8 = r9 | 1\n\
\x20   r9 = r10 ^ 2\n\
\x20   r10 = r11 < 3\n\
\x20   r11 = r12 <= 4\n\
\x20   r12 = r13 == 5\n\
\x20   r13 = r14 != 6\n\
\x20   r14 = r15 below 7\n\
\x20   r15 = r127\n\
\x20   r16 = a1[r0]\n\
\x20   a0[3] = r2\n\
\x20   print(-2147483648)\n\
\x20   goto row 1\n\
row 1: 1 of 32 items, 1 of 7 tests, 0 of 32 loads and stores; from rows: 0\n\
\x20   r0 = read()\n\
\x20   if r9\n\
\x20   yes trap: divide by zero at line 1\n\
\x20   no  trap: end of input at line 4294967295\n\
row 2: 1 of 32 items, 0 of 7 tests, 0 of 32 loads and stores; from rows: none\n\
\x20   r127 = more()\n\
\x20   stop\n\
loop 2: pipelined, rows 100 of 90\n\
loop 3: packed, rows 101 of 91\n\
loop 4: packed, live 102 of 92\n\
loop 5: packed, bytes 103 of 93\n\
loop 6: packed, window 104 of 94\n\
loop 7: plain, rows 105 of 95\n\
loop 8: plain, live 106 of 96\n\
loop 9: plain, bytes 107 of 97\n";

const KINDS_GRAPH: &str = "\
digraph rows {\n\
\x20   node [shape=record];\n\
\x20   0 [label=\"{row 0|r0 = r1 + -7|r1 = r2 - -6|r2 = r3 * -5|r3 = r4 / -4|r4 = r5 % -3|r5 = r6 \\<\\< -2|r6 = r7 \\>\\> -1|\
r7 = r8 & 0|r8 = r9 \\| 1|r9 = r10 ^ 2|r10 = r11 \\< 3|r11 = r12 \\<= 4|r12 = r13 == 5|r13 = r14 != 6|r14 = r15 below 7|\
r15 = r127|r16 = a1[r0]|a0[3] = r2|print(-2147483648)|<p> goto row 1}\"];\n\
\x20   0:p -> 1;\n\
\x20   1 [label=\"{row 1|r0 = read()|if r9|{{yes|<py> trap: divide by zero at line 1}|{no|\
<pn> trap: end of input at line 4294967295}}}\"];\n\
\x20   2 [label=\"{row 2|r127 = more()|<p> stop}\"];\n\
\x20   note0 [shape=box, style=filled, fillcolor=palegreen, label=\"loop 2: pipelined, rows 100 of 90\"];\n\
\x20   note1 [shape=box, style=filled, fillcolor=khaki, label=\"loop 3: packed, rows 101 of 91\"];\n\
\x20   note2 [shape=box, style=filled, fillcolor=khaki, label=\"loop 4: packed, live 102 of 92\"];\n\
\x20   note3 [shape=box, style=filled, fillcolor=khaki, label=\"loop 5: packed, bytes 103 of 93\"];\n\
\x20   note4 [shape=box, style=filled, fillcolor=khaki, label=\"loop 6: packed, window 104 of 94\"];\n\
\x20   note5 [shape=box, style=filled, fillcolor=lightsalmon, label=\"loop 7: plain, rows 105 of 95\"];\n\
\x20   note6 [shape=box, style=filled, fillcolor=lightsalmon, label=\"loop 8: plain, live 106 of 96\"];\n\
\x20   note7 [shape=box, style=filled, fillcolor=lightsalmon, label=\"loop 9: plain, bytes 107 of 97\"];\n\
}\n";

/// Arrays that begin with words, and one of the further registers.
const DATA: [u8; 76] = [
    0x50, 0x54, 0x56, 0x32, 0x08, 0x03, 0x02, 0x02, 0x01, 0x00, 0x00, 0x00, 0x00, 0x0C, 0x00, 0x00,
    0x00, 0x01, 0x00, 0x00, 0x00, 0x09, 0x00, 0x00, 0x00, 0x05, 0xFF, 0xFF, 0xFF, 0xFA, 0x00, 0x00,
    0x00, 0x00, 0x00, 0x00, 0x00, 0x07, 0x00, 0x00, 0x00, 0x01, 0x00, 0x00, 0x00, 0x02, 0x00, 0x00,
    0x00, 0x03, 0x00, 0x00, 0x00, 0x04, 0x00, 0x00, 0x00, 0x09, 0x00, 0x00, 0x00, 0x00, 0x00, 0x00,
    0x00, 0x01, 0x21, 0xC8, 0x01, 0x00, 0x00, 0x00, 0x05, 0x02, 0x00, 0x00,
];

const DATA_LISTING: &str = "\
limits of a row: 8 items, 3 tests, 2 loads and stores; arrays: a0[12], a1[1]; registers: 256\n\
\x20   a0[0] = 5\n\
\x20   a0[1] = -6\n\
\x20   a0[2] = 0\n\
\x20   a0[3] = 7\n\
\x20   a0[4] = 1\n\
\x20   a0[5] = 2\n\
\x20   a0[6] = 3\n\
\x20   a0[7] = 4\n\
\x20   a0[8] = 9\n\
row 0: 1 of 8 items, 0 of 3 tests, 0 of 2 loads and stores; from rows: none\n\
\x20   r200 = 5\n\
\x20   stop\n";

const DATA_GRAPH: &str = "\
digraph rows {\n\
\x20   node [shape=record];\n\
\x20   data0 [shape=box, label=\"words of a0: 9\"];\n\
\x20   0 [label=\"{row 0|r200 = 5|<p> stop}\"];\n\
}\n";

/// Whether an object has these texts.
fn shows(alloc: Global, bytes: &[u8], listing: &str, graph: &str) -> Result<bool, Fail> {
    if bytes.len() > MOST_OBJECT {
        return Ok(false);
    }
    let object = decode(alloc, bytes)?;
    let listed = listing_text(alloc, &object)?;
    let drawn = graph_text(alloc, &object)?;
    Ok(listed.as_slice() == listing.as_bytes() && drawn.as_slice() == graph.as_bytes())
}

/// Objects, each with its listing and its graph.
static OBJECTS: [(&[u8], &str, &str); 5] = [
    (&SEVEN, SEVEN_LISTING, SEVEN_GRAPH),
    (&SUM, SUM_LISTING, SUM_GRAPH),
    (&TREE, TREE_LISTING, TREE_GRAPH),
    (&KINDS, KINDS_LISTING, KINDS_GRAPH),
    (&DATA, DATA_LISTING, DATA_GRAPH),
];

#[test]
fn shows_objects(rt: HostRuntime) -> Result<(), Fail> {
    for (bytes, listing, graph) in OBJECTS.iter() {
        assert!(rt; shows(rt.alloc(), bytes, listing, graph)?, "{listing}");
    }
    laws_of_graphs();
    laws_of_leading_rows();
    laws_of_listings();
    Ok(())
}

/// The sum of three numbers.
pub(crate) const SUM_TALLIED: &str = "\
limits of a row: 8 items, 3 tests, 2 loads and stores; arrays: none\n\
row 0: 1 of 8 items, 0 of 3 tests, 0 of 2 loads and stores; from rows: none; cycles: 1\n\
\x20   r1 = more()\n\
\x20   goto row 1; taken: 1\n\
row 1: 2 of 8 items, 1 of 3 tests, 0 of 2 loads and stores; from rows: 0, 2; cycles: 4\n\
\x20   if r1\n\
\x20   yes r0 = read()\n\
\x20   |   goto row 2; taken: 3\n\
\x20   no  print(r2)\n\
\x20       stop; taken: 1\n\
row 2: 2 of 8 items, 0 of 3 tests, 0 of 2 loads and stores; from rows: 1; cycles: 3\n\
\x20   r2 = r2 + r0\n\
\x20   r1 = more()\n\
\x20   goto row 1; taken: 3\n";

pub(crate) const SUM_SHADED: &str = "\
digraph rows {\n\
\x20   node [shape=record];\n\
\x20   0 [style=filled, fillcolor=\"0.000 0.12 1.000\", label=\"{row 0; cycles: 1|r1 = more()|<p> goto row 1}\"];\n\
\x20   0:p -> 1 [label=\"1\"];\n\
\x20   1 [style=filled, fillcolor=\"0.000 0.50 1.000\", label=\"{row 1; cycles: 4|if r1|{{yes|r0 = read()|<py> goto row 2}|{no|print(r2)|<pn> stop}}}\"];\n\
\x20   1:py -> 2 [label=\"3\"];\n\
\x20   2 [style=filled, fillcolor=\"0.000 0.37 1.000\", label=\"{row 2; cycles: 3|r2 = r2 + r0|r1 = more()|<p> goto row 1}\"];\n\
\x20   2:p -> 1 [label=\"3\"];\n\
}\n";

#[test]
fn tells_how_often_rows_ran(rt: HostRuntime) -> Result<(), Fail> {
    let alloc = rt.alloc();
    let object = decode(alloc, &SUM)?;
    let leaves = [
        Seq::from_slice(alloc, &[1])?,
        Seq::from_slice(alloc, &[3, 1])?,
        Seq::from_slice(alloc, &[3])?,
    ];
    let tally = Tally {
        cycles: 8,
        rows: &[1, 4, 3],
        leaves: &leaves,
    };
    let listed = tallied_listing_text(alloc, &object, tally)?;
    let drawn = tallied_graph_text(alloc, &object, tally)?;
    assert!(rt; listed.as_slice() == SUM_TALLIED.as_bytes());
    assert!(rt; drawn.as_slice() == SUM_SHADED.as_bytes());
    Ok(())
}
