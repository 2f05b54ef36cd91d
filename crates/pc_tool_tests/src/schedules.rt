//! What is reported of code that is pipelined or packed, and what is handed out of its compilation.
ghost use Rattle.pc_object.specs.ObjectText.{IsObject, object_of};

use crate::bench::{
    DOT_PRODUCT, EXCHANGE, EXCHANGE_MOSTLY, NONE_FAILS, SILENCE, Wanted, answers, compiled_of,
    holds, shelf_with,
};
use pc_compile::{Choice, Compiled, Form};
use pc_object::encode;
use pc_outside::MemoryShelf;
use pc_tool::Who;
use std::alloc::Global;
use std::test::Fail;

/// A source, the line that compiles it with a report, the report, the input of its run, and what it prints.
#[derive(Clone, Copy)]
struct Scheduled {
    source: &'static [u8],
    line: &'static str,
    report: &'static [u8],
    input: &'static [u8],
    output: &'static [u8],
}

/// Operators that all may be done at once, but for those that put them together.
const WIDE: &[u8] = b"int main(void){int x=read();print(x+1^x+2^x+3^x+4^x+5^x+6^x+7^x+8);}";

/// The innermost loops alone are noted.
const NESTED: &[u8] =
    b"int main(void){int i;int j;\nfor(i=0;i<2;i++)\nfor(j=0;j<2;j++)\nprint(i*2+j);\nwhile(i)i-=1;}";

const SCHEDULED: [Scheduled; 9] = [
    Scheduled {
        source: EXCHANGE,
        line: "a.c -o o.tv --report",
        report: b"nodes 14\nrows 5\nloop 2: pipelined, rows 2 of 256\n",
        input: b"",
        output: b"2\n1\n2\n1\n2\n",
    },
    Scheduled {
        source: EXCHANGE,
        line: "a.c -o o.tv --ops 1 --report",
        report: b"nodes 14\nrows 10\nloop 2: pipelined, rows 3 of 256\n",
        input: b"",
        output: b"2\n1\n2\n1\n2\n",
    },
    Scheduled {
        source: EXCHANGE,
        line: "a.c -o o.tv --rows 1 --report",
        report: b"nodes 14\nrows 4\nloop 2: packed, rows 2 of 1\n",
        input: b"",
        output: b"2\n1\n2\n1\n2\n",
    },
    Scheduled {
        source: EXCHANGE,
        line: "a.c -o o.tv --window 1 --report",
        report: b"nodes 14\nrows 4\nloop 2: packed, window 1 of 1\n",
        input: b"",
        output: b"2\n1\n2\n1\n2\n",
    },
    Scheduled {
        source: EXCHANGE_MOSTLY,
        line: "a.c -o o.tv --report",
        report: b"nodes 16\nrows 6\nloop 1: pipelined, rows 3 of 256\n",
        input: b"",
        output: b"2\n1\n1\n2\n1\n",
    },
    Scheduled {
        source: DOT_PRODUCT,
        line: "a.c -o o.tv --report",
        report: b"nodes 34\nrows 12\nloop 2: pipelined, rows 2 of 256\nloop 3: pipelined, rows 7 of 256\n",
        input: b"",
        output: b"333300\n",
    },
    Scheduled {
        source: WIDE,
        line: "a.c -o o.tv --ops 1 --report",
        report: b"nodes 22\nrows 18\n",
        input: b"10",
        output: b"24\n",
    },
    Scheduled {
        source: WIDE,
        line: "a.c -o o.tv --ops 8 --report",
        report: b"nodes 22\nrows 11\n",
        input: b"10",
        output: b"24\n",
    },
    Scheduled {
        source: NESTED,
        line: "a.c -o o.tv --report",
        report: b"nodes 19\nrows 10\nloop 3: pipelined, rows 4 of 256\nloop 5: pipelined, rows 1 of 256\n",
        input: b"",
        output: b"0\n1\n2\n3\n",
    },
];

/// Whether the compiler reports this, and the object then prints what it is to.
fn is_scheduled(alloc: Global, scheduled: &Scheduled) -> Result<bool, Fail> {
    let mut shelf = shelf_with(alloc, "a.c", scheduled.source, 0)?;
    let reported = Wanted {
        out: scheduled.report,
        ..SILENCE
    };
    let printed = Wanted {
        out: scheduled.output,
        ..SILENCE
    };
    let (line, input) = (scheduled.line, scheduled.input);
    Ok(
        answers(alloc, Who::Pcc, line, &mut shelf, b"", NONE_FAILS, reported)?
            && answers(
                alloc,
                Who::Pvm,
                "o.tv",
                &mut shelf,
                input,
                NONE_FAILS,
                printed,
            )?,
    )
}

#[test]
fn rows_and_loops_are_reported(rt: HostRuntime) -> Result<(), Fail> {
    let alloc = rt.alloc();
    for (number, scheduled) in SCHEDULED.iter().enumerate() {
        assert!(rt; is_scheduled(alloc, scheduled)?, "source {number}");
    }
    Ok(())
}

/// How many of the regions are pipelined.
fn count_pipelined(choices: &[Choice]) -> usize {
    choices
        .iter()
        .filter(|choice| matches!(choice.form, Form::Pipelined { .. }))
        .count()
}

/// Whether the bytes of a compilation's object stand under a name.
fn is_held(
    alloc: Global,
    compiled: &Compiled,
    shelf: &MemoryShelf,
    name: &str,
) -> Result<bool, Fail>
    requires { IsObject (object_of compiled.now.object) }
{
    let bytes = encode(alloc, &compiled.object)?;
    Ok(holds(shelf, name, bytes.as_slice()))
}

#[test]
fn what_was_compiled_is_handed_out(rt: HostRuntime) -> Result<(), Fail> {
    let alloc = rt.alloc();
    let mut shelf = shelf_with(alloc, "a.c", DOT_PRODUCT, 0)?;
    let Some(compiled) = compiled_of(alloc, "a.c -o o.tv", &mut shelf)? else {
        return Err(Fail::from("nothing is handed out"));
    };
    assert_eq!(rt; compiled.flow.count(), 34);
    assert_eq!(rt; count_pipelined(compiled.choices.as_slice()), 2);
    assert!(rt; is_held(alloc, &compiled, &shelf, "o.tv")?);
    Ok(())
}

#[test]
fn nothing_is_handed_out_of_a_refused_text(rt: HostRuntime) -> Result<(), Fail> {
    let alloc = rt.alloc();
    let mut shelf = shelf_with(alloc, "a.c", b"int main(void){x=1;}", 0)?;
    let handed = compiled_of(alloc, "a.c -o o.tv", &mut shelf)?;
    assert!(rt; handed.is_none());
    Ok(())
}
