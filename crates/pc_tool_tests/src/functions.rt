//! Functions: what one must not do, and how large and how high a program may become by its calls.

use crate::bench::SILENCE;
use crate::compiler::{compiles, refuses};
use std::alloc::Global;
use std::test::Fail;

/// Units, and the line that tells why each is refused. What a function must not do is told before what names and
/// limits forbid.
const REFUSED: [(&[u8], &str); 11] = [
    (
        b"int f(int x){int y=f(x);return y;}int main(void){}",
        "no such function at line 1",
    ),
    (
        b"int f(void){break;}int main(void){while(1){f();}}",
        "jump outside a loop at line 1",
    ),
    (
        b"int f(void){return y;}\nint main(void){int y;y=f();}",
        "undeclared at line 1",
    ),
    (
        b"int f(void){}\nint f(int x){}\nint main(void){}",
        "function twice at line 2",
    ),
    (
        b"int f(int x){\nreturn 1;\nreturn 2;}int main(void){int y;y=z;}",
        "early return at line 2",
    ),
    (
        b"int f(void){\nint a[2];}int main(void){}",
        "array in function at line 2",
    ),
    (
        b"int f(int x){}int main(void){\nf();}",
        "wrong number of arguments at line 2",
    ),
    (
        b"int f(int x,int x){}\nint main(void){f(1,2);}",
        "declared twice at line 1",
    ),
    (
        b"int f(int x){}int main(void){\nf(1)+1;}",
        "syntax at line 2",
    ),
    (
        b"int f(int x){}int main(void){int a[1];\na[0]=f(1);}",
        "syntax at line 2",
    ),
    (
        b"int f(int x){}int main(void){\nprint(f(1));}",
        "syntax at line 2",
    ),
];

#[test]
fn tells_what_a_function_must_not_do(rt: HostRuntime) -> Result<(), Fail> {
    let alloc = rt.alloc();
    for (number, (text, told)) in REFUSED.iter().enumerate() {
        assert!(rt; refuses(alloc, text, told)?, "unit {number}");
    }
    Ok(())
}

/// A unit in which `f0` prints, each of so many functions more calls the one before it so many times, and `main`
/// calls the last.
fn chained(alloc: Global, functions: u32, calls: u32) -> Result<String, Fail> {
    let mut text = String::from_str(alloc, "int f0(void){print(7);}")?;
    for callee in 0..functions {
        let function = callee.saturating_add(1);
        text.push_str(format!(in alloc; "int f{function}(void){{")?.as_str())?;
        for _ in 0..calls {
            text.push_str(format!(in alloc; "f{callee}();")?.as_str())?;
        }
        text.push_str("}")?;
    }
    text.push_str(format!(in alloc; "int main(void){{f{functions}();}}")?.as_str())?;
    Ok(text)
}

#[test]
fn counts_calls_before_they_are_inlined(rt: HostRuntime) -> Result<(), Fail> {
    let alloc = rt.alloc();
    let text = chained(alloc, 8, 2)?;
    assert!(rt; compiles(alloc, "a.c -o b.tv", text.as_bytes(), SILENCE)?);
    let text = chained(alloc, 20, 2)?;
    assert!(rt; refuses(alloc, text.as_bytes(), "inlined program too big")?);
    let text = chained(alloc, 300, 1)?;
    assert!(rt; refuses(alloc, text.as_bytes(), "inlined program too high")?);
    Ok(())
}
