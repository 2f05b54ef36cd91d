//! Which loads of small programs are forwarded.
use crate::graphs::lowered;
use pc_flow::Flow;
use pc_forward::Forward;
use pc_pass::Pass;
use pc_scalar::{Copies, Fold, Values};
use std::alloc::Global;
use std::test::Fail;

/// Sources, and how many loads are forwarded in each once the passes before it were applied.
const SOURCES: [(&[u8], u64); 14] = [
    // Stored before.
    (
        b"int main(void){int a[4];int x=read();a[1]=x;print(a[1]);}",
        1,
    ),
    (b"int main(void){int a[4];a[1]=5;print(a[1]);}", 1),
    // Loaded before.
    (
        b"int main(void){int a[4];int i=read();int x=a[i];int y=a[i];print(x+y);}",
        1,
    ),
    // A store between that may be, and ones that cannot be, to the same element.
    (
        b"int main(void){int a[4];int i=read();int j=read();a[i]=1;a[j]=2;print(a[i]);}",
        0,
    ),
    (
        b"int main(void){int a[4];int x=read();a[1]=x;a[2]=3;print(a[1]);}",
        1,
    ),
    (
        b"int main(void){int a[9];int i=read();int x=read();a[i]=x;a[i+1]=3;print(a[i]);}",
        1,
    ),
    // Another array.
    (b"int main(void){int a[4];int b[4];a[1]=5;print(b[1]);}", 0),
    // No variable has the stored value any more; and another one has it.
    (
        b"int main(void){int a[4];int x=read();a[1]=x;x=2;print(a[1]);}",
        0,
    ),
    (
        b"int main(void){int a[4];int x=read();int y=x;a[1]=x;x=2;print(a[1]+y);}",
        1,
    ),
    // Behind a test, and where two edges meet.
    (
        b"int main(void){int a[4];int x=read();a[1]=x;if(x)print(a[1]);}",
        1,
    ),
    (
        b"int main(void){int a[4];int x=read();a[1]=x;if(x)print(0);print(a[1]);}",
        0,
    ),
    // On both sides of a test.
    (
        b"int main(void){int a[4];int x=read();a[1]=x;if(x)print(a[1]);else print(a[1]);}",
        2,
    ),
    // The index by another name, and the same name with another value.
    (
        b"int main(void){int a[4];int i=read();int j=i+1;a[i]=7;print(a[j-1]);}",
        1,
    ),
    (
        b"int main(void){int a[4];int i=read();a[i]=7;i=i+1;print(a[i]);}",
        0,
    ),
];

/// How many loads of a source are forwarded.
fn forwarded(alloc: Global, text: &[u8]) -> Result<u64, Fail> {
    let mut flow = lowered(alloc, text)?;
    let mut fold = Fold::new(alloc);
    fold.apply(&mut flow)?;
    let mut copies = Copies::new(alloc);
    copies.apply(&mut flow)?;
    let mut values = Values::new(alloc);
    values.apply(&mut flow)?;
    let mut forward = Forward::new(alloc);
    forward.apply(&mut flow)?;
    Ok(forward.changes())
}

#[test]
fn loads_are_forwarded(rt: HostRuntime) -> Result<(), Fail> {
    let pass = Forward::new(rt.alloc());
    assert_eq!(rt; pass.name(), "forward");
    for (text, loads) in SOURCES.iter() {
        assert_eq!(rt; forwarded(rt.alloc(), text)?, *loads);
    }
    Ok(())
}
