//! What the pass of intervals leaves of small sources.
use crate::graphs::lowered;
use pc_flow::{Flow, FlowNode};
use pc_pass::Pass;
use pc_ranges::Ranges;
use pc_scalar::{Fold, reached};
use std::alloc::Global;
use std::test::Fail;

/// A source, and how many tests of it can be reached once the pass was applied. Loops' tests stay.
struct Row {
    text: &'static [u8],
    tests: u32,
}

const ROWS: [Row; 9] = [
    // the bound of the loop decides the check of the index
    Row {
        text: b"int main(void){int a[8];int i;for(i=0;i<8;i++)a[i]=i;}",
        tests: 1,
    },
    // one more element than the array has
    Row {
        text: b"int main(void){int a[8];int i;for(i=0;i<=8;i++)a[i]=i;}",
        tests: 2,
    },
    // a bound that is read leaves the check
    Row {
        text: b"int main(void){int a[8];int i;int n;n=read();for(i=0;i<n;i++)a[i]=i;}",
        tests: 3,
    },
    // but only the first one of an index
    Row {
        text: b"int main(void){int a[8];int i;i=read();a[i]=1;a[i]=2;}",
        tests: 2,
    },
    // sums and differences of indexes
    Row {
        text: b"int main(void){int a[8];int i;for(i=1;i<7;i++)a[i+1]=a[i-1];}",
        tests: 1,
    },
    // a sum that may wrap is any word
    Row {
        text: b"int main(void){int n;n=read();if(n>0){if(n+1>0)print(n);}}",
        tests: 3,
    },
    // what does not hold is known too
    Row {
        text: b"int main(void){int n;n=read();if(n<0)n=0;if(n<0)print(n);}",
        tests: 2,
    },
    // and is not what holds
    Row {
        text: b"int main(void){int n;n=read();if(n<5)n=7;if(n<7)print(n);}",
        tests: 3,
    },
    // a write of one variable says nothing of another
    Row {
        text: b"int main(void){int n;int m;n=0;m=read();n=m;if(n)print(n);}",
        tests: 2,
    },
];

/// How many tests of a graph can be reached.
fn tests_left(alloc: Global, flow: &Flow) -> Result<u32, Fail> {
    let flags = reached(alloc, flow)?;
    let mut tests: u32 = 0;
    for at in 0..flow.count() {
        if let (Some(true), FlowNode::Test { .. }) = (flags.get(at as usize), flow.node(at)) {
            tests = tests.saturating_add(1);
        }
    }
    Ok(tests)
}

/// Whether so many tests of a source are left.
fn leaves(alloc: Global, text: &[u8], tests: u32) -> Result<bool, Fail> {
    let mut flow = lowered(alloc, text)?;
    let mut fold = Fold::new(alloc);
    let mut ranges = Ranges::new(alloc);
    fold.apply(&mut flow)?;
    ranges.apply(&mut flow)?;
    Ok(tests_left(alloc, &flow)? == tests)
}

#[test]
fn tests_that_are_left(rt: HostRuntime) -> Result<(), Fail> {
    for row in ROWS.iter() {
        assert!(rt; leaves(rt.alloc(), row.text, row.tests)?);
    }
    Ok(())
}
