//! Sources that are compiled, and whose objects are run.

use crate::bench::{
    DOT_PRODUCT, EXCHANGE, EXCHANGE_MOSTLY, NO_DATA, NONE_FAILS, SILENCE, SOME_DATA, Wanted,
    answers, shelf_with,
};
use pc_outside::MemoryShelf;
use pc_tool::Who;
use std::alloc::Global;
use std::test::Fail;

/// A source, the input of its run, the status with which the run ends, what it prints, and the line that
/// tells its trap.
#[derive(Clone, Copy)]
struct Program {
    source: &'static [u8],
    input: &'static [u8],
    code: u8,
    output: &'static [u8],
    told: &'static str,
}

/// What C says, and where C leaves it open, what the language says: words wrap, `/` truncates, `%` has the sign
/// of the dividend, operands are evaluated from left to right.
const PROGRAMS: [Program; 26] = [
    Program {
        source: b"int main(void){print(2147483647+1);print((-2147483647-1)/-1);print(-7/2);print(-7%2);}",
        input: b"",
        code: 0,
        output: b"-2147483648\n-2147483648\n-3\n-1\n",
        told: "",
    },
    Program {
        source: b"int main(void){int a[4];print(1);a[4]=read();}",
        input: b"",
        code: 12,
        output: b"1\n",
        told: "pvm: trap: end of input at line 1\n",
    },
    Program {
        source: b"int main(void){int a[4];print(1);a[4]=read();}",
        input: b"9",
        code: 11,
        output: b"1\n",
        told: "pvm: trap: out of bounds at line 1\n",
    },
    Program {
        source: b"int main(void){\nprint(1);print(5/0);\nprint(2);}",
        input: b"",
        code: 10,
        output: b"1\n",
        told: "pvm: trap: divide by zero at line 2\n",
    },
    // A function's value, in a loop of its caller.
    Program {
        source: b"int sq(int x){return x*x;}int main(void){int s=0;int t;int i;for(i=1;i<4;i++){t=sq(i);s+=t;}print(s);}",
        input: b"",
        code: 0,
        output: b"14\n",
        told: "",
    },
    // Arguments are evaluated from left to right; a function without `return` gives 0.
    Program {
        source: b"int minus(int a,int b){return a-b;}int shown(int a){print(a);}\
            int main(void){int d=minus(read(),read());d=minus(d,read());int z=shown(d);print(z);}",
        input: b"9 3 4",
        code: 0,
        output: b"2\n0\n",
        told: "",
    },
    // Each call begins anew, and leaves the caller's names alone, one of the same spelling too.
    Program {
        source: b"int count(int x){int n;n+=x;print(n);return n;}\
            int main(void){int n=5;int x=7;count(2);x=count(x);print(n);print(x);}",
        input: b"",
        code: 0,
        output: b"2\n7\n5\n7\n",
        told: "",
    },
    // A declared target is 0 in its own arguments; a result without a target is evaluated.
    Program {
        source: b"int same(int x){return x;}int tested(int x){return 1/x;}\
            int main(void){int i;for(i=0;i<2;i++){int t=same(t+i);print(t);t=9;}\ntested(0);}",
        input: b"",
        code: 10,
        output: b"0\n1\n",
        told: "pvm: trap: divide by zero at line 1\n",
    },
    // Functions call earlier ones, have loops, and stand in the first part and the step of a `for`.
    Program {
        source: b"int add(int a,int b){return a+b;}\
            int sum(int n){int s;int i;for(i=1;i<=n;i=add(i,1))s=add(s,i);return s;}\
            int main(void){int k;for(k=sum(2);k<40;k=sum(k))print(k);print(k);}",
        input: b"",
        code: 0,
        output: b"3\n6\n21\n231\n",
        told: "",
    },
    // A function and a scalar may have one name.
    Program {
        source: b"int f(int x){return x+1;}int main(void){int f=3;f=f(f);print(f);}",
        input: b"",
        code: 0,
        output: b"4\n",
        told: "",
    },
    // Static arrays begin with their values, once.
    Program {
        source: SOME_DATA,
        input: b"",
        code: 0,
        output: b"-1\n",
        told: "",
    },
    Program {
        source: NO_DATA,
        input: b"",
        code: 0,
        output: b"0\n",
        told: "",
    },
    Program {
        source: b"int main(void){int i;for(i=0;i<3;i++){static int a[1]={4};a[0]+=1;print(a[0]);}}",
        input: b"",
        code: 0,
        output: b"5\n6\n7\n",
        told: "",
    },
    // A dot product.
    Program {
        source: DOT_PRODUCT,
        input: b"",
        code: 0,
        output: b"333300\n",
        told: "",
    },
    // Each turn reads what the one before has stored.
    Program {
        source: b"int main(void){int a[51];int i;a[0]=3;for(i=0;i<50;i++)a[i+1]=a[i]+1;print(a[50]);}",
        input: b"",
        code: 0,
        output: b"53\n",
        told: "",
    },
    Program {
        source: b"int main(void){int a[64];int i;for(i=0;i<64;i++)a[i]=i;\
            for(i=0;i<32;i++)a[2*i]=a[2*i+1];print(a[0]);print(a[62]);}",
        input: b"",
        code: 0,
        output: b"1\n63\n",
        told: "",
    },
    // Only what C evaluates is evaluated, so no index is out of bounds.
    Program {
        source: b"int main(void){int a[4];int i;int n=4;int s=0;for(i=0;i<8;i++){if(i<n)s=s+a[i]+1;}print(s);}",
        input: b"",
        code: 0,
        output: b"4\n",
        told: "",
    },
    Program {
        source: EXCHANGE,
        input: b"",
        code: 0,
        output: b"2\n1\n2\n1\n2\n",
        told: "",
    },
    Program {
        source: EXCHANGE_MOSTLY,
        input: b"",
        code: 0,
        output: b"2\n1\n1\n2\n1\n",
        told: "",
    },
    // An `else` belongs to the nearest `if`.
    Program {
        source: b"int main(void){int a=read();int b=read();if(a)if(b)print(1);else print(2);}",
        input: b"1 0",
        code: 0,
        output: b"2\n",
        told: "",
    },
    Program {
        source: b"int main(void){int a=read();int b=read();if(a)if(b)print(1);else print(2);}",
        input: b"0 1",
        code: 0,
        output: b"",
        told: "",
    },
    Program {
        source: b"#include <stdio.h>\n/* x */ int main(void){print(0x10);print(010);return 0;} // end",
        input: b"",
        code: 0,
        output: b"16\n8\n",
        told: "",
    },
    Program {
        source: b"int main(void){print(read());print(read());print(read());}",
        input: b"+3 -0 007",
        code: 0,
        output: b"3\n0\n7\n",
        told: "",
    },
    // `continue` goes to the step of a `for` and to the condition of a `do`.
    Program {
        source: b"int main(void){int i;for(i=0;i<4;i++){if(i==1)continue;print(i);}\
            do{i++;if(i<6)continue;break;}while(1);print(i);}",
        input: b"",
        code: 0,
        output: b"0\n2\n3\n6\n",
        told: "",
    },
    // The right operand is read where it is evaluated, and not before.
    Program {
        source: b"int main(void){int x=5;int a[2];a[1]=7;print(x>read()&&a[x-4]>6||read());print(0&&read());\
            print(x<0?read():x<<33);}",
        input: b"3",
        code: 0,
        output: b"1\n0\n10\n",
        told: "",
    },
    Program {
        source: b"int main(void){int i=0;while(i<3){int j=3;while(j){j-=1;if(j==i)break;}print(j*10+i);i+=1;}}",
        input: b"",
        code: 0,
        output: b"0\n11\n22\n",
        told: "",
    },
];

/// Lines that compile for rows of several widths, with and without loops of which several turns overlap.
const WIDTHS: [&str; 6] = [
    "a.c -o o.tv",
    "a.c -o o.tv --window 1",
    "a.c -o o.tv --ops 1 --tests 1 --mem 1",
    "a.c -o o.tv --ops 1 --window 8",
    "a.c -o o.tv --ops 2 --tests 2",
    "a.c -o o.tv --ops 32 --tests 7 --mem 32 --window 8 --rows 512",
];

/// Whether a source is compiled by a line, and its object does what it is to.
fn does(alloc: Global, line: &str, program: &Program) -> Result<bool, Fail> {
    let mut shelf = shelf_with(alloc, "a.c", program.source, 0)?;
    does_there(alloc, line, "o.tv", program, &mut shelf)
}

/// The same over a shelf, by these two lines.
fn does_there(
    alloc: Global,
    compile: &str,
    simulate: &str,
    program: &Program,
    shelf: &mut MemoryShelf,
) -> Result<bool, Fail> {
    let wanted = Wanted {
        code: program.code,
        out: program.output,
        err: program.told,
    };
    let input = program.input;
    Ok(
        answers(alloc, Who::Pcc, compile, shelf, b"", NONE_FAILS, SILENCE)?
            && answers(alloc, Who::Pvm, simulate, shelf, input, NONE_FAILS, wanted)?,
    )
}

#[test]
fn objects_do_what_their_sources_mean(rt: HostRuntime) -> Result<(), Fail> {
    let alloc = rt.alloc();
    for line in WIDTHS {
        for (number, program) in PROGRAMS.iter().enumerate() {
            assert!(rt; does(alloc, line, program)?, "program {number} by {line}");
        }
    }
    Ok(())
}

/// Goes on for ever.
const ENDLESS: Program = Program {
    source: b"int main(void){while(1){}}",
    input: b"",
    code: 6,
    output: b"",
    told: "pvm: budget of 1000 cycles spent\n",
};

#[test]
fn tells_the_budget_of_its_command(rt: HostRuntime) -> Result<(), Fail> {
    let alloc = rt.alloc();
    let mut shelf = shelf_with(alloc, "a.c", ENDLESS.source, 0)?;
    assert!(rt;
        does_there(
            alloc,
            "a.c -o o.tv",
            "o.tv --cycles 1000",
            &ENDLESS,
            &mut shelf
        )?
    );
    Ok(())
}

/// What the sample of 0 prints.
const FIRST_SAMPLE: Program = Program {
    source: b"",
    input: b"",
    code: 0,
    output: b"85344\n",
    told: "",
};

#[test]
fn the_first_sample_prints_its_sum(rt: HostRuntime) -> Result<(), Fail> {
    let alloc = rt.alloc();
    let mut shelf = shelf_with(alloc, "a.c", FIRST_SAMPLE.source, 0)?;
    assert!(rt; does_there(alloc, "@0 -o o.tv", "o.tv", &FIRST_SAMPLE, &mut shelf)?);
    Ok(())
}
