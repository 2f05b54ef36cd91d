//! Programs that are read, and texts that are none.

use crate::sources::{program_of, require, tokens_of};
use pc_parser::{ParseError, one_program, parse};
use std::alloc::Global;
use std::test::Fail;

/// The tree of the program with this body, as a text.
fn tree_of(alloc: Global, body: &str) -> Result<String, Fail> {
    let text = format!(in alloc; "int main(void){{{body}}}")?;
    let program = program_of(alloc, text.as_str())?;
    let tree = format!(in alloc; "{program:?}")?;
    Ok(tree)
}

/// Where a text is refused: the place and the line, and whether it is too nested. All are 0 where it is
/// not refused.
fn refusal_of(alloc: Global, text: &str) -> Result<(u32, u32, bool), Fail> {
    let tokens = tokens_of(alloc, text)?;
    match parse(alloc, &tokens) {
        Ok(_) => Ok((0, 0, false)),
        Err(ParseError::Syntax { at, line }) => Ok((at, line, false)),
        Err(ParseError::TooNested { at, line }) => Ok((at, line, true)),
        Err(ParseError::Memory) => {
            require(false)?;
            Ok((0, 0, false))
        }
    }
}

/// Each pair is one program (C17 6.5 and 6.8): parentheses and unary `+` leave no node.
static SAME: [(&str, &str); 41] = [
    ("x=a||b&&c;", "x=(a||(b&&c));"),
    ("x=a&&b|c;", "x=(a&&(b|c));"),
    ("x=a|b^c;", "x=(a|(b^c));"),
    ("x=a^b&c;", "x=(a^(b&c));"),
    ("x=a&b==c;", "x=(a&(b==c));"),
    ("x=a==b<c;", "x=(a==(b<c));"),
    ("x=a!=b>=c;", "x=(a!=(b>=c));"),
    ("x=a<b<<c;", "x=(a<(b<<c));"),
    ("x=a>b>>c;", "x=(a>(b>>c));"),
    ("x=a<<b+c;", "x=(a<<(b+c));"),
    ("x=a+b*c;", "x=(a+(b*c));"),
    ("x=a-b/c;", "x=(a-(b/c));"),
    ("x=a*b%c*d;", "x=(((a*b)%c)*d);"),
    ("x=a-b-c;", "x=((a-b)-c);"),
    ("x=a<b<=c;", "x=((a<b)<=c);"),
    ("x=a||b||c;", "x=((a||b)||c);"),
    ("x=a*b+c*d<e&&f;", "x=((((a*b)+(c*d))<e)&&f);"),
    ("x=-a*b;", "x=((-a)*b);"),
    ("x=!a==~b;", "x=((!a)==(~b));"),
    ("x=- -+a;", "x=-(-a);"),
    ("x=+a;", "x=a;"),
    ("x=a?b:c?d:e;", "x=(a?b:(c?d:e));"),
    ("x=a?b?c:d:e;", "x=(a?(b?c:d):e);"),
    ("x=a||b?c:d;", "x=((a||b)?c:d);"),
    ("x=a[b+1]*read();", "x=((a[(b+1)])*(read()));"),
    ("x++;", "x+=1;"),
    ("--x;", "x-=1;"),
    ("++a[i];", "a[i]+=1;"),
    ("a[i]--;", "a[i]-=1;"),
    ("for(;;);", "for(;1;);"),
    ("a[i];", "(a[i]);"),
    ("a[i]+1;", "(a[i]+1);"),
    ("a?b:c;", "(a)?(b):(c);"),
    ("a;", "(a);"),
    ("print(a);", "print((a));"),
    ("return a;", "return (a);"),
    ("int x=a,y;", "int x=(a);int y;"),
    ("static int a[2];", "int a[2];"),
    ("static int a[2]={1,-2,};", "static int a[2]={1,-2};"),
    ("static int a[2],b[1]={1};", "int a[2];static int b[1]={1};"),
    (
        "for(int i=0;i<3;i++)x=i;",
        "for(int i=(0);(i<3);i+=1)x=(i);",
    ),
];

/// Programs that differ.
static DIFFERENT: [(&str, &str); 14] = [
    ("x=a-b-c;", "x=a-(b-c);"),
    ("b;c;x=a?b:c;", "b;c;x=a?c:b;"),
    ("x+=1;", "x-=1;"),
    ("x*=a;", "x/=a;"),
    ("x%=a;", "x&=a;"),
    ("x<<=a;", "x>>=a;"),
    ("x|=a;", "x^=a;"),
    ("if(a)if(b)c;else d;", "if(a){if(b)c;else d;}"),
    ("if(a)if(b)c;else d;", "if(a)if(b)c;else;else d;"),
    ("while(a)b;", "do b;while(a);"),
    ("break;", "continue;"),
    ("for(;a;)b;", "for(;;a)b;"),
    ("static int a[1]={1};", "static int a[1]={-1};"),
    ("static int a[1]={0};", "static int a[1];"),
];

/// Texts that end or go wrong at each kind of place, with that place.
static WRONG: [(&str, u32); 74] = [
    ("", 0),
    ("void", 0),
    ("int", 1),
    ("int x", 1),
    ("int main", 2),
    ("int main(", 3),
    ("int main(int", 3),
    ("int main(void", 4),
    ("int main(void)", 5),
    ("int main();", 4),
    ("int main(void){", 6),
    ("int main(){", 5),
    ("int main(){}}", 6),
    ("int main(){}int", 6),
    ("int main(){else", 5),
    ("int main(){;;", 7),
    ("int main(){int", 6),
    ("int main(){int 1", 6),
    ("int main(){int x", 7),
    ("int main(){int x(", 7),
    ("int main(){int x=", 8),
    ("int main(){int x=1", 9),
    ("int main(){int x,", 8),
    ("int main(){int x,;", 8),
    ("int main(){int x[", 8),
    ("int main(){int x[y", 8),
    ("int main(){int x[1", 9),
    ("int main(){int x[1]", 10),
    ("int main(){int x[1]=", 10),
    ("int main(){x", 6),
    ("int main(){x y", 6),
    ("int main(){x)", 6),
    ("int main(){x=", 7),
    ("int main(){x=;", 7),
    ("int main(){x+", 7),
    ("int main(){x++", 7),
    ("int main(){x++x", 7),
    ("int main(){++", 6),
    ("int main(){++1", 6),
    ("int main(){++x", 7),
    ("int main(){++x=", 7),
    ("int main(){1=", 6),
    ("int main(){(x)=", 8),
    ("int main(){a[1", 8),
    ("int main(){a[]", 7),
    ("int main(){read", 6),
    ("int main(){read(1", 7),
    ("int main(){print(1)}", 9),
    ("int main(){print 1", 6),
    ("int main(){a?b;", 8),
    ("int main(){a?b:;", 9),
    ("int main(){if(a", 8),
    ("int main(){if a", 6),
    ("int main(){if(a)else", 9),
    ("int main(){while(a)}", 9),
    ("int main(){do;until", 7),
    ("int main(){do;while(a)", 11),
    ("int main(){for(;", 8),
    ("int main(){for(;;;", 9),
    ("int main(){return;", 6),
    ("int main(){static x", 6),
    ("int main(){static int", 7),
    ("int main(){static int x;", 8),
    ("int main(){static int x[1]=1", 12),
    ("int main(){static int x[1]={}", 13),
    ("int main(){static int x[1]={+1", 13),
    ("int main(){static int x[1]={-x", 14),
    ("int main(){static int x[1]={1 2", 14),
    ("int main(){static int x[1]={1,,", 15),
    ("int main(){static int x[1]={1,}}", 16),
    ("int main(){static int x[1]={1}={1}", 15),
    ("int main(){for(static", 7),
    ("int main(){if(1)static", 9),
    ("int main(){int a[2]={1};}", 10),
];

#[test]
fn trees(rt: HostRuntime) -> Result<(), Fail> {
    for (one, other) in SAME.iter() {
        let left = tree_of(rt.alloc(), one)?;
        let right = tree_of(rt.alloc(), other)?;
        assert_eq!(rt; left.as_str(), right.as_str(), "at {one}");
    }
    for (one, other) in DIFFERENT.iter() {
        let left = tree_of(rt.alloc(), one)?;
        let right = tree_of(rt.alloc(), other)?;
        assert_ne!(rt; left.as_str(), right.as_str(), "at {one}");
    }
    Ok(())
}

#[test]
fn wrong_texts(rt: HostRuntime) -> Result<(), Fail> {
    for (text, place) in WRONG.iter() {
        let (at, line, deep) = refusal_of(rt.alloc(), text)?;
        assert_eq!(rt; at, *place, "at {text}");
        assert_eq!(rt; line, 1, "at {text}");
        assert!(rt; !deep, "at {text}");
    }
    Ok(())
}

/// `print(` with so many parentheses around its number.
fn nested(alloc: Global, parentheses: usize) -> Result<String, Fail> {
    let mut text = String::from_str(alloc, "int main(void){print(")?;
    for _ in 0..parentheses {
        text.push_str("(")?;
    }
    text.push_str("1")?;
    for _ in 0..parentheses {
        text.push_str(")")?;
    }
    text.push_str(");}")?;
    Ok(text)
}

/// A text with so many `;` in it.
fn semicolons(alloc: Global, front: &str, count: usize, back: &str) -> Result<String, Fail> {
    let mut text = String::from_str(alloc, front)?;
    for _ in 0..count {
        text.push_str(";")?;
    }
    text.push_str(back)?;
    Ok(text)
}

/// A program with so many blocks, one inside of the other, and items in the innermost.
fn blocks(alloc: Global, count: usize, items: &str) -> Result<String, Fail> {
    let mut text = String::from_str(alloc, "int main(){")?;
    for _ in 0..count {
        text.push_str("{")?;
    }
    text.push_str(items)?;
    for _ in 0..count {
        text.push_str("}")?;
    }
    text.push_str("}")?;
    Ok(text)
}

#[test]
fn heights_of_static_arrays(rt: HostRuntime) -> Result<(), Fail> {
    let alloc = rt.alloc();
    let highest = blocks(alloc, 254, "static int a[1]={-1};")?;
    assert_eq!(rt; refusal_of(alloc, highest.as_str())?, (0, 0, false));
    let higher = blocks(alloc, 255, "static int a[1]={-1};")?;
    assert_eq!(rt; refusal_of(alloc, higher.as_str())?, (260, 1, true));
    Ok(())
}

#[test]
fn lines_of_constants(rt: HostRuntime) -> Result<(), Fail> {
    let tree = tree_of(rt.alloc(), "static int a[2]={\n7,\n-\n2147483647};")?;
    assert!(rt; tree.as_str().contains("Const { line: 2, value: 7 }"));
    assert!(rt;
        tree.as_str()
            .contains("Const { line: 3, value: -2147483647 }")
    );
    Ok(())
}

#[test]
fn limits(rt: HostRuntime) -> Result<(), Fail> {
    let alloc = rt.alloc();
    let highest = nested(alloc, 253)?;
    assert_eq!(rt; refusal_of(alloc, highest.as_str())?, (0, 0, false));
    let higher = nested(alloc, 254)?;
    assert_eq!(rt; refusal_of(alloc, higher.as_str())?, (261, 1, true));
    let longest = semicolons(alloc, "int main(void){", 65_529, "}")?;
    assert_eq!(rt; refusal_of(alloc, longest.as_str())?, (0, 0, false));
    let behind = semicolons(alloc, "int main(void){}", 65_529, "")?;
    assert_eq!(rt; refusal_of(alloc, behind.as_str())?, (7, 1, false));
    assert_eq!(rt;
        refusal_of(alloc, "int\nmain(void)\n{x=1;\n}\n}\n")?,
        (11, 5, false)
    );
    assert_eq!(rt;
        refusal_of(alloc, "int\nmain(void)\n{x=1;\n\n")?,
        (10, 3, false)
    );
    Ok(())
}

/// A program with statements and expressions of most kinds.
const COPIED: &str = "int main(void){int a[100];int b[100];int i;int s=0;int x=read();\n\
    for(i=0;i<100;i++){a[i]=i;b[i]=i+1;}\nfor(i=0;i<100;i++)s=s+a[i]*b[i];\n\
    while(x){if(x)print(-x*2);else break;do;while(x&&s||!i);if(s?x:i)continue;}\nprint(s);return 0;\n\
    static int c[4]={1,-2};}";

#[test]
fn copies(rt: HostRuntime) -> Result<(), Fail> {
    let alloc = rt.alloc();
    let program = program_of(alloc, COPIED)?;
    let copy = program.copy(alloc)?;
    let tree = format!(in alloc; "{program:?}")?;
    let copied = format!(in alloc; "{copy:?}")?;
    assert!(rt; tree.len() > 1000);
    assert_eq!(rt; tree.as_str(), copied.as_str());
    one_program();
    Ok(())
}
