//! Translation units that are read, and texts that are none.

use crate::sources::{require, tokens_of};
use pc_parser::{ParseError, names_are_below, one_unit, parse, parse_unit, program_is_unit};
use std::alloc::Global;
use std::test::Fail;

/// The tree of the unit that a text is, as a text.
fn unit_tree(alloc: Global, text: &str) -> Result<String, Fail> {
    let tokens = tokens_of(alloc, text)?;
    let unit = parse_unit(alloc, &tokens)?;
    let tree = format!(in alloc; "{unit:?}")?;
    Ok(tree)
}

/// Where an error is, and whether it is one of height.
fn place_of(error: ParseError) -> Result<(u32, u32, bool), Fail> {
    match error {
        ParseError::Syntax { at, line } => Ok((at, line, false)),
        ParseError::TooNested { at, line } => Ok((at, line, true)),
        ParseError::Memory => {
            require(false)?;
            Ok((0, 0, false))
        }
    }
}

/// Where a text is refused as a unit: the place and the line, and whether it is too nested. All are 0
/// where it is not refused.
fn refusal_of_unit(alloc: Global, text: &str) -> Result<(u32, u32, bool), Fail> {
    let tokens = tokens_of(alloc, text)?;
    match parse_unit(alloc, &tokens) {
        Ok(_) => Ok((0, 0, false)),
        Err(error) => place_of(error),
    }
}

/// The same as a program.
fn refusal_of_program(alloc: Global, text: &str) -> Result<(u32, u32, bool), Fail> {
    let tokens = tokens_of(alloc, text)?;
    match parse(alloc, &tokens) {
        Ok(_) => Ok((0, 0, false)),
        Err(error) => place_of(error),
    }
}

/// Each pair is one unit.
static SAME: [(&str, &str); 9] = [
    ("int f(){}int main(){}", "int f(void){}int main(void){}"),
    (
        "int f(int a,int b){return a-b;}int main(){}",
        "int f(int a,int b){return (a-b);}int main(){}",
    ),
    ("int main(){f();}", "int main(void){f();}"),
    ("int main(){f((1),+a);}", "int main(){f(1,a);}"),
    ("int main(){x=f(a[i]);}", "int main(){x=f((a[i]));}"),
    ("int main(){int x=f(1),y;}", "int main(){int x=f(1);int y;}"),
    (
        "int main(){for(int i=f();i;i=g(i))h();}",
        "int main(){for(int i=f();(i);i=g((i)))h();}",
    ),
    ("int main(){for(f();;g());}", "int main(){for(f();1;g());}"),
    (
        "int main(){if(a)f();else g();}",
        "int main(){if((a))f();else g();}",
    ),
];

/// Units that differ.
static DIFFERENT: [(&str, &str); 9] = [
    ("int f(){}int main(){}", "int main(){}"),
    ("int f(int a){}int main(){}", "int f(){}int main(){}"),
    (
        "int f(int a,int b){return a;}int main(){}",
        "int f(int a,int b){return b;}int main(){}",
    ),
    (
        "int f(){return 1;}int main(){}",
        "int f(){return 1;;}int main(){}",
    ),
    (
        "int f(){return 1;}int main(){}",
        "int f(){{return 1;}}int main(){}",
    ),
    ("int main(){x=f();}", "int main(){f();}"),
    ("int main(){x=f();}", "int main(){int x=f();}"),
    ("int main(){x=f(1,2);}", "int main(){x=f(2,1);}"),
    ("int main(){x=f;}", "int main(){x=f();}"),
];

/// Texts that end or go wrong as units at each kind of place, with that place.
static WRONG: [(&str, u32); 37] = [
    ("int f", 2),
    ("int f;", 2),
    ("int f(", 3),
    ("int f(a", 3),
    ("int f(int", 4),
    ("int f(int main", 4),
    ("int f(int a", 5),
    ("int f(int a b", 5),
    ("int f(int a,", 6),
    ("int f(int a,)", 6),
    ("int f(void", 4),
    ("int f(void,", 4),
    ("int f()", 4),
    ("int f();", 4),
    ("int f(){", 5),
    ("int f(){}", 6),
    ("int f(){}x", 6),
    ("int f(){}int 1", 7),
    ("int f(){}int f(){}int main(){}int", 18),
    ("int main(){}int f(){}", 6),
    ("int main(){f(", 7),
    ("int main(){f(1", 8),
    ("int main(){f(1 2", 8),
    ("int main(){f(1,)", 9),
    ("int main(){f(g()", 8),
    ("int main(){f()+1", 8),
    ("int main(){f()()", 8),
    ("int main(){f[0]()", 9),
    ("int main(){x=f()+1", 10),
    ("int main(){x=-f()", 9),
    ("int main(){x=(f()", 9),
    ("int main(){x+=f()", 8),
    ("int main(){a[i]=f()", 11),
    ("int main(){int y=f()+1", 11),
    ("int main(){int y=1+f()", 11),
    ("int main(){print(f()", 8),
    ("int main(){return f()", 7),
];

/// Texts that are units, and as programs go wrong at this place.
static NO_PROGRAMS: [(&str, u32); 4] = [
    ("int f(){}int main(){}", 1),
    ("int main(){f();}", 6),
    ("int main(){x=f();}", 8),
    ("int main(){int x=f();}", 9),
];

#[test]
fn unit_trees(rt: HostRuntime) -> Result<(), Fail> {
    for (one, other) in SAME.iter() {
        let left = unit_tree(rt.alloc(), one)?;
        let right = unit_tree(rt.alloc(), other)?;
        assert_eq!(rt; left.as_str(), right.as_str(), "at {one}");
    }
    for (one, other) in DIFFERENT.iter() {
        let left = unit_tree(rt.alloc(), one)?;
        let right = unit_tree(rt.alloc(), other)?;
        assert_ne!(rt; left.as_str(), right.as_str(), "at {one}");
    }
    one_unit();
    program_is_unit();
    names_are_below();
    Ok(())
}

#[test]
fn wrong_units(rt: HostRuntime) -> Result<(), Fail> {
    for (text, place) in WRONG.iter() {
        let (at, line, deep) = refusal_of_unit(rt.alloc(), text)?;
        assert_eq!(rt; at, *place, "at {text}");
        assert_eq!(rt; line, 1, "at {text}");
        assert!(rt; !deep, "at {text}");
    }
    for (text, place) in NO_PROGRAMS.iter() {
        let read = refusal_of_unit(rt.alloc(), text)?;
        assert_eq!(rt; read, (0, 0, false), "at {text}");
        let refused = refusal_of_program(rt.alloc(), text)?;
        assert_eq!(rt; refused, (*place, 1, false), "at {text}");
    }
    Ok(())
}

/// A unit with a function of so many blocks, one inside of the other, and items in the innermost.
fn deep_function(alloc: Global, count: usize, items: &str) -> Result<String, Fail> {
    let mut text = String::from_str(alloc, "int f()")?;
    for _ in 0..count {
        text.push_str("{")?;
    }
    text.push_str(items)?;
    for _ in 0..count {
        text.push_str("}")?;
    }
    text.push_str("int main(){}")?;
    Ok(text)
}

/// Blocks around a statement, and where it is refused: a call without arguments has the height 1.
static HEIGHTS: [(usize, &str, (u32, u32, bool)); 7] = [
    (255, "f();", (0, 0, false)),
    (255, "x=f();", (0, 0, false)),
    (255, "int x=f();", (0, 0, false)),
    (256, "f();", (260, 1, true)),
    (255, "f(1);", (261, 1, true)),
    (255, "x=1;", (261, 1, true)),
    (255, "x=y;", (262, 1, true)),
];

#[test]
fn heights_of_units(rt: HostRuntime) -> Result<(), Fail> {
    for (count, items, place) in HEIGHTS.iter() {
        let text = deep_function(rt.alloc(), *count, items)?;
        let refused = refusal_of_unit(rt.alloc(), text.as_str())?;
        assert_eq!(rt; refused, *place, "at {items}");
    }
    Ok(())
}

/// Units, and what their trees show.
static SHOWN: [(&str, &str); 6] = [
    (
        "int main(){\nx=\nf(1);}",
        "Call { line: 2, target: Some(Target { symbol: 0, line: 2, declared: false }), function: 1, at: 3",
    ),
    (
        "int main(){\nint\nx=f(1);}",
        "Call { line: 3, target: Some(Target { symbol: 0, line: 3, declared: true }), function: 1, at: 3",
    ),
    (
        "int main(){\nf\n(1);}",
        "Call { line: 2, target: None, function: 0, at: 2",
    ),
    (
        "int f(){return 7;}int main(){}",
        "result: Some(Lit { value: 7 })",
    ),
    ("int f(){return 7;;}int main(){}", "result: None"),
    (
        "int\nf(int\na){}int main(){}",
        "Function { symbol: 0, line: 2",
    ),
];

#[test]
fn shown_units(rt: HostRuntime) -> Result<(), Fail> {
    for (text, part) in SHOWN.iter() {
        let tree = unit_tree(rt.alloc(), text)?;
        assert!(rt; tree.as_str().contains(part), "at {text}");
    }
    Ok(())
}
