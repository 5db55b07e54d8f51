//! Tests of macro_expr: the tree of each text, written with its operators first, or the number of
//! its refusal. long.rt takes `expression`.

use macro_expr::{
    Cond, Expr, ExprFault, Fun, Op, Rel, Statement, Target, VarRef, parse_expr, parse_statement,
};
use nc_number::Failing;
use std::alloc::Global;

/// `TEXT -> TREE`, or the number of its refusal.
const EXPRESSIONS: &str = "\
2+3*4 -> (+ 2 (* 3 4))
5 XOR 3 AND 1 -> (XOR 5 (AND 3 1))
-7 MOD 3 -> (MOD (neg 7) 3)
SQRT[2] -> (SQRT 2)
ROUND[-2.5] -> (ROUND (neg 2500000u))
99999999.999999+0.000001 -> (+ 99999999999999u 1u)
#500+#500 -> (+ #500 #500)
[#1] -> #1
+#1 -> (pos #1)
[[[[[1]]]]] -> 1
1-2-3 -> (- (- 1 2) 3)
8/4/2 -> (/ (/ 8 4) 2)
1+7 MOD 4 -> (+ 1 (MOD 7 4))
1+2 MOD 3 -> (+ 1 (MOD 2 3))
1 OR 2 XOR 3 -> (XOR (OR 1 2) 3)
2*3 AND 4/5 -> (/ (AND (* 2 3) 4) 5)
-2*3 -> (* (neg 2) 3)
-2+3 -> (+ (neg 2) 3)
[-1] -> (neg 1)
1*[-2] -> (* 1 (neg 2))
-[1+2] -> (neg (+ 1 2))
1-[2-3] -> (- 1 (- 2 3))
#[1+2] -> #[(+ 1 2)]
#[#[1]] -> #[#[1]]
#007 -> #7
#99999999 -> #99999999
1. -> 1
.5 -> 500000u
00000000001 -> 1
12345678.123456 -> 12345678123456u
0.000001 -> 1u
ABS[-1] -> (ABS (neg 1))
FIX[1.5] -> (FIX 1500000u)
FUP[FIX[2]] -> (FUP (FIX 2))
5ANDSQRT[4] -> (AND 5 (SQRT 4))
1 2 -> 12
1 . 5 -> 1500000u
sqrt[4] -> (SQRT 4)
1(COMMENT)0 -> 10
#[[[[[1]]]]] -> #[1]
SQRT[[[[[1]]]]] -> (SQRT 1)
[1]+[[2]] -> (+ 1 2)
1\t+ 2 -> (+ 1 2)
1+ -> 20
 -> 20
1+-2 -> 20
--1 -> 20
*1 -> 20
# -> 20
#A -> 20
#1.5 -> 20
#-1 -> 20
##1 -> 20
. -> 20
1.2.3 -> 20
ABS 1 -> 20
SQRT -> 20
1 AND -> 20
#1EQ#2 -> 20
1] -> 20
[1 -> 20
[] -> 20
[1+] -> 20
(ALL) -> 20
1; -> 20
1% -> 20
#1=2 -> 20
SIN[1] -> 23
SQRTX[1] -> 23
SQ[1] -> 23
X1 -> 23
AND 1 -> 23
1 AND AND 2 -> 23
1+SIN[ -> 23
[[[[[[1]]]]]] -> 21
[[[[[[1 -> 21
1+)[[[[[[ -> 21
#[[[[[[1]]]]]] -> 21
SIN[[[[[[1]]]]]] -> 21
123456789 -> 5
1.1234567 -> 5
#123456789 -> 5
#[SIN[123456789]] -> 5
1++123456789 -> 5
[1DO123456789] -> 5
1( -> 20
1(123456789 -> 20
SIN[1]( -> 23
1 AND 2(C -> 20";

/// `TEXT -> STATEMENT WITH ITS TREES`, or the number of its refusal.
const STATEMENTS: &str = "\
#1=2 -> #1 = 2
#1=1(C)0 -> #1 = 10
#[1+2]=#3 -> #[(+ 1 2)] = #3
#1=#1+1 -> #1 = (+ #1 1)
#1 -> 20
#1= -> 20
1=2 -> 20
#1=2=3 -> 20
#1=SIN[1] -> 23
GOTO 5 -> GOTO 5
goto00005 -> GOTO 5
GOTO 99999 -> GOTO 99999
GOTO 100000 -> 64
GOTO 100000X -> 64
GOTO 123456789 -> 5
GOTO #1 -> GOTO [#1]
GOTO [1+2] -> GOTO [(+ 1 2)]
GOTO -> 20
GOTO 5X -> 20
GOTO -5 -> 20
GOTO 5.5 -> 20
IF [#1 EQ 0] GOTO 5 -> IF #1 EQ 0 GOTO 5
IF[#1NE0]GOTO20 -> IF #1 NE 0 GOTO 20
I F [1 GT 1] G O T O 5 -> IF 1 GT 1 GOTO 5
IF [1 LT 2] THEN #3=4 -> IF 1 LT 2 THEN #3 = 4
IF [#1EQABS[#2]] GOTO 1 -> IF #1 EQ (ABS #2) GOTO 1
IF [[[[[1]]]] EQ 2] GOTO 5 -> IF 1 EQ 2 GOTO 5
IF [[[[[[1]]]]] EQ 2] GOTO 5 -> 21
IF [SIN[1] EQ 0] GOTO 5 -> 22
IF GOTO 5 -> 22
IF [1] GOTO 5 -> 22
IF [1 EQ 2 GOTO 5 -> 22
IF [1 EQ 2 AND 3 EQ 4] GOTO 5 -> 22
IF [1=2] GOTO 5 -> 22
IF [1 EQ 2] -> 20
IF [1 EQ 2] GOTO -> 20
IF [1 EQ 2] THEN -> 20
IF [1 EQ 2] DO 1 -> 20
WHILE [1 GE 2] DO 3 -> WHILE 1 GE 2 DO 3
WHILE [1 LE 2] -> 20
WHILE DO 1 -> 22
WHILE [1 LE 2] DO 4 -> 24
DO 1 -> DO 1
DO 4 -> 24
DO -> 24
DO12 -> 24
DO01 -> 24
DO123456789 -> 24
DO123456789.1 -> 24
DO1X -> 20
END123456789 -> 24
WHILE[1EQ1]DO123456789 -> 24
IF[1EQ1]DO123456789 -> 5
#1=DO123456789 -> 5
GOTODO123456789 -> 5
GOTO 1234567*9 -> 64
IF[1EQ1]GOTO100000 -> 64
IF[1EQ1]GOTO5( -> 20
IF[1EQ1(]GOTO5 -> 22
DO( -> 24
END3 -> END 3
END -> 24
X1 -> 20";

/// Adds to the text. Where memory ends the text stays short, and its row does not hold.
fn put(out: &mut String, part: &str) {
    let _ = out.push_str(part);
}

/// Adds a number in digits.
fn put_number(out: &mut String, number: i64) {
    let _ = write!(out, "{number}");
}

/// Adds the tree in brackets, its operator first; `u` counts millionths.
#[cycle(show)]
fn show(out: &mut String, tree: &Expr) {
    match tree {
        Expr::Lit(value) => show_value(out, value.micro()),
        Expr::Look(variable) => show_variable(out, variable),
        Expr::Sign(minus, e) => {
            put(out, if *minus { "(neg " } else { "(pos " });
            show(out, e);
            put(out, ")");
        }
        Expr::Call(function, e) => {
            put(out, "(");
            put(out, function_name(*function));
            put(out, " ");
            show(out, e);
            put(out, ")");
        }
        Expr::Two(op, left, right) => {
            put(out, "(");
            put(out, operator_name(*op));
            put(out, " ");
            show(out, left);
            put(out, " ");
            show(out, right);
            put(out, ")");
        }
    }
}

/// Adds a variable: `#` and its number, or `#` and the tree of its number in brackets.
#[cycle(show)]
fn show_variable(out: &mut String, variable: &VarRef) {
    match variable {
        VarRef::Fixed(n) => {
            put(out, "#");
            put_number(out, i64::from(*n));
        }
        VarRef::Computed(e) => {
            put(out, "#[");
            show(out, e);
            put(out, "]");
        }
    }
}

/// Adds a value of so many millionths: whole units if it has no fraction, else millionths.
fn show_value(out: &mut String, micro: i64) {
    if micro % 1_000_000 == 0 {
        put_number(out, micro / 1_000_000);
    } else {
        put_number(out, micro);
        put(out, "u");
    }
}

/// The name of a function on a tape.
fn function_name(function: Fun) -> &'static str {
    match function {
        Fun::Sqrt => "SQRT",
        Fun::Abs => "ABS",
        Fun::Fix => "FIX",
        Fun::Fup => "FUP",
        Fun::Round => "ROUND",
    }
}

/// The name of an operator on a tape.
fn operator_name(op: Op) -> &'static str {
    match op {
        Op::Add => "+",
        Op::Sub => "-",
        Op::BitOr => "OR",
        Op::BitXor => "XOR",
        Op::Mul => "*",
        Op::Div => "/",
        Op::BitAnd => "AND",
        Op::Modulo => "MOD",
    }
}

/// The name of a relation on a tape.
fn relation_name(rel: Rel) -> &'static str {
    match rel {
        Rel::Eq => "EQ",
        Rel::Ne => "NE",
        Rel::Gt => "GT",
        Rel::Ge => "GE",
        Rel::Lt => "LT",
        Rel::Le => "LE",
    }
}

/// Adds the trees of a condition with its relation between them.
fn show_condition(out: &mut String, condition: &Cond) {
    show(out, &condition.left);
    put(out, " ");
    put(out, relation_name(condition.rel));
    put(out, " ");
    show(out, &condition.right);
}

/// Adds GOTO and the target of a jump.
fn show_target(out: &mut String, target: &Target) {
    put(out, "GOTO ");
    match target {
        Target::Fixed(n) => put_number(out, i64::from(*n)),
        Target::Computed(e) => {
            put(out, "[");
            show(out, e);
            put(out, "]");
        }
    }
}

/// Adds a variable and the tree of its value.
fn show_assignment(out: &mut String, variable: &VarRef, e: &Expr) {
    show_variable(out, variable);
    put(out, " = ");
    show(out, e);
}

/// Adds the word of a loop and its number.
fn show_loop(out: &mut String, word: &str, number: u8) {
    put(out, word);
    put_number(out, i64::from(number));
}

/// Adds a statement with its trees.
fn show_statement(out: &mut String, statement: &Statement) {
    match statement {
        Statement::Assign(variable, e) => show_assignment(out, variable, e),
        Statement::Goto(target) => show_target(out, target),
        Statement::IfGoto(condition, target) => {
            put(out, "IF ");
            show_condition(out, condition);
            put(out, " ");
            show_target(out, target);
        }
        Statement::IfThen(condition, variable, e) => {
            put(out, "IF ");
            show_condition(out, condition);
            put(out, " THEN ");
            show_assignment(out, variable, e);
        }
        Statement::WhileDo(condition, m) => {
            put(out, "WHILE ");
            show_condition(out, condition);
            show_loop(out, " DO ", *m);
        }
        Statement::DoOnly(m) => show_loop(out, "DO ", *m),
        Statement::EndLoop(m) => show_loop(out, "END ", *m),
    }
}

/// Adds the number of a refusal.
fn show_refusal(out: &mut String, why: &Failing<ExprFault>) {
    match why {
        Failing::Fault(fault) => put_number(out, i64::from(fault.number)),
        Failing::NoMemory => put(out, "no memory"),
    }
}

/// The tree of the expression, or the number of its refusal.
pub(crate) fn expression(alloc: Global, text: &str) -> String {
    let mut out = String::new(alloc);
    match parse_expr(alloc, text.as_bytes()) {
        Ok(tree) => show(&mut out, &tree),
        Err(why) => show_refusal(&mut out, &why),
    }
    out
}

/// The statement with its trees, or the number of its refusal.
fn statement(alloc: Global, text: &str) -> String {
    let mut out = String::new(alloc);
    match parse_statement(alloc, text.as_bytes()) {
        Ok(tree) => show_statement(&mut out, &tree),
        Err(why) => show_refusal(&mut out, &why),
    }
    out
}

/// Whether the text of the row has its tree or its refusal; none if the row can not be read.
fn has_tree(alloc: Global, row: &str) -> Option<bool> {
    let (text, tree) = row.split_once(" -> ")?;
    Some(expression(alloc, text).as_str() == tree)
}

#[test]
fn each_expression_has_its_tree_or_its_refusal(rt: HostRuntime) {
    for row in EXPRESSIONS.lines() {
        assert!(rt; has_tree(rt.alloc(), row) == Some(true), "{row}");
    }
}

/// Whether the text of the row has its statement or its refusal; none if the row can not be read.
fn has_statement(alloc: Global, row: &str) -> Option<bool> {
    let (text, tree) = row.split_once(" -> ")?;
    Some(statement(alloc, text).as_str() == tree)
}

#[test]
fn each_statement_has_its_tree_or_its_refusal(rt: HostRuntime) {
    for row in STATEMENTS.lines() {
        assert!(rt; has_statement(rt.alloc(), row) == Some(true), "{row}");
    }
}
