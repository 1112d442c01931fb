//! Whole texts: each form of item and of statement with the line of each part, what is none, and a driver of some length.
use crate::driver::SERIAL;
use crate::printed::write_unit;
use crate::texts::{Frame, View, repeated, words_of, wrong_rows};
use c_decl::{UnitRefusal, read_unit};
use c_tree::Unit;
use std::alloc::{AllocError, Global};
use std::test::Fail;

/// The unit of a text. One that has no words is refused as one for which memory is wanting.
fn unit_of(alloc: Global, text: &str) -> Result<Unit, UnitRefusal> {
    let Ok(words) = words_of(alloc, text) else {
        return Err(UnitRefusal::Memory);
    };
    read_unit(alloc, words.as_slice())
}

/// How many items a unit has, and the items as lines.
fn written(alloc: Global, unit: &Unit) -> Result<String, AllocError> {
    let mut out = format!(in alloc; "{} items\n", unit.items.len())?;
    write_unit(&mut out, unit);
    Ok(out)
}

/// The same of a text, or its refusal.
pub fn read_items(alloc: Global, text: &str) -> Result<String, AllocError> {
    match unit_of(alloc, text) {
        Ok(unit) => written(alloc, &unit),
        Err(refusal) => format!(in alloc; "{refusal:?}"),
    }
}

/// Each form of item, and lines within one.
const ITEMS: &str = "int x;
static char *s
;
int a[3] = 5; int b = -5;
int c = 'a';
struct s *safe *count(2) p;
struct s {
int a;
char *count(a) b[2];
};
struct u { int t; union {
int a when (t == 1);
int *b when (t ==
-2); } v; };
int f();
void g(void);
static struct s *h(int a,
char *nullterm b);
void i(void)
{
}
int j() { int a;
char *b;
return a; }
void *k(void) {

}
char d; signed char e; unsigned char l; short m; unsigned short n;
int o; long q; unsigned r; unsigned int v; unsigned long w;
";

const ITEMS_READ: &str = "24 items
1 Int x
static 2 Char* s
4 Int a[3] = 5
4 Int b = -5
5 Int c = '97'
6 s*safe*count+2 p
7 struct s: 8 Int a; 9 Char*count+a b[2]; 
11 struct u: 11 Int t; 11 union v, 12 Int a when t is 1, 13 Int* b when t is -2; 
15 Int f
16 Void g (void)
static 17 s* h, 17 Int a, 18 Char*nullterm b
19 Void i (void) {

21 return; 
} 21
22 Int j {
22 Int a; 23 Char* b; 
24 return a; 
24 return 0; 
} 24
25 Void* k (void) {

27 return 0; 
} 27
28 Char d
28 SignedChar e
28 UnsignedChar l
28 Short m
28 UnsignedShort n
29 Int o
29 Long q
29 Unsigned r
29 UnsignedInt v
29 UnsignedLong w
";

#[test]
fn each_item_is_read_with_its_lines(rt: HostRuntime) -> Result<(), Fail> {
    assert_eq!(rt; read_items(rt.alloc(), ITEMS)?.as_str(), ITEMS_READ);
    assert_eq!(rt;
        read_items(rt.alloc(), "\n /* */ \n")?.as_str(),
        "0 items\n"
    );
    Ok(())
}

/// Each form of statement.
const STATEMENTS: &str = "void f(int x)
{
;
x = 1;
*p = x + 1;
(x) = 1;
a.f->g = -1;
x = f ;
x = (f);
x = f + g;
f();
f(a, b + 1,
(c));
x =
f(1);
x = kalloc(struct s *safe, n);
kfree(p);
zero(p->u);
return;
return x == 1;
if (x) ;
if (x) { }
if (x)
y = 1;
else
z = 1;
if (x) { if (y) { ; } else { f(); } }
if (x) { if (y) { ; } } else { f(); }
if (x) { if (y) ; } else
f();
while (x) f();
while (x)
{
x = 0;
while (y) { return; }
}
f(); }
";

const STATEMENTS_READ: &str = "1 items
1 Void f, 1 Int x {

3 nothing; 
4 x = 1; 
5 Dereference p = (x Add 1); 
6 [x] = 1; 
7 a.f->g = Minus 1; 
8 x = f; 
9 x = [f]; 
10 x = (f Add g); 
11 call f; 
12 call f, a, (b Add 1), [c]; 
14 x = call f, 1; 
16 x = kalloc s*safe, n; 
17 kfree p; 
18 zero p->u; 
19 return; 
20 return (x Equal 1); 
21 if x then 21 nothing; 
22 if x then { } 
23 if x then 24 y = 1; else 26 z = 1; 
27 if x then { 27 if y then { 27 nothing; } else { 27 call f; } } 
28 if x then { 28 if y then { 28 nothing; } } else { 28 call f; } 
29 if x then { 29 if y then 29 nothing; } else 30 call f; 
31 while x do 31 call f; 
32 while x do { 34 x = 0; 35 while y do { 35 return; } } 
37 call f; 
37 return; 
} 37
";

#[test]
fn each_statement_is_read_with_its_lines(rt: HostRuntime) -> Result<(), Fail> {
    assert_eq!(rt;
        read_items(rt.alloc(), STATEMENTS)?.as_str(),
        STATEMENTS_READ
    );
    Ok(())
}

/// What is no item.
const NO_ITEMS: &str = ";
}
int x
int;
int a[];
int a[2][2];
int a[n];
int a = b;
int a = 1 + 1;
int a = --5;
int a, b;
int int a;
signed s;
long int s;
void x;
void x[2];
static static int x;
const int x;
typedef int t;
struct s;
struct s { };
struct s { int a; }
struct s { int a };
struct s { int a; } x;
struct { int a; };
static struct s { int a; };
struct s { int a = 1; };
struct s { static int a; };
struct s { union { } u; };
struct s { union { int a; } u; };
struct s { union { int a when (t == b); } u; };
struct s { union { int a when (t = 1); } u; };
struct s { union { int a when (t == 1); }; };
struct s { union { int a when (t == 1); } u[2]; };
int f(int);
int f(int a,);
int f(, int a);
int f(void a);
int f(void, int a);
int f(int a[2]);
int f(void)
int f(void) int a; { }
int f[2](void);
int f(void) {
int f(void) { int a = 1; }
int f(void) { static int a; }
int f(void) { int a[2]; }
int f(void) { void a; }
int f(void) { f(); int a; }";

/// They stand on the fourth line, behind an item and before another.
const FOURTH_LINE: Frame<'static> = Frame {
    view: View::Items,
    before: "int f(void)\n{\n}\n",
    after: "\nint z;",
    wanted: "NoItem(4)",
};

#[test]
fn what_is_no_item_is_refused_on_its_first_line(rt: HostRuntime) -> Result<(), Fail> {
    assert_eq!(rt;
        wrong_rows(rt.alloc(), &FOURTH_LINE, NO_ITEMS)?.as_str(),
        ""
    );
    Ok(())
}

/// What is no statement.
const NO_STATEMENTS: &str = "{ }
x
x;
x = ;
= 1;
x + 1;
x + 1 = 2;
x = y = 1;
x == 1;
(x = 1);
f()
f(;
f(a;
f(a b);
f(a,);
f(,a);
f(int);
(f)();
(x) = f();
*x = f();
x = f() + 1;
x = (f());
x = y = f();
p->x();
kalloc(int, 1);
x = kalloc(int);
x = kalloc(1, int);
x = kalloc int;
*x = kalloc(int, 1);
kfree p;
kfree();
kfree(p, q);
x = kfree(p);
zero(u + 1);
zero u;
return return;
return
return x = 1;
if x ;
if (x)
if () ;
if (x) ; else
if (x) if (y) ;
if (x) ; else if (y) ;
if (x) while (y) ;
if (x) ; else ; else ;
else ;
while (x)
while () ;
for (;;) ;
do { } while (x);
break;
int x; f(); int y;
x++;
x += 1;
\"s\" 1;
x ? y : z;";

/// They stand in a function.
const IN_A_BODY: Frame<'static> = Frame {
    view: View::Items,
    before: "void f(void) {\n",
    after: "\n}",
    wanted: "NoItem(1)",
};

#[test]
fn what_is_no_statement_makes_no_item(rt: HostRuntime) -> Result<(), Fail> {
    assert_eq!(rt;
        wrong_rows(rt.alloc(), &IN_A_BODY, NO_STATEMENTS)?.as_str(),
        ""
    );
    Ok(())
}

#[test]
fn bodies_nest_as_deep_as_brackets_may(rt: HostRuntime) -> Result<(), Fail> {
    let nested = repeated(rt.alloc(), "while (x) {", 62, "f();", "}")?;
    let text = format!(in rt.alloc(); "void f(void) {{{nested}}}")?;
    assert!(rt; read_items(rt.alloc(), text.as_str())?.starts_with("1 items\n"));
    Ok(())
}

#[test]
fn a_driver_of_some_length_is_read_whole(rt: HostRuntime) -> Result<(), Fail> {
    // as many as another program counted
    assert!(rt; read_items(rt.alloc(), SERIAL)?.starts_with("36 items\n"));
    Ok(())
}
