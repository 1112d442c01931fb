//! Limits: each met at its value and passed one beyond, with the line of the declaration that passes it. Pieces that recur stand between backquotes, behind how
//! often they do.
use super::tables::{Show, wrong_texts};
use std::test::Fail;

const LIMITS: &str = "// 256 structs
`256`struct s# { int a; };~`
  accepted
`257`struct s# { int a; };~`
  Limit(257, Structs)
`256`struct s# { int a; };~`struct s0 { int a; };
  NoDecl(257)
`256`struct s# { int a; };~`struct t {~int a[0]; };
  Limit(257, Structs)
// 64 fields of a struct
struct s {~`64`int a#;~`};
  accepted
struct s {~`65`int a#;~`};
  Limit(66, Fields)
struct s {~`64`int a#;~`int a0; };
  NoDecl(66)
struct s {~`64`int a#;~`char b[65536]; };
  Limit(66, Fields)
struct s {~`63`int a#;~`union { int b when (a0 == 1); int c when (a0 == 2); } u; };
  accepted
struct s {~`64`int a#;~`union {~int b when (a0 == 1); } u; };
  Limit(66, Fields)
struct s {~`64`int a#;~`union {~int b[2 when (a0 == 1); } u; };
  NoItem(1)
struct s { int t; union {~`200`int a# when (t == #);~`} u; };
  accepted
// 65,536 bytes of a struct
struct s { char a[65536]; };
  accepted
struct s {~char a[65536];~char b; };
  Limit(3, Size)
struct s { int a[16384]; };
  accepted
struct s {~int a[16385]; };
  Limit(2, Size)
struct s { char a; int b[16383]; };
  accepted
struct s {~char a; int b[16383];~char c; };
  Limit(3, Size)
struct s {~char a[65535];~short b; };
  Limit(3, Size)
struct s { char a[32768]; }; struct t { struct s a[2]; };
  accepted
struct s { char a[32768]; };~struct t { struct s a[3]; };
  Limit(2, Size)
struct s { char a[65536]; };~struct t { struct s a[65536]; };
  Limit(2, Size)
struct s { char a[65531]; char t; union { int b when (t == 1); char c when (t == 2); } u; };
  accepted
struct s { char a[65533]; char t;~union { char c when (t == 2); short b when (t == 1); } u; };
  accepted
struct s { char a[65533]; char t;~union { char c when (t == 2);~int b when (t == 1); } u; };
  Limit(2, Size)
struct s { char a[65533]; char t;~union {~struct nowhere *b when (t == 1); } u; };
  Limit(2, Size)
struct s { char a[65533]; char t;~union {~int b when (t == 1); } t; };
  NoDecl(2)
struct r { char a[65536]; }; struct s { int t;~union {~struct r b when (t == 1); } u; };
  NoDecl(3)
struct r { int a; }; struct s { char a[65534]; char t;~union {~struct r b when (t == 1); } u; };
  NoDecl(3)
struct r { int a; }; struct s { char a[65535]; char t;~union {~struct r b when (t == 1); } u; };
  Limit(2, Size)
struct r { int a; }; struct s { char a[65533]; char t;~union {~struct r b when (t == 1); char c when (t == 2); } u; char d; };
  NoDecl(3)
struct s {~char a[65536];~int *count(n) b; };
  NoDecl(3)
struct s {~char a[65536];~char a; };
  NoDecl(3)
struct s { char a[65536]; char b; };~int x;~int x;
  Limit(1, Size)
struct s { char a[65536]; };~struct s g[65536];
  Limit(2, Image)
// 128 slots of a function
void f(void) { `128`int a#; `}
  accepted
~void f(void) {~`129`int a#;~`}
  Limit(2, Locals)
void f(int a`127`, int a#`) { }
  accepted
void f(int a`128`, int a#`) { }
  Limit(1, Locals)
void f(int x, int y) { `42`int *p#; `}
  accepted
void f(int x, int y) { `42`int *p#; `int z; }
  Limit(1, Locals)
void f(void) { `128`int *safe p#; `}
  accepted
void f(int *a`127`, int *p#`) { }
  accepted
void f(int a`200`, int a#`);
  accepted
void *f(int a`128`, int a#`) { }
  NoRule(1)
void printd(int a`128`, int a#`) { }
  NoRule(1)
void f(~int *nullterm a`128`, int a#`) { x = 1; }
  Limit(1, Locals)
void g(void) {~x = 1; }~void f(int a`128`, int a#`) { }
  NoRule(2)
// large numbers have room
struct s { char a[65536]; };~struct s *count(1u`480` + 4294967295u`) p;
  accepted
struct s { char a[65536]; };~int f(struct s *count(n`230` - 4294967295u*n`) p, int n) { n = 4294967295u; p[4294967295u].a[0] = 1; return 0; }
  accepted
int f(void) { int x; x = 1`490` / #`; return x; }
  accepted
";

#[test]
fn limits_are_met_and_passed(rt: HostRuntime) -> Result<(), Fail> {
    assert_eq!(rt; wrong_texts(rt.alloc(), Show::Verdict, LIMITS).as_str(), "");
    Ok(())
}

/// Texts without structs, of which the declarations alone are looked at: nothing is told where these stand.
const UNITS: &str = "// 4,096 functions
`4096`void f#(void) { }~`void g(void);
`4096`void f#(void) { }~`void g(void);~void g(void) { }
  Limit(4098, Functions)
int a;~`4097`void f#(void) { }~`int a;
  Limit(4098, Functions)
// 1,024 globals and strings together
`1024`int a#;~`
`1025`int a#;~`
  Limit(1025, Globals)
`1024`int a#;~`int a0;
  NoDecl(1025)
`1023`int a#;~`void f(void) { g(\"a\");~ }
`1023`int a#;~`void f(void) {~ g(\"a\");~ g(\"a\"); }
  Limit(1024, Globals)
void f(void) { `1024`g(\"\");~`}
~void f(void) { `1025`g(\"\");~`}
  Limit(2, Globals)
void f(void) { `1024`g(\"\");~`}~int a;
  Limit(1026, Globals)
// a load image ends at 524,288
`7`char a#[65536];~`char b[65520];
`7`char a#[65536];~`char b[65521];
  Limit(8, Image)
`7`char a#[65536];~`char b[65519];
`7`char a#[65536];~`char b[65520];~void f(void) {~ g(\"\"); }
  Limit(9, Image)
`7`char a#[65536];~`char b[65504];~void f(void) {~ g(\"0123456789abcde\"); }
`7`char a#[65536];~`char b[65504];~void f(void) {~ g(\"0123456789abcdef\"); }
  Limit(9, Image)
void f(void) { g(\"a\"); }~`7`char a#[65536];~`char b[65520];
  Limit(1, Image)
`9`char a#[65536];~`int *nullterm p;
  NoDecl(10)
";

#[test]
fn a_unit_keeps_its_limits(rt: HostRuntime) -> Result<(), Fail> {
    assert_eq!(rt; wrong_texts(rt.alloc(), Show::Offsets, UNITS).as_str(), "");
    Ok(())
}
