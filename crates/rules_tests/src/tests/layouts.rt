//! Layouts: where members, globals and strings lie, the types of elements, the slots of functions, and the limits.
use super::tables::{Frame, Show, wrong_rows, wrong_texts};
use super::texts::View;
use std::test::Fail;

/// Types of elements, structs and the load image.
const LAYOUTS: &str = "int x;
  e0: u8
  e1: i32
  block 16: e1*1 of 4 4 zeros
char a; short b = -2; int c = 258; unsigned u = -1;
  e0: u8
  e1: i16
  e2: i32
  e3: u32
  block 16: e0*1 of 1 1 zeros
  block 32: e1*1 of 2 254 255
  block 48: e2*1 of 4 2 1 2 zeros
  block 64: e3*1 of 4 255 255 255 255
char c = 300; signed char d = 'a'; unsigned short s = -1; int i = -5u; unsigned u = 4294967295u; long l = -2147483648u; int z = 0;
  e0: u8
  e1: i8
  e2: u16
  e3: i32
  e4: u32
  block 16: e0*1 of 1 44
  block 32: e1*1 of 1 97
  block 48: e2*1 of 2 255 255
  block 64: e3*1 of 4 251 255 255 255
  block 80: e4*1 of 4 255 255 255 255
  block 96: e3*1 of 4 3 zeros 128
  block 112: e3*1 of 4 4 zeros
char a[5]; int b[3]; char c[16]; char d;
  e0: u8
  e1: i32
  block 16: e0*5 of 5 5 zeros
  block 32: e1*3 of 12 12 zeros
  block 48: e0*16 of 16 16 zeros
  block 64: e0*1 of 1 1 zeros
int *p; int *sentinel *count(2) q; char *nullterm *r; struct s { int a; }; struct s *t; struct s g;
  e0: u8
  e1: i32
  e2: e1*[v, v+4)
  e3: e1*[v, v)
  e4: e3*[v, v+8)
  e5: e0* nullterm
  e6: e5*[v, v+4)
  e7: struct 0
  e8: e7*[v, v+4)
  struct 4: 0 i32;
  block 16: e2*1 of 4 4 zeros
  block 32: e4*1 of 4 4 zeros
  block 48: e6*1 of 4 4 zeros
  block 64: e8*1 of 4 4 zeros
  block 80: e7*1 of 4 4 zeros
int *safe a; int *count(1) b; int *count(3 - 2) c; long *d; unsigned long e; unsigned f;
  e0: u8
  e1: i32
  e2: e1*[v, v+4)
  e3: u32
  block 16: e2*1 of 4 4 zeros
  block 32: e2*1 of 4 4 zeros
  block 48: e2*1 of 4 4 zeros
  block 64: e2*1 of 4 4 zeros
  block 80: e3*1 of 4 4 zeros
  block 96: e3*1 of 4 4 zeros
struct b { int len; int *count(len) buf; int *bound(buf, buf + len) cur; int off; int *count(2*len - off + 3) far; char *nullterm t; short *e; };
  e0: u8
  e1: i32
  e2: i16
  struct 28: 0 i32; 4 e1*[v, v+4*m0); 8 e1*[m1, m1+4*m0); 12 i32; 16 e1*[v, v+8*m0-4*m3+12); 20 e0* nullterm; 24 e2*[v, v+2);
struct v { char t; union { int n when (t == 1); char *count(3) p when (t == 2); } u; short a[3]; };
  e0: u8
  struct 16: 0 u8; 4 i32 in u0 when 1; 4 e0*[v, v+3) in u0 when 2; 8 i16[3]; union 4 of 4 by m0;
struct s { int t; union { char a when (t == -1); } u; char k; union { short b when (k == 0); } w; struct s *n; };
  e0: u8
  e1: struct 0
  struct 12: 0 i32; 4 u8 in u0 when -1; 5 u8; 6 i16 in u1 when 0; 8 e1*[v, v+12); union 4 of 1 by m0; union 6 of 2 by m2;
int f(char *nullterm a) { return 0; } char c; int g(void) { f(\"ab\"); f(\"\"); return 0; } int h = 1; void k(void) { f(\"ab\"); }
  e0: u8
  e1: i32
  block 16: e0*1 of 1 1 zeros
  block 32: e1*1 of 4 1 3 zeros
  block 48: e0*3 of 3 nullterm 97 98 1 zeros
  block 64: e0*1 of 1 nullterm 1 zeros
  block 80: e0*3 of 3 nullterm 97 98 1 zeros
int f(void) { short **p; int x; x = sizeof(unsigned); x = (signed char)x; p = kalloc(short *, 1); return x; } unsigned short g;
  e0: u8
  e1: i16
  e2: e1*[v, v+2)
  e3: u16
  block 16: e3*1 of 2 2 zeros
int f(void) { int *count(4) *p; p = kalloc(int *count(4), 1); p = kalloc(unsigned, 2); return sizeof(long *sentinel *); }
  e0: u8
  e1: i32
  e2: e1*[v, v+16)
  e3: u32
  e4: e1*[v, v)
int f(int *nullterm *p, int *count(n) *q, int n, struct nowhere *r, signed char **s) { return 0; }
  e0: u8
  e1: i32
  e2: i8
  e3: e2*[v, v+1)
struct s *p; struct s { short a; };
  e0: u8
  e1: struct 0
  e2: e1*[v, v+2)
  struct 2: 0 i16;
  block 16: e2*1 of 4 4 zeros
";

/// Structs whose sizes and offsets are those that `gcc -m32` gives them (every row was asserted there).
const GCC_STRUCTS: &str =
    "struct q { int z; }; struct a { int f0; long f1[1]; union { struct q *u2m0 when (f0 == 0); unsigned char u2m1 when (f0 == 1); char *nullterm u2m2 when (f0 \
== 2); } u2; }; struct b { struct q *f0; };
  4: 0
  12: 0 4 8 8 8; 8 of 4
  4: 0
struct q { int z; }; struct a { char f0; union { char u1m0 when (f0 == 0); int *u1m1 when (f0 == 1); struct q *u1m2 when (f0 == 2); char *nullterm u1m3 \
when (f0 == 3); } u1; };
  4: 0
  8: 0 4 4 4 4; 4 of 4
struct q { int z; }; struct a { short f0; struct q f1[1]; struct q f2[3]; unsigned char f3[5]; union { int *u4m0 when (f0 == 0); int u4m1 when (f0 == 1); \
struct q *u4m2 when (f0 == 2); int u4m3 when (f0 == 3); } u4; struct q f5; };
  4: 0
  36: 0 4 8 20 28 28 28 28 32; 28 of 4
struct q { int z; }; struct a { unsigned f0; union { struct q *u1m0 when (f0 == 0); unsigned long u1m1 when (f0 == 1); } u1; struct q f2[3]; struct q f3; \
unsigned char f4; union { unsigned u5m0 when (f4 == 0); int *u5m1 when (f4 == 1); unsigned long u5m2 when (f4 == 2); } u5; long f6; };
  4: 0
  36: 0 4 4 8 20 24 28 28 28 32; 4 of 4; 28 of 4
struct q { int z; }; struct a { struct q *f0[2]; unsigned f1[3]; short f2; unsigned char f3[3]; struct q f4[2]; }; struct b { long f0; short f1; };
  4: 0
  36: 0 8 20 22 28
  8: 0 4
struct q { int z; }; struct a { struct q f0; struct q f1[1]; short f2[3]; unsigned char f3; union { int *u4m0 when (f3 == 0); } u4; struct q f5; struct q \
f6[2]; }; struct b { signed char f0[1]; int f1[5]; }; struct c { unsigned char f0[2]; signed char f1[3]; short *count(4) f2[5]; signed char f3[5]; };
  4: 0
  32: 0 4 8 14 16 20 24; 16 of 4
  24: 0 4
  36: 0 2 8 28
struct q { int z; }; struct a { unsigned char f0; union { char *nullterm u1m0 when (f0 == 0); } u1; int *f2[5]; short f3[5]; struct q f4; struct q f5[5]; \
struct q f6[3]; };
  4: 0
  76: 0 4 8 28 40 44 64; 4 of 4
struct q { int z; }; struct a { struct q f0[2]; }; struct b { struct q f0[1]; struct q f1[3]; };
  4: 0
  8: 0
  16: 0 4
struct q { int z; }; struct a { struct q *f0[5]; unsigned long f1; };
  4: 0
  24: 0 20
struct q { int z; }; struct a { long f0[3]; char f1[1]; struct q *f2[1]; unsigned char f3[2]; }; struct b { struct q *f0; unsigned long f1[5]; struct a \
f2[5]; struct a f3[3]; signed char f4[1]; };
  4: 0
  24: 0 12 16 20
  220: 0 4 24 144 216
struct q { int z; }; struct a { short *count(4) f0; char f1[5]; struct q f2[5]; unsigned short f3[5]; unsigned char f4[2]; struct q f5; struct q f6[5]; }; \
struct b { signed char f0; struct q f1[3]; unsigned long f2[2]; long f3[5]; }; struct c { char *nullterm f0[5]; long f1; union { short *count(4) u2m0 when \
(f1 == 0); char *nullterm u2m1 when (f1 == 1); } u2; int *f3; unsigned char f4[2]; };
  4: 0
  68: 0 4 12 32 42 44 48
  44: 0 4 16 24
  36: 0 20 24 24 28 32; 24 of 4
struct q { int z; }; struct a { unsigned char f0[2]; struct q f1[5]; signed char f2; };
  4: 0
  28: 0 4 24
struct q { int z; }; struct a { short *count(4) f0; }; struct b { signed char f0[2]; unsigned short f1; unsigned short f2[1]; }; struct c { struct b f0; \
struct a f1[2]; int *f2[3]; short *count(4) f3[2]; };
  4: 0
  4: 0
  6: 0 2 4
  36: 0 8 16 28
struct q { int z; }; struct a { struct q f0[1]; char *nullterm f1[2]; struct q *f2[1]; short *count(4) f3[5]; int f4[3]; int *f5[5]; }; struct b { short \
f0; short *count(4) f1; unsigned long f2[2]; int *f3; char f4[5]; short *count(4) f5; }; struct c { struct q f0[5]; struct a f1[5]; };
  4: 0
  68: 0 4 12 16 36 48
  32: 0 4 8 16 20 28
  360: 0 20
struct q { int z; }; struct a { char *nullterm f0[2]; int f1; union { char *nullterm u2m0 when (f1 == 0); int *u2m1 when (f1 == 1); int u2m2 when (f1 == \
2); } u2; int f3; }; struct b { struct q f0; short *count(4) f1; unsigned f2[5]; struct q f3; int f4; }; struct c { struct b f0; short f1[5]; long f2[1]; \
unsigned char f3[5]; unsigned short f4[3]; };
  4: 0
  20: 0 8 12 12 12 16; 12 of 4
  36: 0 4 8 28 32
  64: 0 36 48 52 58
struct q { int z; }; struct a { struct q f0; unsigned f1[1]; };
  4: 0
  8: 0 4
struct q { int z; }; struct a { short *count(4) f0; long f1; char f2; char *nullterm f3[3]; union { unsigned short u4m0 when (f2 == 0); short *count(4) \
u4m1 when (f2 == 1); char *nullterm u4m2 when (f2 == 2); } u4; }; struct b { short f0; union { signed char u1m0 when (f0 == 0); } u1; unsigned char f2[1]; \
char f3[3]; unsigned short f4[1]; unsigned f5; union { signed char u6m0 when (f5 == 0); short u6m1 when (f5 == 1); unsigned short u6m2 when (f5 == 2); char \
u6m3 when (f5 == 3); } u6; };
  4: 0
  28: 0 4 8 12 24 24 24; 24 of 4
  20: 0 2 3 4 8 12 16 16 16 16; 2 of 1; 16 of 2
struct q { int z; }; struct a { unsigned char f0; struct q f1; unsigned long f2[3]; }; struct b { unsigned char f0[1]; unsigned char f1; struct a f2[3]; \
struct a f3[3]; }; struct c { char f0; struct a f1; struct b f2[2]; struct b f3[5]; char f4[1]; struct b f5[3]; };
  4: 0
  20: 0 4 8
  124: 0 1 4 64
  1268: 0 4 24 272 892 896
struct q { int z; }; struct a { struct q *f0; int *f1; }; struct b { short *count(4) f0[5]; unsigned f1[5]; short *count(4) f2; short f3; int f4; char \
*nullterm f5; unsigned f6; }; struct c { struct q f0[1]; int *f1[5]; char f2; };
  4: 0
  8: 0 4
  60: 0 20 40 44 48 52 56
  28: 0 4 24
struct q { int z; }; struct a { unsigned char f0; unsigned char f1[5]; struct q f2; }; struct b { struct q f0; unsigned f1; struct q *f2; struct a f3[3]; \
union { char *nullterm u4m0 when (f1 == 0); unsigned u4m1 when (f1 == 1); } u4; char f5[3]; };
  4: 0
  12: 0 1 8
  56: 0 4 8 12 48 48 52; 48 of 4
struct q { int z; }; struct a { int f0; long f1; union { int u2m0 when (f1 == 0); unsigned u2m1 when (f1 == 1); unsigned char u2m2 when (f1 == 2); int \
*u2m3 when (f1 == 3); } u2; short f3; unsigned short f4; }; struct b { long f0; unsigned char f1[2]; char f2; union { int *u3m0 when (f2 == 0); } u3; \
struct q f4[2]; }; struct c { unsigned f0; char *nullterm f1[3]; unsigned short f2[2]; };
  4: 0
  16: 0 4 8 8 8 8 12 14; 8 of 4
  20: 0 4 6 8 12; 8 of 4
  20: 0 4 16
struct q { int z; }; struct a { struct q f0[2]; int f1[2]; unsigned char f2[2]; }; struct b { unsigned char f0; union { unsigned char u1m0 when (f0 == 0); \
signed char u1m1 when (f0 == 1); int u1m2 when (f0 == 2); short *count(4) u1m3 when (f0 == 3); } u1; signed char f2[3]; char f3[2]; unsigned short f4; long \
f5; struct q f6[5]; };
  4: 0
  20: 0 8 16
  40: 0 4 4 4 4 8 11 14 16 20; 4 of 4
struct q { int z; }; struct a { struct q f0; struct q *f1[1]; int f2; short f3[2]; }; struct b { struct q f0[5]; long f1; unsigned long f2[3]; union { \
short *count(4) u3m0 when (f1 == 0); } u3; struct q *f4[5]; unsigned char f5; };
  4: 0
  16: 0 4 8 12
  64: 0 20 24 36 40 60; 36 of 4
struct q { int z; }; struct a { unsigned char f0; }; struct b { signed char f0[2]; unsigned char f1; union { long u2m0 when (f1 == 0); signed char u2m1 \
when (f1 == 1); } u2; unsigned f3; signed char f4[2]; }; struct c { short f0; };
  4: 0
  1: 0
  16: 0 2 4 4 8 12; 4 of 4
  2: 0
";

/// The slots and the result of a function.
const SLOTS: &str =
    "int f(int *count(n) p, int n) { int *q; char *nullterm t; int *bound(q, p + n) r; char c; int **s; return 0; }
  2 parameters, result i32
  e1*[v, v+4*m1)
  i32
  e1* hidden
  e0* nullterm
  e1*[m2, m0+4*m1)
  u8
  e2* hidden
  address
  address
  address
  address
int *count(3) f(void) { return 0; }
  0 parameters, result p12
char *nullterm f(void) { return 0; }
  0 parameters, result p0
int *sentinel f(void) { return 0; }
  0 parameters, result p0
int *count(-1) f(void) { return 0; }
  0 parameters, result p0
struct s { int a; int b; }; struct s *count(2) f(struct s *p) { return 0; }
  1 parameters, result p16
  e1*[v, v+8)
void f(void) { }
  0 parameters, result void
signed char f(signed char a, short b, unsigned short c, unsigned long d) { return 0; }
  4 parameters, result i8
  i8
  i16
  u16
  u32
int *f(int *p, int *sentinel q) { return 0; }
  2 parameters, result p4
  e1*[v, v+4)
  e1*[v, v)
";

const SLOT_FRAME: Frame<'static> = Frame {
    before: "",
    after: "",
    function: 0,
    view: View::Slots,
    line: 1,
};

#[test]
fn a_text_is_laid_out(rt: HostRuntime) -> Result<(), Fail> {
    assert_eq!(rt; wrong_texts(rt.alloc(), Show::Layout, LAYOUTS).as_str(), "");
    assert_eq!(rt; wrong_rows(rt.alloc(), &SLOT_FRAME, SLOTS).as_str(), "");
    Ok(())
}

#[test]
fn structs_lie_as_gcc_lays_them(rt: HostRuntime) -> Result<(), Fail> {
    assert_eq!(rt;
        wrong_texts(rt.alloc(), Show::Offsets, GCC_STRUCTS).as_str(),
        ""
    );
    Ok(())
}
