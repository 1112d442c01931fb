//! Declarations: which structs, fields, arms and globals stand, and which heads, parameters and locals; of those that do not, the line.
use super::tables::{Show, wrong_texts};
use std::test::Fail;

const DECLARATIONS: &str = "// names
int x; int y; struct x { int x; }; int f(void) { return x; }
  accepted
struct s { int a; };~struct s { int b; };
  NoDecl(2)
struct s { int a;~int a; };
  NoDecl(2)
struct s { int a; }; struct t { int a; };
  accepted
struct s { int t; int u;~union { int a when (t == 1); } u; };
  NoDecl(2)
struct s { int t; union { int a when (t == 1); } u;~int u; };
  NoDecl(2)
struct s { int t; union { int a when (t == 1); } u;~int k;~union { int a when (k == 1); } u; };
  NoDecl(3)
struct s { int t; union { int a when (t == 1);~int a when (t == 2); } u; };
  NoDecl(2)
struct s { int t; union { int t when (t == 1); int u when (t == 2); } u; };
  accepted
struct s { int t; int k; union { int a when (t == 1); } u; union { int a when (k == 1); } v; };
  accepted
int x;~int x;
  NoDecl(2)
int printd;
  NoDecl(1)
int queue_work[2];
  NoDecl(1)
int f(void);~int f;
  NoDecl(2)
int f(void) { return 0; }~~int f;
  NoDecl(3)
int f;~int f(void);
  NoRule(2)
int f;~int f(void) { return 0; }
  NoRule(2)
int f(void) { return 0; }~int f(void) { return 0; }
  NoRule(2)
int f(void) { return 0; }~int g(void);~int f(void) { return 0; }
  NoRule(3)
int now(void) { return 0; }
  NoRule(1)
~int mask(void);
  NoRule(2)
int f(int a,~int a) { return 0; }
  NoRule(2)
int f(int a,~int a);
  NoRule(2)
int f(int a) {~int a; return 0; }
  NoRule(2)
int f(void) { int a;~char a; return 0; }
  NoRule(2)
int *g; int f(int x) { int g; g = x; return g; }
  accepted
void g(int a) { return; } int f(int printd, int g) { int f; printd(printd); g(g); f = now(); return f; }
  accepted
void g(int a) { return; } int f(int g) { g = request_line(1, g); return g; }
  accepted
int f(void) { return f; }
  NoRule(1)
// structs, and pointers to them
struct t {~struct s a; }; struct s { int b; };
  NoDecl(2)
struct s {~struct s a; };
  NoDecl(2)
struct s { struct s *a; struct t *b; }; struct t { struct s c; };
  accepted
struct s { int b; }; struct t { struct s a; struct s c[3]; struct s *d[2]; };
  accepted
struct t {~struct s a[2]; }; struct s { int b; };
  NoDecl(2)
struct s {~struct nowhere *p; };
  NoDecl(2)
struct s {~struct nowhere p; };
  NoDecl(2)
struct s g;~struct s { int a; };
  NoDecl(1)
struct s g[2];~struct s { int a; };
  NoDecl(1)
struct s *g; struct s { int a; }; struct s h;
  accepted
int x;~struct nowhere *g;
  NoDecl(2)
struct nowhere g;
  NoDecl(1)
struct s { int a; };~int f(struct s a) { return 0; }
  NoRule(2)
struct s { int a; };~int f(struct s *a) {~struct s b; return 0; }
  NoRule(3)
struct s { int a; };~struct s f(void) { return 0; }
  NoRule(2)
int f(struct s *p) { int x; x = p->a; return sizeof(struct s); } struct s { int a; };
  accepted
int f(void) {~struct nowhere *p; return 0; }
  NoRule(2)
int f(int x,~struct nowhere *p) { return 0; }
  NoRule(2)
struct nowhere *f(void) { return 0; }
  NoRule(1)
// arrays and initialisers
int a[1]; char b[65536]; struct s { short c[2]; int *d[3]; };
  accepted
int x;~int a[0];
  NoDecl(2)
char a[65537];
  NoDecl(1)
struct s {~int a[0]; };
  NoDecl(2)
struct s {~char a[65537]; };
  NoDecl(2)
int a[0x10]; int b[010]; int c[3u]; int d[4L];
  accepted
int x = 5; char c = 300; short s = -1; unsigned u = 'a'; long l = -5u;
  accepted
int a[2] = 5;
  NoDecl(1)
int *p = 0;
  NoDecl(1)
char *nullterm p = 0;
  NoDecl(1)
struct s { int a; };~struct s g = 0;
  NoDecl(2)
// annotations that are constant: of globals, elements, arms, results, and stars that are not the last
int *p; int *safe q; int *sentinel r; int *count(4) s; int *count(-1) t; int *count(2 - 3 + 4) u; char *nullterm v; unsigned char *nullterm w;
  accepted
int **a; int *count(2) *b; int *sentinel *count(3) c; char *nullterm *d; char *nullterm *count(4) e[5];
  accepted
int n; int *count(n) p;
  NoDecl(1)
int n; int *count(0*n) p;
  NoDecl(1)
int *a;~int *bound(a, a) p;
  NoDecl(2)
int *nullterm p;
  NoDecl(1)
signed char *nullterm p;
  NoDecl(1)
short *nullterm p;
  NoDecl(1)
struct s { int a; };~struct s *nullterm p;
  NoDecl(2)
char *nullterm *nullterm p;
  NoDecl(1)
char *safe *nullterm p;
  NoDecl(1)
struct s { int n;~int *count(n) a[2]; };
  NoDecl(2)
struct s { int *n;~int *bound(n, n) a[2]; };
  NoDecl(2)
struct s { int n; int t; union {~int *count(n) p when (t == 1); } u; };
  NoDecl(2)
struct s { int n; int t; union { int *count(3) p when (t == 1); char *nullterm q when (t == 2); int **r when (t == 3); } u; };
  accepted
struct s { int n;~int *count(n) *p; };
  NoDecl(2)
struct s { int *a;~int *bound(a, a) *p; };
  NoDecl(2)
struct s { int n; int *safe *count(n) p; int *count(2) *count(n) q; };
  accepted
int *count(n) f(int n) { return 0; }
  NoRule(1)
int *count(1*n) *f(int n) { return 0; }
  NoRule(1)
int *bound(a, a) f(int *a) { return 0; }
  NoRule(1)
int *nullterm f(void) { return 0; }
  NoRule(1)
void *f(void) { return 0; }
  NoRule(1)
~void **safe f(void);
  NoRule(2)
int *f(void) { } int *sentinel g(void) { } int *count(3) h(void) { } char *nullterm i(void) { } int **j(void) { } void k(void) { }
  accepted
int f(int n,~int *count(n) *p) { return 0; }
  NoRule(2)
int f(int n) {~int *count(n) *p; return 0; }
  NoRule(2)
int f(int *count(3) *p, int *sentinel *count(n) q, int n, char *nullterm *r) { int **s; char *nullterm *safe t; return 0; }
  accepted
int f(int *nullterm p) { return 0; }
  NoRule(1)
int f(void) {~signed char *nullterm p; return 0; }
  NoRule(2)
// `count` of integers beside the pointer
struct s { int *count(n) p; int n; short m; char *count(3*m - n + 2) q; unsigned char k; int *count(-k) r; };
  accepted
struct s {~int *count(n) p; };
  NoDecl(2)
int n; struct s {~int *count(n) p; };
  NoDecl(2)
struct s { int n[2];~int *count(n) p; };
  NoDecl(2)
struct s { int n; union { int a when (n == 1); } u;~int *count(n) p; };
  NoDecl(2)
struct s { int n;~int *count(n) p; union { int a when (n == 1); } u; };
  NoDecl(2)
struct s { int *n;~int *count(n) p; };
  NoDecl(2)
struct s {~int *count(p) p; };
  NoDecl(2)
struct t { int a; }; struct s { struct t n;~int *count(n) p; };
  NoDecl(2)
struct s { int t; union { int n when (t == 1); } u;~int *count(n) p; };
  NoDecl(2)
struct s { int t; union { int n when (t == 1); } u;~int *count(u) p; };
  NoDecl(2)
struct s { int n; int m;~int *count(n + k) p; };
  NoDecl(2)
int f(int *count(n) p, int n, unsigned m, char *count(2*m + n - 1) q, short k, int *count(k) r) { return 0; }
  accepted
int f(~int *count(n) p) { return 0; }
  NoRule(2)
int n;~int f(int *count(n) p) { return 0; }
  NoRule(2)
int f(int *count(n) p) { int n; return 0; }
  NoRule(1)
int f(int *n,~int *count(n) p) { return 0; }
  NoRule(2)
int f(~int *count(p) p) { return 0; }
  NoRule(2)
int f(~int *count(n) p);
  NoRule(2)
int f(int n) { int *count(n) p; int *count(m + n) q; char m; return 0; }
  accepted
int f(int *n) {~int *count(n) p; return 0; }
  NoRule(2)
int f(void) { int *n;~int *count(n) p; return 0; }
  NoRule(2)
int f(void) { int n;~int *count(n + k) p; return 0; }
  NoRule(2)
// `bound` by pointers beside the pointer
struct s { int *bound(a, b) p; int *a; int *count(n) b; int n; int *bound(a + n, b - 2*n) q; int *bound(q, a + 4) r; };
  accepted
struct s {~int *bound(p, p) p; };
  NoDecl(2)
struct s { int *a;~int *bound(a, p) p; };
  NoDecl(2)
struct s { int *a; char *b;~int *bound(a, b) p; };
  NoDecl(2)
struct s { unsigned *a;~int *bound(a, a) p; };
  NoDecl(2)
struct s { char *nullterm a;~char *bound(a, a) p; };
  NoDecl(2)
struct s { int a;~int *bound(a, a) p; };
  NoDecl(2)
struct s { int *a; int *b;~int *bound(a, a + b) p; };
  NoDecl(2)
struct s { int *a; int n; union { int b when (n == 1); } u;~int *bound(a, a + n) p; };
  NoDecl(2)
struct s { int *a[2];~int *bound(a, a) p; };
  NoDecl(2)
struct s { int t; union { int *a when (t == 1); } u;~int *bound(a, a) p; };
  NoDecl(2)
struct s { int *a;~int *bound(a, b) p; };
  NoDecl(2)
struct s { int *safe *a; int **b; int *count(1) *bound(a, b) p; int *count(2 - 1) *bound(a, b) q; };
  accepted
struct s { int *count(2) *a;~int **bound(a, a) p; };
  NoDecl(2)
struct s { int *sentinel *a;~int *count(0) *bound(a, a) p; };
  NoDecl(2)
struct s { long *a; int *bound(a, a) p; unsigned long *b; unsigned *bound(b, b) q; char *c; unsigned char *bound(c, c) r; };
  accepted
struct s { char *a;~signed char *bound(a, a) p; };
  NoDecl(2)
int f(int *bound(a, b + n) p, int *a, int *bound(a, a) b, int n) { return 0; }
  accepted
int f(~int *bound(p, p) p) { return 0; }
  NoRule(2)
int f(char *nullterm a,~char *bound(a, a) p) { return 0; }
  NoRule(2)
int f(char *a,~int *bound(a, a) p) { return 0; }
  NoRule(2)
int f(int *bound(a, a) p) { int *a; return 0; }
  NoRule(1)
int f(int *a, int n) { int *b; int *bound(a, b - n) p; int *bound(p, p + 3) q; return 0; }
  accepted
int f(void) { int n; int *a;~int *bound(a, n) p; return 0; }
  NoRule(2)
int f(void) { char *nullterm a;~char *bound(a, a) p; return 0; }
  NoRule(2)
int *a; int f(void) {~int *bound(a, a) p; return 0; }
  NoRule(2)
// unions and their tags
struct s { char t; union { int a when (t == 0); short b when (t == 255); int *c when (t == 'a'); struct s *d when (t == 1); } u; };
  accepted
struct s { union {~int a when (t == 1); } u; int t; };
  NoDecl(2)
struct s { union {~int a when (t == 1); } u; };
  NoDecl(2)
struct s { int *t; union {~int a when (t == 1); } u; };
  NoDecl(2)
struct s { int t[1]; union {~int a when (t == 1); } u; };
  NoDecl(2)
struct r { int a; }; struct s { struct r t; union {~int a when (t == 1); } u; };
  NoDecl(2)
struct s { int t; int k; union { int a when (t == 1);~int b when (k == 2); } u; };
  NoDecl(2)
struct s { int t; union { int a when (t == 1); } u;~union {~int b when (t == 2); } v; };
  NoDecl(3)
struct s { int t; union { int k when (t == 1); } u; union {~int b when (k == 2); } v; };
  NoDecl(2)
struct s { int t; union { int a when (t == 1);~int b when (t == 0x1); } u; };
  NoDecl(2)
struct s { int t; union { int a when (t == 'a');~int b when (t == 97u); } u; };
  NoDecl(2)
struct s { unsigned char t; union { int a when (t == 0);~int b when (t == 256); } u; };
  NoDecl(2)
struct s { char t; union {~int b when (t == -1); } u; };
  NoDecl(2)
struct s { signed char t; union { int a when (t == -128); int b when (t == 127); } u; };
  accepted
struct s { signed char t; union {~int b when (t == 128); } u; };
  NoDecl(2)
struct s { signed char t; union {~int b when (t == -129); } u; };
  NoDecl(2)
struct s { short t; union { int a when (t == -32768); int b when (t == 32767); } u; };
  accepted
struct s { short t; union {~int b when (t == 32768); } u; };
  NoDecl(2)
struct s { short t; union {~int b when (t == -32769); } u; };
  NoDecl(2)
struct s { unsigned short t; union { int a when (t == 65535); } u; };
  accepted
struct s { unsigned short t; union {~int a when (t == 65536); } u; };
  NoDecl(2)
struct s { int t; union { int a when (t == 2147483647); int b when (t == -2147483648u); int c when (t == -5u); } u; };
  accepted
struct s { int t; union {~int a when (t == 2147483648u); } u; };
  NoDecl(2)
struct s { long t; union {~int a when (t == -2147483649u); } u; };
  NoDecl(2)
struct s { int t; union { int a when (t == -5u);~int b when (t == -5); } u; };
  NoDecl(2)
struct s { unsigned t; union { int a when (t == 4294967295u); int b when (t == -0); } u; };
  accepted
struct s { unsigned t; union {~int a when (t == -1); } u; };
  NoDecl(2)
struct r { int a; }; struct s { int t; union {~struct r a when (t == 1); } u; };
  NoDecl(2)
struct s { int t; union {~struct nowhere *a when (t == 1); } u; };
  NoDecl(2)
struct s { int t; union {~int *nullterm a when (t == 1); } u; };
  NoDecl(2)
// prototypes, and their agreement with other heads of the same name
int f(void);
  accepted
int f(int a);~int f(int b) { return b; }
  accepted
int f(int b) { return b; }~int f(int a);
  accepted
int f();~int f(void) { return 0; }
  accepted
static int f(void);~int f(void) { return 0; }
  accepted
int f(int a);~int f(unsigned a) { return 0; }
  NoRule(2)
int f(int a) { return 0; }~int f(unsigned a);
  NoRule(2)
int f(void);~void f(void) { return; }
  NoRule(2)
void f(void);~int f(void) { return 0; }
  NoRule(2)
int f(void);~int f(int a) { return 0; }
  NoRule(2)
int f(int a, int b);~int f(int a) { return 0; }
  NoRule(2)
int *f(void);~int f(void) { return 0; }
  NoRule(2)
int f(int *a);~int f(int a) { return 0; }
  NoRule(2)
int f(int a);~int f(int b);~int f(char c);
  NoRule(3)
int f(char c);~int f(int b);~int f(int c) { return 0; }
  NoRule(2)
long f(long a);~int f(int a) { return 0; }
  accepted
unsigned long f(unsigned int a);~unsigned f(unsigned a) { return 0; }
  accepted
char f(unsigned char a);~unsigned char f(char a) { return 0; }
  accepted
char f(void);~signed char f(void) { return 0; }
  NoRule(2)
struct s { int a; }; struct t { int a; }; int f(struct s *a);~int f(struct t *a) { return 0; }
  NoRule(2)
int *f(int *a, int *safe b, int *count(1) c);~int *safe f(int *count(1) a, int *b, int *count(3 - 2) c) { return 0; }
  accepted
int f(int *count(2) a);~int f(int *count(1 + 1) a) { return 0; }
  accepted
int f(int *count(2) a);~int f(int *count(3) a) { return 0; }
  NoRule(2)
int f(int *sentinel a);~int f(int *count(0) a) { return 0; }
  NoRule(2)
int f(int *sentinel a);~int f(int *sentinel a) { return 0; }
  accepted
int f(char *nullterm a);~int f(char *a) { return 0; }
  NoRule(2)
int *count(2) *f(void);~int *count(1 + 1) *safe f(void) { return 0; }
  accepted
int *count(2) *f(void);~int *count(3) *f(void) { return 0; }
  NoRule(2)
int f(int *count(n) p, int n);~int f(int *count(m) q, int m) { return 0; }
  accepted
int f(int *count(a) p, int a, int b);~int f(int *count(b) p, int a, int b) { return 0; }
  NoRule(2)
int f(int *count(a) p, int a, int b);~int f(int *count(b) p, int b, int a) { return 0; }
  accepted
int f(int *count(n + 1) p, int n);~int f(int *count(1 + n) p, int n) { return 0; }
  NoRule(2)
int f(int *count(n + 1) p, int n);~int f(int *count(n + 0x1) p, int n) { return 0; }
  accepted
int f(int *count(1*n) p, int n);~int f(int *count(n) p, int n) { return 0; }
  accepted
int f(int *count(2*n) p, int n);~int f(int *count(n + n) p, int n) { return 0; }
  NoRule(2)
int f(int *count(-1*n) p, int n);~int f(int *count(-n) p, int n) { return 0; }
  accepted
int f(int *count(-n) p, int n);~int f(int *count(n) p, int n) { return 0; }
  NoRule(2)
int f(int *count(n + 0) p, int n);~int f(int *count(n) p, int n) { return 0; }
  NoRule(2)
int f(int *count(0*n) p, int n);~int f(int *count(0) p, int n) { return 0; }
  NoRule(2)
int f(int *bound(a, b + n) p, int *a, int *b, int n);~int f(int *bound(x, y + 1*z) p, int *x, int *y, int z) { return 0; }
  accepted
int f(int *bound(a, b) p, int *a, int *b);~int f(int *bound(b, a) p, int *a, int *b) { return 0; }
  NoRule(2)
int f(int *bound(a, b) p, int *a, int *b);~int f(int *bound(a, b + 0) p, int *a, int *b) { return 0; }
  NoRule(2)
int f(int *bound(a, b + 1) p, int *a, int *b);~int f(int *bound(a, b - 1) p, int *a, int *b) { return 0; }
  NoRule(2)
int f(int *bound(a, a) p, int *a);~int f(int *count(0) p, int *a) { return 0; }
  NoRule(2)
int g(void) { int x; x = f(1); return x; } int f(int a) { return a; }
  accepted
int f(int a); int g(void) { int x; x = f(1); return x; } int f(int a) { return a; }
  accepted
int f(int a); int g(void) { int x;~x = f(1); return x; }
  NoRule(2)
int g(void) {~f(0); return 0; }~int f(struct nowhere *a) { return 0; }
  NoRule(2)
int f(~struct nowhere *a);
  NoRule(2)
struct s { int a; };~int f(~struct s a);
  NoRule(3)
// a call of a function some parameter of which does not stand
int g(void) {~f(1, 2);~return 0; }~int f(int a,~int a) { return 0; }
  NoRule(2)
int g(void) {~f(1, 2);~return 0; }~int f(int a,~int b) { return 0; }
  accepted
int f(int a,~int a) { return 0; }~int g(void) {~f(1, 2);~return 0; }
  NoRule(2)
int g(void) {~f(0, 1, 2);~return 0; }~int f(int *count(n) p, int n,~int n) { return 0; }
  NoRule(2)
int g(void) {~f(0, 1);~return 0; }~int f(int *count(n) p,~struct nowhere *n) { return 0; }
  NoRule(2)
int g(void) {~f(0, 0);~return 0; }~int f(int *count(n) p,~int *n) { return 0; }
  NoRule(2)
int g(void) {~int x;~x = 1;~f(x, 2);~return 0; }~int f(int a,~int a) { return 0; }
  NoRule(4)
int g(void) {~f(1);~return 0; }~int f(int a) {~int a; return 0; }
  NoRule(5)
// the first line of several
int f(void)~{~int x;~x = y;~x = z; return 0; }
  NoRule(4)
int f(void)~{~int *nullterm x;~x = y; return 0; }
  NoRule(3)
int f(~int *nullterm a)~{~int *nullterm x; return 0; }
  NoRule(2)
void *f(~int *nullterm a)~{ return 0; }
  NoRule(1)
int f(void) { return 0; }~int g(void) {~x = 1; return 0; }~void *h(void) { return 0; }
  NoRule(3)
int f(void) {~x = 1; return 0; }~int y;~int y;
  NoDecl(4)
int f(void) { int x;~if (x)~{~;~y = 1; } else~z = 1;~return 0; }
  NoRule(5)
int f(void) { int x;~while (x)~y = 1;~z = 1; return 0; }
  NoRule(3)
int f(void) { int x;~if (y)~z = 1; return 0; }
  NoRule(2)
int f(void) { return 0;~}~void g(void) {~return 0; }
  NoRule(4)
int *f(void) {~return 5;~}
  NoRule(2)
int f(void) {~int~x;~x~=~y~;~return 0; }
  NoRule(4)
// what is not read is told before all else, and a declaration before a rule
int f(void) {~x = 1; return 0; }~int y;~int y;~int g(void) { return 1 @ 2; }
  NotAWord(5)
int f(void) {~x = 1; return 0; }~int y;~int y;~}
  NoItem(5)
int f(void) {~x = 1; return 0; }~int a[65537];
  NoDecl(3)
// strings, unions, handlers and calls of the kernel in one text
struct s { int k; union { int n when (k == 1); } u; };~struct s g;~char *nullterm w;~void h(int a) { printd(a); }~int f(void) { zero(g.u); g.k = 1; w = \"ab\"; prints(w + 1); queue_work(h, g.u.n); return *w; }
  accepted
";

#[test]
fn declarations_stand_or_are_refused_on_their_line(rt: HostRuntime) -> Result<(), Fail> {
    assert_eq!(rt;
        wrong_texts(rt.alloc(), Show::Verdict, DECLARATIONS).as_str(),
        ""
    );
    Ok(())
}
