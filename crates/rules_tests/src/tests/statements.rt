//! Statements: each with its checks in their order, its siblings among them, or that no rule derives it. Each row is one statement.
mod assigned;
mod locals;
mod others;

use super::tables::Frame;
use super::texts::View;

/// The blocks of the globals are `g` at 16, `s` at 32, `a` at 64, `text` at 80, `gi` at 96, `gp` at 112, `gt` at 128, `gs` at 144, `gc` at 160, `sb` at 176 up to 216, and the
/// first string lies at 224. In `struct v`, of 16 bytes: the tag `t` at 0 and its union at 4, the tag `k` at 8 and its union at 12. In `struct b`, of 20 bytes: `len` at 0,
/// `buf` at 4, `cur` at 8, `off` at 12, `far` at 16.
const BEFORE: &str =
    "struct v { int t; union { int n when (t == 1); int *safe p when (t == 2); char c when (t == -3); } u; \
unsigned char k; union { int m when (k == 0); int *count(2) r when (k == 255); } w; }; \
struct b { int len; int *count(len) buf; int *bound(buf, buf + len) cur; int off; int *count(2*len - off) far; }; \
struct v g; struct b s; int a[4]; char text[8]; int gi; int *safe gp; char *nullterm gt; short gs; int *count(3) gc; struct b sb[2];
int f(int *count(n) p, int n, int *bound(lo, hi + n) b, int *safe lo, int *count(2) hi, char *nullterm t, struct b *safe sp, char *count(m) cp, int m, \
struct v *safe vp) { int x; int *q; char *cq; char *nullterm tt; char ch; int *count(j) l; int j; int *bound(y, z) r; int *y; int *z; int *safe sl; struct b *sq; \
short sh; unsigned w; int *sentinel e;
";

const CHECKS: Frame<'static> = Frame {
    before: BEFORE,
    after: "\n}",
    function: 0,
    view: View::Checks,
    line: 3,
};

const FORMS: Frame<'static> = Frame {
    before: BEFORE,
    after: "\n}",
    function: 0,
    view: View::Body,
    line: 3,
};
