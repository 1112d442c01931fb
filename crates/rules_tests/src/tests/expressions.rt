//! Expressions: each rule for places and values, with its checks in their order, their conditions over the atoms in the order of first use, or that no rule
//! derives it. Each row is one statement.
mod addresses;
mod elements;
mod forms;
mod members;
mod operators;
mod places;
mod pointers;

use super::tables::Frame;
use super::texts::View;

/// The blocks of the globals are `g` at 16, `a` at 64, `gi` at 80, `gu` at 96, `gt` at 112, `gp` at 128, `gs` at 144, `h` at 160 up to 280, and the first string lies
/// at 288. In `struct s`, of 40 bytes: `p` at 4, `n` at 8, `c` at 12, `t` at 16, `w` at 20, the tag `k` at 24, the union at 28, `z` at 32, `e` at 36.
const BEFORE: &str = "struct t { short x; unsigned char y; }; \
struct s { int a; int *count(n) p; int n; char c[4]; struct t *safe t; struct t w; unsigned char k; \
union { int i when (k == 1); char *safe q when (k == 2); } u; char *nullterm z; int *safe e; }; \
struct s g; int a[4]; int gi; unsigned gu; char *nullterm gt; int *safe gp; short gs; struct s h[3];
int f(int *count(n) p, int n, unsigned u, int *bound(lo, hi) b, int *safe lo, int *safe hi, char *nullterm t, struct s *safe sp, int *sentinel se, char ch, \
short sh, int *safe *count(n) pp) { int x; int i; int *q; char *cq; struct s *sq; struct t *tq; int **qq; char *nullterm tt; unsigned w; signed char sc;
";

const AFTER: &str = "\nreturn 0; }";

const CHECKS: Frame<'static> = Frame {
    before: BEFORE,
    after: AFTER,
    function: 0,
    view: View::Checks,
    line: 3,
};

const FORMS: Frame<'static> = Frame {
    before: BEFORE,
    after: "\n}",
    function: 0,
    view: View::Body,
    line: 3,
};
