//! When two heads of one function agree: in their results, and in the types and annotations of their parameters, where each name stands for the place of the
//! parameter that it names (C99 6.2.7 and 6.7.5.3; the annotations are part of the types).
ghost use Rattle.std.specs.Prelude.{◌≡◌, bytes_eq, option_copied};
ghost use Rattle.deputy_rules.specs.Agreement as spec;
ghost use Rattle.deputy_types.specs.Types as types;

use c_tree::{Addr, Annotation, Base, Head, Param, ResultBase, SignedTerm, Star, Term};
use deputy_types::{Element, NameList, base_key, constant_sum};
use rules_types::same_element;
use sd_base::Name;

/// Whether a parameter has this name.
fn is_named(param: &Param, name: &Name) -> bool
    ensures { result ≡ bytes_eq name.now param.now.name }
{
    name.bytes() == param.name.bytes()
}

/// The place of the first parameter that is named so.
pub(crate) fn parameter_place(params: &[Param], name: &Name) -> Option<usize>
    ensures { result ≡ spec.parameter_place params.now name.now }
{
    params.iter().position(|param| is_named(param, name))
}

/// Whether two places are the same, or both none.
fn same_place(a: Option<usize>, b: Option<usize>) -> bool
    ensures { result ≡ spec.same_place a b }
{
    a == b
}

/// Whether names of two heads stand for the same place.
#[tactic(auto, unfolding(deputy_rules::specs::Agreement::same_name))]
fn same_name(ps: &[Param], qs: &[Param], x: &Name, y: &Name) -> bool
    ensures { result ≡ spec.same_name ps.now qs.now x.now y.now }
{
    same_place(parameter_place(ps, x), parameter_place(qs, y))
}

/// The name in a term, if there is one.
fn term_name(term: &Term) -> Option<&Name>
    ensures { option_copied result ≡ spec.term_name term.now }
{
    match term {
        Term::Number(_) => None,
        Term::Name(name) => Some(name),
        Term::Product(_, name) => Some(name),
    }
}

/// The number in a term: its own value, or what its name is multiplied by.
fn term_number(term: &Term) -> u32
    ensures { result ≡ spec.term_number term.now }
{
    match term {
        Term::Number(number) => number.value,
        Term::Name(_) => 1,
        Term::Product(number, _) => number.value,
    }
}

/// The number in a term, with the sign before it.
fn term_value(t: &SignedTerm) -> i64
    ensures { result ≡ types.signed_number t.now.negative (spec.term_number t.now.term) }
{
    let value = i64::from(term_number(&t.term));
    if t.negative { -value } else { value }
}

/// Whether terms have the same name, or none.
fn same_term_name(ps: &[Param], qs: &[Param], a: Option<&Name>, b: Option<&Name>) -> bool
    ensures { result ≡ spec.same_term_name ps.now qs.now (option_copied a.entry) (option_copied b.entry) }
{
    match a {
        Some(x) => match b {
            Some(y) => same_name(ps, qs, x, y),
            None => false,
        },
        None => match b {
            Some(_) => false,
            None => true,
        },
    }
}

/// Whether terms are the same: numbers by value, so `1*n` is `n`, and names by their places.
#[tactic(auto, unfolding(deputy_rules::specs::Agreement::same_term))]
fn same_term(ps: &[Param], qs: &[Param], a: &SignedTerm, b: &SignedTerm) -> bool
    ensures { result ≡ spec.same_term ps.now qs.now a.now b.now }
{
    term_value(a) == term_value(b) && same_term_name(ps, qs, term_name(&a.term), term_name(&b.term))
}

/// Whether these are the same terms, one by one.
fn same_terms(ps: &[Param], qs: &[Param], terms: &[SignedTerm], others: &[SignedTerm]) -> bool
    ensures { result ≡ spec.same_terms ps.now qs.now terms.now others.now }
{
    let mut rest = others;
    for a in terms {
        match rest {
            [b, more @ ..] => {
                if !same_term(ps, qs, a, b) {
                    return false;
                }
                rest = more;
            }
            [] => return false,
        }
    }
    match rest {
        [] => true,
        [_, ..] => false,
    }
}

/// Whether the same term stands behind a pointer's name, or none.
fn same_offset(ps: &[Param], qs: &[Param], a: &Option<SignedTerm>, b: &Option<SignedTerm>) -> bool
    ensures { result ≡ spec.same_offset ps.now qs.now a.now b.now }
{
    match a {
        Some(x) => match b {
            Some(y) => same_term(ps, qs, x, y),
            None => false,
        },
        None => match b {
            Some(_) => false,
            None => true,
        },
    }
}

/// Whether these are the same end of a `bound`.
#[tactic(auto, unfolding(deputy_rules::specs::Agreement::same_end))]
fn same_end(ps: &[Param], qs: &[Param], a: &Addr, b: &Addr) -> bool
    ensures { result ≡ spec.same_end ps.now qs.now a.now b.now }
{
    same_name(ps, qs, &a.pointer, &b.pointer) && same_offset(ps, qs, &a.offset, &b.offset)
}

/// The value of an annotation that counts by numbers alone; `safe` is a count of 1, and so is a star without annotation.
fn count_of(annotation: &Option<Annotation>) -> Option<i64>
    ensures { result ≡ spec.count_of annotation.now }
{
    match annotation {
        None => Some(1),
        Some(Annotation::Safe) => Some(1),
        Some(Annotation::Sentinel) => None,
        Some(Annotation::Nullterm) => None,
        Some(Annotation::Count(sum)) => constant_sum(sum.terms.as_slice()),
        Some(Annotation::Bound(_, _)) => None,
    }
}

/// Whether this is `sentinel`.
fn is_sentinel(annotation: &Option<Annotation>) -> bool
    ensures { result ≡ spec.is_sentinel annotation.now }
{
    matches!(annotation, Some(Annotation::Sentinel))
}

/// Whether this is `nullterm`.
fn is_nullterm(annotation: &Option<Annotation>) -> bool
    ensures { result ≡ spec.is_nullterm annotation.now }
{
    matches!(annotation, Some(Annotation::Nullterm))
}

/// Whether this is a count with these terms.
fn is_sum(ps: &[Param], qs: &[Param], terms: &[SignedTerm], annotation: &Option<Annotation>) -> bool
    ensures { result ≡ spec.is_sum ps.now qs.now terms.now annotation.now }
{
    match annotation {
        Some(Annotation::Count(sum)) => same_terms(ps, qs, terms, sum.terms.as_slice()),
        Some(Annotation::Safe) => false,
        Some(Annotation::Sentinel) => false,
        Some(Annotation::Nullterm) => false,
        Some(Annotation::Bound(_, _)) => false,
        None => false,
    }
}

/// Whether this is a `bound` with these ends.
fn is_bound(
    ps: &[Param],
    qs: &[Param],
    lo: &Addr,
    hi: &Addr,
    annotation: &Option<Annotation>,
) -> bool
    ensures { result ≡ spec.is_bound ps.now qs.now lo.now hi.now annotation.now }
{
    match annotation {
        Some(Annotation::Bound(low, high)) => {
            same_end(ps, qs, lo, low) && same_end(ps, qs, hi, high)
        }
        Some(Annotation::Safe) => false,
        Some(Annotation::Sentinel) => false,
        Some(Annotation::Nullterm) => false,
        Some(Annotation::Count(_)) => false,
        None => false,
    }
}

/// Whether annotations are the same as written, where neither counts by numbers alone.
#[tactic(auto, unfolding(deputy_rules::specs::Agreement::same_written))]
fn same_written(ps: &[Param], qs: &[Param], a: &Option<Annotation>, b: &Option<Annotation>) -> bool
    ensures { result ≡ spec.same_written ps.now qs.now a.now b.now }
{
    match a {
        None => false,
        Some(Annotation::Safe) => false,
        Some(Annotation::Sentinel) => is_sentinel(b),
        Some(Annotation::Nullterm) => is_nullterm(b),
        Some(Annotation::Count(sum)) => is_sum(ps, qs, sum.terms.as_slice(), b),
        Some(Annotation::Bound(lo, hi)) => is_bound(ps, qs, lo, hi, b),
    }
}

/// Whether counts by numbers alone are the same; without such counts, whether the annotations are the same as written.
fn same_count(a: Option<i64>, b: Option<i64>, written: bool) -> bool
    ensures { result ≡ spec.same_count a b written }
{
    match a {
        Some(n) => match b {
            Some(m) => n == m,
            None => false,
        },
        None => match b {
            Some(_) => false,
            None => written,
        },
    }
}

/// Whether stars are the same.
#[tactic(auto, unfolding(deputy_rules::specs::Agreement::same_star))]
fn same_star(ps: &[Param], qs: &[Param], a: &Star, b: &Star) -> bool
    ensures { result ≡ spec.same_star ps.now qs.now a.now b.now }
{
    let written = same_written(ps, qs, &a.annotation, &b.annotation);
    same_count(count_of(&a.annotation), count_of(&b.annotation), written)
}

/// Whether these are the same stars, one by one.
fn same_stars(ps: &[Param], qs: &[Param], stars: &[Star], others: &[Star]) -> bool
    ensures { result ≡ spec.same_stars ps.now qs.now stars.now others.now }
{
    let mut rest = others;
    for a in stars {
        match rest {
            [b, more @ ..] => {
                if !same_star(ps, qs, a, b) {
                    return false;
                }
                rest = more;
            }
            [] => return false,
        }
    }
    match rest {
        [] => true,
        [_, ..] => false,
    }
}

/// Whether two types are the same, or both none.
fn same_key(a: Option<Element>, b: Option<Element>) -> bool
    ensures { result ≡ spec.same_key a b }
{
    match a {
        Some(x) => match b {
            Some(y) => same_element(x, y),
            None => false,
        },
        None => match b {
            Some(_) => false,
            None => true,
        },
    }
}

/// Whether two bases are the same integer type or struct.
#[tactic(auto, unfolding(deputy_rules::specs::Agreement::same_base))]
fn same_base(structs: &NameList, a: &Base, b: &Base) -> bool
    ensures { result ≡ spec.same_base structs.now a.now b.now }
{
    same_key(base_key(structs, a), base_key(structs, b))
}

/// Whether two parameters are the same, whatever their names.
#[tactic(auto, unfolding(deputy_rules::specs::Agreement::same_parameter))]
fn same_parameter(structs: &NameList, ps: &[Param], qs: &[Param], a: &Param, b: &Param) -> bool
    ensures { result ≡ spec.same_parameter structs.now ps.now qs.now a.now b.now }
{
    same_base(structs, &a.type_name.base, &b.type_name.base)
        && same_stars(
            ps,
            qs,
            a.type_name.stars.as_slice(),
            b.type_name.stars.as_slice(),
        )
}

/// Whether these are the same parameters, one by one.
fn same_parameters(
    structs: &NameList,
    ps: &[Param],
    qs: &[Param],
    params: &[Param],
    others: &[Param],
) -> bool
    ensures { result ≡ spec.same_parameters structs.now ps.now qs.now params.now others.now }
{
    let mut rest = others;
    for a in params {
        match rest {
            [b, more @ ..] => {
                if !same_parameter(structs, ps, qs, a, b) {
                    return false;
                }
                rest = more;
            }
            [] => return false,
        }
    }
    match rest {
        [] => true,
        [_, ..] => false,
    }
}

/// Whether results begin with the same.
fn same_result_base(structs: &NameList, a: &ResultBase, b: &ResultBase) -> bool
    ensures { result ≡ spec.same_result_base structs.now a.now b.now }
{
    match a {
        ResultBase::Void => match b {
            ResultBase::Void => true,
            ResultBase::Base(_) => false,
        },
        ResultBase::Base(x) => match b {
            ResultBase::Void => false,
            ResultBase::Base(y) => same_base(structs, x, y),
        },
    }
}

/// Whether two heads agree: in their results and their parameters. `structs` are the names of the text's structs.
#[tactic(auto, unfolding(deputy_rules::specs::Agreement::agree))]
pub(crate) fn agree(structs: &NameList, a: &Head, b: &Head) -> bool
    ensures { result ≡ spec.agree structs.now a.now b.now }
{
    let ps = a.params.as_slice();
    let qs = b.params.as_slice();
    same_result_base(structs, &a.result, &b.result)
        && same_stars(ps, qs, a.stars.as_slice(), b.stars.as_slice())
        && same_parameters(structs, ps, qs, ps, qs)
}
