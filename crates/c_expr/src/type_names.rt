//! Annotations, stars and type names.
ghost use Rattle.std.specs.Prelude.{◌≡◌, ◌<◌, ◌≤◌, length, Some, IfOk, IfSome};
ghost use Rattle.std.specs.Option.{option_map};
ghost use Rattle.c_tree.specs.Reading.{Best, Never, Each, Enclosed};
ghost use Rattle.c_tree.specs.TypeGrammar.{SumAt, EndsAt, AnnotationAt, StarAt, TypeNameAt, InParens};
ghost use Rattle.c_expr.specs.Classes.{At, is_annotation, is_in_types, is_in_sums};

use crate::bases::base_at;
use crate::look::{after_keyword, after_sign, keyword_at};
use crate::sums::{addr_at, sum_at};
use c_tree::{Addr, Annotation, Keyword, Sign, Star, Sum, Token, TypeName};
use sqlite_items::Items;
use std::alloc::{AllocError, Global};

/// The sum in parentheses that the words begin with.
fn count_at(alloc: Global, words: &[Token]) -> Result<Option<(Sum, &[Token])>, AllocError>
    ensures best { IfOk result (λ found. Best (Enclosed SumAt words.now) Never (option_map (λ a. (a.0, a.1.now)) found)) }
    ensures shorter { IfOk result (λ found. IfSome found (λ a. length a.1.now < length words.now)) }
{
    let Some(inside) = after_sign(words, Sign::ParenOpen) else {
        return Ok(None);
    };
    let Some((sum, after)) = sum_at(alloc, inside)? else {
        return Ok(None);
    };
    let Some(rest) = after_sign(after, Sign::ParenClose) else {
        return Ok(None);
    };
    Ok(Some((sum, rest)))
}

/// Two ends with a comma between them.
fn ends_at(words: &[Token]) -> Option<((Addr, Addr), &[Token])>
    ensures best { Best (λ v x. EndsAt words.now v x) (At is_in_sums) (option_map (λ a. (a.0, a.1.now)) result) }
    ensures shorter { IfSome result (λ a. length a.1.now < length words.now) }
{
    let Some((low, after_low)) = addr_at(words) else {
        return None;
    };
    let Some(second) = after_sign(after_low, Sign::Comma) else {
        return None;
    };
    let Some((high, rest)) = addr_at(second) else {
        return None;
    };
    Some(((low, high), rest))
}

/// The two ends in parentheses that the words begin with.
fn bound_at(words: &[Token]) -> Option<((Addr, Addr), &[Token])>
    ensures best { Best (Enclosed EndsAt words.now) Never (option_map (λ a. (a.0, a.1.now)) result) }
    ensures shorter { IfSome result (λ a. length a.1.now < length words.now) }
{
    let Some(inside) = after_sign(words, Sign::ParenOpen) else {
        return None;
    };
    let Some((ends, after)) = ends_at(inside) else {
        return None;
    };
    let Some(rest) = after_sign(after, Sign::ParenClose) else {
        return None;
    };
    Some((ends, rest))
}

/// The annotation that the words begin with.
fn annotation_at(
    alloc: Global,
    words: &[Token],
) -> Result<Option<(Annotation, &[Token])>, AllocError>
    ensures best { IfOk result (λ found. Best (λ v x. AnnotationAt words.now v x) Never (option_map (λ a. (a.0, a.1.now)) found)) }
    ensures shorter { IfOk result (λ found. IfSome found (λ a. length a.1.now < length words.now)) }
{
    let Some((first, rest)) = keyword_at(words) else {
        return Ok(None);
    };
    match first {
        Keyword::Safe => Ok(Some((Annotation::Safe, rest))),
        Keyword::Sentinel => Ok(Some((Annotation::Sentinel, rest))),
        Keyword::Nullterm => Ok(Some((Annotation::Nullterm, rest))),
        Keyword::Count => {
            let Some((sum, after)) = count_at(alloc, rest)? else {
                return Ok(None);
            };
            Ok(Some((Annotation::Count(sum), after)))
        }
        Keyword::Bound => {
            let Some((ends, after)) = bound_at(rest) else {
                return Ok(None);
            };
            let (low, high) = ends;
            Ok(Some((Annotation::Bound(low, high), after)))
        }
        _ => Ok(None),
    }
}

/// The star that the words begin with, with its annotation.
fn star_at(alloc: Global, words: &[Token]) -> Result<Option<(Star, &[Token])>, AllocError>
    ensures best { IfOk result (λ found. Best (λ v x. StarAt words.now v x) (At is_annotation) (option_map (λ a. (a.0, a.1.now)) found)) }
    ensures shorter { IfOk result (λ found. IfSome found (λ a. length a.1.now < length words.now)) }
{
    let Some(after_star) = after_sign(words, Sign::Star) else {
        return Ok(None);
    };
    let Some((annotation, rest)) = annotation_at(alloc, after_star)? else {
        let plain = Star { annotation: None };
        return Ok(Some((plain, after_star)));
    };
    let annotated = Star {
        annotation: Some(annotation),
    };
    Ok(Some((annotated, rest)))
}

/// The stars that the words begin with, as many as there are, each with its annotation.
pub fn stars_at(alloc: Global, words: &[Token]) -> Result<(Items<Star>, &[Token]), AllocError>
    ensures best { IfOk result (λ a. Best (λ v x. Each StarAt words.now v x) (At is_in_types) (Some (a.0, a.1.now))) }
    ensures shorter { IfOk result (λ a. length a.1.now ≤ length words.now) }
{
    let mut stars = Items::new(alloc);
    let mut rest = words;
    while let Some((star, after)) = star_at(alloc, rest)? {
        stars.push(star)?;
        rest = after;
    }
    Ok((stars, rest))
}

/// The longest type name that the words begin with, and the words after it.
pub fn type_name_at(
    alloc: Global,
    words: &[Token],
) -> Result<Option<(TypeName, &[Token])>, AllocError>
    ensures best { IfOk result (λ found. Best (λ v x. TypeNameAt words.now v x) (At is_in_types) (option_map (λ a. (a.0, a.1.now)) found)) }
    ensures shorter { IfOk result (λ found. IfSome found (λ a. length a.1.now < length words.now)) }
{
    let Some((base, after_base)) = base_at(words) else {
        return Ok(None);
    };
    let (stars, rest) = stars_at(alloc, after_base)?;
    Ok(Some((TypeName { base, stars }, rest)))
}

/// The type name in parentheses that the words begin with.
pub fn type_in_parens(
    alloc: Global,
    words: &[Token],
) -> Result<Option<(TypeName, &[Token])>, AllocError>
    ensures best { IfOk result (λ found. Best (InParens words.now) Never (option_map (λ a. (a.0, a.1.now)) found)) }
    ensures shorter { IfOk result (λ found. IfSome found (λ a. length a.1.now < length words.now)) }
{
    let Some(inside) = after_sign(words, Sign::ParenOpen) else {
        return Ok(None);
    };
    let Some((type_name, after)) = type_name_at(alloc, inside)? else {
        return Ok(None);
    };
    let Some(rest) = after_sign(after, Sign::ParenClose) else {
        return Ok(None);
    };
    Ok(Some((type_name, rest)))
}
