//! The names of a function's slots: parameters, locals, and two bounds for each local pointer without annotation, each in text order.
use super::forms::write_name;
use c_tree::{Function, TypeName};
use sd_base::Name;
use std::alloc::{AllocError, Global};

fn spelled(alloc: Global, name: &Name, ending: &str) -> Result<String, AllocError> {
    let mut out = String::new(alloc);
    write_name(&mut out, name);
    out.push_str(ending)?;
    Ok(out)
}

/// A pointer whose last star has no annotation.
fn is_unannotated(type_name: &TypeName) -> bool {
    match type_name.stars.as_slice().last() {
        Some(star) => star.annotation.is_none(),
        None => false,
    }
}

pub fn slot_names(alloc: Global, function: &Function) -> Result<Vec<String>, AllocError> {
    let mut names = Vec::new(alloc);
    for param in function.head.params.as_slice() {
        names.push(spelled(alloc, &param.name, "")?)?;
    }
    for local in function.locals.as_slice() {
        names.push(spelled(alloc, &local.name, "")?)?;
    }
    for local in function.locals.as_slice() {
        if is_unannotated(&local.type_name) {
            names.push(spelled(alloc, &local.name, ".low")?)?;
            names.push(spelled(alloc, &local.name, ".high")?)?;
        }
    }
    Ok(names)
}
