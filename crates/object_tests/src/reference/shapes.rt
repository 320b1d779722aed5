// The shapes of roles, read off the definition.
use core_terms::RoleKind;
use object_reader::{ListedFunction, ListedType, Object, TypeShape};
use std::alloc::{AllocError, Global};

/// The first function that has not the shape of its role.
pub fn first_misshaped(alloc: Global, object: &Object<'_>) -> Result<Option<usize>, AllocError> {
    let marks = auth_marks(alloc, &object.types)?;
    Ok(
        object
            .functions
            .iter()
            .position(|function| !has_shape(object, &marks, function)),
    )
}

fn has_shape(object: &Object<'_>, marks: &[bool], function: &ListedFunction<'_>) -> bool {
    let Some(role) = &function.role else {
        return true;
    };
    match (role.kind, function.parameters.as_slice()) {
        (RoleKind::Init, [argument]) => {
            function.result == object.state && !is_marked(marks, *argument)
        }
        (RoleKind::Query, [state, argument]) => {
            *state == object.state && !is_marked(marks, *argument)
        }
        (RoleKind::Update, [state, argument]) => {
            *state == object.state
                && gives_state(object, function.result)
                && !is_marked(marks, *argument)
        }
        _ => false,
    }
}

fn gives_state(object: &Object<'_>, gives: u32) -> bool {
    match object.types.get(gives as usize) {
        Some(ListedType::Shaped(TypeShape::PairShape(new, _))) => *new == object.state,
        _ => false,
    }
}

/// For each type whether an `auth` stands in it: as often as there are types, what is marked marks what it is a part or a field of.
fn auth_marks(alloc: Global, types: &[ListedType<'_>]) -> Result<Vec<bool>, AllocError> {
    let mut marks = vec![in alloc; false; types.len()]?;
    for _round in 0..types.len() {
        marks = marked_by(alloc, types, &marks)?;
    }
    Ok(marks)
}

fn marked_by(
    alloc: Global,
    types: &[ListedType<'_>],
    marks: &[bool],
) -> Result<Vec<bool>, AllocError> {
    let mut next = Vec::new(alloc);
    for listed in types {
        next.push(has_marked(listed, marks))?;
    }
    Ok(next)
}

fn has_marked(listed: &ListedType<'_>, marks: &[bool]) -> bool {
    match listed {
        ListedType::Shaped(TypeShape::AuthShape(_)) => true,
        ListedType::Shaped(TypeShape::PairShape(a, b)) => {
            is_marked(marks, *a) || is_marked(marks, *b)
        }
        ListedType::Shaped(_) => false,
        ListedType::Named(constructors) => constructors
            .iter()
            .any(|constructor| is_some_marked(&constructor.fields, marks)),
    }
}

fn is_some_marked(types: &[u32], marks: &[bool]) -> bool {
    types.iter().any(|ty| is_marked(marks, *ty))
}

fn is_marked(marks: &[bool], ty: u32) -> bool {
    match marks.get(ty as usize) {
        Some(mark) => *mark,
        None => false,
    }
}
