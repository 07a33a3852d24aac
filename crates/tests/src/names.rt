// SPDX-License-Identifier: Apache-2.0
// SPDX-FileCopyrightText: Copyright the Vortex contributors

// Names of fields, and paths of names.
use dtype_base::{FieldName, FieldNames, VortexResult};
use dtype_paths::{Field, FieldPath, field_path};
use std::alloc::Global;
use std::test::Fail;
use std::vec;

fn collected(alloc: Global, names: FieldNames) -> VortexResult<FieldNames> {
    Ok(names.into_iter().collect(alloc)?)
}

#[test]
fn names_are_collected(rt: HostRuntime) -> Result<(), Fail> {
    let alloc = rt.alloc();
    let names = collected(alloc, FieldNames::from_texts(alloc, &["a", "b"])?)?;
    assert!(rt; names.eq_texts(&["a", "b"]));
    Ok(())
}

#[test]
fn a_name_is_made_of_its_shared_text(rt: HostRuntime) -> Result<(), Fail> {
    let alloc = rt.alloc();
    let shared = FieldName::new(alloc, "a")?.into_inner();
    let name = FieldName::from_inner(shared);
    assert!(rt; name.eq_str("a") && name.inner().as_str() == "a");
    Ok(())
}

#[test]
fn names_tell_how_many_are_left(rt: HostRuntime) -> Result<(), Fail> {
    let alloc = rt.alloc();
    let names = FieldNames::from_texts(alloc, &["a", "b"])?;
    let mut lent = names.iter();
    assert!(rt; lent.size_hint() == (2, Some(2)));
    let _ = lent.next();
    assert!(rt; lent.size_hint() == (1, Some(1)));
    let mut owned = names.into_iter();
    let _ = owned.next();
    assert!(rt; owned.size_hint() == (1, Some(1)));
    Ok(())
}

#[test]
fn names_are_ordered(rt: HostRuntime) -> Result<(), Fail> {
    let (first, second) = (
        FieldName::new(rt.alloc(), "a")?,
        FieldName::new(rt.alloc(), "b")?,
    );
    assert!(rt; first < second && !(second < first));
    Ok(())
}

// The path of the names a and b.
fn two_steps(alloc: Global) -> VortexResult<FieldPath> {
    let (first, second) = (Field::from_text(alloc, "a")?, Field::from_text(alloc, "b")?);
    Ok(FieldPath::from_vec(vec![in alloc; first, second]?))
}

#[test]
fn a_path_is_made_of_its_names(rt: HostRuntime) -> Result<(), Fail> {
    assert!(rt; field_path!(rt.alloc(), "a", "b")? == two_steps(rt.alloc())?);
    Ok(())
}
