// SPDX-License-Identifier: Apache-2.0
// SPDX-FileCopyrightText: Copyright the Vortex contributors

//! The recipes of `docs/PROVING.md`, in plain code. It is proved that they are safe and that they
//! return. They have no contracts, so that they do what their comments say isn't proved; what each call in them returns
//! is in its own contract.
use std::alloc::Global;
use std::vec;
use vortex_dtype::{
    DType, DTypeProto, DTypeSession, Field, FieldDType, FieldMask, FieldName, FieldNames,
    FieldPath, FieldPathCursor, FieldPathSet, MessageFault, Nullability, PType, StructFields,
    VortexError, VortexResult, Widening, field_path, merge_columns, merge_conflict, pb,
    project_paths,
};

/// Returns the columns `id=u64, name=utf8?`.
pub fn customers(alloc: Global) -> VortexResult<StructFields> {
    let names = FieldNames::from_texts(alloc, &["id", "name"])?;
    let id = DType::from(PType::U64);
    let name = DType::Utf8(Nullability::Nullable);
    StructFields::new(alloc, names, vec![in alloc; id, name]?)
}

/// Returns the columns with these names, in this order. A name that no column has is an error (16).
pub fn select(alloc: Global, table: &StructFields, columns: &[&str]) -> VortexResult<StructFields> {
    let columns = FieldNames::from_texts(alloc, columns)?;
    table.project(alloc, columns.as_slice())
}

/// Returns the table with one more column at its end. A name that a column already has is an error (18).
pub fn with_column(
    alloc: Global,
    table: &StructFields,
    name: &str,
    dtype: DType,
) -> VortexResult<StructFields> {
    let names = FieldNames::from_texts(alloc, &[name])?;
    let column = StructFields::new(alloc, names, vec![in alloc; dtype]?)?;
    table.disjoint_merge(alloc, &column)
}

/// Returns the table without the first column of this name, or a copy of the table if no column has the name.
pub fn without_column(
    alloc: Global,
    table: &StructFields,
    name: &str,
) -> VortexResult<StructFields> {
    match table.find(name) {
        Some(index) => table.without_field(alloc, index),
        None => table.try_clone(alloc),
    }
}

/// Returns the table in which each column `old` is called `new`.
pub fn renamed(
    alloc: Global,
    table: &StructFields,
    old: &str,
    new: &str,
) -> VortexResult<StructFields> {
    let mut fields = Vec::new(alloc);
    for (name, dtype) in table.pairs() {
        let name = if name.eq_str(old) {
            FieldName::new(alloc, new)?
        } else {
            name.try_clone(alloc)?
        };
        fields.push((name, FieldDType::from(dtype.try_clone(alloc)?)))?;
    }
    StructFields::from_iter(alloc, fields)
}

/// Returns how many columns are nullable.
pub fn nullable_columns(table: &StructFields) -> usize {
    table.fields().filter(|dtype| dtype.is_nullable()).count()
}

/// Returns the type of the elements of the list `tags`, or `None` if the table has no such list.
pub fn tag_type<'a>(alloc: Global, table: &'a DType) -> VortexResult<Option<&'a DType>> {
    let path = field_path!(alloc, "tags")?.push(Field::ElementType)?;
    Ok(path.resolve(table))
}

/// Returns the fewest columns that a query has to open.
pub fn columns_to_open(
    alloc: Global,
    asked: Vec<FieldPath>,
) -> VortexResult<vec::IntoIter<FieldPath>> {
    FieldPathSet::from_iter(alloc, asked)?.into_iter()
}

/// Returns the part of the table's type that a query opens, or `None` if the table has none of its columns.
pub fn prune(alloc: Global, table: &DType, asked: Vec<FieldPath>) -> VortexResult<Option<DType>> {
    let columns = FieldPathSet::from_iter(alloc, asked)?;
    project_paths(alloc, table, &columns)
}

/// Returns the paths `id`, `customer.city` and `items.[].price`.
pub fn three_columns(alloc: Global) -> VortexResult<Vec<FieldPath>> {
    let id = field_path!(alloc, "id")?;
    let city = field_path!(alloc, "customer", "city")?;
    let items = field_path!(alloc, "items")?;
    let price = items
        .push(Field::ElementType)?
        .push(Field::from_text(alloc, "price")?)?;
    Ok(vec![in alloc; id, city, price]?)
}

/// Returns a cursor to what a query wants of a column, or `None` if it wants nothing of it.
pub fn asked_of_column<'a>(asked: &'a FieldPathSet, column: &Field) -> Option<FieldPathCursor<'a>> {
    asked.cursor().step(column)
}

/// Returns what a mask selects below a column, or `None` if it selects nothing there.
pub fn mask_below_column(mask: FieldMask, column: &Field) -> VortexResult<Option<FieldMask>> {
    if mask.matches_all() {
        return Ok(Some(FieldMask::All));
    }
    if mask.starting_field()? != Some(column) {
        return Ok(None);
    }
    Ok(Some(mask.step_into()?))
}

/// Returns the type made non-nullable, or `None` if it can't be: `Null` can't, nor can an extension over it.
pub fn required(alloc: Global, dtype: &DType) -> VortexResult<Option<DType>> {
    if !dtype.can_be_nonnullable() {
        return Ok(None);
    }
    Ok(Some(dtype.as_nonnullable(alloc)?))
}

/// Returns one schema for several files, or `None` if two of them disagree about a column. A column that a file lacks is
/// nullable.
pub fn one_schema(alloc: Global, first: &DType, others: &[DType]) -> VortexResult<Option<DType>> {
    let mut schema = first.try_clone(alloc)?;
    for other in others {
        match merge_columns(alloc, &schema, other, Widening::None)? {
            Some(merged) => schema = merged,
            None => return Ok(None),
        }
    }
    Ok(Some(schema))
}

/// Returns what two schemas disagree about, for example `$customer.$id is u64 and utf8`, or `None` if they can be merged.
pub fn disagreement(alloc: Global, a: &DType, b: &DType) -> VortexResult<Option<String>> {
    match merge_conflict(alloc, a, b, Widening::None)? {
        Some(conflict) => {
            let (path, left, right) = (&conflict.path, conflict.left, conflict.right);
            Ok(Some(format!(in alloc; "{path} is {left} and {right}")?))
        }
        None => Ok(None),
    }
}

/// Reads a stored schema, and keeps extensions with unknown ids as they are.
pub fn read_keeping_unknown(alloc: Global, stored: &pb::DType) -> VortexResult<DType> {
    let mut session = DTypeSession::new(alloc);
    session.allow_unknown();
    DType::from_proto(alloc, stored, &session)
}

/// Returns the part of a stored schema that a query opens, or `None` if the query has no column, or one that the schema
/// lacks.
pub fn open_stored(
    alloc: Global,
    stored: &pb::DType,
    query: Vec<FieldPath>,
) -> VortexResult<Option<DType>> {
    // Read the message. The session keeps extensions whose id is unknown.
    let mut session = DTypeSession::new(alloc);
    session.allow_unknown();
    let schema = DType::from_proto(alloc, stored, &session)?;
    // Bind the query: each of its columns must exist in the schema.
    let columns = FieldPathSet::from_iter(alloc, query)?;
    if !columns.unresolved(&schema)?.is_empty() {
        return Ok(None);
    }
    // Project the schema to the columns.
    project_paths(alloc, &schema, &columns)
}

/// Returns the names that an encoder writes for the message of a struct, or `None` for another message.
pub fn names_to_encode(message: &pb::DType) -> Option<&[String]> {
    match &message.dtype_type {
        Some(pb::DtypeType::Struct(fields)) => Some(&fields.names),
        _ => None,
    }
}

/// A column in a schema of another kind, such as one of Arrow.
#[derive(Debug, Drop)]
pub struct Column {
    pub name: String,
    pub kind: ColumnKind,
    pub nullable: bool,
}

/// What a column contains.
#[derive(Clone, Copy, Debug)]
pub enum ColumnKind {
    Boolean,
    Int64,
    Utf8,
}

/// Returns the type of a table with these columns.
pub fn table_type(alloc: Global, columns: &[Column]) -> VortexResult<DType> {
    let mut fields = Vec::new(alloc);
    for column in columns {
        let n = Nullability::from(column.nullable);
        let dtype = match column.kind {
            ColumnKind::Boolean => DType::Bool(n),
            ColumnKind::Int64 => DType::Primitive(PType::I64, n),
            ColumnKind::Utf8 => DType::Utf8(n),
        };
        let name = FieldName::new(alloc, column.name.as_str())?;
        fields.push((name, FieldDType::from(dtype)))?;
    }
    DType::struct_(alloc, fields, Nullability::NonNullable)
}

/// Returns whether the same call may succeed later, which is so only if an allocation failed.
pub fn is_worth_retrying(error: &VortexError) -> bool {
    error.number() == 0
}

/// Returns whether the error says that a message contains an extension that the session doesn't know.
pub fn has_unknown_extension(error: &VortexError) -> bool {
    matches!(
        error,
        VortexError::Message(MessageFault::ExtensionUnregistered)
    )
}
