// SPDX-License-Identifier: Apache-2.0
// SPDX-FileCopyrightText: Copyright the Vortex contributors

// The functions of `uses::orders`, run.
use std::test::Fail;
use uses::orders::columns::customer_column;
use uses::orders::money::Money;
use uses::orders::query::{asked, columns_to_open};
use uses::orders::schema::orders;
use uses::orders::stored::read_schema;
use vortex_dtype::{
    DType, DTypeProto, DTypeSession, Nullability, PType, PluginOf, VortexError, field_path,
};

#[test]
fn a_column_is_looked_up(rt: HostRuntime) -> Result<(), Fail> {
    let alloc = rt.alloc();
    let table = orders(alloc)?;
    let text = table.to_string(alloc)?;
    assert_eq!(rt; text.as_str(), "{id=u64, customer={name=utf8, city=utf8?}}");
    let city = customer_column(alloc, &table, "city")?;
    assert_eq!(rt; city, Some(&DType::Utf8(Nullability::Nullable)));
    assert_eq!(rt; customer_column(alloc, &table, "street")?, None);
    Ok(())
}

#[test]
fn a_query_opens_the_fewest_columns(rt: HostRuntime) -> Result<(), Fail> {
    let alloc = rt.alloc();
    let mut opened = columns_to_open(asked(alloc)?)?;
    assert_eq!(rt; opened.next(), Some(field_path!(alloc, "customer")?));
    assert_eq!(rt; opened.next(), None);
    Ok(())
}

#[test]
fn a_stored_schema_is_read_under_a_session(rt: HostRuntime) -> Result<(), Fail> {
    let alloc = rt.alloc();
    let mut session = DTypeSession::new(alloc);
    session.register(Box::new(alloc, PluginOf::new(Money))?)?;
    let euros = session.deserialize("shop.money", b"EUR", DType::from(PType::I64))?;
    let price = DType::Extension(euros);
    assert_eq!(rt; price.to_string(alloc)?.as_str(), "shop.money[3B](i64)");
    let stored = price.to_proto(alloc)?;
    assert_eq!(rt; read_schema(alloc, &stored, &session)?, price);
    let refused = session.deserialize("shop.money", b"EURO", DType::from(PType::I64));
    assert_eq!(rt; refused, Err(VortexError::MetadataRefused));
    Ok(())
}
