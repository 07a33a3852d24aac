// SPDX-License-Identifier: Apache-2.0
// SPDX-FileCopyrightText: Copyright the Vortex contributors

//! An extension type of one's own: amounts of money.
ghost use Rattle.std.specs.Prelude.{◌≡◌, ◌⊎◌, IfErr, IfOk, None, Some};
ghost use Rattle.vortex_dtype.specs.Types.VortexError.TheVariants.{MetadataRefused, OutOfMemory};
ghost use Rattle.uses.specs.Money.{currency};

use std::alloc::Global;
use vortex_dtype::{DType, ExtVTable, VortexError, VortexResult};

/// The code of a currency.
#[derive(Debug, Drop, PartialEq, Eq)]
pub struct Currency(pub Vec<u8>);

/// The vtable of `shop.money`. Its metadata is a currency, and it accepts every storage type.
#[derive(Debug, Default, Drop)]
pub struct Money;

impl ExtVTable for Money {
    ghost use Rattle.std.specs.Prelude.{ℕ, List, codes, true};
    ghost use Rattle.uses.specs.Money.{currency, money_typed};

    type Metadata = Currency;

    ghost id_text = { λ _. codes "shop.money" };

    ghost Meant = { List ℕ };

    ghost meant = { λ c. c.0.items };

    ghost reads = { λ _ b. currency b };

    ghost writes = { λ _ c. currency c };

    ghost fits = { λ _ c s. true };

    fn id(&self) -> &str {
        "shop.money"
    }

    fn serialize_metadata(&self, alloc: Global, metadata: &Currency) -> VortexResult<Vec<u8>> {
        three_bytes(alloc, &metadata.0)
    }

    fn deserialize_metadata(&self, alloc: Global, bytes: &[u8]) -> VortexResult<Currency> {
        Ok(Currency(three_bytes(alloc, bytes)?))
    }

    fn validate_dtype(
        &self,
        _alloc: Global,
        _metadata: &Currency,
        _storage: &DType,
    ) -> VortexResult<()> {
        Ok(())
    }

    ghost typed = { λ _. money_typed };
}

// Returns the bytes if there are three.
fn three_bytes(alloc: Global, bytes: &[u8]) -> VortexResult<Vec<u8>>
    ensures ok { IfOk result (λ v. currency bytes.now ≡ Some v.items) }
    ensures errors { IfErr result (λ e. (e ≡ OutOfMemory)
        ⊎ ((e ≡ MetadataRefused) × (currency bytes.now ≡ None))) }
{
    if bytes.len() != 3 {
        return Err(VortexError::MetadataRefused);
    }
    Ok(Vec::from_slice(alloc, bytes)?)
}
