// SPDX-License-Identifier: Apache-2.0
// SPDX-FileCopyrightText: Copyright the Vortex contributors

//! Errors of your own, over the library's.
ghost use Rattle.std.specs.Prelude.{◌≡◌, ◌⊎◌, [], ◌∷◌, IfErr, IfOk, IsErrOf, codes};
ghost use Rattle.vortex_dtype.specs.At.{At};
ghost use Rattle.vortex_dtype.specs.Tree.{Tree};
ghost use Rattle.vortex_dtype.specs.TreeOf.{tree};
ghost use Rattle.vortex_dtype.specs.Types.VortexError.TheVariants.{OutOfMemory};
ghost use Rattle.uses.specs.declared.orders.errors.ShopError.TheVariants.{Library, NoColumn};

use std::alloc::Global;
use std::error::Error;
use std::fmt;
use vortex_dtype::{DType, Field, VortexError, field_path};

/// Why an order fails.
#[derive(Debug, Drop, PartialEq, Eq)]
pub enum ShopError {
    /// The table has no such column.
    NoColumn,
    /// A call of the library failed.
    Library(VortexError),
}

impl From<VortexError> for ShopError {
    ghost from_gives = { λ source error. error ≡ Library source };

    fn from(source: VortexError) -> ShopError {
        ShopError::Library(source)
    }
}

impl fmt::Display for ShopError {
    fn fmt<W: fmt::Write>(&self, f: &mut fmt::Formatter<W>) -> fmt::Result {
        match self {
            ShopError::NoColumn => write!(f, "no such column"),
            ShopError::Library(source) => write!(f, "{source}"),
        }
    }
}

impl Error for ShopError {}

/// Returns the type of a column that the customer must have. A column that isn't there is an error.
pub fn required_column<'a>(
    alloc: Global,
    orders: &'a DType,
    column: &str,
) -> Result<&'a DType, ShopError>
    ensures found { IfOk result (λ u.
        At (tree orders.now) (Field.Name (codes "customer") ∷ Field.Name column.now ∷ []) (tree u.now)) }
    ensures missing { IsErrOf result NoColumn → (u : Tree)
        → At (tree orders.now) (Field.Name (codes "customer") ∷ Field.Name column.now ∷ []) u → ⊥ }
    ensures errors { IfErr result (λ e. (e ≡ NoColumn) ⊎ (e ≡ Library OutOfMemory)) }
{
    let path = field_path!(alloc, "customer", column)?;
    path.resolve(orders).ok_or(ShopError::NoColumn)
}
