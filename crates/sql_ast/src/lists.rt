//! The lists that statements have, by what stands in them.

use crate::ast::{Ast, ColRef};
use crate::insert::AstRow;
use crate::select::{AstItem, OrderRef};
use crate::update::AstSet;
use geo_base::{Many, Txt};

/// Names, as of the columns that an INSERT lists.
pub type TxtList = Many<Txt>;

/// Expressions, as of a row.
pub type AstList = Many<Ast>;

/// Columns, as of GROUP BY.
pub type ColRefList = Many<ColRef>;

/// The columns of ORDER BY.
pub type OrderRefList = Many<OrderRef>;

/// The items of a SELECT.
pub type AstItemList = Many<AstItem>;

/// The rows of an INSERT.
pub type AstRowList = Many<AstRow>;

/// What an UPDATE sets.
pub type AstSetList = Many<AstSet>;
