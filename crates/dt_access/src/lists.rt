use crate::id::TxnId;
use dt_text::Listed;

/// Ids, in any order.
pub type Ids = Listed<TxnId>;
