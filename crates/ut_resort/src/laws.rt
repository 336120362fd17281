//! What re-sorted order has to do with keys and with ids, and what the order of the columns is.
ghost use Rattle.ut_resort.specs.Laws.{ColumnsAreByCount, IsOnlyColumnOrder, IsOnlyOrder, OrdersByKeys};

/// Codes of dictionaries order rows as their keys do, and there is one such order.
pub fn resorted_order()
    ensures keys { OrdersByKeys }
    ensures only { IsOnlyOrder }
{}

/// The columns in their order are each of them once, sorted, and whatever is so is that order.
pub fn column_order()
    ensures by_count { ColumnsAreByCount }
    ensures only { IsOnlyColumnOrder }
{}
