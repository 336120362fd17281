//! Lines that are drawn: rows of sales, and updates of their quantities.
ghost use Rattle.std.specs.Prelude.{◌≡◌, ◌<◌, ◌≤◌, ◌+◌, ◌%◌, ◌^◌, ◌-◌, ◌++◌, length, vec_len, vec_capacity};
ghost use Rattle.ut_gen.specs.Draws.{advanced, draw};
ghost use Rattle.ut_gen.specs.Rows.{region, sale_text, row_text, bulk_line, insert_line, update_line};

use crate::draws::Draws;
use ut_digits::{add, add_number};

/// The rows of a bulk.
pub(crate) const BULK_ROWS: u32 = 200;

/// What is drawn of a row, in the order of the draws.
#[derive(Clone, Copy)]
struct Sale {
    day: u32,
    region: u32,
    product: u32,
    quantity: u32,
    price: u32,
    paid: u32,
}

/// A bulk of rows, from number `first` on.
pub(crate) fn add_bulk(out: &mut Vec<u8>, draws: &mut Draws, first: u32)
    requires small { first < 2 ^ 31 }
    requires room { vec_len out.old + 16100 ≤ vec_capacity out.old }
    ensures text { out.new.items ≡ out.old.items ++ bulk_line draws.old.state first }
    ensures state { draws.new.state ≡ advanced draws.old.state 1200 }
{
    add(out, b"1 bulk sales");
    for k in 0..BULK_ROWS {
        add(out, b" ");
        add_row(out, draws, first + k);
    }
}

/// An insert of row number `row`.
pub(crate) fn add_insert(out: &mut Vec<u8>, draws: &mut Draws, row: u32)
    requires small { row < 2 ^ 31 }
    requires room { vec_len out.old + 100 ≤ vec_capacity out.old }
    ensures text { out.new.items ≡ out.old.items ++ insert_line draws.old.state row }
    ensures state { draws.new.state ≡ advanced draws.old.state 6 }
{
    add(out, b"1 insert sales ");
    add_row(out, draws, row);
}

/// An update of one of so many rows.
#[tactic(auto, unfolding(crate::specs::Draws::advanced))]
pub(crate) fn add_update(out: &mut Vec<u8>, draws: &mut Draws, rows: u32)
    requires some { 0 < rows }
    requires small { rows < 2 ^ 31 }
    requires room { vec_len out.old + 100 ≤ vec_capacity out.old }
    ensures text { out.new.items ≡ out.old.items ++ update_line draws.old.state rows }
    ensures state { draws.new.state ≡ advanced draws.old.state 2 }
{
    let quantity = 1 + draws.below(20);
    let id = 1 + draws.below(rows);
    add(out, b"1 update sales set qty ");
    add_number(out, quantity);
    add(out, b" where id = ");
    add_number(out, id);
}

// Draws what a row has behind its id, and puts the row.
fn add_row(out: &mut Vec<u8>, draws: &mut Draws, row: u32)
    requires small { row < 2 ^ 32 - 1 }
    requires room { vec_len out.old + 79 ≤ vec_capacity out.old }
    ensures text { out.new.items ≡ out.old.items ++ row_text draws.old.state row }
    ensures state { draws.new.state ≡ advanced draws.old.state 6 }
    ensures len { vec_len out.new ≤ vec_len out.old + 79 }
    ensures capacity { vec_capacity out.old ≤ vec_capacity out.new }
{
    let sale = draw_sale(draws);
    add_number(out, row + 1);
    add(out, b" ");
    add_sale(out, &sale);
}

#[tactic(auto, unfolding(crate::specs::Draws::advanced))]
fn draw_sale(draws: &mut Draws) -> Sale
    ensures day { result.day ≡ 1 + draw draws.old.state 0 % 365 }
    ensures region { result.region ≡ draw draws.old.state 1 % 4 }
    ensures product { result.product ≡ draw draws.old.state 2 % 500 }
    ensures quantity { result.quantity ≡ 1 + draw draws.old.state 3 % 20 }
    ensures price { result.price ≡ 100 + draw draws.old.state 4 % 9900 }
    ensures paid { result.paid ≡ draw draws.old.state 5 % 2 }
    ensures state { draws.new.state ≡ advanced draws.old.state 6 }
{
    Sale {
        day: 1 + draws.below(365),
        region: draws.below(4),
        product: draws.below(500),
        quantity: 1 + draws.below(20),
        price: 100 + draws.below(9900),
        paid: draws.below(2),
    }
}

fn add_sale(out: &mut Vec<u8>, sale: &Sale)
    requires room { vec_len out.old + 68 ≤ vec_capacity out.old }
    ensures text { out.new.items ≡ out.old.items ++ sale_text sale.now.day sale.now.region sale.now.product sale.now.quantity sale.now.price sale.now.paid }
    ensures len { vec_len out.new ≤ vec_len out.old + 68 }
    ensures capacity { vec_capacity out.old ≤ vec_capacity out.new }
{
    add_number(out, sale.day);
    add(out, b" '");
    add(out, region_name(sale.region));
    add(out, b"' 'p");
    add_number(out, sale.product);
    add(out, b"' ");
    add_number(out, sale.quantity);
    add(out, b" ");
    add_number(out, sale.price);
    add(out, b" ");
    add_number(out, sale.paid);
    add(out, b" ''");
}

fn region_name(number: u32) -> &'static [u8]
    ensures name { result.now ≡ region number }
    ensures short { length result.now ≤ 5 }
{
    match number {
        0 => b"east",
        1 => b"north",
        2 => b"south",
        _ => b"west",
    }
}
