use dsv_base::Moment;
use dsv_dates::{http_text, iso_text};
use row_files::{Answer, Given};

/// The tables on written dates.
#[derive(Clone, Copy)]
pub enum DateTable {
    Iso,
    Http,
}

/// Answers a row of such a table, whose one column is a number of microseconds.
pub fn answer_date(table: DateTable, given: &Given<'_>, out: &mut Answer) {
    let Some(micros) = given.number(0) else {
        return out.give_up();
    };
    match Moment::of(micros) {
        Some(moment) => put_date(table, moment, out),
        None => out.put(b"none"),
    }
}

fn put_date(table: DateTable, moment: Moment, out: &mut Answer) {
    match table {
        DateTable::Iso => out.put(&iso_text(moment)),
        DateTable::Http => out.put(&http_text(moment)),
    }
}
