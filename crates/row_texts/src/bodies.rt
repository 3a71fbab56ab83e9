use crate::refusals::put_form;
use dav_bodies::{Body, BodyFault, BodyKind, Wanted, read_body};
use dsv_base::PropName;
use row_files::{Answer, Given};

/// The tables on bodies of requests.
#[derive(Clone, Copy)]
pub enum BodyTable {
    Propfind,
}

/// Answers a row of such a table.
pub fn answer_body(table: BodyTable, given: &Given<'_>, out: &mut Answer) {
    match read_body(given.alloc, kind_of(table), given.bytes(0)) {
        Ok(body) => put_body(&body, out),
        Err(BodyFault::BadBody) => out.put(b"bad"),
        Err(BodyFault::NotInProfile { form }) => put_form(form, out),
        Err(BodyFault::NoMemory) => out.give_up(),
    }
}

fn kind_of(table: BodyTable) -> BodyKind {
    match table {
        BodyTable::Propfind => BodyKind::Propfind,
    }
}

fn put_body(body: &Body, out: &mut Answer) {
    match body {
        Body::Propfind(Wanted::All) => out.put(b"all"),
        Body::Propfind(Wanted::These(names)) => put_names(names.get(), out),
    }
}

fn put_names(names: &[PropName], out: &mut Answer) {
    'names: for name in names {
        out.put(b"{");
        out.put(name.space.get());
        out.put(b"}");
        out.put(name.name.get());
        out.put(b";");
    }
}
